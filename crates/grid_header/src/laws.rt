//! A header has one answer.
ghost use Rattle.std.specs.Prelude.{◌≡◌, ◌≢◌, ℕ, List, Some};
ghost use Rattle.grid_header.specs.declared.header.Header.{Header};
ghost use Rattle.grid_header.specs.declared.header.HeaderError.{HeaderError};
ghost use Rattle.grid_header.specs.Causes.{cause_of};
ghost use Rattle.grid_header.specs.Reading.{IsReading};

/// A header that has a reading has one alone, and no cause to be refused.
pub fn reading_excludes_fault()
    ensures reading { (bytes : List ℕ) (g h : Header) → IsReading bytes g → IsReading bytes h → g ≡ h }
    ensures fault { (bytes : List ℕ) (h : Header) (cause : HeaderError) → IsReading bytes h
        → cause_of bytes ≢ Some cause }
{}
