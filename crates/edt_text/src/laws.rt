//! What holds of every number that is written and read.
ghost use Rattle.std.specs.Prelude.{◌≡◌, ℕ, ◌^◌, ◌<◌, List, Some, decimal};
ghost use Rattle.edt_text.specs.Reading.{reading_of};

/// What `push_number` appends for a number is read back as it, and no other word is read as that number.
pub fn reads_back()
    ensures { (n : ℕ) → n < 2 ^ 64 → (reading_of (decimal n) ≡ Some n)
        × ((word : List ℕ) → reading_of word ≡ Some n → word ≡ decimal n) }
{}
