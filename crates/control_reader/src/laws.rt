//! Laws of the reading of a control file.
ghost use Rattle.std.specs.Prelude.{◌≡◌, ℕ, List};
ghost use Rattle.control_reader.specs.declared.control.Control.{Control};
ghost use Rattle.control_reader.specs.declared.fault.ControlFault.{ControlFault};
ghost use Rattle.control_reader.specs.ControlFile.{IsControlOf, IsReading, IsControlFault};
ghost use Rattle.control_reader.specs.ControlLines.{ControlLine};
ghost use Rattle.control_reader.specs.ControlValues.{values_of};
ghost use Rattle.control_reader.specs.ValuesOfLines.{values_in};
ghost use Rattle.control_reader.specs.Includes.{AreIncludes, IsIncludeFault};

/// No control file has both a reading and a fault, and no main file both names and a fault of an `INCLUDE` line.
pub fn reading_excludes_fault()
    ensures control { (main : List ℕ) (included : List (List ℕ)) (control : Control) (fault : ControlFault)
        → IsReading main included control → IsControlFault main included fault → ⊥ }
    ensures names { (main : List ℕ) (names : List (List ℕ)) (fault : ControlFault) → AreIncludes main names
        → IsIncludeFault main fault → ⊥ }
{}

/// The values of a control file are those of its lines: each field is a function of the statements with its keyword.
pub fn reading_says_values()
    ensures { (lines : List ControlLine) (control : Control) → IsControlOf lines control
        → values_of control ≡ values_in lines }
{}
