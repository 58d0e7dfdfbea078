//! What holds of phase files beside what the functions say.
ghost use Rattle.std.specs.Prelude.{ℕ, List};
ghost use Rattle.phase_reader.specs.declared.fault.PhaseFault.{PhaseFault};
ghost use Rattle.phase_reader.specs.declared.phases.Phases.{Phases};
ghost use Rattle.phase_reader.specs.PhaseFile.{IsReading, IsPhaseFault};

/// No phase file has both a reading and a fault.
pub fn reading_excludes_fault()
    ensures { (bytes : List ℕ) (phases : Phases) (fault : PhaseFault) → IsReading bytes phases
        → IsPhaseFault bytes fault → ⊥ }
{}
