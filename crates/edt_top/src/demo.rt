//! A run that makes a problem from a number and searches it.
ghost use Rattle.std.specs.Prelude.{◌≡◌, ◌≢◌, ◌==◌, ◌≤◌, Ok, false, true, IfErr, OnOk};
ghost use Rattle.edt_outside.specs.Counts.{RisesExactly};
ghost use Rattle.run_input.specs.Told.{Wrote};
ghost use Rattle.edt_top.specs.Commands.{Demo};
ghost use Rattle.edt_top.specs.RunEndings.{demo_ending};
ghost use Rattle.edt_top.specs.RunRefusals.{is_untold_run, run_status, status_after};
ghost use Rattle.edt_top.specs.Runs.{HasShortestDemo, IsWritten};
ghost use Rattle.edt_top.specs.Inside.Endings.{HasCause};

mod text;

use crate::refusals::RunRefusal;
use crate::writing::put_part;
use edt_outside::Sink;
use run_input::Refusal;
use std::alloc::Global;
use text::demo_text;

// Makes the problem of a seed in a cube with `side` nodes on each axis, searches it, and writes its line.
pub fn demo<O: Sink>(alloc: Global, seed: u64, side: u32, out: &mut O) -> Result<(), RunRefusal>
    requires some { 1 ≤ side }
    requires few { side ≤ 64 }

    // What it wrote, or why it is refused.
    ensures written { IsWritten (λ parts. demo_ending seed side ≡ Ok parts)
        (status_after result) (Wrote O.taken out.old out.new) }
    ensures untold { IfErr result (λ refusal. is_untold_run refusal ≡ true) }
    ensures covers { OnOk result (HasShortestDemo seed side) }
    ensures causes { IfErr result (HasCause (Demo seed side)) }
    ensures silent { IfErr result (λ refusal.
        run_status refusal ≢ 8 → O.taken out.new ≡ O.taken out.old) }

    // What becomes of the output, by its count; no file is read.
    ensures writes { RisesExactly (status_after result == 8) (O.faults out.old) (O.faults out.new) }
    ensures no_faults { (status_after result == 7) ≡ false }
    ensures no_misses { (status_after result == 9) ≡ false }
{
    let Ok(text) = demo_text(alloc, seed, side) else {
        return Err(RunRefusal::Input(Refusal::Memory));
    };
    match put_part(out, text.as_bytes()) {
        Ok(()) => Ok(()),
        Err(_) => Err(RunRefusal::Write),
    }
}
