//! A run that locates the events of a control file.
ghost use Rattle.std.specs.Prelude.{◌≡◌, ◌≢◌, ◌==◌, ◌≤◌, [], ◌∷◌, IsTrue, IfErr, IfSome, OnOk, OnSome, Ok, Err, Some, false};
ghost use Rattle.text_terms.specs.Names.{is_name};
ghost use Rattle.edt_outside.specs.Counts.{RisesExactly};
ghost use Rattle.run_input.specs.FilesUnder.{lacks_a_header_under};
ghost use Rattle.run_input.specs.Inputs.{input_of};
ghost use Rattle.run_input.specs.Statuses.{is_one_of};
ghost use Rattle.run_input.specs.Told.{Wrote};
ghost use Rattle.edt_top.specs.Commands.{Locate};
ghost use Rattle.edt_top.specs.RunEndings.{locate_ending};
ghost use Rattle.edt_top.specs.RunRefusals.{is_untold_run, run_status, status_after};
ghost use Rattle.edt_top.specs.Runs.{HasShortestCovers, IsLocateText, IsWritten};
ghost use Rattle.edt_top.specs.Inside.Endings.{HasCause};

mod lanes;
mod text;

use crate::refusals::RunRefusal;
use edt_outside::{Shelf, Sink};
use run_input::read_run;
use std::alloc::Global;
use text::write_text;

// Locates the events that the control file of a name names, and writes the text.
pub fn locate<S: Shelf, O: Sink>(
    alloc: Global,
    name: &str,
    shelf: &mut S,
    out: &mut O,
) -> Result<(), RunRefusal>
    requires named { IsTrue (is_name 512 name.now) }

    // What it wrote, or why it is refused.
    ensures written { IfSome (S.files shelf.old) (λ files.
        IsWritten (λ parts. locate_ending (input_of files name.now) ≡ Ok parts)
        (status_after result) (Wrote O.taken out.old out.new)) }
    ensures refused { IfSome (S.files shelf.old) (λ files. IfErr result (λ refusal.
        is_untold_run refusal ≡ false → locate_ending (input_of files name.now) ≡ Err refusal)) }
    ensures covers { IfSome (S.files shelf.old) (λ files. OnOk result (HasShortestCovers files (Locate name.now))) }
    ensures parts { IsWritten IsLocateText (status_after result) (Wrote O.taken out.old out.new) }
    ensures causes { IfErr result (HasCause (Locate name.now)) }
    ensures silent { IfErr result (λ refusal.
        run_status refusal ≢ 6 → run_status refusal ≢ 8 → O.taken out.new ≡ O.taken out.old) }

    // What becomes of shelf and output, by their counts.
    ensures same_files { S.files shelf.new ≡ S.files shelf.old }
    ensures faults { RisesExactly (status_after result == 7) (S.faults shelf.old) (S.faults shelf.new) }
    ensures misses { RisesExactly (status_after result == 9) (S.misses shelf.old) (S.misses shelf.new) }
    ensures writes { RisesExactly (status_after result == 8) (O.faults out.old) (O.faults out.new) }
    ensures lacks { S.lacks shelf.old ≤ S.lacks shelf.new }
    ensures no_lacks { IfErr result (λ refusal.
        IsTrue (is_one_of (run_status refusal) (3 ∷ 4 ∷ [])) → S.lacks shelf.new ≡ S.lacks shelf.old) }
    ensures told_lacks { IfSome (S.files shelf.old) (λ files.
        lacks_a_header_under files name.now ≡ false → S.lacks shelf.new ≡ S.lacks shelf.old) }
    ensures calls { S.calls shelf.old ≤ S.calls shelf.new }
    ensures ended { OnOk result (OnSome (S.files shelf.old) (S.left shelf.new ≡ Some [])) }
{
    let input = read_run(alloc, shelf, name)?;
    write_text(alloc, out, &input)?;
    Ok(())
}
