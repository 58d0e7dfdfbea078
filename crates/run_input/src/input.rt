//! The input of a run: its control file, its phase file and the assembly of its events.
ghost use Rattle.std.specs.Prelude.{◌≡◌, ◌==◌, ◌≤◌, [], ◌∷◌, IsTrue, IfOk, IfErr, IfSome, OnOk, OnSome, Some, false};
ghost use Rattle.text_terms.specs.Names.{is_name};
ghost use Rattle.edt_outside.specs.Counts.{RisesExactly};
ghost use Rattle.run_input.specs.FilesUnder.{lacks_a_header_under};
ghost use Rattle.run_input.specs.Inputs.{IsInput, input_of, input_value};
ghost use Rattle.run_input.specs.Refusals.{IsAnswer, is_cause, status_of, status_of_answer};
ghost use Rattle.run_input.specs.Statuses.{is_one_of};

use crate::reading::{read_control_file, read_phase_file};
use crate::refusals::Refusal;
use control_reader::Control;
use edt_outside::Shelf;
use event_assembly::{Assembly, assemble};
use phase_reader::Phases;
use std::alloc::Global;

/// What a run reads before it does anything else.
#[derive(Drop)]
pub struct RunInput {
    /// What the control file and the files that it includes say.
    pub control: Control,
    /// What the phase file says that the control file names.
    pub phases: Phases,
    /// The events of the phase file, with the times that they need.
    pub assembly: Assembly,
}

/// Reads the control file of this name, the files that it includes in turn, the phase file that it names, and the time grids that its
/// events need, as `assemble` does.
///
/// The first refusal in the order of work decides: the main file, the lines of it that include files, these files in turn, the
/// statements, the phase file, its lines, and then the refusals of `assemble`. Each refusal has its status. Where the shelf tells its
/// files the answer is one function of them, but for failed calls and running out of memory.
pub fn read_run<S: Shelf>(alloc: Global, shelf: &mut S, name: &str) -> Result<RunInput, Refusal>
    requires named { IsTrue (is_name 512 name.now) }

    // What it answers: where files are told their values or their first refusal, and everywhere values within their limits.
    ensures told { IfSome (S.files shelf.old) (λ files. IsAnswer input_value (input_of files name.now) result) }
    ensures limits { IfOk result IsInput }
    ensures causes { IfErr result (λ refusal. IsTrue (is_cause refusal)) }

    // What becomes of the shelf, by its counts.
    ensures ended { OnOk result (OnSome (S.files shelf.old) (S.left shelf.new ≡ Some [])) }
    ensures same_files { S.files shelf.new ≡ S.files shelf.old }
    ensures faults { RisesExactly (status_of_answer result == 7) (S.faults shelf.old) (S.faults shelf.new) }
    ensures misses { RisesExactly (status_of_answer result == 9) (S.misses shelf.old) (S.misses shelf.new) }
    ensures lacks { S.lacks shelf.old ≤ S.lacks shelf.new }
    ensures no_lacks { IfErr result (λ refusal.
        IsTrue (is_one_of (status_of refusal) (3 ∷ 4 ∷ [])) → S.lacks shelf.new ≡ S.lacks shelf.old) }
    ensures told_lacks { IfSome (S.files shelf.old) (λ files.
        lacks_a_header_under files name.now ≡ false → S.lacks shelf.new ≡ S.lacks shelf.old) }
    ensures calls { S.calls shelf.old ≤ S.calls shelf.new }
{
    let control = read_control_file(alloc, shelf, name)?;
    let phases = read_phase_file(alloc, shelf, &control.obs_file)?;
    let assembly = assemble(alloc, shelf, &control, &phases.events)?;
    Ok(RunInput {
        control,
        phases,
        assembly,
    })
}
