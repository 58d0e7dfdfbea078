//! A run that solves a problem file.
ghost use Rattle.std.specs.Prelude.{◌≡◌, ◌≢◌, ◌==◌, ◌+◌, ◌≤◌, [], IsTrue, IfErr, IfSome, OnOk, OnSome, Ok, Err, Some, false};
ghost use Rattle.text_terms.specs.Names.{is_name};
ghost use Rattle.edt_outside.specs.Counts.{RisesExactly};
ghost use Rattle.run_input.specs.Told.{Wrote};
ghost use Rattle.edt_top.specs.Commands.{Solve};
ghost use Rattle.edt_top.specs.RunEndings.{solve_ending};
ghost use Rattle.edt_top.specs.RunRefusals.{is_untold_run, run_status, status_after};
ghost use Rattle.edt_top.specs.Runs.{IsWritten};
ghost use Rattle.edt_top.specs.Inside.Endings.{HasCause, IsProblemBytes};

mod answer;
pub mod problem_cursor;
mod problem_file;
pub mod problem_word;

use crate::refusals::RunRefusal;
use crate::writing::put_part;
use answer::solve_text;
use edt_outside::{ReadFault, Shelf, Sink, read_all};
use problem_file::ReadRefusal;
use run_input::{Refusal, file_name};
use std::alloc::Global;

const MOST_PROBLEM_BYTES: usize = 16_777_216;

// Reads the problem file of a name, and writes the text of its answer.
pub fn solve<S: Shelf, O: Sink>(
    alloc: Global,
    name: &str,
    shelf: &mut S,
    out: &mut O,
) -> Result<(), RunRefusal>
    requires named { IsTrue (is_name 512 name.now) }

    // What it wrote, or why it is refused.
    ensures written { IfSome (S.files shelf.old) (λ files.
        IsWritten (λ parts. solve_ending name.now (files name.now) ≡ Ok parts)
        (status_after result) (Wrote O.taken out.old out.new)) }
    ensures refused { IfSome (S.files shelf.old) (λ files. IfErr result (λ refusal.
        is_untold_run refusal ≡ false → solve_ending name.now (files name.now) ≡ Err refusal)) }
    ensures causes { IfErr result (HasCause (Solve name.now)) }
    ensures silent { IfErr result (λ refusal.
        run_status refusal ≢ 8 → O.taken out.new ≡ O.taken out.old) }

    // What becomes of shelf and output, by their counts.
    ensures same_files { S.files shelf.new ≡ S.files shelf.old }
    ensures faults { RisesExactly (status_after result == 7) (S.faults shelf.old) (S.faults shelf.new) }
    ensures misses { RisesExactly (status_after result == 9) (S.misses shelf.old) (S.misses shelf.new) }
    ensures writes { RisesExactly (status_after result == 8) (O.faults out.old) (O.faults out.new) }
    ensures lacks { S.lacks shelf.new ≡ S.lacks shelf.old }
    ensures calls_stay { S.calls shelf.old ≤ S.calls shelf.new }
    ensures calls { S.calls shelf.new ≤ S.calls shelf.old + 16777219 }
    ensures ended { OnOk result (OnSome (S.files shelf.old) (S.left shelf.new ≡ Some [])) }
{
    let bytes = read_problem_bytes(alloc, name, shelf)?;
    let text = match solve_text(alloc, &bytes) {
        Ok(text) => text,
        Err(ReadRefusal::Faulty(fault)) => return Err(RunRefusal::Problem(fault)),
        Err(ReadRefusal::Memory) => return Err(RunRefusal::Input(Refusal::Memory)),
    };
    match put_part(out, text.as_bytes()) {
        Ok(()) => Ok(()),
        Err(_) => Err(RunRefusal::Write),
    }
}

// The bytes of the problem file of a name.
fn read_problem_bytes<S: Shelf>(
    alloc: Global,
    name: &str,
    shelf: &mut S,
) -> Result<Vec<u8>, RunRefusal>
    requires named { IsTrue (is_name 512 name.now) }
    ensures told { IfSome (S.files shelf.old) (λ files. IsProblemBytes name.now (files name.now) result) }
    ensures causes { IfErr result (HasCause (Solve name.now)) }
    ensures early { IfErr result (λ refusal. (run_status refusal == 8) ≡ false) }
    ensures same_files { S.files shelf.new ≡ S.files shelf.old }
    ensures faults { RisesExactly (status_after result == 7) (S.faults shelf.old) (S.faults shelf.new) }
    ensures misses { RisesExactly (status_after result == 9) (S.misses shelf.old) (S.misses shelf.new) }
    ensures lacks { S.lacks shelf.new ≡ S.lacks shelf.old }
    ensures calls_stay { S.calls shelf.old ≤ S.calls shelf.new }
    ensures calls { S.calls shelf.new ≤ S.calls shelf.old + 16777219 }
    ensures ended { OnOk result (OnSome (S.files shelf.old) (S.left shelf.new ≡ Some [])) }
{
    let Ok(file) = file_name(alloc, name) else {
        return Err(RunRefusal::Input(Refusal::Memory));
    };
    match read_all(alloc, shelf, name, MOST_PROBLEM_BYTES) {
        Ok(bytes) => Ok(bytes),
        Err(ReadFault::Absent) => Err(RunRefusal::Input(Refusal::Absent(file))),
        Err(ReadFault::Failed) => Err(RunRefusal::Input(Refusal::Read(file))),
        Err(ReadFault::TooLong) => Err(RunRefusal::ProblemTooLong),
        Err(ReadFault::Memory) => Err(RunRefusal::Input(Refusal::Memory)),
    }
}
