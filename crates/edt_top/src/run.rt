//! A run, from its words to its status.
ghost use Rattle.std.specs.Prelude.{◌≡◌, ◌≢◌, ◌↔◌, ◌==◌, ◌+◌, ◌≤◌, [], ◌∷◌, map, IfErr, IfSome, IsOk, OnOk, OnSome, IsTrue, Ok, Err, Some, None, false};
ghost use Rattle.std.specs.Option.{option_map};
ghost use Rattle.std.specs.String.{string_bytes};
ghost use Rattle.edt_outside.specs.Counts.{RisesExactly, Rose};
ghost use Rattle.run_input.specs.Statuses.{is_one_of};
ghost use Rattle.run_input.specs.Told.{Told, Wrote};
ghost use Rattle.edt_top.specs.Commands.{command_of, command_value, AreFewCalls, IsSoundCommand, asks_no_header};
ghost use Rattle.edt_top.specs.RunEndings.{run_ending};
ghost use Rattle.edt_top.specs.RunRefusals.{is_untold_run, run_status, status_after};
ghost use Rattle.edt_top.specs.Runs.{Answers, HasShortestCovers, IsReadToEnd, IsWritten, TellsLine, WritesParts, lacks_a_header_of};
ghost use Rattle.edt_top.specs.Inside.Endings.{HasCause, ToldAfter};

use crate::commands::{Command, command_of};
use crate::demo::demo;
use crate::locate::locate;
use crate::refusals::RunRefusal;
use crate::solve::solve;
use crate::telling::{tell_run_refusal, tell_words};
use edt_outside::{Shelf, Sink};
use std::alloc::Global;

/// All that `edtloc` does with its words: it reads through the shelf, writes to `out`, tells of a refusal on `err`, and answers the
/// status to end with.
///
/// The words `solve PROBLEM` read a problem file and write the first node in grid order whose score no node exceeds, or `NOFIT` where
/// every node scores 0; the kernel is Gauss. The words `locate CONTROL` read a control file with the files that it includes, the phase
/// file and the time grids, and write a head line and a block for each event. The block of a located event has the first such node, the
/// nodes near it by the control file's margin, and the shortest cover of the octree that proves both. Where the control file gives
/// several lanes, they divide each search among them by the schedule of its seed, and the block of an event that was searched for has one
/// line more, `LANES`, with the number of lanes, of the events of the schedule, and of the lanes that were lost. The words `demo SEED
/// SIDE`, with a seed below 2^64 and a side from 1 to 64, each as its shortest decimal, make the problem of the seed in a cube with so
/// many nodes on each axis, read no file, and write one line of what a search finds. Other words have no shape.
///
/// | status | comes |
/// |---|---|
/// | 0 | done: the text was written whole |
/// | 2 | exactly where the words have no shape |
/// | 3 | exactly where a control file or an included file has no reading, or more than 1,048,576 bytes |
/// | 4 | exactly where the problem file or the phase file has no reading, or more than 16,777,216 bytes |
/// | 5 | exactly where a time grid is refused, or the times of all rows pass 20,000,000 |
/// | 6 | memory was wanting |
/// | 7 | exactly where a call of the shelf failed |
/// | 8 | exactly where a write to `out` failed or took nothing; what was written is a prefix of the text |
/// | 9 | exactly where the shelf has no file of a name that the run needs |
///
/// The first refusal in the order of work decides: the control file, the names of its included files, these files in turn, the statements,
/// the phase file, and then the time grids as `assemble` reads them. All reading ends before anything is written. Nothing goes to `out`
/// with a status other than 0, 8, and 6, with which the head line and whole blocks after it may stand there. Each status but 0 writes its
/// line to `err`, or a prefix of it where `err` fails, which changes no status.
pub fn locate_run<S: Shelf, O: Sink, E: Sink>(
    alloc: Global,
    words: &[String],
    shelf: &mut S,
    out: &mut O,
    err: &mut E,
) -> u8
    // What each status says, and where each comes, where the shelf tells its files.
    ensures statuses { IsTrue (is_one_of result (0 ∷ 2 ∷ 3 ∷ 4 ∷ 5 ∷ 6 ∷ 7 ∷ 8 ∷ 9 ∷ [])) }
    ensures no_shape { (result ≡ 2) ↔ (command_of (map string_bytes words.now) ≡ None) }
    ensures told { IfSome (S.files shelf.old) (λ files. IfSome (command_of (map string_bytes words.now)) (λ command.
        Answers (run_ending files command) result (Wrote O.taken out.old out.new)
        (Told E.taken E.faults err.old err.new))) }
    ensures complete { IfSome (S.files shelf.old) (λ files. IfSome (command_of (map string_bytes words.now)) (λ command.
        IsOk (run_ending files command)
        → (Rose (S.faults shelf.old) (S.faults shelf.new) → ⊥) → (Rose (O.faults out.old) (O.faults out.new) → ⊥)
        → IsTrue (is_one_of result (0 ∷ 6 ∷ [])))) }

    ensures covers { IfSome (S.files shelf.old) (λ files. IfSome (command_of (map string_bytes words.now)) (λ command.
        result ≡ 0 → HasShortestCovers files command)) }

    // What was written and what was told, on every shelf.
    ensures parts { IfSome (command_of (map string_bytes words.now)) (λ command.
        WritesParts command result (Wrote O.taken out.old out.new)) }
    ensures silent { result ≢ 0 → result ≢ 6 → result ≢ 8 → O.taken out.new ≡ O.taken out.old }
    ensures line { TellsLine (command_of (map string_bytes words.now)) result
        (Told E.taken E.faults err.old err.new)
        ((E.taken err.new ≡ E.taken err.old) × (E.faults err.new ≡ E.faults err.old)) }

    // The causes, on every shelf and every sink.
    ensures read_failed { RisesExactly (result == 7) (S.faults shelf.old) (S.faults shelf.new) }
    ensures write_failed { RisesExactly (result == 8) (O.faults out.old) (O.faults out.new) }
    ensures absences { RisesExactly (result == 9) (S.misses shelf.old) (S.misses shelf.new) }
    ensures lacks { S.lacks shelf.old ≤ S.lacks shelf.new }
    ensures no_lacks { IsTrue (is_one_of result (2 ∷ 3 ∷ 4 ∷ [])) → S.lacks shelf.new ≡ S.lacks shelf.old }
    ensures told_lacks { IfSome (S.files shelf.old) (λ files.
        IfSome (command_of (map string_bytes words.now)) (λ command.
        lacks_a_header_of files command ≡ false → S.lacks shelf.new ≡ S.lacks shelf.old)) }
    ensures calls { S.calls shelf.old ≤ S.calls shelf.new }
    ensures no_calls { result ≡ 2 → S.calls shelf.new ≡ S.calls shelf.old }

    // What a run that doesn't locate never does, on every shelf.
    ensures asks_none { IfSome (command_of (map string_bytes words.now)) (λ command. IsTrue (asks_no_header command)
        → S.lacks shelf.new ≡ S.lacks shelf.old) }
    ensures few_calls { IfSome (command_of (map string_bytes words.now)) (λ command.
        AreFewCalls command (S.calls shelf.old) (S.calls shelf.new)) }

    // What stays, and what was read to its end.
    ensures same_files { S.files shelf.new ≡ S.files shelf.old }
    ensures ended { result ≡ 0 → OnSome (S.files shelf.old)
        (IfSome (command_of (map string_bytes words.now)) (λ command.
        IsReadToEnd command (S.left shelf.old) (S.left shelf.new))) }
{
    let Some(command) = command_of(words) else {
        tell_words(err);
        return 2;
    };
    let ended = run(alloc, &command, shelf, out);
    finish(&ended, err)
}

// What the words command.
fn run<S: Shelf, O: Sink>(
    alloc: Global,
    command: &Command<'_>,
    shelf: &mut S,
    out: &mut O,
) -> Result<(), RunRefusal>
    requires sound { IsSoundCommand (command_value command.now) }

    // What it wrote, or why it is refused.
    ensures written { IfSome (S.files shelf.old) (λ files.
        IsWritten (λ parts. run_ending files (command_value command.now) ≡ Ok parts)
        (status_after result) (Wrote O.taken out.old out.new)) }
    ensures refused { IfSome (S.files shelf.old) (λ files. IfErr result (λ refusal.
        is_untold_run refusal ≡ false → run_ending files (command_value command.now) ≡ Err refusal)) }
    ensures covers { IfSome (S.files shelf.old) (λ files. OnOk result
        (HasShortestCovers files (command_value command.now))) }
    ensures parts { WritesParts (command_value command.now) (status_after result) (Wrote O.taken out.old out.new) }
    ensures causes { IfErr result (HasCause (command_value command.now)) }
    ensures silent { IfErr result (λ refusal.
        run_status refusal ≢ 6 → run_status refusal ≢ 8 → O.taken out.new ≡ O.taken out.old) }

    // What becomes of shelf and output, by their counts.
    ensures same_files { S.files shelf.new ≡ S.files shelf.old }
    ensures faults { RisesExactly (status_after result == 7) (S.faults shelf.old) (S.faults shelf.new) }
    ensures misses { RisesExactly (status_after result == 9) (S.misses shelf.old) (S.misses shelf.new) }
    ensures writes { RisesExactly (status_after result == 8) (O.faults out.old) (O.faults out.new) }
    ensures lacks { S.lacks shelf.old ≤ S.lacks shelf.new }
    ensures no_lacks { IfErr result (λ refusal.
        IsTrue (is_one_of (run_status refusal) (3 ∷ 4 ∷ [])) → S.lacks shelf.new ≡ S.lacks shelf.old) }
    ensures told_lacks { IfSome (S.files shelf.old) (λ files.
        lacks_a_header_of files (command_value command.now) ≡ false → S.lacks shelf.new ≡ S.lacks shelf.old) }
    ensures asks_none { IsTrue (asks_no_header (command_value command.now)) → S.lacks shelf.new ≡ S.lacks shelf.old }
    ensures calls { S.calls shelf.old ≤ S.calls shelf.new }
    ensures few_calls { AreFewCalls (command_value command.now) (S.calls shelf.old) (S.calls shelf.new) }
    ensures ended { OnOk result (OnSome (S.files shelf.old)
        (IsReadToEnd (command_value command.now) (S.left shelf.old) (S.left shelf.new))) }
{
    match command {
        Command::Solve(name) => solve(alloc, name, shelf, out),
        Command::Locate(name) => locate(alloc, name, shelf, out),
        Command::Demo(seed, side) => demo(alloc, *seed, *side, out),
    }
}

// Tells of a refusal, and answers the status of the run.
fn finish<E: Sink>(ended: &Result<(), RunRefusal>, err: &mut E) -> u8
    ensures status { result ≡ status_after ended.now }
    ensures told { ToldAfter (Told E.taken E.faults err.old err.new)
        ((E.taken err.new ≡ E.taken err.old) × (E.faults err.new ≡ E.faults err.old)) ended.now }
{
    match ended {
        Ok(()) => 0,
        Err(refusal) => {
            tell_run_refusal(refusal, err);
            refusal.status()
        }
    }
}
