//! A run, from its words to its status.
ghost use Rattle.std.specs.Prelude.{◌≡◌, ◌≢◌, ◌↔◌, ◌==◌, ◌≤◌, ◌<◌, ◌^◌, [], ◌∷◌, All, length, map, vec_len, IfErr, IfOk, IfSome, IsOk, OnOk, OnSome, IsTrue, Ok, Err, Some, None, false, true, is_err};
ghost use Rattle.std.specs.Option.{option_map};
ghost use Rattle.std.specs.String.{string_bytes};
ghost use Rattle.text_terms.specs.Names.{is_name};
ghost use Rattle.edt_outside.specs.Counts.{RisesExactly, Rose};
ghost use Rattle.cover_certificate.specs.Blocks.{IsValidBlock, block_value};
ghost use Rattle.run_input.specs.FilesUnder.{lacks_a_header_under};
ghost use Rattle.run_input.specs.Inputs.{IsInput, input_value};
ghost use Rattle.run_input.specs.Statuses.{is_one_of};
ghost use Rattle.run_input.specs.Told.{Told, Wrote};
ghost use Rattle.check_top.specs.CheckEndings.{EndsTrue, check_ending};
ghost use Rattle.check_top.specs.CheckRefusals.{is_check_cause, is_untold_check, refusal_status, status_after};
ghost use Rattle.check_top.specs.CheckRuns.{Answers, AreSound, IsWritten, TellsLine};
ghost use Rattle.check_top.specs.Commands.{command_of, command_value};
ghost use Rattle.check_top.specs.OwnReports.{IsOwnReport};
ghost use Rattle.check_top.specs.Inside.Endings.{AreReportBlocks, IsReportBytes, ToldAfter, WritingEnds, status_after_read};

use crate::checking::check_events;
use crate::commands::{Command, command_of};
use crate::refusals::CheckRefusal;
use crate::report::fault::{ReportCause, ReportFault};
use crate::report::reading::read_report;
use crate::telling::{tell_check_refusal, tell_words};
use cover_certificate::Block;
use edt_outside::{ReadFault, Shelf, Sink, put_all, read_all};
use run_input::{Refusal, RunInput, file_name, read_run};
use std::alloc::Global;

const MOST_REPORT_BYTES: usize = 268_435_456;

/// All that `edtcheck` does with its words: it reads through the shelf, writes to `out`, tells of a refusal on `err`, and answers the
/// status to end with.
///
/// The words `CONTROL REPORT` read a control file with the files that it includes, the phase file and the time grids, as `edtloc locate`
/// does, and then the report. For each event one line is written. It says `PROVED` where the certificate of the report proves what it
/// says: the hypocentre of a located event is then the first of all nodes that no node exceeds in score, and its list of near nodes is
/// that of all nodes; and where the event fits nowhere every node scores 0. It says `AGREED` where the event has few or many used picks
/// and the report says so, `UNPROVED` where the certificate claims nothing, and else `REFUSED` and why. Other words have no shape.
/// Where the report is what `edtloc locate` writes for the same files, and within its limit, no line is `REFUSED`, and the status is 0,
/// 6, 7 or 8.
///
/// | status | comes |
/// |---|---|
/// | 0 | done: the lines were written whole, and none of them is `REFUSED` |
/// | 1 | done: the lines were written whole, and some is `REFUSED` |
/// | 2 | exactly where the words have no shape |
/// | 3 | exactly where a control file or an included file has no reading, or more than 1,048,576 bytes |
/// | 4 | exactly where the phase file has no reading, or more than 16,777,216 bytes |
/// | 5 | exactly where a time grid is refused, or the times of all rows pass 20,000,000 |
/// | 6 | memory was wanting |
/// | 7 | exactly where a call of the shelf failed |
/// | 8 | exactly where a write to `out` failed or took nothing; what was written is a prefix of the lines |
/// | 9 | exactly where the shelf has no file of a name that the run needs |
/// | 10 | exactly where the report has no reading, or more than 268,435,456 bytes |
///
/// The first refusal in the order of work decides: that of the input, as `edtloc locate` has it, and then the report. All lines are made
/// before anything is written, so nothing goes to `out` with a status other than 0, 1 and 8. Each status but 0 and 1 writes its line to
/// `err`, or a prefix of it where `err` fails, which changes no status.
pub fn check_run<S: Shelf, O: Sink, E: Sink>(
    alloc: Global,
    words: &[String],
    shelf: &mut S,
    out: &mut O,
    err: &mut E,
) -> u8
    // What each status says, and where each comes, where the shelf tells its files.
    ensures statuses { IsTrue (is_one_of result (0 ∷ 1 ∷ 2 ∷ 3 ∷ 4 ∷ 5 ∷ 6 ∷ 7 ∷ 8 ∷ 9 ∷ 10 ∷ [])) }
    ensures no_shape { (result ≡ 2) ↔ (command_of (map string_bytes words.now) ≡ None) }
    ensures told { IfSome (S.files shelf.old) (λ files. IfSome (command_of (map string_bytes words.now)) (λ command.
        Answers (check_ending files command) result (Wrote O.taken out.old out.new)
        (Told E.taken E.faults err.old err.new))) }
    ensures complete { IfSome (S.files shelf.old) (λ files. IfSome (command_of (map string_bytes words.now)) (λ command.
        IsOk (check_ending files command)
        → (Rose (S.faults shelf.old) (S.faults shelf.new) → ⊥) → (Rose (O.faults out.old) (O.faults out.new) → ⊥)
        → IsTrue (is_one_of result (0 ∷ 1 ∷ 6 ∷ [])))) }

    // What was written and what was told: on every shelf what the lines say is true of the input that was read, and
    // where the shelf tells its files, a report that is the run's own text has no faulty line and no refused certificate.
    ensures proves { IfSome (S.files shelf.old) (λ files. IfSome (command_of (map string_bytes words.now)) (λ command.
        IsTrue (is_one_of result (0 ∷ 1 ∷ [])) → EndsTrue files command)) }
    ensures own { IfSome (S.files shelf.old) (λ files. IfSome (command_of (map string_bytes words.now)) (λ command.
        IsOwnReport files command → IsTrue (is_one_of result (0 ∷ 6 ∷ 7 ∷ 8 ∷ [])))) }
    ensures sound { IsWritten AreSound result (Wrote O.taken out.old out.new) }
    ensures silent { IsTrue (is_one_of result (2 ∷ 3 ∷ 4 ∷ 5 ∷ 6 ∷ 7 ∷ 9 ∷ 10 ∷ []))
        → O.taken out.new ≡ O.taken out.old }
    ensures line { TellsLine result (Told E.taken E.faults err.old err.new)
        ((E.taken err.new ≡ E.taken err.old) × (E.faults err.new ≡ E.faults err.old)) }

    // The causes, on every shelf and every sink.
    ensures read_failed { RisesExactly (result == 7) (S.faults shelf.old) (S.faults shelf.new) }
    ensures write_failed { RisesExactly (result == 8) (O.faults out.old) (O.faults out.new) }
    ensures absences { RisesExactly (result == 9) (S.misses shelf.old) (S.misses shelf.new) }
    ensures lacks { S.lacks shelf.old ≤ S.lacks shelf.new }
    ensures no_lacks { IsTrue (is_one_of result (2 ∷ 3 ∷ 4 ∷ [])) → S.lacks shelf.new ≡ S.lacks shelf.old }
    ensures told_lacks { IfSome (S.files shelf.old) (λ files.
        IfSome (command_of (map string_bytes words.now)) (λ command.
        lacks_a_header_under files command.control ≡ false → S.lacks shelf.new ≡ S.lacks shelf.old)) }
    ensures calls { S.calls shelf.old ≤ S.calls shelf.new }
    ensures no_calls { result ≡ 2 → S.calls shelf.new ≡ S.calls shelf.old }

    // What stays, and what was read to its end.
    ensures same_files { S.files shelf.new ≡ S.files shelf.old }
    ensures ended { IsTrue (is_one_of result (0 ∷ 1 ∷ [])) → OnSome (S.files shelf.old) (S.left shelf.new ≡ Some []) }
{
    let Some(command) = command_of(words) else {
        tell_words(err);
        return 2;
    };
    let ended = run(alloc, &command, shelf, out);
    finish(&ended, err)
}

// What the words command: it writes the lines, and answers whether some certificate is refused.
fn run<S: Shelf, O: Sink>(
    alloc: Global,
    command: &Command<'_>,
    shelf: &mut S,
    out: &mut O,
) -> Result<bool, CheckRefusal>
    requires control { IsTrue (is_name 512 command.now.control.now) }
    requires report { IsTrue (is_name 512 command.now.report.now) }

    // What it wrote, or why it is refused.
    ensures written { IfSome (S.files shelf.old) (λ files.
        IsWritten (λ values. check_ending files (command_value command.now) ≡ Ok values)
        (status_after result) (Wrote O.taken out.old out.new)) }
    ensures refused { IfSome (S.files shelf.old) (λ files. IfErr result (λ refusal.
        is_untold_check refusal ≡ false → check_ending files (command_value command.now) ≡ Err refusal)) }
    ensures proves { IfSome (S.files shelf.old) (λ files. OnOk result (EndsTrue files (command_value command.now))) }
    ensures own { IfSome (S.files shelf.old) (λ files. IsOwnReport files (command_value command.now)
        → IsTrue (is_one_of (status_after result) (0 ∷ 6 ∷ 7 ∷ 8 ∷ []))) }
    ensures sound { IsWritten AreSound (status_after result) (Wrote O.taken out.old out.new) }
    ensures causes { IfErr result (λ refusal. IsTrue (is_check_cause refusal)) }
    ensures silent { IfErr result (λ refusal. refusal_status refusal ≢ 8 → O.taken out.new ≡ O.taken out.old) }

    // What becomes of shelf and output, by their counts.
    ensures same_files { S.files shelf.new ≡ S.files shelf.old }
    ensures faults { RisesExactly (status_after result == 7) (S.faults shelf.old) (S.faults shelf.new) }
    ensures misses { RisesExactly (status_after result == 9) (S.misses shelf.old) (S.misses shelf.new) }
    ensures writes { RisesExactly (status_after result == 8) (O.faults out.old) (O.faults out.new) }
    ensures lacks { S.lacks shelf.old ≤ S.lacks shelf.new }
    ensures no_lacks { IfErr result (λ refusal.
        IsTrue (is_one_of (refusal_status refusal) (3 ∷ 4 ∷ [])) → S.lacks shelf.new ≡ S.lacks shelf.old) }
    ensures told_lacks { IfSome (S.files shelf.old) (λ files.
        lacks_a_header_under files command.now.control.now ≡ false → S.lacks shelf.new ≡ S.lacks shelf.old) }
    ensures calls { S.calls shelf.old ≤ S.calls shelf.new }
    ensures ended { OnOk result (OnSome (S.files shelf.old) (S.left shelf.new ≡ Some [])) }
{
    let input = read_run(alloc, shelf, command.control)?;
    let certificates = read_blocks(alloc, shelf, command.report, &input)?;
    let checked = check_events(alloc, &input, &certificates)?;
    put_text(out, &checked.text)?;
    Ok(checked.refused)
}

// Reads the blocks of the report of this name, one for each event of an input.
fn read_blocks<S: Shelf>(
    alloc: Global,
    shelf: &mut S,
    name: &str,
    input: &RunInput,
) -> Result<Vec<Block>, CheckRefusal>
    requires named { IsTrue (is_name 512 name.now) }
    requires input { IsInput input.now }
    ensures told { IfSome (S.files shelf.old) (λ files.
        AreReportBlocks (input_value input.now) name.now (files name.now) result) }
    ensures one_each { IfOk result (λ blocks. length blocks.items ≡ length input.now.assembly.events.items) }
    ensures valid { IfOk result (λ blocks. All (λ block. IsValidBlock (block_value block)) blocks.items) }
    ensures causes { IfErr result (λ refusal. IsTrue (is_check_cause refusal)) }
    ensures kinds { IfErr result (λ refusal. IsTrue (is_one_of (refusal_status refusal) (6 ∷ 7 ∷ 9 ∷ 10 ∷ []))) }
    ensures ended { OnOk result (OnSome (S.files shelf.old) (S.left shelf.new ≡ Some [])) }
    ensures same_files { S.files shelf.new ≡ S.files shelf.old }
    ensures faults { RisesExactly (status_after_read result == 7) (S.faults shelf.old) (S.faults shelf.new) }
    ensures misses { RisesExactly (status_after_read result == 9) (S.misses shelf.old) (S.misses shelf.new) }
    ensures lacks { S.lacks shelf.new ≡ S.lacks shelf.old }
    ensures calls { S.calls shelf.old ≤ S.calls shelf.new }
{
    let bytes = read_report_file(alloc, shelf, name)?;
    match read_report(alloc, &bytes, input.assembly.events.len() as u32) {
        Ok(blocks) => Ok(blocks),
        Err(fault) => Err(refusal_of_report(fault)),
    }
}

// The whole file of a report.
fn read_report_file<S: Shelf>(
    alloc: Global,
    shelf: &mut S,
    name: &str,
) -> Result<Vec<u8>, CheckRefusal>
    requires named { IsTrue (is_name 512 name.now) }
    ensures told { IfSome (S.files shelf.old) (λ files. IsReportBytes name.now (files name.now) result) }
    ensures within { IfOk result (λ bytes. vec_len bytes ≤ 268435456) }
    ensures causes { IfErr result (λ refusal. IsTrue (is_check_cause refusal)) }
    ensures kinds { IfErr result (λ refusal. IsTrue (is_one_of (refusal_status refusal) (6 ∷ 7 ∷ 9 ∷ 10 ∷ []))) }
    ensures ended { OnOk result (OnSome (S.files shelf.old) (S.left shelf.new ≡ Some [])) }
    ensures same_files { S.files shelf.new ≡ S.files shelf.old }
    ensures faults { RisesExactly (status_after_read result == 7) (S.faults shelf.old) (S.faults shelf.new) }
    ensures misses { RisesExactly (status_after_read result == 9) (S.misses shelf.old) (S.misses shelf.new) }
    ensures lacks { S.lacks shelf.new ≡ S.lacks shelf.old }
    ensures calls { S.calls shelf.old ≤ S.calls shelf.new }
{
    let name = file_name(alloc, name)?;
    match read_all(alloc, shelf, name.as_str(), MOST_REPORT_BYTES) {
        Ok(bytes) => Ok(bytes),
        Err(ReadFault::Absent) => Err(CheckRefusal::Input(Refusal::Absent(name))),
        Err(ReadFault::Failed) => Err(CheckRefusal::Input(Refusal::Read(name))),
        Err(ReadFault::TooLong) => Err(CheckRefusal::ReportTooLong),
        Err(ReadFault::Memory) => Err(CheckRefusal::Input(Refusal::Memory)),
    }
}

// A fault of a report as a refusal.
fn refusal_of_report(fault: ReportFault) -> CheckRefusal
    ensures cause { IsTrue (is_check_cause result) }
    ensures told { fault.cause ≢ ReportCause.Memory → result ≡ CheckRefusal.Report fault }
    ensures memory { fault.cause ≡ ReportCause.Memory → is_untold_check result ≡ true }
    ensures status { IsTrue (is_one_of (refusal_status result) (6 ∷ 10 ∷ [])) }
{
    match fault.cause {
        ReportCause::Memory => CheckRefusal::Input(Refusal::Memory),
        _ => CheckRefusal::Report(fault),
    }
}

// Writes the lines.
fn put_text<O: Sink>(out: &mut O, text: &[u8]) -> Result<(), CheckRefusal>
    ensures told { WritingEnds text.now result (Wrote O.taken out.old out.new) }
    ensures writes { RisesExactly (is_err result) (O.faults out.old) (O.faults out.new) }
    ensures kinds { IfErr result (λ refusal. refusal ≡ CheckRefusal.Write) }
{
    match put_all(out, text) {
        Ok(()) => Ok(()),
        Err(_) => Err(CheckRefusal::Write),
    }
}

// Tells of a refusal, and answers the status of the run.
fn finish<E: Sink>(ended: &Result<bool, CheckRefusal>, err: &mut E) -> u8
    ensures status { result ≡ status_after ended.now }
    ensures told { ToldAfter (Told E.taken E.faults err.old err.new)
        ((E.taken err.new ≡ E.taken err.old) × (E.faults err.new ≡ E.faults err.old)) ended.now }
{
    match ended {
        Ok(false) => 0,
        Ok(true) => 1,
        Err(refusal) => {
            tell_check_refusal(refusal, err);
            refusal.status()
        }
    }
}
