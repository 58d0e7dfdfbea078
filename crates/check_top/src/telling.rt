//! The line that a run without its text writes to standard error.
ghost use Rattle.std.specs.Prelude.{◌≡◌, IsTrue};
ghost use Rattle.run_input.specs.Lines.{words_line};
ghost use Rattle.run_input.specs.Told.{Told};
ghost use Rattle.check_top.specs.CheckRefusals.{cause_name, check_refusal_line, is_named_check, program, report_line};

use crate::refusals::CheckRefusal;
use crate::report::fault::{ReportCause, ReportFault};
use edt_outside::Sink;
use itoa::Buffer;
use run_input::{put_pieces, tell_refusal};

// Tells that the words of a run have no shape.
pub fn tell_words<E: Sink>(err: &mut E)
    ensures told { Told E.taken E.faults err.old err.new (words_line program) }
{
    put_pieces(err, &[b"edtcheck: words\n"]);
}

// Tells of a refusal.
pub fn tell_check_refusal<E: Sink>(refusal: &CheckRefusal, err: &mut E)
    ensures told { Told E.taken E.faults err.old err.new (check_refusal_line refusal.now) }
    ensures named { IsTrue (is_named_check refusal.now) }
{
    match refusal {
        CheckRefusal::Input(refusal) => tell_refusal(b"edtcheck:", refusal, err),
        CheckRefusal::Report(fault) => put_report(fault, err),
        CheckRefusal::ReportTooLong => put_pieces(err, &[b"edtcheck: report 0 TooLong\n"]),
        CheckRefusal::Write => put_pieces(err, &[b"edtcheck: write\n"]),
    }
}

// Tells of the first faulty line of a report.
#[tactic(auto, unfolding(crate::specs::CheckRefusals::report_line))]
fn put_report<E: Sink>(fault: &ReportFault, err: &mut E)
    ensures told { Told E.taken E.faults err.old err.new (report_line fault.now) }
{
    let mut buffer = Buffer::new();
    put_pieces(
        err,
        &[
            b"edtcheck: report ",
            buffer.format(fault.line).as_bytes(),
            b" ",
            cause_name(&fault.cause),
            b"\n",
        ],
    )
}

// The name of a cause of a report.
fn cause_name(cause: &ReportCause) -> &[u8]
    ensures { result.now ≡ cause_name cause.now }
{
    match cause {
        ReportCause::Form => b"Form",
        ReportCause::Number => b"Number",
        ReportCause::Limit => b"Limit",
        ReportCause::Events => b"Events",
        ReportCause::Memory => b"Memory",
    }
}
