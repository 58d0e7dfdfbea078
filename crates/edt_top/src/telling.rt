//! The line that a run without its text writes to standard error.
ghost use Rattle.std.specs.Prelude.{◌≡◌, IsTrue};
ghost use Rattle.run_input.specs.Lines.{words_line};
ghost use Rattle.run_input.specs.Told.{Told};
ghost use Rattle.edt_top.specs.RunRefusals.{cause_name, is_named_run, problem_line, program, run_line};

use crate::refusals::RunRefusal;
use crate::solve::problem_cursor::ProblemFault;
use crate::solve::problem_word::ProblemCause;
use edt_outside::Sink;
use itoa::Buffer;
use run_input::{put_pieces, tell_refusal};

// Tells that the words of a run have no shape.
pub fn tell_words<E: Sink>(err: &mut E)
    ensures told { Told E.taken E.faults err.old err.new (words_line program) }
{
    put_pieces(err, &[b"edtloc: words\n"]);
}

// Tells of a refusal.
pub fn tell_run_refusal<E: Sink>(refusal: &RunRefusal, err: &mut E)
    ensures told { Told E.taken E.faults err.old err.new (run_line refusal.now) }
    ensures named { IsTrue (is_named_run refusal.now) }
{
    match refusal {
        RunRefusal::Problem(fault) => put_problem(fault, err),
        RunRefusal::ProblemTooLong => put_pieces(err, &[b"edtloc: problem TooLong 0\n"]),
        RunRefusal::Input(refusal) => tell_refusal(b"edtloc:", refusal, err),
        RunRefusal::Write => put_pieces(err, &[b"edtloc: write\n"]),
    }
}

// Tells of the first faulty word of a problem file.
#[tactic(auto, unfolding(crate::specs::RunRefusals::problem_line))]
fn put_problem<E: Sink>(fault: &ProblemFault, err: &mut E)
    ensures told { Told E.taken E.faults err.old err.new (problem_line fault.now) }
{
    let mut buffer = Buffer::new();
    put_pieces(
        err,
        &[
            b"edtloc: problem ",
            cause_name(&fault.cause),
            b" ",
            buffer.format(fault.word).as_bytes(),
            b"\n",
        ],
    )
}

// The name of a cause of a problem file.
fn cause_name(cause: &ProblemCause) -> &[u8]
    ensures { result.now ≡ cause_name cause.now }
{
    match cause {
        ProblemCause::Form => b"Form",
        ProblemCause::Limit => b"Limit",
    }
}
