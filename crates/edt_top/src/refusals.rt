//! Why a run ends without its text.
ghost use Rattle.std.specs.Prelude.{◌≡◌};
ghost use Rattle.edt_top.specs.declared.refusals.RunRefusal.TheVariants.{Input};
ghost use Rattle.edt_top.specs.Inside.Writing.{refusal_of_write};

use crate::solve::problem_cursor::ProblemFault;
use crate::writing::WriteFault;
use run_input::Refusal;
use std::fmt::{self, Formatter, Write};
use thiserror::Error;

// Why a run whose words have a shape ends with another status than 0.
#[derive(Drop, Error)]
pub enum RunRefusal {
    // The first faulty word of the problem file.
    #[error("problem {0}")]
    Problem(ProblemFault),
    // The problem file passes its limit.
    #[error("problem: more than 16777216 bytes")]
    ProblemTooLong,
    // What the run needs can't be read, or memory is wanting.
    #[error("{0}")]
    Input(Refusal),
    // A write failed or took nothing.
    #[error("a failed write")]
    Write,
}

// A refusal shows itself as its text, since it may hold a name.
impl fmt::Debug for RunRefusal {
    fn fmt<W: Write>(&self, f: &mut Formatter<W>) -> fmt::Result {
        fmt::Display::fmt(self, f)
    }
}

impl RunRefusal {
    ghost use Rattle.std.specs.Prelude.{◌≡◌};
    ghost use Rattle.edt_top.specs.RunRefusals.{run_status};

    pub fn status(&self) -> u8
        ensures { result ≡ run_status self.now }
    {
        match self {
            RunRefusal::Problem(_) | RunRefusal::ProblemTooLong => 4,
            RunRefusal::Input(refusal) => refusal.status(),
            RunRefusal::Write => 8,
        }
    }
}

impl From<Refusal> for RunRefusal {
    ghost from_gives = { λ refusal run. run ≡ Input refusal };

    fn from(refusal: Refusal) -> RunRefusal {
        RunRefusal::Input(refusal)
    }
}

impl From<WriteFault> for RunRefusal {
    ghost from_gives = { λ fault run. run ≡ refusal_of_write fault };

    fn from(fault: WriteFault) -> RunRefusal {
        match fault {
            WriteFault::Failed => RunRefusal::Write,
            WriteFault::Memory => RunRefusal::Input(Refusal::Memory),
        }
    }
}
