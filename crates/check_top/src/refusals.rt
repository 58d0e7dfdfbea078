//! Why a run ends without its text.
ghost use Rattle.std.specs.Prelude.{◌≡◌};
ghost use Rattle.run_input.specs.declared.refusals.Refusal.TheVariants.{Memory};
ghost use Rattle.check_top.specs.declared.refusals.CheckRefusal.TheVariants.{Input};

use crate::report::fault::ReportFault;
use run_input::Refusal;
use std::alloc::AllocError;
use std::fmt::{self, Formatter, Write};
use thiserror::Error;

// Why a run whose words have a shape ends with another status than 0 and 1.
#[derive(Drop, Error)]
pub enum CheckRefusal {
    // What the run needs can't be read, or memory is wanting.
    #[error("{0}")]
    Input(Refusal),
    // The first faulty line of the report.
    #[error("report {0}")]
    Report(ReportFault),
    // The report has more than 268,435,456 bytes.
    #[error("report: more than 268435456 bytes")]
    ReportTooLong,
    // A write failed or took nothing.
    #[error("a failed write")]
    Write,
}

// A refusal shows itself as its text, since it may hold a name.
impl fmt::Debug for CheckRefusal {
    fn fmt<W: Write>(&self, f: &mut Formatter<W>) -> fmt::Result {
        fmt::Display::fmt(self, f)
    }
}

impl CheckRefusal {
    ghost use Rattle.std.specs.Prelude.{◌≡◌};
    ghost use Rattle.check_top.specs.CheckRefusals.{refusal_status};

    // The status that names it.
    pub fn status(&self) -> u8
        ensures { result ≡ refusal_status self.now }
    {
        match self {
            CheckRefusal::Input(refusal) => refusal.status(),
            CheckRefusal::Report(_) | CheckRefusal::ReportTooLong => 10,
            CheckRefusal::Write => 8,
        }
    }
}

impl From<Refusal> for CheckRefusal {
    ghost from_gives = { λ refusal check. check ≡ Input refusal };

    fn from(refusal: Refusal) -> CheckRefusal {
        CheckRefusal::Input(refusal)
    }
}

impl From<AllocError> for CheckRefusal {
    ghost from_gives = { λ _ check. check ≡ Input Memory };

    fn from(_error: AllocError) -> CheckRefusal {
        CheckRefusal::Input(Refusal::Memory)
    }
}
