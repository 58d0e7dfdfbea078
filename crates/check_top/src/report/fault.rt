//! Why a report has no reading.
ghost use Rattle.std.specs.Prelude.{◌≡◌};
ghost use Rattle.check_top.specs.declared.report.fault.ReportCause.TheVariants.{Memory};

use std::alloc::{AllocError, AllocFailed};
use thiserror::Error;

// What is wrong with a line, in the order in which the causes of one line come.
#[derive(Clone, Copy, Debug, PartialEq, Eq, Error)]
pub enum ReportCause {
    // The line is missing or is one too many, or no line feed ends it, or its words aren't parted by single blanks, or their number or a
    // fixed word is wrong, or it has the number of another event.
    #[error("not the line that a report has here")]
    Form,
    // A number isn't a shortest decimal, or passes its type, or a score is 0 that isn't.
    #[error("not a number of a report")]
    Number,
    // A count of a certificate passes its limit.
    #[error("a count past its limit")]
    Limit,
    // The first line tells another number of events.
    #[error("another number of events")]
    Events,
    // Memory is wanting.
    #[error("out of memory")]
    Memory,
}

// The first faulty line of a report and its first cause, or running out of memory.
#[derive(Clone, Copy, Debug, PartialEq, Eq, Error)]
#[error("line {line}: {cause}")]
pub struct ReportFault {
    // The number of the line, counted from 1. That of a missing line is the number of the last line plus 1.
    pub line: u32,
    // What is wrong with it.
    pub cause: ReportCause,
}

impl From<AllocError> for ReportFault {
    ghost from_gives = { λ _ fault. fault.cause ≡ Memory };

    fn from(_error: AllocError) -> ReportFault {
        OUT_OF_MEMORY
    }
}

impl<T: Drop> From<AllocFailed<T>> for ReportFault {
    ghost from_gives = { λ _ fault. fault.cause ≡ Memory };

    fn from(_error: AllocFailed<T>) -> ReportFault {
        OUT_OF_MEMORY
    }
}

// Running out of memory, at no line.
const OUT_OF_MEMORY: ReportFault = ReportFault {
    line: 0,
    cause: ReportCause::Memory,
};
