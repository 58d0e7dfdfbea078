//! Why a phase file has no reading.
use thiserror::Error;

/// What is wrong with a line, in the order in which the causes of one line are tested: the words of a pick go from left to right.
#[derive(Clone, Copy, Debug, PartialEq, Eq, Error)]
pub enum PhaseCause {
    /// The line has more than 4096 bytes, whatever kind of line it is.
    #[error("a line of more than 4096 bytes")]
    LongLine,
    /// A pick has fewer than 11 words.
    #[error("fewer than 11 words")]
    Fields,
    /// The station or the phase is no name of 1 to 64 bytes from 33 to 126.
    #[error("no name")]
    Name,
    /// The date isn't eight digits yyyymmdd of a day of the Gregorian calendar in the years 1000 to 9998.
    #[error("no date")]
    Date,
    /// Hour and minute aren't four digits hhmm up to 2359, or the seconds aren't from 0 to below 1000.
    #[error("no time of day")]
    Time,
    /// The seconds, the error or the prior weight is no decimal.
    #[error("no number")]
    Number,
    /// The error type isn't `GAU`.
    #[error("an error type other than GAU")]
    ErrorType,
    /// The pick begins event 10,001, is pick 4097 of its event, or lies more than 10^12 microseconds from its event's first pick.
    #[error("past a limit")]
    Limit,
    /// Memory is wanting.
    #[error("out of memory")]
    Memory,
}

/// A fault of a phase file: that of its first faulty line, or running out of memory.
#[derive(Clone, Copy, Debug, PartialEq, Eq, Error)]
#[error("line {line}: {cause}")]
pub struct PhaseFault {
    /// The number of the line, counted from 1.
    pub line: u32,
    /// What is wrong with it.
    pub cause: PhaseCause,
}
