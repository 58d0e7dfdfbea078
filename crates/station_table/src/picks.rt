//! The picks of an event that are used and those that aren't.
use edt_text::Name;

/// Why a pick isn't used, in the order in which the reasons are tested.
#[derive(Clone, Copy, Debug, PartialEq, Eq)]
pub enum Reason {
    /// A statement `LOCEXCLUDE` names its station and its phase word or standard phase.
    Excluded,
    /// Its weight is 0 or less.
    Weight0,
    /// Its error is negative or passes 100,000,000 microseconds.
    ErrMag,
    /// An earlier pick of the event that met none of the reasons before has its station and standard phase.
    Duplicate,
    /// There is no time grid for it.
    NoGrid,
    /// Its station is too far from the middle of the search grid, or too near to it.
    Far,
    /// As many picks of the event are used already as may be.
    BeyondMax,
}

/// A pick that is used.
#[derive(Drop)]
pub struct UsedPick {
    /// The number of its line in the phase file, counted from 1.
    pub line: u32,
    /// The station, after its other names.
    pub station: Name,
    /// The standard phase.
    pub phase: Name,
    /// The observed time less its delay, in microseconds from the start of 1970-01-01.
    pub time: i64,
    /// The weight in thousandths, 1 to 2000.
    pub weight: u32,
    /// The variance in square microseconds, at most 2*10^16.
    pub variance: u64,
    /// The place of its key among the keys, from 0.
    pub key: u32,
}

/// A pick that isn't used.
#[derive(Drop)]
pub struct Skip {
    /// The number of its line in the phase file, counted from 1.
    pub line: u32,
    /// The station, after its other names.
    pub station: Name,
    /// The standard phase.
    pub phase: Name,
    /// The first reason that holds.
    pub reason: Reason,
}

/// The picks of an event, both lists in the order of the phase file.
#[derive(Drop)]
pub struct Picks {
    /// Those that are used.
    pub used: Vec<UsedPick>,
    /// Those that aren't.
    pub skipped: Vec<Skip>,
}
