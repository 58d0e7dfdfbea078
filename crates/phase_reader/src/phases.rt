//! What a phase file says.
use edt_text::Name;

/// A pick: the arrival of a phase at a station.
#[derive(Drop)]
pub struct Pick {
    /// The number of its line in the phase file, counted from 1.
    pub line: u32,
    /// The station.
    pub station: Name,
    /// The phase.
    pub phase: Name,
    /// Year, month and day of the date, as they are written.
    pub day: (i64, i64, i64),
    /// The time in microseconds from the start of 1970-01-01, without leap seconds.
    pub time: i64,
    /// The error magnitude in microseconds, as it is written.
    pub error: i64,
    /// The prior weight in thousandths, cut downwards; 1000 where none is written.
    pub weight: i64,
}

/// An event: a longest run of picks that no blank line parts, in the order of their lines. It has at least one.
#[derive(Drop)]
pub struct Event {
    /// The picks.
    pub picks: Vec<Pick>,
}

/// A phase file.
#[derive(Drop)]
pub struct Phases {
    /// The events, in the order of their lines.
    pub events: Vec<Event>,
    /// How many lines begin with the word `PUBLIC_ID`.
    pub passed: u32,
}
