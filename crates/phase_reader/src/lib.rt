//! Phase files: events of picks, read from lines in the format NLLOC_OBS of the NonLinLoc documentation, in this project's profile.
//!
//! A line without words parts events. A line whose first word begins with `#` is a comment, and one whose first word is `PUBLIC_ID`
//! is passed over and counted; both part no events. Every other line is a pick, of these words: station, instrument, component,
//! onset, phase, first motion, date (yyyymmdd), hour and minute (hhmm), seconds, error type (`GAU`), error in seconds, coda
//! duration, amplitude, period and, optional, the prior weight.
#![tactic(auto)]

mod draft;
mod fault;
mod kind;
mod laws;
mod phases;
mod reading;
mod values;

pub use fault::{PhaseCause, PhaseFault};
pub use laws::reading_excludes_fault;
pub use phases::{Event, Phases, Pick};
pub use reading::read_phases;
