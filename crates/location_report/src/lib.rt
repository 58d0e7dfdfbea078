//! The block of an event in the text of a run: the event's number, its picks with their residuals, where and when it was, and the
//! certificate that proves it.
//!
//! A block is one function of values, `block_of` of specs/Blocks, and so is the text of a run, by specs/Texts: what writes a report and
//! what reads it again cite the same words.
#![tactic(auto)]

mod dates;
mod found;
mod lanes;
mod laws;
mod lines;
mod locating;
mod reporting;
mod room;

pub use lanes::LaneCount;
pub use laws::report_law;
pub use reporting::report;
