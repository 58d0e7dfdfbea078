//! A search that is divided over several lanes.
//!
//! Lanes take boxes from one frontier, open them, and put their children back; a lane may be lost at any time, and its box then goes back
//! as it was. Whatever the order of these events and whoever is lost, as long as a lane is left, what a finished run has found is what one
//! lane finds. No thread runs here: an event is one atomic step, and the events are interleaved on one thread.
#![tactic(auto)]

mod lane_events;
mod lane_meets;
mod lane_outcome;
mod lane_slots;
mod lane_steps;
mod lanes;
mod laws;
mod next_events;
mod searching;

pub use lane_events::{LaneEvent, StepFault};
pub use lanes::Lanes;
pub use laws::{any_order_law, schedule_law};
pub use searching::{LaneRun, search_lanes};
