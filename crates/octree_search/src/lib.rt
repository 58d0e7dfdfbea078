//! The best-first search of an octree.
#![tactic(auto)]

mod arena;
mod covering;
mod exploring;
mod found;
mod frontier;
mod laws;
mod near;
mod nearness;
mod queue;
mod searching;

pub use arena::{Met, open_at};
pub use found::{Found, Located};
pub use laws::{cover_law, outcome_law};
pub use nearness::threshold;
pub use queue::Waiting;
pub use searching::{found_from, search};
