//! Events that are ready to be located.
use edt_score::{Field, Problem};
use node_boxes::Frame;
use station_table::Picks;

/// What becomes of an event.
#[derive(Drop)]
pub enum Case {
    /// It is located: the problem of its used picks, in the order of the phase file.
    Ready(Problem),
    /// Too few picks are used: fewer than two, or fewer than the control asks for, or fewer of the standard phase `S`.
    Few,
    /// More than 256 picks are used.
    Many,
}

/// An event with its picks.
#[derive(Drop)]
pub struct Prepared {
    /// The picks that are used and those that aren't.
    pub picks: Picks,
    /// What becomes of it.
    pub case: Case,
}

/// Events with the times that they need.
#[derive(Drop)]
pub struct Assembly {
    /// The search grid and where it lies.
    pub frame: Frame,
    /// The times at the search nodes, one row for each time grid that is needed. All events share them.
    pub field: Field,
    /// The events, in the order of the phase file.
    pub events: Vec<Prepared>,
}
