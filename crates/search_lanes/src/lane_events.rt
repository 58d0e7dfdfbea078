//! What lanes do, and why they don't.

use thiserror::Error;

/// What happens to a lane, as one step. Lanes have the numbers from 0 on.
#[derive(Clone, Copy, Debug, PartialEq, Eq)]
pub enum LaneEvent {
    /// A lane that has no box takes the open box at a place, which is ready: it isn't single, and its bound reaches the threshold of the
    /// greatest bound of all open and held boxes.
    Take { lane: u32, place: u32 },
    /// A lane that holds a box is done with it: the box's children, with their bounds, go to the end of the open boxes. Where they would
    /// pass the budget, the run is over.
    Done { lane: u32 },
    /// A lane is lost for good: a box that it holds goes back to the end of the open boxes.
    Lost { lane: u32 },
}

/// Why a step is refused, in the order in which it is tested.
#[derive(Clone, Copy, Debug, PartialEq, Eq, Error)]
pub enum StepFault {
    /// The event isn't possible in this state.
    #[error("an event that isn't possible")]
    Impossible,
    /// There isn't memory enough.
    #[error("out of memory")]
    Memory,
}
