//! What the lanes of a search did.

/// How many lanes searched for an event, in how many events, and how many of these lost a lane.
#[derive(Clone, Copy, Debug, PartialEq, Eq)]
pub struct LaneCount {
    /// How many lanes there were.
    pub lanes: u32,
    /// How many events the search had.
    pub events: u64,
    /// How many of them lost a lane.
    pub lost: u64,
}
