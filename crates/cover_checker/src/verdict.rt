//! What a check finds.

/// What a check of a certificate finds: the first of these that holds.
#[derive(Clone, Copy, Debug, PartialEq, Eq)]
pub enum Verdict {
    /// The certificate claims nothing of the nodes: it says neither where the event is nor that it fits
    /// nowhere.
    NoClaim,
    /// The box at this place, from 0, isn't in the grid, and no box before it holds a node of a still
    /// earlier one.
    Outside(u32),
    /// The first box that holds a node of an earlier box is in the grid, as those before it, and this is
    /// the least such node.
    Twice(u32),
    /// This is the least node that no box holds.
    Uncovered(u32),
    /// The box at this place is the first whose printed bound isn't its bound.
    WrongBound(u32),
    /// The box at this place is the first of several nodes with a bound at the threshold or above, or,
    /// where the event fits nowhere, the first with a bound above 0.
    NotClosed(u32),
    /// The hypocentre, which this is, isn't a node, or its score isn't the printed one.
    WrongScore(u32),
    /// This is the node of the first single box whose node scores more than the hypocentre, or the same
    /// with a smaller number.
    NotFirst(u32),
    /// This is the first place, from 0, at which the printed near list differs from the nodes of the
    /// single boxes at the threshold or above, in grid order with their scores.
    NearWrong(u32),
    /// The certificate proves what it says.
    Proved,
}
