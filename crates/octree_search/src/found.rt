//! What a search finds.
use node_boxes::BoxBound;

/// What a search finds, by the first of these that holds.
#[derive(Drop)]
pub enum Found {
    /// The event is located.
    Located(Located),
    /// No node scores: the cover, whose bounds are all 0, and how many boxes were met.
    NoFit { cover: Vec<BoxBound>, met: u32 },
    /// More boxes would be met than the budget allows.
    Budget,
    /// More than 100,000 nodes score at least the threshold.
    NearLimit,
}

/// A located event.
#[derive(Drop)]
pub struct Located {
    /// The first node in grid order with the best score.
    pub hyp: u32,
    /// The best score of all nodes, at least 1.
    pub score: u64,
    /// The nodes that score at least the threshold, each with its score, in grid order.
    pub near: Vec<(u32, u64)>,
    /// The boxes at which the search stopped, each with its bound, in the order of the octree.
    pub cover: Vec<BoxBound>,
    /// How many boxes were met, the roots included.
    pub met: u32,
}
