//! The limits that several crates share.

/// The most nodes on an axis of a grid.
pub const MOST_ON_AXIS: u32 = 4096;

/// The most nodes of a grid.
pub const MOST_NODES: u64 = 2_000_000;

/// How far from 0 an origin of a grid may lie, either way, in millimetres.
pub const FARTHEST_ORIGIN: u64 = 10_000_000_000;

/// The widest spacing of the nodes of a grid, in millimetres.
pub const WIDEST_SPACING: u64 = 1_000_000_000;

/// The greatest travel time at a node, in microseconds.
pub const GREATEST_TIME: u64 = 2_000_000_000;
