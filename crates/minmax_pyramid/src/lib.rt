//! The least and the greatest time of each box of an octree.
//!
//! A row has one time for each node of a grid. A pyramid keeps, beside the times, the least and the
//! greatest time of each octree box down to the first of at most four nodes on each axis; those of the
//! boxes below it come from their times.
#![tactic(auto)]

mod cell;
mod descent;
mod family;
mod laws;
mod pyramid;
mod pyramid_rows;
mod root_counts;

pub use cell::Cell;
pub use family::Family;
pub use laws::{family_law, span_law};
pub use pyramid::Pyramid;
pub use pyramid_rows::PyramidRows;

#[cfg(test)]
mod tests;
