//! Bodies of time grids, and the times of search nodes.
//!
//! A body is one unsigned number of 32 bits per node of its grid, in microseconds and in grid order, and nothing else: this project's
//! own `USEC32`, in place of the floats that NonLinLoc writes. [`TimeGrid::read`] reads one whole. [`stream_times`] takes the times of
//! the nodes of a search grid from a body as it passes by, and holds no body. Every call that takes a header needs one that
//! `grid_header::read_header` answers.
#![tactic(auto)]

mod axes;
mod body;
mod cursors;
mod faults;
mod grids;
mod laws;
mod numbers;
mod selections;
mod streaming;

pub use faults::{AlignFault, Axis, GridFault, StreamFault};
pub use grids::TimeGrid;
pub use laws::same_coordinates;
pub use numbers::ByteOrder;
pub use streaming::stream_times;
