//! What the words after a keyword say, or their first fault. Each function wants as many words as its statement needs, and reads them
//! from left to right, each number before its range.

mod files;
mod frame;
mod kernel;
mod method;
mod names;
mod numbers;
mod phases;
mod search;

pub(crate) use files::{read_files, read_include};
pub(crate) use frame::read_frame;
pub(crate) use kernel::read_shape;
pub(crate) use method::read_method;
pub(crate) use phases::{read_alias, read_delay, read_exclude, read_phase_ids};
pub(crate) use search::{read_budget, read_cells, read_lanes, read_margin, read_seed, read_sigma};
