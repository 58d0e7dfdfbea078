//! Headers of time grids.
//!
//! A header is a text that says where a time grid lies and where its source is. Its first line is
//! `xNum yNum zNum xOrig yOrig zOrig dx dy dz gridType type` and its second `label xSrce ySrce zSrce`, as NonLinLoc writes them, with
//! lengths in kilometres. Of the types of a body this project takes its own `USEC32` alone: whole microseconds of 32 bits. The label,
//! further words and further lines, such as `TRANSFORM`, are passed over. No call takes memory.
#![tactic(auto)]

mod header;
mod laws;
mod numbers;
mod words;

pub use header::{Header, HeaderError, read_header};
pub use laws::reading_excludes_fault;
