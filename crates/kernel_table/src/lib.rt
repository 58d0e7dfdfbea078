//! Kernels: what a pair of picks is worth at a node, by its misfit and its scale.
//!
//! A misfit and a scale are in microseconds, and a scale is at least 1. A value is in parts of 2^20:
//! 1048576 where the pair fits exactly, and 0 where it tells nothing. For each kernel the value
//! never rises with the misfit and never falls with the scale. No call takes memory or refuses.
#![tactic(auto)]

mod kernels;
mod reciprocals;
mod stored;
mod table;
#[cfg(test)]
mod tests;

pub use kernels::{Shape, count, gauss, triangle};
pub use reciprocals::{gauss_by, reciprocal};
pub use stored::Falloff;
