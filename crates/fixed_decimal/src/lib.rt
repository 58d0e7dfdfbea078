//! Decimals as whole numbers of millionths.
//!
//! A decimal is an optional sign, digits with at most one point and at least one digit, and then, after a mark `e` or `E`, an optional
//! sign and at least one digit. Its value is rounded to millionths, halves away from zero. These rules are this project's own. No call
//! takes memory.
#![tactic(auto)]

mod form;
mod laws;
mod reading;
mod size;
#[cfg(test)]
mod tests;

pub use laws::{one_fault, one_nearest};
pub use reading::{DecimalError, read_millionths, read_whole};
