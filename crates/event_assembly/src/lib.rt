//! Events with their used picks and the times that they need, from a control file, the events of a phase file and the time grids.
#![tactic(auto)]

mod assembling;
mod assembly;
mod bodies;
mod deciding;
mod faults;
mod headers;
mod names;
mod planning;
mod problems;
mod rows;

pub use assembling::assemble;
pub use assembly::{Assembly, Case, Prepared};
pub use faults::AssembleFault;
