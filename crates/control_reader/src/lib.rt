//! Control files: the statements of the NonLinLoc documentation that a location needs, in this project's profile.
#![tactic(auto)]

mod control;
mod draft;
mod fault;
mod includes;
mod laws;
mod reading;
mod statement;
mod taking;
mod values;
mod words;

pub use control::{Alias, Control, Delay, Exclude, PhaseId};
pub use fault::{ControlCause, ControlFault, Keyword};
pub use laws::{reading_excludes_fault, reading_says_values};
pub use reading::{include_names, read_control};
