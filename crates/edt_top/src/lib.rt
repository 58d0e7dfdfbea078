//! All that `edtloc` does: `locate_run`, from its words and files to its text, its line of refusal and its status.
#![tactic(auto)]

mod commands;
mod demo;
mod finding;
mod locate;
mod refusals;
mod run;
mod solve;
mod telling;
mod writing;

pub use run::locate_run;
