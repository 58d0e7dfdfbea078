//! All that `edtcheck` does: `check_run`, from its words and files to its lines, its line of refusal and its status.
#![tactic(auto)]

mod answer;
mod checking;
mod commands;
mod laws;
mod lines;
mod refusals;
mod report;
mod run;
mod telling;

pub use laws::own_law;
pub use run::check_run;
