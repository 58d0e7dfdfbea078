//! What a program reads before it locates or checks: a control file with the files that it includes, a phase file, and the assembly of
//! its events.
//!
//! [`read_run`] reads all of it, or answers the first [`Refusal`] in the order of work. A refusal has a status, and a line that
//! [`tell_refusal`] writes after the program's own word.
#![tactic(auto)]

mod cause_names;
mod file_words;
mod input;
mod reading;
mod refusals;
mod telling;

pub use file_words::is_file_word;
pub use input::{RunInput, read_run};
pub use reading::file_name;
pub use refusals::Refusal;
pub use telling::{put_pieces, tell_refusal};
