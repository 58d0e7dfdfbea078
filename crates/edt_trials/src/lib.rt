//! Trials of whole searches: a judge that looks its bounds up in a table of scores, and searches whose outcomes were found apart
//! from this code.
#![tactic(auto)]

mod table_judge;
#[cfg(test)]
mod tests;

pub use table_judge::TableJudge;
