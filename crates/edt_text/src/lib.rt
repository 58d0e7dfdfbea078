//! Lines, words, names and digits of texts, read as bytes.
//!
//! `Lines`, `Words` and `FileWords` are cursors over bytes that take no memory, and a copy of one goes on from the same place;
//! `PlacedWords` are the words of a line by their places.
//! A line ends with a line feed. Words are parted by tabs, vertical tabs, form feeds, carriage returns and blanks, so a carriage
//! return at the end of a line belongs to no word. No length of a line is refused here: a reader tests `Line::bytes` against `LONGEST_LINE`.
#![tactic(auto)]

mod cursor;
mod digits;
mod laws;
mod limits;
mod naming;
mod placing;
mod splitting;
#[cfg(test)]
mod tests;

pub use cursor::{Line, Lines};
pub use digits::{digits_within, push_number, push_signed, read_number};
pub use laws::reads_back;
pub use limits::LONGEST_LINE;
pub use naming::{Name, NameFault, are_same, is_name};
pub use placing::PlacedWords;
pub use splitting::{FileWords, Words};
