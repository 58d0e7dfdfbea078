//! Certificates: what became of an event, as lines that anybody can check, written and read.
//!
//! A certificate begins with a line of `CERT` and its kind and ends with `END`. That of a located
//! event has the node and its score, the near nodes and the boxes of a cover between them; that of
//! an event that fits nowhere has the boxes; the others have nothing. `write_block` and `read_block`
//! share one definition of its lines, so that a block has one spelling.
#![tactic(auto)]

mod block;
mod items;
mod kind;
mod laws;
mod line_form;
mod line_words;
mod numbers;
mod reading;
mod text_size;
mod writing;

pub use block::{
    Block, BlockCause, BlockFault, BlockView, LocatedBlock, LocatedView, MOST_BOXES, MOST_NEAR,
};
pub use laws::{block_law, fault_law};
pub use line_words::{LineWords, is_plain};
pub use reading::read_block;
pub use writing::{reserve_block, write_block, write_view};
