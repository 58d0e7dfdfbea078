//! The check of certificates: whether a certificate proves what it says of an event.
//!
//! A certificate of a located event proves its hypocentre and its near list by a cover of boxes with
//! bounds; one of an event that fits nowhere proves that no node scores. The check believes nothing that
//! is printed: it finds the bounds anew from the travel times at all nodes, and the boxes needn't be
//! those of an octree. The rules are this project's own.
#![tactic(auto)]

mod bound_room;
mod box_bounds;
mod case;
mod field_check;
mod hypocentre;
mod laws;
mod look_check;
mod marks;
mod near;
mod passes;
mod placing;
mod verdict;

pub use field_check::check;
pub use laws::{near_law, proof_law, search_law, verdict_law};
pub use look_check::check_look;
pub use marks::Marks;
pub use verdict::Verdict;
