//! Which picks of an event are used, and which time grids they need: aliases, standard phases, exclusions, delays and distances.
#![tactic(auto)]

mod distances;
mod draft;
mod key_index;
mod key_table;
mod key_words;
mod keys;
mod laws;
mod met_keys;
mod named_pick;
mod picks;
mod reasons;
mod stations;
mod using;
mod wanting;

pub use key_table::KeyTable;
pub use keys::{GridKey, Place, are_same_keys};
pub use laws::{each_pick_is_in_one_list, first_ones_are_used};
pub use picks::{Picks, Reason, Skip, UsedPick};
pub use using::use_picks;
pub use wanting::wanted;
