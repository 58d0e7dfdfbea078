//! The score of a node as the place of an event.
//!
//! Observed and travel times are in microseconds. The score of a node is the sum, over all pairs of
//! picks, of the weight of the pair by the value of the kernel at the pair's misfit and scale. It
//! measures how well the node fits by equal differential times, an idea of Font et al. 2004, so that
//! the origin time of the event cancels. Scale, weight and kernel are this project's own.
#![tactic(auto)]

mod demo;
mod ends;
mod family;
mod field;
mod judge;
mod kept_pairs;
mod lanes;
mod laws;
mod look;
mod pairs;
mod problem;
mod pyramid_judge;
mod scorer;
mod totals;
mod used_rows;
mod values;

pub use demo::{Demo, demo_problem, draw};
pub use field::Field;
pub use judge::Judge;
pub use kept_pairs::KeptPairs;
pub use laws::{best_law, bound_law, box_bound_law, demo_law, numbered_law, score_law};
pub use look::{FieldLook, Look};
pub use problem::{Problem, ProblemPick};
pub use pyramid_judge::PyramidJudge;
pub use scorer::Scorer;
