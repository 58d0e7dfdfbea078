//! What a check is made of.

ghost use Rattle.edt_score.specs.Problem.{AreSoundPicks};

use edt_score::ProblemPick;
use kernel_table::Falloff;
use node_boxes::Grid;

/// The picks of an event, the kernel and the grid of the nodes.
#[derive(Drop)]
pub(crate) struct Case<'a, F> {
    pub(crate) picks: &'a [ProblemPick],
    pub(crate) falloff: &'a Falloff<F>,
    pub(crate) grid: &'a Grid,
    ghost sound: { AreSoundPicks picks.now },
}
