//! The best-first loop: the box with the greatest bound is opened next.
ghost use Rattle.std.specs.Prelude.{◌≡◌, ◌+◌, ◌*◌, ◌^◌, ◌<◌, ◌≤◌, IfOk, MatchOption, length, max, nat_lt};
ghost use Rattle.node_boxes.specs.Roots.{AreRoots};
ghost use Rattle.octree_search.specs.Cover.{threshold_of};
ghost use Rattle.octree_search.specs.Outcomes.{event_met};
ghost use Rattle.octree_search.specs.Arena.{IsExplored};

use crate::arena::Met;
use crate::frontier::Frontier;
use crate::nearness::threshold;
use crate::queue::Waiting;
use edt_score::Judge;
use node_boxes::NodeBox;
use std::alloc::{AllocError, Global};

/// The boxes that a search met, each linked to its children where it was opened, and the best score.
#[derive(Drop)]
pub(crate) struct Explored {
    pub met: Vec<Met>,
    pub best: u64,
}

/// Opens boxes until none that waits can hold a better or a near node. `None` where more boxes would be met than the budget allows.
pub(crate) fn explore<J: Judge>(
    alloc: Global,
    judge: &mut J,
    roots: &[NodeBox],
    margin: u32,
    budget: u32,
) -> Result<Option<Explored>, AllocError>
    requires roots { AreRoots (J.grid judge.old) roots.now }
    requires same_roots { J.roots judge.old ≡ roots.now }
    requires margin { margin ≤ 999 }
    requires ready { J.ready judge.old }
    requires room { J.count judge.old + budget < 2 ^ 64 }
    // the judge
    ensures still { J.ready judge.new }
    ensures same_grid { J.grid judge.new ≡ J.grid judge.old }
    ensures judge_roots { J.roots judge.new ≡ J.roots judge.old }
    ensures same_bounds { J.bound_of judge.new ≡ J.bound_of judge.old }
    // what was found
    ensures asked { IfOk result (λ found. MatchOption found
        (J.count judge.new ≤ J.count judge.old + budget)
        (λ e. J.count judge.new ≡ J.count judge.old + length e.met.items)) }
    ensures explored { IfOk result (λ found. MatchOption found
        (budget < event_met (J.grid judge.old) roots.now (J.bound_of judge.old) margin)
        (λ e. IsExplored (J.grid judge.old) roots.now (J.bound_of judge.old) margin e.met.items e.best)) }
    ensures few { IfOk result (λ found. MatchOption found (Unit {0}) (λ e. length e.met.items ≤ budget)) }
{
    if roots.len() > budget as usize {
        return Ok(None);
    }
    let mut frontier = Frontier::new(alloc, roots.len())?;
    frontier.meet_all(judge, margin, roots)?;
    while let Some(top) = frontier.queue.pop() {
        if is_low(&top, margin, frontier.best) {
            return Ok(Some(frontier.into_explored()));
        }
        if frontier.met.len() + top.area.children().len() > budget as usize {
            return Ok(None);
        }
        frontier.open(judge, margin, &top)?;
    }
    Ok(Some(frontier.into_explored()))
}

// Whether a box that waits can hold neither a better node than that with the best score known nor one near it.
fn is_low(top: &Waiting, margin: u32, best: u64) -> bool
    requires { margin ≤ 999 }
    ensures { result ≡ nat_lt top.now.bound (threshold_of margin (max best top.now.bound)) }
{
    top.bound < threshold(margin, best.max(top.bound))
}

impl Frontier {
    // What was met, and the best score.
    fn into_explored(self) -> Explored
        ensures met { result.met ≡ self.met }
        ensures best { result.best ≡ self.best }
    {
        Explored {
            met: self.met,
            best: self.best,
        }
    }
}
