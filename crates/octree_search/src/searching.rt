//! The search.
ghost use Rattle.std.specs.Prelude.{◌≡◌, ℕ, List, ◌+◌, ◌^◌, ◌<◌, ◌≤◌, IfOk, length};
ghost use Rattle.node_boxes.specs.declared.node_box.NodeBox.{NodeBox};
ghost use Rattle.node_boxes.specs.Roots.{AreRoots};
ghost use Rattle.edt_score.specs.Judging.{BoundsFall};
ghost use Rattle.octree_search.specs.Fewest.{IsCoverShortest};
ghost use Rattle.octree_search.specs.Outcomes.{Asks, event_met, event_threshold, found_of, found_value, outcome_of};
ghost use Rattle.octree_search.specs.Arena.{IsEnded, IsExplored};

use crate::arena::Met;
use crate::covering::collect_cover;
use crate::exploring::explore;
use crate::found::{Found, Located};
use crate::near::{first_with, near_nodes};
use crate::nearness::threshold;
use edt_score::Judge;
use node_boxes::{Grid, NodeBox};
use std::alloc::{AllocError, Global};

/// The most near nodes that are listed.
const NEAR_LIMIT: usize = 100_000;

/// Searches the octree of some roots for the first node with the best score, the nodes near it by a margin in thousandths, at most 999,
/// and the cover that proves both.
///
/// The box with the greatest bound is opened next, until none that waits can hold a better or a near node. The cover then has the fewest
/// boxes of all octree covers whose boxes are single or have a bound below the threshold, and the judge was asked once for each box that
/// the rule of the cover meets. `Budget` comes exactly where that are more boxes than the budget, and the judge was then asked at most so
/// often; `NoFit` exactly where every node scores 0; `NearLimit` exactly where more than 100,000 nodes are near. Running out of memory is the only
/// refusal. These rules are this project's own.
pub fn search<J: Judge>(
    alloc: Global,
    judge: &mut J,
    grid: &Grid,
    roots: &[NodeBox],
    margin: u32,
    budget: u32,
) -> Result<Found, AllocError>
    requires grid { J.grid judge.old ≡ grid.now }
    requires judge_roots { J.roots judge.old ≡ roots.now }
    requires roots { AreRoots grid.now roots.now }
    requires margin { margin ≤ 999 }
    requires ready { J.ready judge.old }
    requires room { J.count judge.old + budget < 2 ^ 64 }
    // the judge
    ensures still { J.ready judge.new }
    ensures same_grid { J.grid judge.new ≡ J.grid judge.old }
    ensures same_roots { J.roots judge.new ≡ J.roots judge.old }
    ensures same_bounds { J.bound_of judge.new ≡ J.bound_of judge.old }
    // what is found
    ensures value { IfOk result (λ found.
        found_value found ≡ outcome_of grid.now roots.now (J.bound_of judge.old) margin budget) }
    ensures shortest { IfOk result
        (IsCoverShortest roots.now (J.bound_of judge.old) (event_threshold grid.now (J.bound_of judge.old) margin)) }
    ensures asked { IfOk result
        (Asks (J.count judge.old) (J.count judge.new) budget
        (event_met grid.now roots.now (J.bound_of judge.old) margin)) }
{
    let Some(explored) = explore(alloc, judge, roots, margin, budget)? else {
        return Ok(Found::Budget);
    };
    found_from(
        alloc,
        grid,
        &explored.met,
        roots.len(),
        explored.best,
        margin,
    )
}

/// What a search has found within its budget, from the boxes that it met, of which the first `roots` are the roots, and the best score.
pub fn found_from(
    alloc: Global,
    grid: &Grid,
    met: &[Met],
    roots: usize,
    best: u64,
    margin: u32,
) -> Result<Found, AllocError>
    requires margin { margin ≤ 999 }
    requires few { length met.now < 2 ^ 32 }
    requires ended { IsEnded grid.now margin met.now roots best }
    ensures { (all : List NodeBox) (bound : NodeBox → ℕ) → length all ≡ roots → AreRoots grid.now all
        → BoundsFall grid.now all bound → IsExplored grid.now all bound margin met.now best
        → IfOk result (λ found. found_value found ≡ found_of grid.now all bound margin) }
{
    let cover = collect_cover(alloc, met, roots)?;
    let count = met.len() as u32;
    if best == 0 {
        return Ok(Found::NoFit { cover, met: count });
    }
    let near = near_nodes(alloc, grid, &cover, threshold(margin, best))?;
    if near.len() > NEAR_LIMIT {
        return Ok(Found::NearLimit);
    }
    Ok(Found::Located(Located {
        hyp: first_with(&near, best),
        score: best,
        near,
        cover,
        met: count,
    }))
}
