//! A search by the events of a seed.
ghost use Rattle.std.specs.Prelude.{◌≡◌, ◌+◌, ◌^◌, ◌<◌, ◌≤◌, ◌==◌, if◌then◌else◌, IfOk, length};
ghost use Rattle.node_boxes.specs.Roots.{AreRoots};
ghost use Rattle.octree_search.specs.Fewest.{IsCoverShortest};
ghost use Rattle.octree_search.specs.Outcomes.{Asks, event_met, event_threshold, found_value, outcome_of};
ghost use Rattle.search_lanes.specs.LaneRuns.{IsFinishedRun};
ghost use Rattle.search_lanes.specs.Schedule.{schedule};

use crate::lane_events::{LaneEvent, StepFault};
use crate::lanes::Lanes;
use edt_score::Judge;
use node_boxes::{Grid, NodeBox};
use octree_search::Found;
use std::alloc::{AllocError, Global};

/// What a search over lanes has found, and its events, one after another.
#[derive(Drop)]
pub struct LaneRun {
    /// What was found.
    pub found: Found,
    /// What the lanes did.
    pub events: Vec<LaneEvent>,
}

/// Searches as `octree_search::search` does, divided over 1 to 64 lanes: what is found is the same, whatever the lanes and the seed. The judge
/// is asked once for each box that is met, and where the budget isn't passed these are as many as one search meets.
///
/// The events are the schedule of the seed, and a finished run. A generator begins with the seed modulo 2^64. While the run isn't finished,
/// it draws; where the draw is 0 modulo 64 and more than one lane is left, the greatest lane that is left is lost. Else a second draw chooses
/// among what the lanes can do, in their order: a lane that holds a box is done with it, and one without takes the first ready box. There are
/// at most `budget + 3 * lanes` events. A lost lane's box isn't asked for again. Running out of memory is the only refusal. These rules are this
/// project's own.
pub fn search_lanes<J: Judge>(
    alloc: Global,
    judge: &mut J,
    grid: &Grid,
    roots: &[NodeBox],
    lanes: u32,
    seed: i64,
    margin: u32,
    budget: u32,
) -> Result<LaneRun, AllocError>
    requires grid { J.grid judge.old ≡ grid.now }
    requires judge_roots { J.roots judge.old ≡ roots.now }
    requires roots { AreRoots grid.now roots.now }
    requires some { 1 ≤ lanes }
    requires lanes { lanes ≤ 64 }
    requires margin { margin ≤ 999 }
    requires ready { J.ready judge.old }
    requires room { J.count judge.old + budget < 2 ^ 64 }
    // the judge
    ensures still { J.ready judge.new }
    ensures same_grid { J.grid judge.new ≡ J.grid judge.old }
    ensures same_roots { J.roots judge.new ≡ J.roots judge.old }
    ensures same_bounds { J.bound_of judge.new ≡ J.bound_of judge.old }
    // what is found
    ensures value { IfOk result (λ run.
        found_value run.found ≡ outcome_of grid.now roots.now (J.bound_of judge.old) margin budget) }
    ensures shortest { IfOk result (λ run.
        IsCoverShortest roots.now (J.bound_of judge.old) (event_threshold grid.now (J.bound_of judge.old) margin)
        run.found) }
    ensures asked { IfOk result (λ run.
        Asks (J.count judge.old) (J.count judge.new) budget
        (event_met grid.now roots.now (J.bound_of judge.old) margin) run.found) }
    // what the lanes did
    ensures events { IfOk result (λ run.
        run.events.items ≡ schedule (J.bound_of judge.old) margin budget lanes seed roots.now) }
    ensures finished { IfOk result (λ run.
        (happened : IsFinishedRun (J.bound_of judge.old) margin budget lanes roots.now run.events.items)
        × (J.count judge.new ≡ J.count judge.old + happened.end.met)) }
{
    let mut shared = Lanes::begin(alloc, judge, grid, roots, lanes, margin, budget)?;
    let mut events = Vec::new(alloc);
    let mut state = seed.cast_unsigned();
    // so many open boxes at the front aren't ready
    let mut passed = 0;
    while let Some(event) = shared.next_event(&mut passed, &mut state) {
        let upper = shared.upper();
        match shared.step(judge, event) {
            Ok(()) => {}
            Err(StepFault::Memory) => return Err(AllocError),
            Err(StepFault::Impossible) => unreachable!(),
        }
        passed = still_passed(passed, upper, shared.upper());
        events.push(event)?;
    }
    let Some(found) = shared.outcome(alloc, judge)? else {
        unreachable!()
    };
    Ok(LaneRun { found, events })
}

// Open boxes that were passed over stay so as long as the greatest bound does.
fn still_passed(passed: usize, before: u64, now: u64) -> usize
    ensures { result ≡ (if before == now then passed else 0) }
{
    if before == now { passed } else { 0 }
}
