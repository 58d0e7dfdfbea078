//! Several lanes over one frontier of boxes.
ghost use Rattle.std.specs.Prelude.{◌≡◌, ◌+◌, ◌-◌, ◌^◌, ◌<◌, ◌≤◌, IfErr, IfOk, length};
ghost use Rattle.node_boxes.specs.Roots.{AreRoots};
ghost use Rattle.search_lanes.specs.Lanes.{start, step, upper_of};
ghost use Rattle.search_lanes.specs.LaneViews.{Fits, Steps};

use crate::lane_events::{LaneEvent, StepFault};
use crate::lane_meets::meet_all;
use crate::lane_slots::{Slot, free_slots, greatest_open};
use edt_score::Judge;
use node_boxes::{Grid, NodeBox};
use octree_search::{Met, Waiting};
use std::alloc::{AllocError, Global};
use std::marker::Model;

/// A search that lanes share. It is seen as the open boxes with their bounds, in order, the lanes, how many boxes were met, and whether the
/// budget was passed, with the grid, the roots, the margin in thousandths and the budget. It holds no judge: each call is handed one that
/// fits it.
#[derive(Drop)]
pub struct Lanes {
    pub(crate) grid: Grid,
    pub(crate) roots: Vec<NodeBox>,
    pub(crate) margin: u32,
    pub(crate) budget: u32,
    pub(crate) met: Vec<Met>,
    pub(crate) waiting: Vec<Waiting>,
    pub(crate) slots: Vec<Slot>,
    // the greatest bound of the open boxes and those of the lanes
    pub(crate) upper: u64,
    pub(crate) over: bool,
}

impl Model for Lanes {
    ghost use Rattle.std.specs.Prelude.{length};
    ghost use Rattle.search_lanes.specs.LaneViews.{LanesView};
    ghost use Rattle.search_lanes.specs.Inside.Slots.{view_of};
    ghost use Rattle.search_lanes.specs.Inside.Whole.{IsWhole};

    ghost Value = { LanesView };

    ghost view = { λ l.
        view_of l.grid l.roots.items l.margin l.budget l.waiting.items l.slots.items (length l.met.items) l.over };

    ghost invariant = { λ l.
        IsWhole l.grid l.roots.items l.margin l.budget l.met.items l.waiting.items l.slots.items l.upper l.over };
}

impl Lanes {
    /// The start of a search that 1 to 64 lanes share: no lane has a box, and the roots are open. Where there are more roots than the
    /// budget, the run is over at once.
    ///
    /// The judge is asked once per root, and not at all where the run is over at once. Running out of memory is the only refusal; memory is taken
    /// before the judge is asked. These rules are this project's own.
    pub fn begin<J: Judge>(
        alloc: Global,
        judge: &mut J,
        grid: &Grid,
        roots: &[NodeBox],
        lanes: u32,
        margin: u32,
        budget: u32,
    ) -> Result<Lanes, AllocError>
        requires grid { J.grid judge.old ≡ grid.now }
        requires judge_roots { J.roots judge.old ≡ roots.now }
        requires roots { AreRoots grid.now roots.now }
        requires some { 1 ≤ lanes }
        requires lanes { lanes ≤ 64 }
        requires margin { margin ≤ 999 }
        requires ready { J.ready judge.old }
        requires room { J.count judge.old + budget < 2 ^ 64 }
        // the judge
        ensures still { J.ready judge.new }
        ensures same_grid { J.grid judge.new ≡ J.grid judge.old }
        ensures same_roots { J.roots judge.new ≡ J.roots judge.old }
        ensures same_bounds { J.bound_of judge.new ≡ J.bound_of judge.old }
        ensures asked { IfOk result (λ l. J.count judge.new ≡ J.count judge.old + l.state.met) }
        ensures unasked { IfErr result (λ e. J.count judge.new ≡ J.count judge.old) }
        // the lanes
        ensures value { IfOk result (λ l. l ≡ record {
          state = start (J.bound_of judge.old) budget lanes roots.now;
          grid = grid.now;
          roots = roots.now;
          margin = margin;
          budget = budget;
        }) }
        ensures fits { IfOk result (Fits (J.grid judge.new) (J.roots judge.new) (J.bound_of judge.new)) }
    {
        // a grid has nodes, so there is a root
        let _ = grid.x();
        let slots = free_slots(alloc, lanes)?;
        let mut copied = Vec::with_capacity(alloc, roots.len())?;
        copied.extend_from_slice(roots)?;
        if roots.len() > budget as usize {
            return Ok(Lanes {
                grid: *grid,
                roots: copied,
                margin,
                budget,
                met: Vec::new(alloc),
                waiting: Vec::new(alloc),
                slots,
                upper: 0,
                over: true,
            });
        }
        let mut met = Vec::with_capacity(alloc, roots.len())?;
        let mut waiting = Vec::with_capacity(alloc, roots.len())?;
        meet_all(judge, &mut met, &mut waiting, roots);
        let upper = greatest_open(&waiting);
        Ok(Lanes {
            grid: *grid,
            roots: copied,
            margin,
            budget,
            met,
            waiting,
            slots,
            upper,
            over: false,
        })
    }

    /// Lets an event happen, as one step.
    ///
    /// The judge fits the lanes, and its count of questions and the budget less the boxes met are together below 2^64; both hold again
    /// afterwards. The judge is asked once for each box that is met. `Impossible` comes exactly where the event isn't possible, then
    /// `Memory`; after a refusal nothing has changed, and the judge wasn't asked. These rules are this project's own.
    pub fn step<J: Judge>(&mut self, judge: &mut J, event: LaneEvent) -> Result<(), StepFault>
        requires ready { J.ready judge.old }
        requires fits { Fits (J.grid judge.old) (J.roots judge.old) (J.bound_of judge.old) self.old }
        requires room { J.count judge.old + (self.old.budget - self.old.state.met) < 2 ^ 64 }
        // the judge
        ensures still { J.ready judge.new }
        ensures same_grid { J.grid judge.new ≡ J.grid judge.old }
        ensures same_roots { J.roots judge.new ≡ J.roots judge.old }
        ensures same_bounds { J.bound_of judge.new ≡ J.bound_of judge.old }
        ensures asked { J.count judge.new + self.old.state.met ≡ J.count judge.old + self.new.state.met }
        // the lanes
        ensures done { Steps
            (step (J.bound_of judge.old) self.old.margin self.old.budget self.old.state event) self.old self.new result }
        ensures fits { Fits (J.grid judge.new) (J.roots judge.new) (J.bound_of judge.new) self.new }
        ensures room { J.count judge.new + (self.new.budget - self.new.state.met) < 2 ^ 64 }
    {
        if self.over {
            return Err(StepFault::Impossible);
        }
        match event {
            LaneEvent::Take { lane, place } => self.take(lane, place),
            LaneEvent::Done { lane } => self.finish(judge, lane),
            LaneEvent::Lost { lane } => self.lose(lane),
        }
    }

    /// The greatest bound of the open boxes and those of the lanes, and 0 where there is no box.
    pub(crate) fn upper(&self) -> u64
        ensures { result ≡ upper_of self.now.state }
    {
        self.upper
    }
}
