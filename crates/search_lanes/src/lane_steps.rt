//! What each kind of event does to lanes whose run isn't over.
ghost use Rattle.std.specs.Prelude.{◌≡◌, ℕ, List, ◌+◌, ◌-◌, ◌^◌, ◌<◌, ◌==◌, ◌++◌, false, if◌then◌else◌, slice_get};
ghost use Rattle.node_boxes.specs.declared.node_box.NodeBox.{NodeBox};
ghost use Rattle.node_boxes.specs.Grid.{GridSize};
ghost use Rattle.search_lanes.specs.LaneViews.{Fits, Steps};
ghost use Rattle.search_lanes.specs.Inside.Moves.{finished, lost, taken};
ghost use Rattle.search_lanes.specs.Inside.Slots.{busy, greatest_bound};

use crate::lane_events::StepFault;
use crate::lane_meets::open_box;
use crate::lane_slots::{
    Slot, greatest_held, greatest_open, held_at, is_free_at, is_live_at, is_low,
};
use crate::lanes::Lanes;
use edt_score::Judge;
use octree_search::Waiting;

impl Lanes {
    /// A lane takes the open box at a place.
    pub(crate) fn take(&mut self, lane: u32, place: u32) -> Result<(), StepFault>
        requires going { self.old.state.over ≡ false }
        ensures done { Steps (taken self.old.margin self.old.state lane place) self.old self.new result }
        ensures fits { (g : GridSize) (roots : List NodeBox) (bound : NodeBox → ℕ)
            → Fits g roots bound self.old → Fits g roots bound self.new }
    {
        if !is_free_at(&self.slots, lane) {
            return Err(StepFault::Impossible);
        }
        let Some(top) = open_box_at(&self.waiting, place) else {
            return Err(StepFault::Impossible);
        };
        if is_low(&top, self.margin, self.upper) {
            return Err(StepFault::Impossible);
        }
        self.waiting.remove(place as usize);
        self.slots[lane as usize] = Slot::Busy(top);
        Ok(())
    }

    /// A lane is lost: a box that it holds goes to the end of the open boxes.
    pub(crate) fn lose(&mut self, lane: u32) -> Result<(), StepFault>
        requires going { self.old.state.over ≡ false }
        ensures done { Steps (lost self.old.state lane) self.old self.new result }
        ensures fits { (g : GridSize) (roots : List NodeBox) (bound : NodeBox → ℕ)
            → Fits g roots bound self.old → Fits g roots bound self.new }
    {
        if !is_live_at(&self.slots, lane) {
            return Err(StepFault::Impossible);
        }
        let Some(held) = held_at(&self.slots, lane) else {
            self.slots[lane as usize] = Slot::Dead;
            return Ok(());
        };
        if let Err(_) = self.waiting.push(held) {
            return Err(StepFault::Memory);
        }
        self.slots[lane as usize] = Slot::Dead;
        Ok(())
    }

    /// A lane is done with its box: the box's children go to the end of the open boxes, or pass the budget.
    pub(crate) fn finish<J: Judge>(&mut self, judge: &mut J, lane: u32) -> Result<(), StepFault>
        requires going { self.old.state.over ≡ false }
        requires ready { J.ready judge.old }
        requires fits { Fits (J.grid judge.old) (J.roots judge.old) (J.bound_of judge.old) self.old }
        requires room { J.count judge.old + (self.old.budget - self.old.state.met) < 2 ^ 64 }
        // the judge
        ensures still { J.ready judge.new }
        ensures same_grid { J.grid judge.new ≡ J.grid judge.old }
        ensures same_roots { J.roots judge.new ≡ J.roots judge.old }
        ensures same_bounds { J.bound_of judge.new ≡ J.bound_of judge.old }
        ensures asked { J.count judge.new + self.old.state.met ≡ J.count judge.old + self.new.state.met }
        // the lanes
        ensures done { Steps
            (finished (J.bound_of judge.old) self.old.budget self.old.state lane) self.old self.new result }
        ensures fits { Fits (J.grid judge.new) (J.roots judge.new) (J.bound_of judge.new) self.new }
    {
        let Some(held) = held_at(&self.slots, lane) else {
            return Err(StepFault::Impossible);
        };
        if self.met.len() + held.area.children().len() > self.budget as usize {
            self.over = true;
            return Ok(());
        }
        if let Err(_) = open_box(judge, &mut self.met, &mut self.waiting, &held) {
            return Err(StepFault::Memory);
        }
        self.slots[lane as usize] = Slot::Free;
        self.upper = upper_after(&self.waiting, &self.slots, held.bound, self.upper);
        Ok(())
    }
}

// The open box at a place.
fn open_box_at(boxes: &[Waiting], place: u32) -> Option<Waiting>
    ensures { result ≡ slice_get boxes.now place }
{
    boxes.get(place as usize).copied()
}

// The greatest bound of the open boxes and those of the lanes, after a box with a bound was opened: only where it was the greatest one does
// this need a look at all of them.
fn upper_after(boxes: &[Waiting], slots: &[Slot], bound: u64, upper: u64) -> u64
    ensures { result ≡ (if bound == upper then greatest_bound (boxes.now ++ busy slots.now) else upper) }
{
    if bound == upper {
        greatest_open(boxes).max(greatest_held(slots))
    } else {
        upper
    }
}
