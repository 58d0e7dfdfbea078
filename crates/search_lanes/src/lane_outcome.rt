//! What lanes have found.
ghost use Rattle.std.specs.Prelude.{◌≡◌, ◌≤◌, false, true, IfOk, MatchOption, map};
ghost use Rattle.std.specs.List.{list_all};
ghost use Rattle.octree_search.specs.Fewest.{IsCoverShortest};
ghost use Rattle.octree_search.specs.Outcomes.{event_threshold, found_value, outcome_of};
ghost use Rattle.search_lanes.specs.Lanes.{is_finished, is_free};
ghost use Rattle.search_lanes.specs.LaneViews.{Fits};
ghost use Rattle.search_lanes.specs.Inside.Slots.{is_low, lane_of};

use crate::lane_slots::{Slot, is_low};
use crate::lanes::Lanes;
use edt_score::Judge;
use octree_search::{Found, Waiting, found_from};
use std::alloc::{AllocError, Global};

impl Lanes {
    /// Whether the run is finished: the budget was passed, or no lane holds a box and no open box is ready.
    pub fn is_finished(&self) -> bool
        ensures { result ≡ is_finished self.now.margin self.now.state }
    {
        self.over || (none_held(&self.slots) && none_ready(&self.waiting, self.margin, self.upper))
    }

    /// What a finished run has found: what one search of these roots finds. `None` exactly where the run isn't finished.
    ///
    /// The judge fits the lanes, and isn't asked. Running out of memory is the only refusal. These rules are this project's own.
    pub fn outcome<J: Judge>(&self, alloc: Global, judge: &J) -> Result<Option<Found>, AllocError>
        requires fits { Fits (J.grid judge.now) (J.roots judge.now) (J.bound_of judge.now) self.now }
        ensures value { IfOk result (λ found. MatchOption found
            (is_finished self.now.margin self.now.state ≡ false)
            (λ f. (is_finished self.now.margin self.now.state ≡ true)
            × (found_value f
            ≡ outcome_of self.now.grid self.now.roots (J.bound_of judge.now) self.now.margin self.now.budget))) }
        ensures shortest { IfOk result (λ found. MatchOption found (Unit {0})
            (IsCoverShortest self.now.roots (J.bound_of judge.now)
            (event_threshold self.now.grid (J.bound_of judge.now) self.now.margin))) }
    {
        // the judge is known to the contract alone
        let _ = judge;
        if !self.is_finished() {
            return Ok(None);
        }
        if self.over {
            return Ok(Some(Found::Budget));
        }
        // so that it is known to be below 2^32, and so are the boxes met
        let _ = self.budget as usize;
        let found = found_from(
            alloc,
            &self.grid,
            &self.met,
            self.roots.len(),
            self.upper,
            self.margin,
        )?;
        Ok(Some(found))
    }
}

// Whether no lane holds a box.
fn none_held(slots: &[Slot]) -> bool
    ensures { result ≡ list_all is_free (map lane_of slots.now) }
{
    for slot in slots {
        if let Slot::Busy(_) = slot {
            return false;
        }
    }
    true
}

// Whether no open box is ready.
fn none_ready(boxes: &[Waiting], margin: u32, upper: u64) -> bool
    requires { margin ≤ 999 }
    ensures { result ≡ list_all (is_low margin upper) boxes.now }
{
    for w in boxes {
        if !is_low(w, margin, upper) {
            return false;
        }
    }
    true
}
