//! The next event of a schedule.
ghost use Rattle.std.specs.Prelude.{◌≡◌, ◌^◌, ◌<◌, ◌≤◌, ◌||◌, false, true, nat_lt, [], IfNone, IfSome, MatchOption, drop, length, map, slice_index_or};
ghost use Rattle.std.specs.Option.{option_to_list};
ghost use Rattle.node_boxes.specs.Boxes.{is_single};
ghost use Rattle.search_lanes.specs.declared.lane_events.LaneEvent.TheVariants.{Lost};
ghost use Rattle.search_lanes.specs.Lanes.{is_finished, is_live};
ghost use Rattle.search_lanes.specs.Schedule.{choices_from, choices_of, last_of, live_from, next_event, seed_after};
ghost use Rattle.search_lanes.specs.Inside.Choosing.{chosen_after, chosen_event, first_from};
ghost use Rattle.search_lanes.specs.Inside.Passing.{IsPassed};
ghost use Rattle.search_lanes.specs.Inside.Slots.{lane_of};

use crate::lane_events::LaneEvent;
use crate::lane_slots::Slot;
use crate::lanes::Lanes;
use edt_score::draw;
use octree_search::{Waiting, threshold};

impl Lanes {
    /// The next event by the draws of a generator, or `None` where the run is finished. It counts open boxes at the front that aren't
    /// ready, so that the next look-up can begin after them.
    pub(crate) fn next_event(&self, passed: &mut usize, state: &mut u64) -> Option<LaneEvent>
        requires some { 1 ≤ length (live_from 0 self.now.state.lanes) }
        requires lanes { length self.now.state.lanes ≤ 64 }
        requires boxes { length self.now.state.waiting < 2 ^ 32 }
        requires passed { IsPassed self.now.margin self.now.state passed.old }
        ensures event { MatchOption result
            (is_finished self.now.margin self.now.state ≡ true)
            (λ event. (is_finished self.now.margin self.now.state ≡ false)
            × (event ≡ next_event self.now.margin self.now.state state.old)) }
        ensures drawn { IfSome result (λ event. state.new ≡ seed_after self.now.state state.old) }
        ensures passed { IsPassed self.now.margin self.now.state passed.new }
    {
        if self.over {
            return None;
        }
        let least = threshold(self.margin, self.upper);
        let ready = first_ready(&self.waiting, *passed, least);
        *passed = count_before(ready, &self.waiting);
        next_choice(&self.slots, ready, state)
    }
}

// The first place of a box, after so many, that isn't single and whose bound reaches a threshold.
fn first_ready(boxes: &[Waiting], passed: usize, least: u64) -> Option<u32>
    requires few { length boxes.now < 2 ^ 32 }
    requires passed { passed ≤ length boxes.now }
    ensures { result ≡ first_from least passed (drop passed boxes.now) }
{
    let mut place = passed as u32;
    for w in &boxes[passed..] {
        if !is_below(w, least) {
            return Some(place);
        }
        place += 1;
    }
    None
}

// How many boxes stand before the first ready one.
fn count_before(ready: Option<u32>, boxes: &[Waiting]) -> usize
    ensures { MatchOption ready (result ≡ length boxes.now) (λ place. result ≡ place) }
{
    match ready {
        Some(place) => place as usize,
        None => boxes.len(),
    }
}

// Whether a box is single or its bound is below a threshold.
fn is_below(w: &Waiting, least: u64) -> bool
    ensures { result ≡ (is_single w.now.area || nat_lt w.now.bound least) }
{
    w.area.is_single() || w.bound < least
}

// What the lanes do next, where the first ready box has this place, or `None` where they can do nothing.
fn next_choice(slots: &[Slot], ready: Option<u32>, state: &mut u64) -> Option<LaneEvent>
    requires { length slots.now ≤ 64 }
    ensures none { IfNone result (choices_from 0 ready (map lane_of slots.now) ≡ []) }
    ensures some { IfSome result (λ event. (1 ≤ length (choices_from 0 ready (map lane_of slots.now)))
        × (event ≡ chosen_event ready (map lane_of slots.now) state.old)) }
    ensures drawn { IfSome result (λ event. state.new ≡ chosen_after (map lane_of slots.now) state.old) }
{
    let count = choice_count(slots, ready);
    if count == 0 {
        return None;
    }
    if draw(state) % 64 == 0 && live_count(slots) > 1 {
        return Some(LaneEvent::Lost {
            lane: last_live(slots),
        });
    }
    let place = draw(state) % count;
    Some(choice_at(slots, ready, place))
}

// How many lanes aren't gone.
fn live_count(slots: &[Slot]) -> u32
    requires { length slots.now ≤ 64 }
    ensures { result ≡ length (live_from 0 (map lane_of slots.now)) }
{
    let mut count = 0;
    for slot in slots {
        if is_live(slot) {
            count += 1;
        }
    }
    count
}

// The greatest lane that isn't gone, and 0 where there is none.
fn last_live(slots: &[Slot]) -> u32
    requires { length slots.now ≤ 64 }
    ensures { result ≡ last_of (live_from 0 (map lane_of slots.now)) }
{
    let mut last = 0;
    let mut lane = 0;
    for slot in slots {
        if is_live(slot) {
            last = lane;
        }
        lane += 1;
    }
    last
}

// Whether a lane isn't gone.
fn is_live(slot: &Slot) -> bool
    ensures { result ≡ is_live (lane_of slot.now) }
{
    match slot {
        Slot::Free | Slot::Busy(_) => true,
        Slot::Dead => false,
    }
}

// What a lane can do but be lost.
fn choice_of(lane: u32, ready: Option<u32>, slot: &Slot) -> Option<LaneEvent>
    ensures { option_to_list result ≡ choices_of lane ready (lane_of slot.now) }
{
    match slot {
        Slot::Free => ready.map(|place| LaneEvent::Take { lane, place }),
        Slot::Busy(_) => Some(LaneEvent::Done { lane }),
        Slot::Dead => None,
    }
}

// How many lanes can do something but be lost.
fn choice_count(slots: &[Slot], ready: Option<u32>) -> u32
    requires { length slots.now ≤ 64 }
    ensures { result ≡ length (choices_from 0 ready (map lane_of slots.now)) }
{
    let mut count = 0;
    let mut lane = 0;
    for slot in slots {
        if choice_of(lane, ready, slot).is_some() {
            count += 1;
        }
        lane += 1;
    }
    count
}

// What the lane can do that stands at a place among those that can do something.
fn choice_at(slots: &[Slot], ready: Option<u32>, place: u32) -> LaneEvent
    requires { length slots.now ≤ 64 }
    ensures { result ≡ slice_index_or (choices_from 0 ready (map lane_of slots.now)) place (Lost 0) }
{
    let mut left = place;
    let mut lane = 0;
    for slot in slots {
        if let Some(event) = choice_of(lane, ready, slot) {
            if left == 0 {
                return event;
            }
            left -= 1;
        }
        lane += 1;
    }
    LaneEvent::Lost { lane: 0 }
}
