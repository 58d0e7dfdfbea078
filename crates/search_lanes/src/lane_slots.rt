//! What the code keeps of a lane.
ghost use Rattle.std.specs.Prelude.{◌≡◌, ◌≤◌, IfOk, replicate, slice_get};
ghost use Rattle.search_lanes.specs.Inside.Slots.{busy, greatest_bound, held_slot, is_free_slot, is_live_slot, is_low};

use octree_search::{Waiting, threshold};
use std::alloc::{AllocError, Global};

/// A lane, with the place of its box among those that were met.
#[derive(Clone, Copy, PartialEq, Eq, Debug)]
pub(crate) enum Slot {
    /// It has no box, and can take one.
    Free,
    /// It holds a box.
    Busy(Waiting),
    /// It is gone for good.
    Dead,
}

/// So many lanes that have no box.
pub(crate) fn free_slots(alloc: Global, lanes: u32) -> Result<Vec<Slot>, AllocError>
    ensures { IfOk result (λ slots. slots.items ≡ replicate lanes Slot.Free) }
{
    Vec::from_elem(alloc, Slot::Free, lanes as usize)
}

/// Whether there is such a lane and it can take a box.
pub(crate) fn is_free_at(slots: &[Slot], lane: u32) -> bool
    ensures { result ≡ is_free_slot (slice_get slots.now lane) }
{
    let Some(slot) = slots.get(lane as usize) else {
        return false;
    };
    match slot {
        Slot::Free => true,
        Slot::Busy(_) | Slot::Dead => false,
    }
}

/// Whether there is such a lane and it isn't gone.
pub(crate) fn is_live_at(slots: &[Slot], lane: u32) -> bool
    ensures { result ≡ is_live_slot (slice_get slots.now lane) }
{
    let Some(slot) = slots.get(lane as usize) else {
        return false;
    };
    match slot {
        Slot::Free | Slot::Busy(_) => true,
        Slot::Dead => false,
    }
}

/// The box of a lane, where there is such a lane and it holds one.
pub(crate) fn held_at(slots: &[Slot], lane: u32) -> Option<Waiting>
    ensures { result ≡ held_slot (slice_get slots.now lane) }
{
    let Some(slot) = slots.get(lane as usize) else {
        return None;
    };
    match slot {
        Slot::Busy(held) => Some(*held),
        Slot::Free | Slot::Dead => None,
    }
}

/// Whether a box isn't ready: it is single, or its bound is below the threshold of the greatest bound.
pub(crate) fn is_low(w: &Waiting, margin: u32, upper: u64) -> bool
    requires { margin ≤ 999 }
    ensures { result ≡ is_low margin upper w.now }
{
    w.area.is_single() || w.bound < threshold(margin, upper)
}

/// The greatest bound of some boxes, and 0 where there is none.
pub(crate) fn greatest_open(boxes: &[Waiting]) -> u64
    ensures { result ≡ greatest_bound boxes.now }
{
    let mut most: u64 = 0;
    for w in boxes {
        most = most.max(w.bound);
    }
    most
}

/// The greatest bound of the boxes that lanes hold, and 0 where there is none.
pub(crate) fn greatest_held(slots: &[Slot]) -> u64
    ensures { result ≡ greatest_bound (busy slots.now) }
{
    let mut most: u64 = 0;
    for slot in slots {
        if let Slot::Busy(w) = slot {
            most = most.max(w.bound);
        }
    }
    most
}
