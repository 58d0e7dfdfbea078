//! The cover, read off the boxes that were met.
ghost use Rattle.std.specs.Prelude.{◌≡◌, ℕ, ◌≤◌, ◌<◌, ◌++◌, [], All, OnOk, IfOk, length, map, take, slice_index_or};
ghost use Rattle.std.specs.List.{flat_map};
ghost use Rattle.node_boxes.specs.declared.node_box.NodeBox.{NodeBox};
ghost use Rattle.octree_search.specs.Cover.{cover, cover_of};
ghost use Rattle.octree_search.specs.Outcomes.{bounded};
ghost use Rattle.octree_search.specs.Arena.{IsSettled, IsTree, areas_met, no_box};

use crate::arena::Met;
use node_boxes::BoxBound;
use std::alloc::{AllocError, Global};

/// The boxes of the cover of the first `count` boxes that were met, each with its bound, in the order of the octree.
pub(crate) fn collect_cover(
    alloc: Global,
    met: &[Met],
    count: usize,
) -> Result<Vec<BoxBound>, AllocError>
    requires tree { IsTree met.now }
    requires count { count ≤ length met.now }
    ensures { (bound : NodeBox → ℕ) (t : ℕ) → All (IsSettled bound t) met.now
        → IfOk result (λ boxes. boxes.items ≡ map (bounded bound) (cover_of bound t (take count (areas_met met.now)))) }
{
    let mut boxes = Vec::with_capacity(alloc, leaf_count(met))?;
    for place in 0..count {
        push_cover(met, place, &mut boxes)?;
    }
    Ok(boxes)
}

// How many boxes weren't opened.
fn leaf_count(met: &[Met]) -> usize
    ensures { result ≤ length met.now }
{
    let mut count = 0;
    for m in met {
        if m.first_child.is_none() {
            count += 1;
        }
    }
    count
}

// Adds the cover of the box at a place.
fn push_cover(met: &[Met], place: usize, boxes: &mut Vec<BoxBound>) -> Result<(), AllocError>
    requires tree { IsTree met.now }
    requires place { place < length met.now }
    ensures { (bound : NodeBox → ℕ) (t : ℕ) → All (IsSettled bound t) met.now
        → OnOk result (boxes.new.items
        ≡ boxes.old.items ++ map (bounded bound) (cover bound t (slice_index_or met.now place no_box).area)) }
{
    let here = met[place];
    let Some(first_child) = here.first_child else {
        boxes.push(BoxBound {
            area: here.area,
            bound: here.bound,
        })?;
        return Ok(());
    };
    for child in 0..here.area.children().len() {
        push_cover(met, first_child as usize + child, boxes)?;
    }
    Ok(())
}
