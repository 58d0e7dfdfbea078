//! The near nodes of a cover.
ghost use Rattle.std.specs.Prelude.{◌≡◌, ◌≤◌, ◌==◌, ◌&&◌, nat_le, All, IfOk, length, option_map, unwrap_or};
ghost use Rattle.std.specs.List.{find};
ghost use Rattle.std.specs.List.Sorted.{IsNonDecreasingBy, IsPermutation};
ghost use Rattle.node_boxes.specs.Boxes.{IsIn, is_single};
ghost use Rattle.octree_search.specs.Inside.NearBoxes.{near_in};

use node_boxes::{BoxBound, Grid};
use std::alloc::{AllocError, Global};

/// The nodes of single boxes whose bounds reach a threshold, each with its bound, in grid order.
pub(crate) fn near_nodes(
    alloc: Global,
    grid: &Grid,
    cover: &[BoxBound],
    least: u64,
) -> Result<Vec<(u32, u64)>, AllocError>
    requires inside { All (λ b. IsIn grid.now b.area) cover.now }
    ensures same { IfOk result (λ near. IsPermutation (near_in grid.now least cover.now) near.items) }
    ensures order { IfOk result (λ near. IsNonDecreasingBy (λ e. e.0) near.items) }
{
    let mut near = list_near(alloc, grid, cover, least)?;
    near.sort_unstable_by_key(|entry| entry.0);
    Ok(near)
}

// The near nodes in the order of the cover.
fn list_near(
    alloc: Global,
    grid: &Grid,
    cover: &[BoxBound],
    least: u64,
) -> Result<Vec<(u32, u64)>, AllocError>
    requires inside { All (λ b. IsIn grid.now b.area) cover.now }
    ensures { IfOk result (λ near. near.items ≡ near_in grid.now least cover.now) }
{
    let mut near = Vec::with_capacity(alloc, near_count(cover, least))?;
    for b in cover {
        if is_near(b, least) {
            near.push((grid.node_number(b.area.x0, b.area.y0, b.area.z0), b.bound))?;
        }
    }
    Ok(near)
}

// How many near nodes there are at most.
fn near_count(cover: &[BoxBound], least: u64) -> usize
    ensures { result ≤ length cover.now }
{
    let mut count = 0;
    for b in cover {
        if is_near(b, least) {
            count += 1;
        }
    }
    count
}

// Whether the box is single and its bound reaches the threshold.
fn is_near(b: &BoxBound, least: u64) -> bool
    ensures { result ≡ (is_single b.now.area && nat_le least b.now.bound) }
{
    b.area.is_single() && least <= b.bound
}

/// The first of the near nodes with a score, 0 where none has it.
pub(crate) fn first_with(near: &[(u32, u64)], score: u64) -> u32
    ensures { result ≡ unwrap_or (option_map (λ e. e.0) (find (λ e. e.1 == score) near.now)) 0 }
{
    for entry in near {
        if entry.1 == score {
            return entry.0;
        }
    }
    0
}
