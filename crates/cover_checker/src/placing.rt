//! Where the boxes of a cover lie: the marks of their nodes.

ghost use Rattle.std.specs.Prelude.{◌≡◌, ◌==◌, ◌<◌, ◌≤◌, ℕ, not, All, AllPairs, IfNone, length, slice_index, if◌then◌else◌, option_map};
ghost use Rattle.std.specs.List.{find, list_any, position_from};
ghost use Rattle.node_boxes.specs.Grid.{node_count};
ghost use Rattle.cover_checker.specs.Covers.{misplaced, uncovered};
ghost use Rattle.cover_checker.specs.Inside.Marking.{IsMarked};

use crate::verdict::Verdict;
use node_boxes::{BoxBound, BoxNodes, Grid};

/// Marks the nodes of each box with its place, from 1, until a box isn't in the grid or holds a marked
/// node.
#[tactic(auto, unfolding(crate::specs::Covers::misplaced))]
pub(crate) fn place_boxes(grid: &Grid, boxes: &[BoxBound], marks: &mut [u32]) -> Option<Verdict>
    requires few { length boxes.now ≤ 2000000 }
    requires marks { length marks.old ≡ node_count grid.now }
    ensures value { result ≡ misplaced grid.now boxes.now }
    ensures marked { IfNone result (IsMarked grid.now boxes.now marks.new) }
    ensures kept { length marks.new ≡ length marks.old }
{
    marks.fill(0);
    for (i, b) in boxes.iter().enumerate() {
        if !b.area.is_in(grid) {
            return Some(Verdict::Outside(i as u32));
        }
        if let Some(node) = mark_nodes(BoxNodes::new(grid, &b.area), marks, i as u32 + 1) {
            return Some(Verdict::Twice(node));
        }
    }
    None
}

/// Marks nodes until one is marked already, and answers that one.
fn mark_nodes(mut nodes: BoxNodes, marks: &mut [u32], mark: u32) -> Option<u32>
    requires inside { All (λ node. node < length marks.old) nodes }
    requires order { AllPairs ◌<◌ nodes }
    ensures first { result ≡ find (λ node. not (slice_index marks.old node == 0)) nodes }
    ensures marked { IfNone result ((k : ℕ) → k < length marks.old → slice_index marks.new k
        ≡ (if list_any (λ node. node == k) nodes then mark else slice_index marks.old k)) }
    ensures kept { length marks.new ≡ length marks.old }
{
    while let Some(node) = nodes.next() {
        if marks[node as usize] != 0 {
            return Some(node);
        }
        marks[node as usize] = mark;
    }
    None
}

/// The least node that no box of a placed cover holds.
#[tactic(auto, unfolding(crate::specs::Covers::uncovered))]
pub(crate) fn free_node(grid: &Grid, boxes: &[BoxBound], marks: &[u32]) -> Option<Verdict>
    requires marks { length marks.now ≡ node_count grid.now }
    requires marked { IsMarked grid.now boxes.now marks.now }
    ensures { result ≡ uncovered grid.now boxes.now }
{
    let _nodes = grid.nodes();
    let Some(node) = first_zero(marks) else {
        return None;
    };
    Some(Verdict::Uncovered(node))
}

/// The first place of a mark that is 0.
fn first_zero(marks: &[u32]) -> Option<u32>
    requires few { length marks.now ≤ 2000000 }
    ensures { result ≡ position_from (λ mark. mark == 0) 0 marks.now }
{
    for (node, mark) in marks.iter().enumerate() {
        if *mark == 0 {
            return Some(node as u32);
        }
    }
    None
}
