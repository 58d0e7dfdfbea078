//! The way down from a cell to the span of a box.
ghost use Rattle.std.specs.Prelude.{◌≡◌, ◌↔◌, ◌<◌, length, slice_get, MatchOption, IsSome, IsTrue, IfSome, Some};
ghost use Rattle.node_boxes.specs.Grid.{node_count};
ghost use Rattle.node_boxes.specs.Boxes.{IsIn, IsSplittable};
ghost use Rattle.node_boxes.specs.Children.{children_of};
ghost use Rattle.node_boxes.specs.Roots.{holders};
ghost use Rattle.minmax_pyramid.specs.Spans.{span_of, time_in};
ghost use Rattle.minmax_pyramid.specs.Inside.Cells.{IsReached};
ghost use Rattle.minmax_pyramid.specs.Inside.Below.{IsBelow, IsHolderAt, IsHolderPlace};

use crate::cell::{Cell, kid_of, reached_span};
use node_boxes::{Grid, NodeBox};

/// The span of a box that is `area` or lies in the octree below it, where the way down to `area` ends at this cell. `None` exactly where it is neither.
pub(crate) fn span_below(
    grid: &Grid,
    times: &[u32],
    area: &NodeBox,
    cell: &Cell,
    target: &NodeBox,
) -> Option<(u32, u32)>
    requires times { length times.now ≡ node_count grid.now }
    requires inside { IsIn grid.now area.now }
    requires cell { IsReached grid.now (time_in times.now) area.now cell.now }
    ensures some { IsSome result ↔ IsBelow target.now area.now }
    ensures span { IfSome result (λ span. span ≡ span_of grid.now (time_in times.now) target.now) }
{
    if is_same(area, target) {
        return Some(reached_span(grid, times, area, cell));
    }
    if area.is_single() {
        return None;
    }
    let (place, child) = child_with(area, target)?;
    span_below(grid, times, &child, kid_of(cell, place), target)
}

/// The child that holds the first node of another box, and its place. `None` exactly where no child does.
fn child_with(area: &NodeBox, target: &NodeBox) -> Option<(usize, NodeBox)>
    requires { IsSplittable area.now }
    ensures { MatchOption result
        (holders target.now.x0 target.now.y0 target.now.z0 (children_of area.now) ≡ 0)
        (λ found. IsHolderAt (children_of area.now) target.now found.0 found.1) }
{
    let children = area.children();
    for place in 0..children.len() {
        let Some(child) = children.get(place) else {
            break;
        };
        if child.contains(target.x0, target.y0, target.z0) {
            return Some((place, child));
        }
    }
    None
}

/// The place of a root that holds the first node of a box, tried first at a guess. `None` exactly where
/// no root does.
pub(crate) fn root_with(roots: &[NodeBox], guess: usize, target: &NodeBox) -> Option<usize>
    ensures { MatchOption result
        (holders target.now.x0 target.now.y0 target.now.z0 roots.now ≡ 0)
        (λ place. IsHolderPlace roots.now target.now place) }
{
    if guess < roots.len() && roots[guess].contains(target.x0, target.y0, target.z0) {
        return Some(guess);
    }
    for place in 0..roots.len() {
        if roots[place].contains(target.x0, target.y0, target.z0) {
            return Some(place);
        }
    }
    None
}

/// Whether two boxes are the same.
fn is_same(a: &NodeBox, b: &NodeBox) -> bool
    ensures { IsTrue result ↔ (a.now ≡ b.now) }
{
    a == b
}
