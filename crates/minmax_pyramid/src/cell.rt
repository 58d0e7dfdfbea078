//! The octree of least and greatest times of one row below a box.
ghost use Rattle.std.specs.Prelude.{◌≡◌, ℕ, ◌-◌, ◌<◌, ◌≤◌, length, nat_le, slice_get, Some, IfOk};
ghost use Rattle.node_boxes.specs.declared.node_box.NodeBox.{NodeBox};
ghost use Rattle.node_boxes.specs.Grid.{GridSize, node_count};
ghost use Rattle.node_boxes.specs.Boxes.{IsIn, IsNonempty};
ghost use Rattle.node_boxes.specs.Children.{children_of};
ghost use Rattle.minmax_pyramid.specs.Spans.{span_of, time_in};
ghost use Rattle.node_boxes.specs.Inside.BoxWalks.{runs_from};
ghost use Rattle.minmax_pyramid.specs.Inside.Joins.{highest, lowest, reach_of, reach_over};
ghost use Rattle.minmax_pyramid.specs.Inside.Cells.{IsCell, IsReached, is_small};

use node_boxes::{Grid, NodeBox};
use std::alloc::{AllocError, Global};

/// The octree of one row of times below a box: the least and the greatest time of its nodes and, where it
/// has more than four nodes on an axis, the cells of its children, in their order.
#[derive(Drop)]
pub enum Cell {
    One {
        least: u32,
        greatest: u32,
    },
    Split {
        least: u32,
        greatest: u32,
        kids: Vec<Cell>,
    },
}

/// The cell of a box in the grid. Running out of memory is the only refusal.
pub(crate) fn build_cell(
    alloc: Global,
    grid: &Grid,
    times: &[u32],
    area: &NodeBox,
) -> Result<Cell, AllocError>
    requires times { length times.now ≡ node_count grid.now }
    requires inside { IsIn grid.now area.now }
    ensures { IfOk result (IsCell grid.now (time_in times.now) area.now) }
{
    if is_small(area) {
        let (least, greatest) = box_span(grid, times, area);
        return Ok(Cell::One { least, greatest });
    }
    let children = area.children();
    let mut kids = Vec::with_capacity(alloc, children.len())?;
    let mut least: u32 = u32::MAX;
    let mut greatest: u32 = 0;
    for place in 0..children.len() {
        let Some(child) = children.get(place) else {
            break;
        };
        let kid = build_cell(alloc, grid, times, &child)?;
        let (low, high) = own_span(&kid);
        least = least.min(low);
        greatest = greatest.max(high);
        kids.push(kid)?;
    }
    Ok(Cell::Split {
        least,
        greatest,
        kids,
    })
}

/// The least and the greatest time of the nodes of the box whose cell this is.
pub(crate) fn own_span(cell: &Cell) -> (u32, u32)
    ensures { (g : GridSize) (time : ℕ → ℕ) (a : NodeBox) → IsCell g time a cell.now → result ≡ reach_of g time a }
{
    match cell {
        Cell::One { least, greatest } => (*least, *greatest),
        Cell::Split {
            least,
            greatest,
            ..
        } => (*least, *greatest),
    }
}

/// The least and the greatest time of the nodes of a box, where the way down to it ends at this cell.
pub(crate) fn reached_span(grid: &Grid, times: &[u32], area: &NodeBox, cell: &Cell) -> (u32, u32)
    requires times { length times.now ≡ node_count grid.now }
    requires inside { IsIn grid.now area.now }
    requires cell { IsReached grid.now (time_in times.now) area.now cell.now }
    ensures { result ≡ reach_of grid.now (time_in times.now) area.now }
{
    match cell {
        Cell::One { .. } => box_span(grid, times, area),
        Cell::Split {
            least,
            greatest,
            ..
        } => (*least, *greatest),
    }
}

/// The least and the greatest time of the nodes of the child at a place, where the way down to its parent
/// ends at this cell.
pub(crate) fn child_span(
    grid: &Grid,
    times: &[u32],
    child: &NodeBox,
    cell: &Cell,
    place: usize,
) -> (u32, u32)
    requires times { length times.now ≡ node_count grid.now }
    requires inside { IsIn grid.now child.now }
    ensures { (a : NodeBox) → slice_get (children_of a) place ≡ Some child.now
        → IsReached grid.now (time_in times.now) a cell.now → result ≡ reach_of grid.now (time_in times.now) child.now }
{
    let Cell::Split { kids, .. } = cell else {
        return low_span(grid, times, child);
    };
    if place < kids.len() {
        own_span(&kids[place])
    } else {
        low_span(grid, times, child)
    }
}

/// Where the way down to the child at a place ends, if that to its parent ends at this cell: at the cell of
/// the child, or at that of a small box above it.
pub(crate) fn kid_of(cell: &Cell, place: usize) -> &Cell
    ensures { (g : GridSize) (time : ℕ → ℕ) (a c : NodeBox) → IsNonempty a
        → slice_get (children_of a) place ≡ Some c → IsReached g time a cell.now → IsReached g time c result.now }
{
    let Cell::Split { kids, .. } = cell else {
        return cell;
    };
    if place < kids.len() {
        &kids[place]
    } else {
        cell
    }
}

/// The least and the greatest time of the nodes of a box low in the octree, where most are single.
fn low_span(grid: &Grid, times: &[u32], area: &NodeBox) -> (u32, u32)
    requires times { length times.now ≡ node_count grid.now }
    requires inside { IsIn grid.now area.now }
    ensures { result ≡ reach_of grid.now (time_in times.now) area.now }
{
    if area.is_single() {
        let node = grid.node_number(area.x0, area.y0, area.z0);
        let time = times[node as usize];
        return (time, time);
    }
    box_span(grid, times, area)
}

/// The span of a box, from the times of all its nodes.
pub(crate) fn span_by_nodes(grid: &Grid, times: &[u32], area: &NodeBox) -> (u32, u32)
    requires times { length times.now ≡ node_count grid.now }
    requires inside { IsIn grid.now area.now }
    ensures { result ≡ span_of grid.now (time_in times.now) area.now }
{
    box_span(grid, times, area)
}

/// The least and the greatest time of the nodes of a box.
fn box_span(grid: &Grid, times: &[u32], area: &NodeBox) -> (u32, u32)
    requires times { length times.now ≡ node_count grid.now }
    requires inside { IsIn grid.now area.now }
    ensures { result ≡ reach_of grid.now (time_in times.now) area.now }
{
    let mut least: u32 = u32::MAX;
    let mut greatest: u32 = 0;
    for ix in area.x0..area.x1 {
        let (low, high) = layer_span(grid, times, area, ix);
        least = least.min(low);
        greatest = greatest.max(high);
    }
    (least, greatest)
}

/// The least and the greatest time of the nodes of a box at one place on x.
fn layer_span(grid: &Grid, times: &[u32], area: &NodeBox, ix: u32) -> (u32, u32)
    requires times { length times.now ≡ node_count grid.now }
    requires inside { IsIn grid.now area.now }
    requires from { area.now.x0 ≤ ix }
    requires to { ix < area.now.x1 }
    ensures { result ≡ reach_over (time_in times.now) (runs_from grid.now area.now ix area.now.y0) }
{
    let mut least: u32 = u32::MAX;
    let mut greatest: u32 = 0;
    for iy in area.y0..area.y1 {
        let start = grid.node_number(ix, iy, area.z0) as usize;
        let end = start + (area.z1 - area.z0) as usize;
        let (low, high) = run_span(&times[start..end]);
        least = least.min(low);
        greatest = greatest.max(high);
    }
    (least, greatest)
}

/// The least and the greatest of a run of times.
fn run_span(run: &[u32]) -> (u32, u32)
    ensures { result ≡ (lowest run.now, highest run.now) }
{
    let mut least: u32 = u32::MAX;
    let mut greatest: u32 = 0;
    for time in run {
        least = least.min(*time);
        greatest = greatest.max(*time);
    }
    (least, greatest)
}

/// Whether a box has at most four nodes on each axis.
pub(crate) fn is_small(area: &NodeBox) -> bool
    ensures { result ≡ is_small area.now }
{
    is_short(area.x0, area.x1) && is_short(area.y0, area.y1) && is_short(area.z0, area.z1)
}

/// Whether a range has at most four nodes.
fn is_short(low: u32, high: u32) -> bool
    ensures { result ≡ nat_le (high - low) 4 }
{
    high.saturating_sub(low) <= 4
}
