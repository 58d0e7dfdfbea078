//! Rows of travel times, each with the octree of its least and greatest times.
ghost use Rattle.std.specs.Prelude.{◌≡◌, ℕ, [], ◌∷◌, ◌++◌, ◌<◌, ◌≤◌, ◌↔◌, length, IfOk, IfSome, IsSome, IsTrue, OnErr, OnOk, slice_get};
ghost use Rattle.std.specs.List.{AllZip};
ghost use Rattle.node_boxes.specs.declared.node_box.NodeBox.{NodeBox};
ghost use Rattle.node_boxes.specs.Grid.{GridSize, node_count};
ghost use Rattle.node_boxes.specs.Boxes.{IsIn, IsNonempty, IsSplittable};
ghost use Rattle.node_boxes.specs.Children.{children_of};
ghost use Rattle.node_boxes.specs.Roots.{AreRoots};
ghost use Rattle.node_boxes.specs.Octree.{IsOctreeBox};
ghost use Rattle.minmax_pyramid.specs.Spans.{span_of, time_in};
ghost use Rattle.minmax_pyramid.specs.Families.{AreSpans, FamilyWay, IsFamilyOf, IsWay};
ghost use Rattle.minmax_pyramid.specs.Rows.{RowTimes, row_times};
ghost use Rattle.minmax_pyramid.specs.Inside.Cells.{IsCell, IsReached};

use crate::cell::{Cell, build_cell, child_span, is_small, kid_of, span_by_nodes};
use crate::descent::{root_with, span_below};
use crate::family::{Family, find_family};
use crate::root_counts::RootCounts;
use node_boxes::{Grid, NodeBox};
use std::alloc::{AllocError, Global};
use std::marker::Model;

/// Rows of travel times over one grid, each with the octree of its least and greatest times. All rows
/// share the roots.
#[derive(Drop)]
pub struct PyramidRows {
    grid: Grid,
    roots: Vec<NodeBox>,
    counts: RootCounts,
    rows: Vec<Row>,
}

/// One time per node, in grid order, and one cell per root.
#[derive(Drop)]
struct Row {
    times: Vec<u32>,
    cells: Vec<Cell>,
}

impl Model for PyramidRows {
    ghost use Rattle.minmax_pyramid.specs.Rows.{RowTimes};
    ghost use Rattle.minmax_pyramid.specs.Inside.RowCells.{AreRows, times_of};

    ghost Value = { RowTimes };

    ghost view = { λ p. record { grid = p.grid; roots = p.roots.items; rows = times_of p.rows.items } };

    ghost invariant = { λ p. AreRows p.grid p.roots.items p.rows.items };
}

impl PyramidRows {
    /// No rows yet, over this grid and its roots, which `node_boxes::roots` gave for it.
    pub fn new(alloc: Global, grid: Grid, roots: Vec<NodeBox>) -> PyramidRows
        requires { AreRoots grid roots.items }
        ensures { result ≡ record { grid = grid; roots = roots.items; rows = [] } }
    {
        let counts = RootCounts::of(&roots);
        PyramidRows {
            grid,
            roots,
            counts,
            rows: Vec::new(alloc),
        }
    }

    /// Adds a row of one time per node, in grid order. Running out of memory is the only refusal, and after it the
    /// rows are unchanged.
    pub fn push_row(&mut self, alloc: Global, times: Vec<u32>) -> Result<(), AllocError>
        requires { length times.items ≡ node_count self.old.grid }
        ensures ok { OnOk result (self.new ≡ record self.old { rows = self.old.rows ++ times.items ∷ [] }) }
        ensures err { OnErr result (self.new ≡ self.old) }
    {
        let cells = build_cells(alloc, &self.grid, &times, &self.roots)?;
        self.rows.push(Row { times, cells })?;
        Ok(())
    }

    /// How many rows there are.
    pub fn rows(&self) -> usize
        ensures { result ≡ length self.now.rows }
    {
        self.rows.len()
    }

    /// The grid.
    pub fn grid(&self) -> &Grid
        ensures { result.now ≡ self.now.grid }
    {
        &self.grid
    }

    /// The roots.
    pub fn roots(&self) -> &[NodeBox]
        ensures value { result.now ≡ self.now.roots }
        ensures roots { AreRoots self.now.grid self.now.roots }
    {
        &self.roots
    }

    /// The time of a row at a node.
    pub fn time(&self, row: usize, node: u32) -> u32
        requires row { row < length self.now.rows }
        requires node { node < node_count self.now.grid }
        ensures { result ≡ row_times self.now row node }
    {
        let row = &self.rows[row];
        row.times[node as usize]
    }

    /// The least and the greatest time of a row at the nodes of a box. `None` exactly where the box is no
    /// octree box of the roots. Takes no memory.
    pub fn span(&self, row: usize, area: &NodeBox) -> Option<(u32, u32)>
        requires { row < length self.now.rows }
        ensures some { IsSome result ↔ IsOctreeBox self.now.roots area.now }
        ensures span { IfSome result (λ span. span ≡ span_of self.now.grid (row_times self.now row) area.now) }
    {
        let place = root_with(&self.roots, self.counts.guess(&self.grid, area), area)?;
        let row = &self.rows[row];
        span_below(
            &self.grid,
            &row.times,
            &self.roots[place],
            &row.cells[place],
            area,
        )
    }

    /// The least and the greatest time of a row at the nodes of a box of any grid with as many nodes: of a
    /// large octree box of this grid from its octree, else from the times of all nodes of the box. Takes no
    /// memory.
    pub fn span_in(&self, row: usize, grid: &Grid, area: &NodeBox) -> (u32, u32)
        requires row { row < length self.now.rows }
        requires nodes { node_count grid.now ≡ node_count self.now.grid }
        requires inside { IsIn grid.now area.now }
        ensures { result ≡ span_of grid.now (row_times self.now row) area.now }
    {
        if let Some(span) = self.span_of_large(row, grid, area) {
            return span;
        }
        let row = &self.rows[row];
        span_by_nodes(grid, &row.times, area)
    }

    /// The least and the greatest time of a row at the nodes of a box that has more than four nodes on an
    /// axis and is an octree box of this grid.
    fn span_of_large(&self, row: usize, grid: &Grid, area: &NodeBox) -> Option<(u32, u32)>
        requires { row < length self.now.rows }
        ensures { IfSome result (λ span. span ≡ span_of grid.now (row_times self.now row) area.now) }
    {
        if is_small(area) || !is_same_grid(grid, &self.grid) {
            return None;
        }
        self.span(row, area)
    }

    /// The family that a box belongs to, with the way down to it. `None` only where it isn't found, as
    /// for a root. Takes no memory.
    pub fn find_family(&self, area: &NodeBox) -> Option<Family>
        ensures { IfSome result (λ family. IsFamilyOf self.now.roots family) }
    {
        let root = root_with(&self.roots, self.counts.guess(&self.grid, area), area)?;
        find_family(&self.roots, root, area)
    }

    /// Writes the spans of a row over the children of a family, each at its place. Takes no memory.
    pub fn family_spans(&self, row: usize, family: &Family, spans: &mut [(u32, u32); 8])
        requires row { row < length self.now.rows }
        requires family { IsFamilyOf self.now.roots family.now }
        ensures room { length spans.new ≡ 8 }
        ensures spans { AreSpans self.now.grid (row_times self.now row) family.now.parent spans.new }
    {
        let row = &self.rows[row];
        let cell = go_down(&row.cells[family.root()], family.places());
        fill_spans(
            &self.grid,
            &row.times,
            &family.parent(),
            family.children(),
            cell,
            spans,
        );
    }
}

/// Whether two grids have the same nodes.
fn is_same_grid(a: &Grid, b: &Grid) -> bool
    ensures { IsTrue result → a.now ≡ b.now }
{
    a.x() == b.x() && a.y() == b.y() && a.z() == b.z()
}

/// The cells of the roots.
fn build_cells(
    alloc: Global,
    grid: &Grid,
    times: &[u32],
    roots: &[NodeBox],
) -> Result<Vec<Cell>, AllocError>
    requires times { length times.now ≡ node_count grid.now }
    requires roots { AreRoots grid.now roots.now }
    ensures { IfOk result (λ cells. AllZip (IsCell grid.now (time_in times.now)) roots.now cells.items) }
{
    let mut cells = Vec::with_capacity(alloc, roots.len())?;
    for root in roots {
        cells.push(build_cell(alloc, grid, times, root)?)?;
    }
    Ok(cells)
}

/// The cell at which a way down ends.
fn go_down<'a>(top: &'a Cell, places: &[u8]) -> &'a Cell
    ensures { (g : GridSize) (time : ℕ → ℕ) (a b : NodeBox) → IsWay a places.now b
        → IsReached g time a top.now → IsReached g time b result.now }
{
    let mut cell = top;
    for place in places {
        cell = kid_of(cell, *place as usize);
    }
    cell
}

/// Writes the spans of all children of a box, where the way down to it ends at this cell.
fn fill_spans(
    grid: &Grid,
    times: &[u32],
    parent: &NodeBox,
    children: &[NodeBox],
    cell: &Cell,
    spans: &mut [(u32, u32); 8],
)
    requires times { length times.now ≡ node_count grid.now }
    requires inside { IsIn grid.now parent.now }
    requires split { IsSplittable parent.now }
    requires children { children.now ≡ children_of parent.now }
    requires cell { IsReached grid.now (time_in times.now) parent.now cell.now }
    ensures room { length spans.new ≡ 8 }
    ensures spans { AreSpans grid.now (time_in times.now) parent.now spans.new }
{
    for place in 0..children.len() {
        spans[place] = child_span(grid, times, &children[place], cell, place);
    }
}
