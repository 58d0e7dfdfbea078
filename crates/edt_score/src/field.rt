//! The travel times of all rows over one grid.
ghost use Rattle.std.specs.Prelude.{◌≡◌, ◌+◌, ◌^◌, ◌<◌, ◌≤◌, [], ◌∷◌, ◌++◌, All, length, IfOk, IfSome, OnErr, OnOk};
ghost use Rattle.node_boxes.specs.declared.limits.TheConstants.{GREATEST_TIME};
ghost use Rattle.node_boxes.specs.Boxes.{IsIn};
ghost use Rattle.node_boxes.specs.BoxNodes.{box_nodes};
ghost use Rattle.node_boxes.specs.Grid.{node_count};
ghost use Rattle.node_boxes.specs.Octree.{IsOctreeBox};
ghost use Rattle.node_boxes.specs.Roots.{AreRoots};
ghost use Rattle.minmax_pyramid.specs.Families.{IsChildAt, IsFamilyOf};
ghost use Rattle.minmax_pyramid.specs.Spans.{span_over};
ghost use Rattle.edt_score.specs.BoxBound.{box_spans};
ghost use Rattle.edt_score.specs.Field.{FieldTimes, IsField, IsRow, time_at};
ghost use Rattle.edt_score.specs.Inside.Families.{AreRowSpans};

use minmax_pyramid::{Family, PyramidRows};
use node_boxes::{Grid, NodeBox};
use std::alloc::{AllocError, Global};
use std::marker::Model;

/// A grid, an octree over it and the travel times to its nodes: one row for each station and phase,
/// with one time per node in grid order, in microseconds and at most 2,000,000,000.
#[derive(Drop)]
pub struct Field {
    alloc: Global,
    pyramids: PyramidRows,
}

impl Model for Field {
    ghost use Rattle.edt_score.specs.Field.{FieldTimes, IsField};

    ghost Value = { FieldTimes };

    ghost view = { λ field. field.pyramids };

    ghost invariant = { λ field. IsField field.pyramids };
}

impl Field {
    /// A field with this grid, these roots of an octree over it, as `node_boxes::roots` gives them,
    /// and no rows. Running out of memory is the only refusal.
    pub fn new(alloc: Global, grid: Grid, roots: Vec<NodeBox>) -> Result<Field, AllocError>
        requires { AreRoots grid roots.items }
        ensures { IfOk result (λ field.
            field ≡ record { grid = grid; roots = roots.items; rows = [] }) }
    {
        Ok(Field {
            alloc,
            pyramids: PyramidRows::new(alloc, grid, roots),
        })
    }

    /// Adds a row and answers its number, from 0. Running out of memory is the only refusal, and after it the
    /// field is unchanged.
    pub fn push_row(&mut self, times: Vec<u32>) -> Result<u32, AllocError>
        requires row { IsRow self.old.grid times.items }
        requires room { length self.old.rows + 1 < 2 ^ 32 }
        ensures number { IfOk result (λ row. row ≡ length self.old.rows) }
        ensures pushed { OnOk result
            (self.new ≡ record self.old { rows = self.old.rows ++ times.items ∷ [] }) }
        ensures err { OnErr result (self.new ≡ self.old) }
    {
        let row = self.rows();
        self.pyramids.push_row(self.alloc, times)?;
        Ok(row)
    }

    /// The time of a row at a node.
    pub fn time(&self, row: u32, node: u32) -> u32
        requires row { row < length self.now.rows }
        requires node { node < node_count self.now.grid }
        ensures value { result ≡ time_at self.now row node }
        ensures limit { result ≤ GREATEST_TIME }
    {
        self.pyramids.time(row as usize, node)
    }

    /// The least and the greatest time of a row at the nodes of an octree box.
    pub(crate) fn span(&self, row: u32, area: &NodeBox) -> (u32, u32)
        requires row { row < length self.now.rows }
        requires tree { IsOctreeBox self.now.roots area.now }
        ensures { result ≡ box_spans self.now area.now row }
    {
        self.pyramids
            .span(row as usize, area)
            .unwrap_or((0, u32::MAX))
    }

    /// The least and the greatest time of a row at the nodes of a box of any grid with as many nodes.
    pub(crate) fn span_in(&self, row: u32, grid: &Grid, area: &NodeBox) -> (u32, u32)
        requires row { row < length self.now.rows }
        requires nodes { node_count grid.now ≡ node_count self.now.grid }
        requires inside { IsIn grid.now area.now }
        ensures { result ≡ span_over (time_at self.now row) (box_nodes grid.now area.now) }
    {
        self.pyramids.span_in(row as usize, grid, area)
    }

    /// The family of a box and its place among the children. `None` for a root, and it may come for
    /// any box.
    pub(crate) fn family_of(&self, area: &NodeBox) -> Option<(Family, usize)>
        ensures family { IfSome result (λ found. IsFamilyOf self.now.roots found.0) }
        ensures child { IfSome result (λ found. IsChildAt found.0.parent found.1 area.now) }
        ensures few { IfSome result (λ found. found.1 < 8) }
    {
        let family = self.pyramids.find_family(area)?;
        let place = family.place_of(area)?;
        Some((family, place))
    }

    /// Writes the spans of rows over the children of a family.
    pub(crate) fn fill_spans(&self, rows: &[u32], family: &Family, spans: &mut [[(u32, u32); 8]])
        requires rows { All (λ row. row < length self.now.rows) rows.now }
        requires family { IsFamilyOf self.now.roots family.now }
        requires room { length spans.old ≡ length rows.now }
        ensures room { length spans.new ≡ length rows.now }
        ensures spans { let parent = family.now.parent in
            AreRowSpans (length rows.now) self.now rows.now parent spans.new }
    {
        for (i, row) in rows.iter().enumerate() {
            self.pyramids
                .family_spans(*row as usize, family, &mut spans[i]);
        }
    }

    /// How many rows the field has.
    pub fn rows(&self) -> u32
        ensures value { result ≡ length self.now.rows }
        ensures field { IsField self.now }
    {
        self.pyramids.rows() as u32
    }

    /// The grid.
    pub fn grid(&self) -> &Grid
        ensures value { result.now ≡ self.now.grid }
        ensures field { IsField self.now }
    {
        self.pyramids.grid()
    }

    /// The roots of the octree.
    pub fn roots(&self) -> &[NodeBox]
        ensures value { result.now ≡ self.now.roots }
        ensures field { IsField self.now }
    {
        self.pyramids.roots()
    }
}
