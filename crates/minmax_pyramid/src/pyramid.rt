//! The pyramid of one row alone.
ghost use Rattle.std.specs.Prelude.{◌≡◌, ◌<◌, ◌↔◌, length, IfOk, IfSome, IsSome};
ghost use Rattle.node_boxes.specs.Grid.{node_count};
ghost use Rattle.node_boxes.specs.Roots.{AreRoots};
ghost use Rattle.node_boxes.specs.Octree.{IsOctreeBox};
ghost use Rattle.minmax_pyramid.specs.Spans.{span_of, time_in};
ghost use Rattle.minmax_pyramid.specs.Rows.{PyramidTimes};

use crate::pyramid_rows::PyramidRows;
use node_boxes::{Grid, NodeBox};
use std::alloc::{AllocError, Global};
use std::marker::Model;

/// One row of times over a grid, with the octree of its least and greatest times.
#[derive(Drop)]
pub struct Pyramid {
    rows: PyramidRows,
}

impl Model for Pyramid {
    ghost use Rattle.std.specs.Prelude.{◌≡◌, [], length, slice_index_or};
    ghost use Rattle.minmax_pyramid.specs.Rows.{PyramidTimes};

    ghost Value = { PyramidTimes };

    ghost view = { λ p. record { grid = p.rows.grid; roots = p.rows.roots; times = slice_index_or p.rows.rows 0 [] } };

    ghost invariant = { λ p. length p.rows.rows ≡ 1 };
}

impl Pyramid {
    /// The pyramid of one time per node, in grid order, over roots that `node_boxes::roots` gave for the
    /// grid. Running out of memory is the only refusal.
    pub fn build(
        alloc: Global,
        grid: &Grid,
        roots: &[NodeBox],
        times: Vec<u32>,
    ) -> Result<Pyramid, AllocError>
        requires roots { AreRoots grid.now roots.now }
        requires times { length times.items ≡ node_count grid.now }
        ensures { IfOk result (λ p. p ≡ record { grid = grid.now; roots = roots.now; times = times.items }) }
    {
        let roots = Vec::from_slice(alloc, roots)?;
        let mut rows = PyramidRows::new(alloc, *grid, roots);
        rows.push_row(alloc, times)?;
        Ok(Pyramid { rows })
    }

    /// The least and the greatest time at the nodes of a box. `None` exactly where the box is no octree
    /// box of the roots. Takes no memory.
    pub fn span(&self, area: &NodeBox) -> Option<(u32, u32)>
        ensures some { IsSome result ↔ IsOctreeBox self.now.roots area.now }
        ensures span { IfSome result (λ span. span ≡ span_of self.now.grid (time_in self.now.times) area.now) }
    {
        self.rows.span(0, area)
    }

    /// The time at a node.
    pub fn time(&self, node: u32) -> u32
        requires { node < node_count self.now.grid }
        ensures { result ≡ time_in self.now.times node }
    {
        self.rows.time(0, node)
    }
}
