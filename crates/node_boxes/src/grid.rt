//! How many nodes a grid has, and their numbers.
ghost use Rattle.std.specs.Prelude.{◌≡◌, ◌+◌, ◌*◌, ◌<◌, ◌≤◌, ◌↔◌, IsSome, IfSome, IsTrue};
ghost use Rattle.node_boxes.specs.declared.limits.TheConstants.{MOST_NODES, MOST_ON_AXIS};
ghost use Rattle.node_boxes.specs.Grid.{IsGrid, grid_size, node_count};
ghost use Rattle.node_boxes.specs.GridOrder.{IsInside, node_number, place_of};

use crate::limits::{MOST_NODES, MOST_ON_AXIS};
use std::marker::Model;

/// The nodes on the three axes of a grid: 1 to 4096 on each axis, and at most 2,000,000 in all.
#[derive(Clone, Copy, Debug)]
pub struct Grid {
    x: u32,
    y: u32,
    z: u32,
}

impl Model for Grid {
    ghost use Rattle.node_boxes.specs.Grid.{GridSize, IsGrid, grid_size};

    ghost Value = { GridSize };

    ghost view = { λ g. grid_size g.x g.y g.z };

    ghost invariant = { λ g. IsGrid (grid_size g.x g.y g.z) };

    ghost inverse = { λ g. record { x = g.x; y = g.y; z = g.z } };
}

impl Grid {
    /// A grid with these numbers of nodes on its axes. `None` exactly where an axis is 0 or passes
    /// 4096, or the nodes pass 2,000,000.
    pub fn new(x: u32, y: u32, z: u32) -> Option<Grid>
        ensures some { IsSome result ↔ IsGrid (grid_size x y z) }
        ensures value { IfSome result (λ grid. grid ≡ grid_size x y z) }
    {
        if is_axis(x) && is_axis(y) && is_axis(z) && is_few(x, y, z) {
            Some(Grid { x, y, z })
        } else {
            None
        }
    }

    /// The nodes on the x axis.
    pub fn x(&self) -> u32
        ensures value { result ≡ self.now.x }
        ensures grid { IsGrid self.now }
    {
        self.x
    }

    /// The nodes on the y axis.
    pub fn y(&self) -> u32
        ensures value { result ≡ self.now.y }
        ensures grid { IsGrid self.now }
    {
        self.y
    }

    /// The nodes on the z axis.
    pub fn z(&self) -> u32
        ensures value { result ≡ self.now.z }
        ensures grid { IsGrid self.now }
    {
        self.z
    }

    /// How many nodes the grid has: the product of the nodes on its axes.
    pub fn nodes(&self) -> u32
        ensures value { result ≡ node_count self.now }
        ensures grid { IsGrid self.now }
    {
        self.x * self.y * self.z
    }

    /// The number of the node at a place inside the grid: `(ix * y + iy) * z + iz`.
    pub fn node_number(&self, ix: u32, iy: u32, iz: u32) -> u32
        requires { IsInside self.now ix iy iz }
        ensures value { result ≡ node_number self.now ix iy iz }
        ensures below { result < node_count self.now }
    {
        (ix * self.y + iy) * self.z + iz
    }

    /// The place of the node with this number.
    pub fn place(&self, node: u32) -> (u32, u32, u32)
        requires { node < node_count self.now }
        ensures value { result ≡ place_of self.now node }
        ensures inside { IsInside self.now result.0 result.1 result.2 }
    {
        let row = node / self.z;
        (row / self.y, row % self.y, node % self.z)
    }
}

/// Whether an axis may have `n` nodes.
fn is_axis(n: u32) -> bool
    ensures { IsTrue result ↔ ((1 ≤ n) × (n ≤ MOST_ON_AXIS)) }
{
    1 <= n && n <= MOST_ON_AXIS
}

/// Whether a grid may have the nodes of these axes.
fn is_few(x: u32, y: u32, z: u32) -> bool
    requires x_to { x ≤ MOST_ON_AXIS }
    requires y_to { y ≤ MOST_ON_AXIS }
    requires z_to { z ≤ MOST_ON_AXIS }
    ensures { IsTrue result ↔ (x * y * z ≤ MOST_NODES) }
{
    u64::from(x) * u64::from(y) * u64::from(z) <= MOST_NODES
}

#[cfg(test)]
mod tests {
    use super::*;

    #[test]
    fn grids_at_their_limits(rt: HostRuntime) {
        for (x, y, z, nodes) in [
            (1, 1, 1, Some(1)),
            (4096, 1, 1, Some(4096)),
            (4097, 1, 1, None),
            (1, 4097, 1, None),
            (1, 1, 4097, None),
            (0, 1, 1, None),
            (1, 0, 1, None),
            (1, 1, 0, None),
            (125, 125, 128, Some(2_000_000)),
            (125, 125, 129, None),
            (4096, 4096, 4096, None),
        ] {
            let grid = Grid::new(x, y, z);
            assert_eq!(rt; grid.map(|g| g.nodes()), nodes, "{x} by {y} by {z}");
        }
    }

    #[test]
    fn z_runs_fastest(rt: HostRuntime) {
        let Some(grid) = Grid::new(2, 3, 4) else {
            assert!(rt; false);
            return;
        };
        assert_eq!(rt; (grid.x(), grid.y(), grid.z()), (2, 3, 4));
        assert_eq!(rt; grid.node_number(0, 0, 1), 1);
        assert_eq!(rt; grid.node_number(0, 1, 0), 4);
        assert_eq!(rt; grid.node_number(1, 0, 0), 12);
        assert_eq!(rt; grid.place(23), (1, 2, 3));
    }
}
