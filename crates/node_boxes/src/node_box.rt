//! A box of nodes, and one with a bound.
ghost use Rattle.std.specs.Prelude.{◌≡◌, ◌<◌, ◌≤◌, ◌-◌, ◌==◌, ◌↔◌, IsTrue};
ghost use Rattle.node_boxes.specs.Boxes.{IsIn, IsSplittable, contains, is_single};
ghost use Rattle.node_boxes.specs.Children.{children_of};

use crate::children::Children;
use crate::grid::Grid;

/// A box of nodes: those at the places from `x0` up to but not `x1` on the x axis, and so on the
/// other axes.
#[derive(Clone, Copy, PartialEq, Eq, PartialOrd, Ord, Debug)]
pub struct NodeBox {
    pub x0: u32,
    pub x1: u32,
    pub y0: u32,
    pub y1: u32,
    pub z0: u32,
    pub z1: u32,
}

/// A box and a bound on the scores of its nodes.
#[derive(Clone, Copy, PartialEq, Eq, Debug)]
pub struct BoxBound {
    pub area: NodeBox,
    pub bound: u64,
}

impl NodeBox {
    /// Whether each range of the box has a node and ends within the grid.
    pub fn is_in(&self, grid: &Grid) -> bool
        ensures { IsTrue result ↔ IsIn grid.now self.now }
    {
        is_within(self.x0, self.x1, grid.x())
            && is_within(self.y0, self.y1, grid.y())
            && is_within(self.z0, self.z1, grid.z())
    }

    /// Whether the place lies in the three ranges of the box.
    pub fn contains(&self, ix: u32, iy: u32, iz: u32) -> bool
        ensures { result ≡ contains self.now ix iy iz }
    {
        self.x0 <= ix
            && ix < self.x1
            && self.y0 <= iy
            && iy < self.y1
            && self.z0 <= iz
            && iz < self.z1
    }

    /// Whether each range of the box has one node.
    pub fn is_single(&self) -> bool
        ensures { result ≡ is_single self.now }
    {
        is_one(self.x0, self.x1) && is_one(self.y0, self.y1) && is_one(self.z0, self.z1)
    }

    /// The children of a nonempty box that isn't single: each range of more than one node is cut in
    /// two, of which the first has the odd node.
    pub fn children(&self) -> Children
        requires { IsSplittable self.now }
        ensures { result ≡ children_of self.now }
    {
        Children::of(*self)
    }
}

/// Whether the range has a node and ends within an axis.
fn is_within(low: u32, high: u32, nodes: u32) -> bool
    ensures { IsTrue result ↔ ((low < high) × (high ≤ nodes)) }
{
    low < high && high <= nodes
}

/// Whether the range has one node.
fn is_one(low: u32, high: u32) -> bool
    ensures { result ≡ (high - low == 1) }
{
    high.saturating_sub(low) == 1
}
