//! What a search asks: bounds of the boxes of an octree.

use node_boxes::NodeBox;

/// Bounds of the boxes of an octree, one box at a time.
///
/// A judge means a grid, roots of it, a bound for each octree box of these roots, and how often it
/// was asked. No call changes the grid, the roots or the bounds. The bound of a box is at least that
/// of each of its children, and the score of a node is the bound of the box of this node alone.
pub trait Judge {
    ghost use Rattle.std.specs.Prelude.{◌≡◌, ℕ, List, ◌+◌, ◌^◌, ◌<◌};
    ghost use Rattle.node_boxes.specs.declared.node_box.NodeBox.{NodeBox};
    ghost use Rattle.node_boxes.specs.Grid.{GridSize};
    ghost use Rattle.node_boxes.specs.Octree.{IsOctreeBox};
    ghost use Rattle.edt_score.specs.Judging.{BoundsFall};

    /// The grid of the nodes.
    ghost grid: { Self → GridSize };
    /// The roots of the octree.
    ghost roots: { Self → List NodeBox };
    /// The bound of a box.
    ghost bound_of: { Self → NodeBox → ℕ };
    /// How often the judge was asked for a bound.
    ghost count: { Self → ℕ };
    /// What has to be known of a judge to ask it.
    ghost ready: { Self → Type 0 };

    /// The bound of an octree box. Takes no memory.
    fn bound(&mut self, area: &NodeBox) -> u64
        requires ready { ready self.old }
        requires tree { IsOctreeBox (roots self.old) area.now }
        requires room { count self.old + 1 < 2 ^ 64 }
        ensures value { result ≡ bound_of self.old area.now }
        // nothing changes but the count
        ensures same_grid { grid self.new ≡ grid self.old }
        ensures same_roots { roots self.new ≡ roots self.old }
        ensures same_bounds { bound_of self.new ≡ bound_of self.old }
        ensures asked { count self.new ≡ count self.old + 1 }
        ensures still { ready self.new };

    /// How often the judge was asked for a bound.
    fn asked(&self) -> u64
        ensures { result ≡ count self.now };

    ghost falls: { (judge : Self) → BoundsFall (grid judge) (roots judge) (bound_of judge) };
}
