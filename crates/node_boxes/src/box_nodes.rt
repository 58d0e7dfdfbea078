//! The nodes of a box, one after another in grid order.
ghost use Rattle.std.specs.Prelude.{◌≡◌, [], ◌∷◌, MatchOption};
ghost use Rattle.node_boxes.specs.Boxes.{IsIn};
ghost use Rattle.node_boxes.specs.BoxNodes.{box_nodes};

use crate::grid::Grid;
use crate::node_box::NodeBox;
use std::marker::Model;

/// A walk over the nodes of a box, in grid order. It is seen as the list of the nodes that are left.
#[derive(Drop)]
pub struct BoxNodes {
    grid: Grid,
    area: NodeBox,
    ix: u32,
    iy: u32,
    node: u32,
    end: u32,
}

impl Model for BoxNodes {
    ghost use Rattle.std.specs.Prelude.{ℕ, List};
    ghost use Rattle.node_boxes.specs.Inside.BoxWalks.{IsWalk, nodes_left};

    ghost Value = { List ℕ };

    ghost view = { λ w. nodes_left w.grid w.area w.ix w.iy w.node w.end };

    ghost invariant = { λ w. IsWalk w.grid w.area w.ix w.iy w.node w.end };
}

impl BoxNodes {
    /// The walk over all nodes of a box that lies in the grid.
    pub fn new(grid: &Grid, area: &NodeBox) -> BoxNodes
        requires { IsIn grid.now area.now }
        ensures { result ≡ box_nodes grid.now area.now }
    {
        let _nodes = grid.nodes();
        let node = grid.node_number(area.x0, area.y0, area.z0);
        BoxNodes {
            grid: *grid,
            area: *area,
            ix: area.x0,
            iy: area.y0,
            node,
            end: node + (area.z1 - area.z0),
        }
    }

    /// The next node. `None` exactly at the end.
    pub fn next(&mut self) -> Option<u32>
        ensures { MatchOption result (self.old ≡ []) (λ node. self.old ≡ node ∷ self.new) }
    {
        if self.node < self.end {
            let node = self.node;
            self.node += 1;
            return Some(node);
        }
        if self.iy + 1 < self.area.y1 {
            self.iy += 1;
            let node = self.grid.node_number(self.ix, self.iy, self.area.z0);
            self.node = node + 1;
            self.end = node + (self.area.z1 - self.area.z0);
            return Some(node);
        }
        if self.ix + 1 < self.area.x1 {
            self.ix += 1;
            self.iy = self.area.y0;
            let node = self.grid.node_number(self.ix, self.iy, self.area.z0);
            self.node = node + 1;
            self.end = node + (self.area.z1 - self.area.z0);
            return Some(node);
        }
        None
    }
}

#[cfg(test)]
mod tests {
    use super::*;

    #[test]
    fn a_walk_goes_through_a_box_in_grid_order(rt: HostRuntime) {
        let Some(grid) = Grid::new(3, 4, 5) else {
            assert!(rt; false);
            return;
        };
        let area = NodeBox {
            x0: 1,
            x1: 3,
            y0: 2,
            y1: 4,
            z0: 3,
            z1: 5,
        };
        let mut nodes = BoxNodes::new(&grid, &area);
        for node in [33, 34, 38, 39, 53, 54, 58, 59] {
            assert_eq!(rt; nodes.next(), Some(node));
        }
        assert_eq!(rt; nodes.next(), None);
        assert_eq!(rt; nodes.next(), None);
    }
}
