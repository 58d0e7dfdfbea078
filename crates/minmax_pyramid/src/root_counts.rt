//! How many roots stand along each axis, to find the root of a box without a search.
use node_boxes::{Grid, NodeBox};

/// How many roots stand along each axis, as far as their order shows it.
#[derive(Clone, Copy)]
pub(crate) struct RootCounts {
    x: usize,
    y: usize,
    z: usize,
}

impl RootCounts {
    /// The counts of roots in the order of the x parts, then y, then z.
    pub(crate) fn of(roots: &[NodeBox]) -> RootCounts {
        let mut slab: usize = 0;
        let mut row: usize = 0;
        if let Some(first) = roots.first() {
            for root in roots {
                if root.x0 != first.x0 {
                    break;
                }
                slab = slab.wrapping_add(1);
                row = row.wrapping_add(usize::from(root.y0 == first.y0));
            }
        }
        RootCounts {
            x: roots.len() / slab.max(1),
            y: slab / row.max(1),
            z: row,
        }
    }

    /// The number of the root that holds the first node of a box. Whoever asks tests it.
    pub(crate) fn guess(&self, grid: &Grid, area: &NodeBox) -> usize {
        let x = part_with(area.x0, grid.x(), self.x);
        let y = part_with(area.y0, grid.y(), self.y);
        let z = part_with(area.z0, grid.z(), self.z);
        x.wrapping_mul(self.y)
            .wrapping_add(y)
            .wrapping_mul(self.z)
            .wrapping_add(z)
    }
}

/// The part of an axis that holds a node: the last that starts at it or before.
fn part_with(node: u32, nodes: u32, parts: usize) -> usize {
    (node as usize + 1).wrapping_mul(parts).saturating_sub(1) / (nodes as usize).max(1)
}
