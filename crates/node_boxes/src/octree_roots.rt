//! The roots of an octree: the parts of a grid by counts on its axes.
ghost use Rattle.std.specs.Prelude.{◌≡◌, ◌<◌, ◌≤◌, ◌++◌, map, IfOk, OnOk};
ghost use Rattle.std.specs.List.{flat_map};
ghost use Rattle.node_boxes.specs.declared.limits.TheConstants.{MOST_ON_AXIS};
ghost use Rattle.node_boxes.specs.BoxLists.{box_of};
ghost use Rattle.node_boxes.specs.Roots.{AreRoots, count_within, part, parts, roots_of};
ghost use Rattle.node_boxes.specs.Inside.AxisParts.{AreAxisParts};

use crate::grid::Grid;
use crate::node_box::NodeBox;
use std::alloc::{AllocError, Global};

/// The nodes of an axis and how many parts they are cut into.
#[derive(Clone, Copy)]
struct AxisParts {
    nodes: u32,
    count: u32,
}

/// The roots of the octree of a grid, for these counts of parts on its axes: in the order of the x
/// parts, then y, then z, with z fastest. Each count is first brought into the range from 1 to the
/// nodes of its axis. Part `k` of `n` on an axis of `l` nodes runs from `k * l / n` up to but not
/// `(k + 1) * l / n`. Running out of memory is the only refusal.
pub fn roots(
    alloc: Global,
    grid: &Grid,
    nx: u32,
    ny: u32,
    nz: u32,
) -> Result<Vec<NodeBox>, AllocError>
    ensures value { IfOk result (λ roots. roots.items ≡ roots_of grid.now nx ny nz) }
    ensures roots { IfOk result (λ roots. AreRoots grid.now roots.items) }
{
    let x = axis_parts(grid.x(), nx);
    let y = axis_parts(grid.y(), ny);
    let z = axis_parts(grid.z(), nz);
    let mut roots = Vec::new(alloc);
    for i in 0..x.count {
        push_slab(&mut roots, axis_part(x, i), y, z)?;
    }
    Ok(roots)
}

/// Adds the roots with this range on x.
fn push_slab(
    roots: &mut Vec<NodeBox>,
    x: (u32, u32),
    y: AxisParts,
    z: AxisParts,
) -> Result<(), AllocError>
    requires y { AreAxisParts y }
    requires z { AreAxisParts z }
    ensures { OnOk result (roots.new.items ≡ roots.old.items
        ++ flat_map (λ b. map (box_of x b) (parts z.nodes z.count)) (parts y.nodes y.count)) }
{
    for j in 0..y.count {
        push_row(roots, x, axis_part(y, j), z)?;
    }
    Ok(())
}

/// Adds the roots with these ranges on x and y.
fn push_row(
    roots: &mut Vec<NodeBox>,
    x: (u32, u32),
    y: (u32, u32),
    z: AxisParts,
) -> Result<(), AllocError>
    requires { AreAxisParts z }
    ensures { OnOk result (roots.new.items ≡ roots.old.items ++ map (box_of x y) (parts z.nodes z.count)) }
{
    for k in 0..z.count {
        let (z0, z1) = axis_part(z, k);
        let root = NodeBox {
            x0: x.0,
            x1: x.1,
            y0: y.0,
            y1: y.1,
            z0,
            z1,
        };
        roots.push(root)?;
    }
    Ok(())
}

/// An axis and the count of its parts, brought into range.
fn axis_parts(nodes: u32, wanted: u32) -> AxisParts
    requires from { 1 ≤ nodes }
    requires to { nodes ≤ MOST_ON_AXIS }
    ensures nodes { result.nodes ≡ nodes }
    ensures count { result.count ≡ count_within wanted nodes }
    ensures parts { AreAxisParts result }
{
    AxisParts {
        nodes,
        count: 1.max(wanted.min(nodes)),
    }
}

/// The range of a part.
fn axis_part(axis: AxisParts, k: u32) -> (u32, u32)
    requires parts { AreAxisParts axis }
    requires below { k < axis.count }
    ensures { result ≡ part axis.nodes axis.count k }
{
    let start = k * axis.nodes / axis.count;
    let end = (k + 1) * axis.nodes / axis.count;
    (start, end)
}

#[cfg(test)]
mod tests {
    use super::*;

    fn area(x0: u32, x1: u32, y0: u32, y1: u32, z0: u32, z1: u32) -> NodeBox
        ensures { result ≡ box_of (x0, x1) (y0, y1) (z0, z1) }
    {
        NodeBox {
            x0,
            x1,
            y0,
            y1,
            z0,
            z1,
        }
    }

    #[test]
    fn counts_are_brought_into_range_and_parts_rounded_down(rt: HostRuntime) {
        let Some(grid) = Grid::new(5, 3, 1) else {
            assert!(rt; false);
            return;
        };
        let roots = roots(rt.alloc(), &grid, 2, 9, 0).expect(&rt, "memory");
        assert_eq!(rt; roots.len(), 6);
        assert_eq!(rt; roots.get(0).copied(), Some(area(0, 2, 0, 1, 0, 1)));
        assert_eq!(rt; roots.get(5).copied(), Some(area(2, 5, 2, 3, 0, 1)));
    }

    #[test]
    fn the_first_half_has_the_odd_node(rt: HostRuntime) {
        let children = area(0, 5, 0, 3, 0, 1).children();
        assert_eq!(rt; children.len(), 4);
        assert_eq!(rt; children.get(0), Some(area(0, 3, 0, 2, 0, 1)));
        assert_eq!(rt; children.get(1), Some(area(0, 3, 2, 3, 0, 1)));
        assert_eq!(rt; children.get(2), Some(area(3, 5, 0, 2, 0, 1)));
        assert_eq!(rt; children.get(3), Some(area(3, 5, 2, 3, 0, 1)));
        assert_eq!(rt; children.get(4), None);
    }

    #[test]
    fn empty_and_turned_ranges_lie_in_no_grid(rt: HostRuntime) {
        let Some(grid) = Grid::new(5, 3, 1) else {
            assert!(rt; false);
            return;
        };
        for (area, inside, single) in [
            (area(0, 5, 0, 3, 0, 1), true, false),
            (area(4, 5, 2, 3, 0, 1), true, true),
            (area(0, 6, 0, 3, 0, 1), false, false),
            (area(2, 2, 0, 3, 0, 1), false, false),
            (area(3, 2, 0, 1, 0, 1), false, false),
            (area(u32::MAX - 1, u32::MAX, 0, 1, 0, 1), false, true),
        ] {
            assert_eq!(rt; area.is_in(&grid), inside, "{area:?}");
            assert_eq!(rt; area.is_single(), single, "{area:?}");
        }
    }
}
