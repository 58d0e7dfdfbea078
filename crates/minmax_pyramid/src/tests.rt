//! Spans of roots, of families and of boxes off the octree.
use super::*;
use node_boxes::{Grid, NodeBox, roots};
use std::alloc::{AllocError, Global};

fn area(x0: u32, x1: u32, y0: u32, y1: u32, z0: u32, z1: u32) -> NodeBox {
    NodeBox {
        x0,
        x1,
        y0,
        y1,
        z0,
        z1,
    }
}

/// The pyramid of these times over one root.
fn pyramid(alloc: Global, grid: &Grid, times: &[u32]) -> Result<Option<Pyramid>, AllocError> {
    if times.len() != grid.nodes() as usize {
        return Ok(None);
    }
    let roots = roots(alloc, grid, 1, 1, 1)?;
    let times = Vec::from_slice(alloc, times)?;
    Ok(Some(Pyramid::build(alloc, grid, &roots, times)?))
}

#[test]
fn spans_of_a_root(rt: HostRuntime) {
    let Some(grid) = Grid::new(4, 1, 1) else {
        assert!(rt; false);
        return;
    };
    let root = area(0, 4, 0, 1, 0, 1);
    for (times, span) in [
        (
            [1_000_000, 2_000_000, 3_000_000, 4_000_000],
            (1_000_000, 4_000_000),
        ),
        ([2_000_000; 4], (2_000_000, 2_000_000)),
    ] {
        let Some(pyramid) = pyramid(rt.alloc(), &grid, &times).expect(&rt, "memory") else {
            assert!(rt; false);
            return;
        };
        assert_eq!(rt; pyramid.span(&root), Some(span));
    }
}

#[test]
fn a_box_off_the_octree_has_no_span(rt: HostRuntime) {
    let Some(grid) = Grid::new(5, 3, 1) else {
        assert!(rt; false);
        return;
    };
    let times = [5, 9, 2, 7, 4, 8, 1, 3, 6, 11, 15, 12, 14, 10, 13];
    let Some(pyramid) = pyramid(rt.alloc(), &grid, &times).expect(&rt, "memory") else {
        assert!(rt; false);
        return;
    };
    for (area, span) in [
        (area(0, 2, 0, 2, 0, 1), None),
        (area(0, 3, 0, 2, 0, 1), Some((1, 9))),
        (area(3, 5, 2, 3, 0, 1), Some((12, 13))),
        (area(1, 3, 0, 2, 0, 1), None),
        (area(2, 3, 1, 2, 0, 1), Some((3, 3))),
        (area(3, 3, 0, 1, 0, 1), None),
        (area(7, 8, 0, 1, 0, 1), None),
    ] {
        assert_eq!(rt; pyramid.span(&area), span, "{area:?}");
    }
}

#[test]
fn a_family_has_the_spans_of_its_children(rt: HostRuntime) {
    let alloc = rt.alloc();
    let Some(grid) = Grid::new(12, 9, 1) else {
        assert!(rt; false);
        return;
    };
    let mut times = Vec::new(alloc);
    for node in 0..grid.nodes() {
        times.push(node * 37 % 108).expect(&rt, "memory");
    }
    let roots = roots(alloc, &grid, 1, 2, 1).expect(&rt, "memory");
    let mut rows = PyramidRows::new(alloc, grid, roots);
    if times.len() == grid.nodes() as usize {
        rows.push_row(alloc, times).expect(&rt, "memory");
    }
    let asked = area(6, 12, 7, 9, 0, 1);
    if let Some(family) = rows.find_family(&asked)
        && rows.rows() == 1
    {
        let mut spans = [(0, 0); 8];
        rows.family_spans(0, &family, &mut spans);
        assert_eq!(rt; family.parent(), area(0, 12, 4, 9, 0, 1));
        assert_eq!(rt; family.place_of(&asked), Some(3));
        assert_eq!(rt; rows.span(0, &asked), Some(spans[3]));
        assert_eq!(rt; spans[3], (7, 106));
    } else {
        assert!(rt; false);
    }
}
