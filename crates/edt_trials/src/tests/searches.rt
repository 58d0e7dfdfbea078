//! Searches whose outcomes were found apart from this code, and searches against plain scans of all nodes.
ghost use Rattle.std.specs.Prelude.{◌≡◌, ◌+◌, ◌*◌, ◌^◌, ◌<◌, ◌≤◌, All, IfOk, length};
ghost use Rattle.node_boxes.specs.Grid.{node_count};
ghost use Rattle.kernel_table.specs.Falloff.{AnswersItsShape};
ghost use Rattle.edt_score.specs.Field.{IsRow};
ghost use Rattle.edt_score.specs.Problem.{IsValidProblem};

use super::samples::{WHOLE, corners, two_picks};
use edt_score::{Field, Judge, PyramidJudge, Scorer};
use kernel_table::{Falloff, Shape, gauss};
use node_boxes::{BoxBound, Grid, NodeBox, roots};
use octree_search::{Found, Located, search, threshold};
use std::alloc::{AllocError, Global};
use std::test::Fail;

/// Two rows of times.
fn two_rows(
    alloc: Global,
    grid: Grid,
    parts: u32,
    first: Vec<u32>,
    second: Vec<u32>,
) -> Result<Field, Fail>
    requires first { IsRow grid first.items }
    requires second { IsRow grid second.items }
    ensures { IfOk result (λ field. (field.grid ≡ grid) × (length field.rows ≡ 2)) }
{
    let roots = roots(alloc, &grid, parts, parts, parts)?;
    let mut field = Field::new(alloc, grid, roots)?;
    field.push_row(first)?;
    field.push_row(second)?;
    Ok(field)
}

/// What a search of a field finds for two picks, and how often it asked.
fn searched(alloc: Global, field: &Field, margin: u32, budget: u32) -> Result<(Found, u64), Fail>
    requires rows { length field.now.rows ≡ 2 }
    requires margin { margin ≤ 999 }
{
    let problem = two_picks(alloc, 0, 0)?;
    let gaussian = Falloff::new(Shape::Gauss, |misfit, scale| gauss(misfit, scale));
    let scorer = Scorer::new(alloc, field, &problem, &gaussian)?;
    let mut judge = PyramidJudge::new(scorer);
    let found = search(
        alloc,
        &mut judge,
        field.grid(),
        field.roots(),
        margin,
        budget,
    )?;
    let asked = judge.asked();
    Ok((found, asked))
}

/// A box of a cover.
fn in_cover(x: (u32, u32), y: (u32, u32), bound: u64) -> BoxBound {
    let area = NodeBox {
        x0: x.0,
        x1: x.1,
        y0: y.0,
        y1: y.1,
        z0: 0,
        z1: 1,
    };
    BoxBound { area, bound }
}

#[test]
fn no_fit_has_the_roots_as_its_cover_where_they_bound_all(rt: HostRuntime) -> Result<(), Fail> {
    let alloc = rt.alloc();
    let grid = Grid::new(2, 1, 1).ok_or("two nodes")?;
    let field = two_rows(
        alloc,
        grid,
        1,
        vec![in alloc; 800_000, 900_000]?,
        vec![in alloc; 0, 0]?,
    )?;
    let (found, asked) = searched(alloc, &field, 0, 4)?;
    let Found::NoFit { cover, met } = found else {
        return Err("a fit".into());
    };
    assert_eq!(rt; cover.as_slice(), &[in_cover((0, 2), (0, 1), 0)][..]);
    assert_eq!(rt; (met, asked), (1, 1));
    Ok(())
}

#[test]
fn the_first_of_two_nodes_that_tie_stands(rt: HostRuntime) -> Result<(), Fail> {
    let alloc = rt.alloc();
    let grid = Grid::new(2, 2, 1).ok_or("four nodes")?;
    let first = vec![in alloc; 800_000, 0, 0, 800_000]?;
    let field = two_rows(alloc, grid, 1, first, vec![in alloc; 0; 4]?)?;
    let (found, asked) = searched(alloc, &field, 0, 8)?;
    let Found::Located(event) = found else {
        return Err("nothing located".into());
    };
    assert_eq!(rt; (event.hyp, event.score), (1, WHOLE));
    assert_eq!(rt; event.near.as_slice(), &[(1, WHOLE), (2, WHOLE)][..]);
    assert_eq!(rt; (event.met, asked), (5, 5));
    Ok(())
}

#[test]
fn a_margin_takes_in_near_nodes_and_a_budget_ends_the_search(rt: HostRuntime) -> Result<(), Fail> {
    let alloc = rt.alloc();
    let grid = Grid::new(3, 1, 1).ok_or("three nodes")?;
    let field = two_rows(
        alloc,
        grid,
        1,
        vec![in alloc; 0, 3125, 800_000]?,
        vec![in alloc; 0; 3]?,
    )?;
    assert_eq!(rt; threshold(999, WHOLE), 343_597_384);
    for budget in [5, 6] {
        let (found, asked) = searched(alloc, &field, 999, budget)?;
        let Found::Located(event) = found else {
            return Err("nothing located".into());
        };
        assert_eq!(rt; (event.hyp, event.met, asked), (0, 5, 5));
        assert_eq!(rt;
            event.near.as_slice(),
            &[(0, WHOLE), (1, 343_513_497_600)][..]
        );
        let singles = [
            in_cover((0, 1), (0, 1), WHOLE),
            in_cover((1, 2), (0, 1), 343_513_497_600),
            in_cover((2, 3), (0, 1), 0),
        ];
        assert_eq!(rt; event.cover.as_slice(), &singles[..]);
    }
    let (found, asked) = searched(alloc, &field, 999, 4)?;
    assert!(rt; matches!(found, Found::Budget) && asked <= 4);
    Ok(())
}

#[test]
fn nodes_that_all_tie_are_near_in_grid_order_and_covered_in_the_octrees(
    rt: HostRuntime,
) -> Result<(), Fail> {
    let alloc = rt.alloc();
    let grid = Grid::new(5, 3, 1).ok_or("fifteen nodes")?;
    let field = two_rows(
        alloc,
        grid,
        1,
        vec![in alloc; 0; 15]?,
        vec![in alloc; 0; 15]?,
    )?;
    let (found, asked) = searched(alloc, &field, 0, 30)?;
    let Found::Located(event) = found else {
        return Err("nothing located".into());
    };
    assert_eq!(rt;
        (event.hyp, event.score, event.met, asked),
        (0, WHOLE, 23, 23)
    );
    let all = [0, 1, 2, 3, 4, 5, 6, 7, 8, 9, 10, 11, 12, 13, 14].map(|node| (node, WHOLE));
    assert_eq!(rt; event.near.as_slice(), &all[..]);
    let corners = corners(alloc, &event.cover)?;
    assert_eq!(rt;
        corners.as_slice(),
        &[
            (0, 0),
            (1, 0),
            (0, 1),
            (1, 1),
            (2, 0),
            (2, 1),
            (0, 2),
            (1, 2),
            (2, 2),
            (3, 0),
            (3, 1),
            (4, 0),
            (4, 1),
            (3, 2),
            (4, 2)
        ][..]
    );
    Ok(())
}

/// A time from a fixed sequence, some of them within four scales of one another.
fn made_time(seed: u64, node: u64) -> u32
    requires seed { seed ≤ 1000000 }
    requires node { node ≤ 8 }
    ensures { result ≤ 2000000000 }
{
    (seed * 48_271 % 65_537 * (node + 3) * (node + 7) % 2_400_000) as u32
}

/// A row of eight times.
fn made_row(alloc: Global, seed: u64) -> Result<Vec<u32>, AllocError>
    requires seed { seed ≤ 1000000 }
    ensures { IfOk result (λ row. (length row.items ≡ 8) × All (λ time. time ≤ 2000000000) row.items) }
{
    Ok(vec![in alloc;
        made_time(seed, 0),
        made_time(seed, 1),
        made_time(seed, 2),
        made_time(seed, 3),
        made_time(seed, 4),
        made_time(seed, 5),
        made_time(seed, 6),
        made_time(seed, 7),
    ]?)
}

/// The scores of all eight nodes for two picks.
fn scanned(alloc: Global, field: &Field) -> Result<[u64; 8], Fail>
    requires rows { length field.now.rows ≡ 2 }
    requires nodes { node_count field.now.grid ≡ 8 }
{
    let problem = two_picks(alloc, 0, 0)?;
    let gaussian = Falloff::new(Shape::Gauss, |misfit, scale| gauss(misfit, scale));
    let scorer = Scorer::new(alloc, field, &problem, &gaussian)?;
    let mut scores = [0; 8];
    for node in 0..8 {
        scores[node as usize] = scorer.score(node);
    }
    Ok(scores)
}

/// The nodes whose scores reach a threshold, each with its score.
fn near_of(alloc: Global, scores: &[u64], least: u64) -> Result<Vec<(u32, u64)>, AllocError> {
    let mut near = Vec::new(alloc);
    let mut node = 0u32;
    for score in scores {
        if least <= *score {
            near.push((node, *score))?;
        }
        node = node.wrapping_add(1);
    }
    Ok(near)
}

/// What a scan of the scores of all nodes finds: the first best node with its score, and the near nodes; none where the best score is 0.
fn scan(
    alloc: Global,
    scores: &[u64],
    margin: u32,
) -> Result<Option<(u32, u64, Vec<(u32, u64)>)>, AllocError>
    requires margin { margin ≤ 999 }
{
    let mut best = 0;
    for score in scores {
        best = best.max(*score);
    }
    if best == 0 {
        return Ok(None);
    }
    let near = near_of(alloc, scores, threshold(margin, best))?;
    let first = near_of(alloc, scores, best)?;
    Ok(first.first().map(|entry| (entry.0, best, near)))
}

/// Whether the outcome of a search is that of a scan.
fn agrees(alloc: Global, found: &Found, scores: &[u64], margin: u32) -> Result<bool, AllocError>
    requires margin { margin ≤ 999 }
{
    let scan = scan(alloc, scores, margin)?;
    Ok(match (found, scan) {
        (Found::Located(event), Some((hyp, score, near))) => {
            event.hyp == hyp && event.score == score && event.near.as_slice() == near.as_slice()
        }
        (Found::NoFit { .. }, None) => true,
        _ => false,
    })
}

/// Whether searches of eight nodes with made-up times find what scans do, by three margins.
fn searches_agree(
    alloc: Global,
    sides: (u32, u32, u32),
    parts: u32,
    seed: u64,
) -> Result<bool, Fail>
    requires seed { seed ≤ 1000 }
{
    let grid = Grid::new(sides.0, sides.1, sides.2).ok_or("eight nodes")?;
    if grid.nodes() != 8 {
        return Ok(false);
    }
    let first = made_row(alloc, seed)?;
    let second = made_row(alloc, seed + 5000)?;
    let field = two_rows(alloc, grid, parts, first, second)?;
    let scores = scanned(alloc, &field)?;
    for margin in [0, 100, 999] {
        let (found, _) = searched(alloc, &field, margin, 16)?;
        if !agrees(alloc, &found, &scores, margin)? {
            return Ok(false);
        }
    }
    Ok(true)
}

#[test]
fn searches_find_what_scans_of_all_nodes_do(rt: HostRuntime) -> Result<(), Fail> {
    let alloc = rt.alloc();
    for seed in 1..41 {
        assert!(rt; searches_agree(alloc, (2, 2, 2), 1, seed)?);
        assert!(rt; searches_agree(alloc, (8, 1, 1), 1, seed)?);
        assert!(rt; searches_agree(alloc, (1, 4, 2), 2, seed)?);
    }
    Ok(())
}
