//! Searches by tables of scores, whose outcomes were found apart from this code.
ghost use Rattle.std.specs.Prelude.{◌≤◌};

use super::samples::{WHOLE, along_x, corners};
use crate::TableJudge;
use edt_score::Judge;
use node_boxes::{Grid, roots};
use octree_search::{Found, search};
use std::alloc::Global;
use std::test::Fail;

/// What a search of one root finds by a table, and how often it asked.
fn searched(
    alloc: Global,
    sides: (u32, u32, u32),
    table: Vec<u64>,
    margin: u32,
    budget: u32,
) -> Result<(Found, u64), Fail>
    requires margin { margin ≤ 999 }
{
    let grid = Grid::new(sides.0, sides.1, sides.2).ok_or("a grid")?;
    if table.len() != grid.nodes() as usize {
        return Err("a score for each node".into());
    }
    let roots = roots(alloc, &grid, 1, 1, 1)?;
    let same = roots.to_vec(alloc)?;
    let mut judge = TableJudge::new(grid, roots, table);
    let found = search(alloc, &mut judge, &grid, &same, margin, budget)?;
    let asked = judge.asked();
    Ok((found, asked))
}

#[test]
fn a_table_without_scores_has_no_fit_and_its_root_as_its_cover(
    rt: HostRuntime,
) -> Result<(), Fail> {
    let alloc = rt.alloc();
    let (found, asked) = searched(alloc, (2, 1, 1), vec![in alloc; 0, 0]?, 0, 4)?;
    let Found::NoFit { cover, met } = found else {
        return Err("a fit".into());
    };
    assert_eq!(rt; cover.as_slice(), &[along_x(0, 2, 0)][..]);
    assert_eq!(rt; (met, asked), (1, 1));
    Ok(())
}

#[test]
fn the_first_of_nodes_that_tie_stands_and_the_others_are_near(rt: HostRuntime) -> Result<(), Fail> {
    let alloc = rt.alloc();
    let (found, _) = searched(alloc, (2, 2, 1), vec![in alloc; 0, WHOLE, WHOLE, 0]?, 0, 8)?;
    let Found::Located(event) = found else {
        return Err("nothing located".into());
    };
    assert_eq!(rt; (event.hyp, event.score, event.met), (1, WHOLE, 5));
    assert_eq!(rt; event.near.as_slice(), &[(1, WHOLE), (2, WHOLE)][..]);
    let (found, _) = searched(alloc, (5, 3, 1), vec![in alloc; WHOLE; 15]?, 0, 30)?;
    let Found::Located(event) = found else {
        return Err("nothing located".into());
    };
    assert_eq!(rt; (event.hyp, event.met, event.near.len()), (0, 23, 15));
    let corners = corners(alloc, &event.cover)?;
    let order = [
        (0, 0),
        (1, 0),
        (0, 1),
        (1, 1),
        (2, 0),
        (2, 1),
        (0, 2),
        (1, 2),
        (2, 2),
        (3, 0),
        (3, 1),
        (4, 0),
        (4, 1),
        (3, 2),
        (4, 2),
    ];
    assert_eq!(rt; corners.as_slice(), &order[..]);
    Ok(())
}

#[test]
fn a_budget_ends_the_search_where_more_boxes_are_met(rt: HostRuntime) -> Result<(), Fail> {
    let alloc = rt.alloc();
    for budget in [5, 6] {
        let table = vec![in alloc; WHOLE, 343_513_497_600, 0]?;
        let (found, asked) = searched(alloc, (3, 1, 1), table, 999, budget)?;
        let Found::Located(event) = found else {
            return Err("nothing located".into());
        };
        assert_eq!(rt; (event.hyp, event.met, asked), (0, 5, 5));
        assert_eq!(rt;
            event.near.as_slice(),
            &[(0, WHOLE), (1, 343_513_497_600)][..]
        );
        let singles = [
            along_x(0, 1, WHOLE),
            along_x(1, 2, 343_513_497_600),
            along_x(2, 3, 0),
        ];
        assert_eq!(rt; event.cover.as_slice(), &singles[..]);
    }
    let table = vec![in alloc; WHOLE, 343_513_497_600, 0]?;
    let (found, asked) = searched(alloc, (3, 1, 1), table, 999, 4)?;
    assert!(rt; matches!(found, Found::Budget) && asked <= 4);
    Ok(())
}
