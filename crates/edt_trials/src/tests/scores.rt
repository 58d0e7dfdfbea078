//! Scores, bounds and counts at worked values.
ghost use Rattle.std.specs.Prelude.{◌≡◌, ◌≤◌, IfOk, length};
ghost use Rattle.node_boxes.specs.Grid.{grid_size};
ghost use Rattle.node_boxes.specs.Roots.{AreRoots};
ghost use Rattle.kernel_table.specs.Falloff.{AnswersItsShape};
ghost use Rattle.edt_score.specs.Field.{IsRow};
ghost use Rattle.edt_score.specs.Problem.{IsValidProblem};

use super::samples::{sample, two_picks};
use edt_score::{Field, Judge, Problem, PyramidJudge, Scorer};
use kernel_table::{Falloff, Shape, count, gauss, triangle};
use node_boxes::{Grid, NodeBox, roots};
use std::alloc::{AllocError, Global};
use std::test::Fail;

/// Times to three nodes.
fn row(alloc: Global, first: u32, second: u32, third: u32) -> Result<Vec<u32>, AllocError>
    requires first { first ≤ 2000000000 }
    requires second { second ≤ 2000000000 }
    requires third { third ≤ 2000000000 }
    ensures { IfOk result (λ times. IsRow (grid_size 3 1 1) times.items) }
{
    let times = vec![in alloc; first, second, third]?;
    Ok(times)
}

/// Three nodes in a line and two rows of times to them.
fn two_rows(alloc: Global) -> Result<Field, Fail>
    ensures { IfOk result (λ field. (field.grid ≡ grid_size 3 1 1) × (length field.rows ≡ 2)) }
{
    let grid = Grid::new(3, 1, 1).ok_or("three nodes")?;
    let roots = roots(alloc, &grid, 1, 1, 1)?;
    let mut field = Field::new(alloc, grid, roots)?;
    field.push_row(row(alloc, 0, 3125, 800_000)?)?;
    field.push_row(row(alloc, 0, 0, 0)?)?;
    Ok(field)
}

/// The scores of the three nodes.
fn scores<F: Fn(u64, u64) -> u64>(
    alloc: Global,
    field: &Field,
    problem: &Problem,
    falloff: &Falloff<F>,
) -> Result<[u64; 3], AllocError>
    requires grid { field.now.grid ≡ grid_size 3 1 1 }
    requires valid { IsValidProblem field.now problem.now }
    requires answers { AnswersItsShape F.Fn falloff.now }
{
    let scorer = Scorer::new(alloc, field, problem, falloff)?;
    Ok([scorer.score(0), scorer.score(1), scorer.score(2)])
}

#[test]
fn rows_are_numbered_and_read_back(rt: HostRuntime) -> Result<(), Fail> {
    let alloc = rt.alloc();
    let grid = Grid::new(3, 1, 1).ok_or("three nodes")?;
    let roots = roots(alloc, &grid, 1, 1, 1)?;
    let mut field = Field::new(alloc, grid, roots)?;
    assert_eq!(rt; field.rows(), 0);
    assert_eq!(rt; field.push_row(row(alloc, 0, 3125, 800_000)?)?, 0);
    assert_eq!(rt; field.push_row(row(alloc, 7, 8, 2_000_000_000)?)?, 1);
    assert_eq!(rt; field.rows(), 2);
    assert_eq!(rt; field.time(0, 2), 800_000);
    assert_eq!(rt; field.time(1, 2), 2_000_000_000);
    assert_eq!(rt; field.grid().nodes(), 3);
    Ok(())
}

#[test]
fn scores_fall_with_the_misfit_under_each_kernel(rt: HostRuntime) -> Result<(), Fail> {
    let alloc = rt.alloc();
    let field = two_rows(alloc)?;
    let gaussian = Falloff::new(Shape::Gauss, |misfit, scale| gauss(misfit, scale));
    let triangular = Falloff::new(Shape::Triangle, |misfit, scale| triangle(misfit, scale));
    let counting = Falloff::new(Shape::Count(3125), |misfit, _scale| count(3125, misfit));
    let together = two_picks(alloc, 0, 0)?;
    assert_eq!(rt;
        scores(alloc, &field, &together, &gaussian)?,
        [343_597_383_680, 343_513_497_600, 0]
    );
    assert_eq!(rt;
        scores(alloc, &field, &together, &triangular)?,
        [343_597_383_680, 338_228_674_560, 0]
    );
    assert_eq!(rt;
        scores(alloc, &field, &together, &counting)?,
        [343_597_383_680, 343_597_383_680, 0]
    );
    // the travel times explain that the first pick comes later
    let apart = two_picks(alloc, 3125, 0)?;
    assert_eq!(rt;
        scores(alloc, &field, &apart, &gaussian)?,
        [343_513_497_600, 343_597_383_680, 0]
    );
    Ok(())
}

/// The bound of the first root, and those of its first two children.
fn root_and_halves<J: Judge>(judge: &mut J, roots: &[NodeBox]) -> Option<[u64; 3]>
    requires ready { J.Judge.ready judge.old }
    requires roots { J.Judge.roots judge.old ≡ roots.now }
    requires are { AreRoots (J.Judge.grid judge.old) roots.now }
    requires room { J.Judge.count judge.old ≡ 0 }
{
    if roots.is_empty() || roots[0].is_single() {
        return None;
    }
    let root = &roots[0];
    let whole = judge.bound(root);
    let children = root.children();
    let Some(first) = children.get(0) else {
        return None;
    };
    let first_half = judge.bound(&first);
    let Some(second) = children.get(1) else {
        return None;
    };
    Some([whole, first_half, judge.bound(&second)])
}

/// The same by the judge over pyramids, and how often it was asked.
fn bounds<F: Fn(u64, u64) -> u64>(
    alloc: Global,
    field: &Field,
    problem: &Problem,
    falloff: &Falloff<F>,
) -> Result<(Option<[u64; 3]>, u64), AllocError>
    requires valid { IsValidProblem field.now problem.now }
    requires answers { AnswersItsShape F.Fn falloff.now }
{
    let scorer = Scorer::new(alloc, field, problem, falloff)?;
    let mut judge = PyramidJudge::new(scorer);
    let bounds = root_and_halves(&mut judge, field.roots());
    Ok((bounds, judge.asked()))
}

#[test]
fn bounds_of_the_sample_are_those_of_its_best_node_or_0(rt: HostRuntime) -> Result<(), Fail> {
    let alloc = rt.alloc();
    let field = sample(alloc)?;
    let problem = two_picks(alloc, 0, 1_000_000)?;
    let gaussian = Falloff::new(Shape::Gauss, |misfit, scale| gauss(misfit, scale));
    assert_eq!(rt;
        bounds(alloc, &field, &problem, &gaussian)?,
        (Some([343_597_383_680, 343_597_383_680, 0]), 3)
    );
    Ok(())
}
