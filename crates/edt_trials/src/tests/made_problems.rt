//! Searches of problems that are made from numbers, whose certificates are checked, against the scores of all nodes.
ghost use Rattle.std.specs.Prelude.{◌≤◌, IfOk};
ghost use Rattle.kernel_table.specs.Falloff.{AnswersItsShape};
ghost use Rattle.edt_score.specs.Scorer.{falloff_of};
ghost use Rattle.cover_certificate.specs.Blocks.{IsValidBlock, block_value};

use cover_certificate::{Block, BlockView, LocatedView, read_block, write_view};
use cover_checker::{Marks, Verdict, check};
use edt_score::{PyramidJudge, Scorer, demo_problem};
use edt_text::Lines;
use kernel_table::{Falloff, Shape, gauss};
use octree_search::{Found, Located, search, threshold};
use std::alloc::{AllocError, Global};
use std::process::Abort;
use std::test::Fail;

/// The margin of near scores, in thousandths.
const MARGIN: u32 = 100;

/// The certificate of what was found, written and read again.
fn certificate(alloc: Global, event: &Located) -> Result<Block, Fail>
    ensures { IfOk result (λ block. IsValidBlock (block_value block)) }
{
    let view = BlockView::Located(LocatedView {
        hyp: event.hyp,
        score: event.score,
        near: &event.near,
        cover: &event.cover,
    });
    let mut text = Vec::new(alloc);
    write_view(&mut text, &view)?;
    if text.len() > 1_000_000 {
        return Err(Fail::new("a long text"));
    }
    Ok(read_block(alloc, &mut Lines::new(&text))?)
}

/// The first node with the best score of all nodes, and that score.
fn best_of_all<F: Fn(u64, u64) -> u64>(scorer: &Scorer<F>) -> (u32, u64)
    requires { AnswersItsShape F.Fn (falloff_of scorer.now) }
{
    let mut best = (0, 0);
    for node in 0..scorer.field().grid().nodes() {
        let score = scorer.score(node);
        if score > best.1 {
            best = (node, score);
        }
    }
    best
}

/// All nodes with at least a score, in grid order, each with its score.
fn all_from<F: Fn(u64, u64) -> u64>(
    alloc: Global,
    scorer: &Scorer<F>,
    least: u64,
) -> Result<Vec<(u32, u64)>, AllocError>
    requires { AnswersItsShape F.Fn (falloff_of scorer.now) }
{
    let mut near = Vec::new(alloc);
    for node in 0..scorer.field().grid().nodes() {
        let score = scorer.score(node);
        if score >= least {
            near.push((node, score))?;
        }
    }
    Ok(near)
}

/// Searches the problem of a seed: its certificate is proved, and it names what the scores of all nodes say.
fn trial(rt: &impl Abort, alloc: Global, seed: u64, side: u32) -> Result<(), Fail>
    requires some { 1 ≤ side }
    requires few { side ≤ 64 }
{
    let demo = demo_problem(alloc, seed, side)?;
    let gaussian = Falloff::new(Shape::Gauss, |misfit, scale| gauss(misfit, scale));
    let scorer = Scorer::new(alloc, &demo.field, &demo.problem, &gaussian)?;
    let asked = Scorer::new(alloc, &demo.field, &demo.problem, &gaussian)?;
    let mut judge = PyramidJudge::new(asked);
    let grid = demo.field.grid();
    let budget = 2 * grid.nodes();
    let roots = demo.field.roots();
    let found = search(alloc, &mut judge, grid, roots, MARGIN, budget)?;
    let Found::Located(event) = found else {
        return Err("nothing located".into());
    };
    let block = certificate(alloc, &event)?;
    let mut marks = Marks::new(alloc, grid)?;
    let verdict = check(&scorer, MARGIN, &block, &mut marks);
    assert_eq!(rt; verdict, Verdict::Proved, "seed {seed}, side {side}");
    let best = best_of_all(&scorer);
    assert_eq!(rt; (event.hyp, event.score), best, "seed {seed}, side {side}");
    let near = all_from(alloc, &scorer, threshold(MARGIN, best.1))?;
    assert_eq!(rt;
        event.near.as_slice(),
        near.as_slice(),
        "seed {seed}, side {side}"
    );
    Ok(())
}

#[test]
fn certificates_of_made_problems_are_proved_and_say_what_scans_do(
    rt: HostRuntime,
) -> Result<(), Fail> {
    for seed in 0..10 {
        for side in 1..6 {
            trial(&rt, rt.alloc(), seed, side)?;
        }
    }
    Ok(())
}
