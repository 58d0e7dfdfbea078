//! Lanes over a sample of four nodes in a row, of which the first scores and the others don't.
ghost use Rattle.std.specs.Prelude.{◌≡◌, ◌+◌, ◌-◌, ◌^◌, ◌<◌, ◌≤◌, IfOk, length};
ghost use Rattle.search_lanes.specs.LaneViews.{Fits};

use super::samples::{WHOLE, along_x, two_picks};
use edt_score::{Field, Judge, PyramidJudge, Scorer};
use kernel_table::{Falloff, Shape, gauss};
use node_boxes::{Grid, roots};
use octree_search::{Found, Located};
use search_lanes::LaneEvent::{Done, Lost, Take};
use search_lanes::StepFault::Impossible;
use search_lanes::{LaneEvent, LaneRun, Lanes, StepFault, search_lanes};
use std::alloc::Global;
use std::test::Fail;

/// The first of the lanes takes the first open box.
const FIRST: LaneEvent = Take { lane: 0, place: 0 };

/// The times of two picks at four nodes: the first node alone fits both.
fn sample(alloc: Global) -> Result<Field, Fail>
    ensures { IfOk result (λ field. length field.rows ≡ 2) }
{
    let grid = Grid::new(4, 1, 1).ok_or("four nodes")?;
    let roots = roots(alloc, &grid, 1, 1, 1)?;
    let mut field = Field::new(alloc, grid, roots)?;
    field.push_row(vec![in alloc; 0, 1_000_000, 2_000_000, 3_000_000]?)?;
    field.push_row(vec![in alloc; 0, 0, 0, 0]?)?;
    Ok(field)
}

/// Whether events are answered so, one after another, and a refused one changes nothing of the judge's count.
fn answers<J: Judge>(
    lanes: &mut Lanes,
    judge: &mut J,
    rows: &[(LaneEvent, Option<StepFault>)],
) -> bool
    requires ready { J.ready judge.old }
    requires fits { Fits (J.grid judge.old) (J.roots judge.old) (J.bound_of judge.old) lanes.old }
    requires room { J.count judge.old + (lanes.old.budget - lanes.old.state.met) < 2 ^ 64 }
    ensures fits { Fits (J.grid judge.new) (J.roots judge.new) (J.bound_of judge.new) lanes.new }
{
    let mut agree = true;
    for row in rows {
        let before = judge.asked();
        let fault = lanes.step(judge, row.0).err();
        agree = agree && fault == row.1 && (fault.is_none() || judge.asked() == before);
    }
    agree
}

/// What lanes of the sample did: whether they answered events so, what they have found, and how often they asked.
#[derive(Drop)]
struct Trial {
    agree: bool,
    found: Option<Found>,
    asked: u64,
}

/// Lanes of the sample, after events that should be answered so.
fn tried(
    alloc: Global,
    lanes: u32,
    budget: u32,
    rows: &[(LaneEvent, Option<StepFault>)],
) -> Result<Trial, Fail>
    requires some { 1 ≤ lanes }
    requires lanes { lanes ≤ 64 }
{
    let field = sample(alloc)?;
    let problem = two_picks(alloc, 0, 0)?;
    let gaussian = Falloff::new(Shape::Gauss, |misfit, scale| gauss(misfit, scale));
    let scorer = Scorer::new(alloc, &field, &problem, &gaussian)?;
    let mut judge = PyramidJudge::new(scorer);
    let mut run = Lanes::begin(
        alloc,
        &mut judge,
        field.grid(),
        field.roots(),
        lanes,
        0,
        budget,
    )?;
    let agree = answers(&mut run, &mut judge, rows);
    let found = run.outcome(alloc, &judge)?;
    let asked = judge.asked();
    Ok(Trial {
        agree,
        found,
        asked,
    })
}

/// What a search over lanes of the sample has found, and how often it asked.
fn searched(alloc: Global, lanes: u32, seed: i64, budget: u32) -> Result<(LaneRun, u64), Fail>
    requires some { 1 ≤ lanes }
    requires lanes { lanes ≤ 64 }
{
    let field = sample(alloc)?;
    let problem = two_picks(alloc, 0, 0)?;
    let gaussian = Falloff::new(Shape::Gauss, |misfit, scale| gauss(misfit, scale));
    let scorer = Scorer::new(alloc, &field, &problem, &gaussian)?;
    let mut judge = PyramidJudge::new(scorer);
    let run = search_lanes(
        alloc,
        &mut judge,
        field.grid(),
        field.roots(),
        lanes,
        seed,
        0,
        budget,
    )?;
    let asked = judge.asked();
    Ok((run, asked))
}

/// Whether the first node was located, with its near list and cover, after five boxes were met.
fn is_first_node(found: &Found) -> bool {
    let Found::Located(event) = found else {
        return false;
    };
    let cover = [along_x(0, 1, WHOLE), along_x(1, 2, 0), along_x(2, 4, 0)];
    event.hyp == 0
        && event.score == WHOLE
        && event.near.as_slice() == &[(0, WHOLE)][..]
        && event.cover.as_slice() == &cover[..]
        && event.met == 5
}

/// Whether a run is finished and has located the first node.
fn has_first_node(found: &Option<Found>) -> bool {
    match found {
        Some(found) => is_first_node(found),
        None => false,
    }
}

#[test]
fn a_lost_lane_gives_its_box_back_and_nothing_is_asked_twice(rt: HostRuntime) -> Result<(), Fail> {
    let rows = [
        (FIRST, None),
        (Lost { lane: 0 }, None),
        (FIRST, Some(Impossible)),
        (Take { lane: 1, place: 0 }, None),
        (Done { lane: 1 }, None),
        (Take { lane: 1, place: 1 }, Some(Impossible)),
        (Take { lane: 1, place: 0 }, None),
        (Done { lane: 1 }, None),
    ];
    let trial = tried(rt.alloc(), 2, 8, &rows)?;
    assert!(rt; trial.agree && has_first_node(&trial.found));
    assert_eq!(rt; trial.asked, 5);
    Ok(())
}

#[test]
fn a_budget_that_children_pass_ends_the_run(rt: HostRuntime) -> Result<(), Fail> {
    let rows = [
        (FIRST, None),
        (Done { lane: 0 }, None),
        (FIRST, None),
        (Done { lane: 0 }, None),
        (Lost { lane: 0 }, Some(Impossible)),
        (FIRST, Some(Impossible)),
        (Done { lane: 0 }, Some(Impossible)),
    ];
    let trial = tried(rt.alloc(), 1, 4, &rows)?;
    assert!(rt; trial.agree && matches!(trial.found, Some(Found::Budget)));
    assert_eq!(rt; trial.asked, 3);
    Ok(())
}

#[test]
fn a_budget_that_the_roots_pass_ends_the_run_at_once(rt: HostRuntime) -> Result<(), Fail> {
    let rows = [
        (FIRST, Some(Impossible)),
        (Lost { lane: 0 }, Some(Impossible)),
    ];
    let trial = tried(rt.alloc(), 1, 0, &rows)?;
    assert!(rt; trial.agree && matches!(trial.found, Some(Found::Budget)));
    assert_eq!(rt; trial.asked, 0);
    Ok(())
}

#[test]
fn events_of_no_lane_and_no_place_are_impossible(rt: HostRuntime) -> Result<(), Fail> {
    let rows = [
        (Take { lane: 2, place: 0 }, Some(Impossible)),
        (Done { lane: 2 }, Some(Impossible)),
        (Lost { lane: 2 }, Some(Impossible)),
        (Take { lane: 0, place: 1 }, Some(Impossible)),
        (Done { lane: 0 }, Some(Impossible)),
        (FIRST, None),
        (FIRST, Some(Impossible)),
        (Take { lane: 1, place: 0 }, Some(Impossible)),
    ];
    let trial = tried(rt.alloc(), 2, 8, &rows)?;
    assert!(rt; trial.agree && trial.found.is_none());
    assert_eq!(rt; trial.asked, 1);
    Ok(())
}

#[test]
fn a_run_whose_lanes_are_all_lost_is_not_finished(rt: HostRuntime) -> Result<(), Fail> {
    let rows = [
        (FIRST, None),
        (Lost { lane: 0 }, None),
        (Lost { lane: 1 }, None),
        (Lost { lane: 1 }, Some(Impossible)),
        (Take { lane: 1, place: 0 }, Some(Impossible)),
    ];
    let trial = tried(rt.alloc(), 2, 8, &rows)?;
    assert!(rt; trial.agree && trial.found.is_none());
    assert_eq!(rt; trial.asked, 1);
    Ok(())
}

#[test]
fn one_lane_opens_the_root_and_then_the_box_that_scores(rt: HostRuntime) -> Result<(), Fail> {
    let events = [FIRST, Done { lane: 0 }, FIRST, Done { lane: 0 }];
    for seed in [0, 1, -1, 12_345] {
        let (run, asked) = searched(rt.alloc(), 1, seed, 8)?;
        assert!(rt; is_first_node(&run.found));
        assert_eq!(rt; run.events.as_slice(), &events[..]);
        assert_eq!(rt; asked, 5);
    }
    Ok(())
}

#[test]
fn a_seed_gives_its_schedule_to_several_lanes(rt: HostRuntime) -> Result<(), Fail> {
    let events = [
        Take { lane: 2, place: 0 },
        Done { lane: 2 },
        Lost { lane: 2 },
        Take { lane: 1, place: 0 },
        Done { lane: 1 },
    ];
    let (run, asked) = searched(rt.alloc(), 3, -1, 8)?;
    assert!(rt; is_first_node(&run.found));
    assert_eq!(rt; run.events.as_slice(), &events[..]);
    assert_eq!(rt; asked, 5);
    Ok(())
}

#[test]
fn lanes_and_seeds_change_nothing_of_what_is_found(rt: HostRuntime) -> Result<(), Fail> {
    for seed in 0..40 {
        for lanes in [2, 3, 5, 64] {
            let (run, asked) = searched(rt.alloc(), lanes, seed, 8)?;
            assert!(rt; is_first_node(&run.found));
            assert_eq!(rt; asked, 5);
            // after the root and its two children, the next two pass the budget
            let (short, asked) = searched(rt.alloc(), lanes, seed, 4)?;
            assert!(rt; matches!(short.found, Found::Budget));
            assert_eq!(rt; asked, 3);
        }
    }
    Ok(())
}
