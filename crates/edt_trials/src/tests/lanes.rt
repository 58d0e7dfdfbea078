//! Searches that lanes share, against searches of the same problems that don't.
ghost use Rattle.std.specs.Prelude.{◌+◌, ◌-◌, ◌^◌, ◌<◌, ◌≤◌};
ghost use Rattle.search_lanes.specs.LaneViews.{Fits};

use crate::TableJudge;
use edt_score::{Judge, draw};
use node_boxes::{Grid, roots};
use octree_search::{Found, search};
use search_lanes::{LaneEvent, Lanes, StepFault, search_lanes};
use std::alloc::{AllocError, Global};
use std::process::Abort;
use std::test::Fail;

/// A grid of 1 to 64 nodes.
fn made_grid(seed: u32) -> Option<Grid> {
    Grid::new(1 + seed % 4, 1 + seed / 4 % 4, 1 + seed / 16 % 4)
}

/// A table of so many scores, of which most are 0 and some tie.
fn made_table(alloc: Global, nodes: u32, seed: u32) -> Result<Vec<u64>, AllocError> {
    let mut state = u64::from(seed);
    let mut table = Vec::new(alloc);
    for _ in 0..nodes {
        let drawn = draw(&mut state) % 64;
        table.push(if drawn < 40 { 0 } else { u64::from(drawn) })?;
    }
    Ok(table)
}

/// A margin in thousandths.
fn made_margin(seed: u32) -> u32
    ensures { result ≤ 999 }
{
    match seed % 3 {
        0 => 0,
        1 => 100,
        _ => 999,
    }
}

/// Whether two searches found the same.
fn is_same(one: &Found, other: &Found) -> bool {
    match (one, other) {
        (Found::Located(event), Found::Located(same)) => {
            event.hyp == same.hyp
                && event.score == same.score
                && event.near.as_slice() == same.near.as_slice()
                && event.cover.as_slice() == same.cover.as_slice()
                && event.met == same.met
        }
        (
            Found::NoFit { cover, met },
            Found::NoFit {
                cover: same,
                met: count,
            },
        ) => { cover.as_slice() == same.as_slice() && met == count }
        (Found::Budget, Found::Budget) | (Found::NearLimit, Found::NearLimit) => true,
        _ => false,
    }
}

/// How many boxes were met, where the budget wasn't passed.
fn met_of(found: &Found) -> Option<u32> {
    match found {
        Found::Located(event) => Some(event.met),
        Found::NoFit { met, .. } => Some(*met),
        Found::Budget | Found::NearLimit => None,
    }
}

/// How many lanes were lost.
fn losses(events: &[LaneEvent]) -> u32 {
    let mut count = 0u32;
    for event in events {
        if matches!(event, LaneEvent::Lost { .. }) {
            count = count.wrapping_add(1);
        }
    }
    count
}

/// Searches a made problem with and without lanes. Both find the same, and each asks as often as boxes are met, or within the budget. It
/// answers how many lanes were lost, and whether the budget was passed.
fn trial(
    rt: &impl Abort,
    alloc: Global,
    seed: u32,
    lanes: u32,
    budget: u32,
) -> Result<(u32, bool), Fail>
    requires some { 1 ≤ lanes }
    requires lanes { lanes ≤ 64 }
{
    let grid = made_grid(seed).ok_or("a grid")?;
    let table = made_table(alloc, grid.nodes(), seed)?;
    if table.len() != grid.nodes() as usize {
        return Err("a score for each node".into());
    }
    let again = table.to_vec(alloc)?;
    let parts = 1 + seed % 2;
    let roots = roots(alloc, &grid, parts, parts, parts)?;
    let margin = made_margin(seed);
    let mut judge = TableJudge::new(grid, roots.to_vec(alloc)?, table);
    let found = search(alloc, &mut judge, &grid, &roots, margin, budget)?;
    let mut other = TableJudge::new(grid, roots.to_vec(alloc)?, again);
    let order = i64::from(seed) - 100;
    let run = search_lanes(
        alloc, &mut other, &grid, &roots, lanes, order, margin, budget,
    )?;
    assert!(rt; is_same(&found, &run.found), "seed {seed}, {lanes} lanes");
    let asked = (judge.asked(), other.asked());
    match met_of(&found) {
        Some(met) => assert_eq!(rt;
            asked,
            (u64::from(met), u64::from(met)),
            "seed {seed}, {lanes} lanes"
        ),
        None => assert!(rt; asked.1 <= u64::from(budget), "seed {seed}, {lanes} lanes"),
    }
    Ok((losses(&run.events), matches!(found, Found::Budget)))
}

/// An event that may be possible or not.
fn stray_event(state: &mut u64, lanes: u32, loses: bool) -> LaneEvent
    requires { lanes ≤ 64 }
{
    let lane = draw(state) % (lanes + 1);
    let kind = draw(state) % 16;
    if kind == 0 && loses {
        return LaneEvent::Lost { lane };
    }
    if kind < 8 {
        return LaneEvent::Done { lane };
    }
    let place = draw(state) % 64;
    LaneEvent::Take { lane, place }
}

/// Lets lanes try events at random until their run is finished, where the last lane is never lost. It answers how many lanes were lost.
fn go_astray<J: Judge>(
    shared: &mut Lanes,
    judge: &mut J,
    seed: u32,
    lanes: u32,
) -> Result<u32, StepFault>
    requires lanes { lanes ≤ 64 }
    requires ready { J.ready judge.old }
    requires fits { Fits (J.grid judge.old) (J.roots judge.old) (J.bound_of judge.old) shared.old }
    requires room { J.count judge.old + (shared.old.budget - shared.old.state.met) < 2 ^ 64 }
    ensures fits { Fits (J.grid judge.new) (J.roots judge.new) (J.bound_of judge.new) shared.new }
{
    let mut state = u64::from(seed);
    let mut lost = 0u32;
    for turn in 0..100_000 {
        if shared.is_finished() {
            break;
        }
        let event = stray_event(&mut state, lanes, lost.wrapping_add(1) < lanes);
        match shared.step(judge, event) {
            Ok(()) => {
                if matches!(event, LaneEvent::Lost { .. }) {
                    lost = lost.wrapping_add(1);
                }
            }
            Err(StepFault::Impossible) => {}
            Err(StepFault::Memory) => return Err(StepFault::Memory),
        }
    }
    Ok(lost)
}

/// Searches a made problem by events at random: what is found is the same, and each box is asked for once. It answers how many lanes were
/// lost.
fn stray_trial(rt: &impl Abort, alloc: Global, seed: u32, lanes: u32) -> Result<u32, Fail>
    requires some { 1 ≤ lanes }
    requires lanes { lanes ≤ 64 }
{
    let grid = made_grid(seed).ok_or("a grid")?;
    let table = made_table(alloc, grid.nodes(), seed)?;
    if table.len() != grid.nodes() as usize {
        return Err("a score for each node".into());
    }
    let again = table.to_vec(alloc)?;
    let roots = roots(alloc, &grid, 1, 1, 1)?;
    let margin = made_margin(seed);
    let mut judge = TableJudge::new(grid, roots.to_vec(alloc)?, table);
    let found = search(alloc, &mut judge, &grid, &roots, margin, 128)?;
    let mut other = TableJudge::new(grid, roots.to_vec(alloc)?, again);
    let mut shared = Lanes::begin(alloc, &mut other, &grid, &roots, lanes, margin, 128)?;
    let lost = go_astray(&mut shared, &mut other, seed, lanes)?;
    let run = shared.outcome(alloc, &other)?.ok_or("a finished run")?;
    assert!(rt; is_same(&found, &run), "seed {seed}, {lanes} lanes");
    assert_eq!(rt; other.asked(), judge.asked(), "seed {seed}, {lanes} lanes");
    Ok(lost)
}

#[test]
fn lanes_find_what_one_search_does_whoever_is_lost(rt: HostRuntime) -> Result<(), Fail> {
    let mut lost = 0u32;
    for seed in 0..64 {
        for lanes in 1..6 {
            let (losses, past) = trial(&rt, rt.alloc(), seed, lanes, 128)?;
            assert!(rt; !past);
            lost = lost.wrapping_add(losses);
        }
    }
    assert!(rt; lost > 0);
    Ok(())
}

#[test]
fn lanes_pass_a_small_budget_where_one_search_does(rt: HostRuntime) -> Result<(), Fail> {
    let mut count = 0u32;
    for seed in 0..64 {
        for budget in [1, 4, 9] {
            if trial(&rt, rt.alloc(), seed, 3, budget)?.1 {
                count = count.wrapping_add(1);
            }
        }
    }
    assert!(rt; count > 0);
    Ok(())
}

#[test]
fn lanes_find_the_same_by_events_at_random(rt: HostRuntime) -> Result<(), Fail> {
    let mut lost = 0u32;
    for seed in 0..64 {
        for lanes in 1..6 {
            lost = lost.wrapping_add(stray_trial(&rt, rt.alloc(), seed, lanes)?);
        }
    }
    assert!(rt; lost > 0);
    Ok(())
}
