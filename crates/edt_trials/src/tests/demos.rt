//! Made problems and draws at worked values.
ghost use Rattle.std.specs.Prelude.{◌≤◌};

use edt_score::{demo_problem, draw};
use std::alloc::Global;
use std::process::Abort;
use std::test::Fail;

#[test]
fn draws_answer_from_the_new_state(rt: HostRuntime) {
    for (seed, first, state, second) in [
        (0, 335_903_614, 1_442_695_040_888_963_407, 436_792_849),
        (1, 1_817_669_548, 7_806_831_264_735_756_412, 2_187_888_307),
        (
            u64::MAX,
            3_149_104_977,
            13_525_302_890_751_722_018,
            2_980_664_687,
        ),
    ] {
        let mut now = seed;
        assert_eq!(rt; draw(&mut now), first, "the first draw from {seed}");
        assert_eq!(rt; now, state, "the state after {seed}");
        assert_eq!(rt; draw(&mut now), second, "the second draw from {seed}");
    }
}

/// The node of the source, the times of the first and the last pick, and the travel time from the
/// last station to the last node.
fn told(rt: &impl Abort, alloc: Global, seed: u64, side: u32) -> Result<(u32, i64, i64, u32), Fail>
    requires some { 1 ≤ side }
    requires few { side ≤ 64 }
{
    let demo = demo_problem(alloc, seed, side)?;
    assert_eq!(rt; demo.field.rows(), 12);
    assert_eq!(rt; demo.problem.picks.len(), 12);
    let last = demo.field.grid().nodes() - 1;
    Ok((
        demo.source,
        demo.problem.picks[0].time,
        demo.problem.picks[11].time,
        demo.field.time(11, last),
    ))
}

#[test]
fn makes_the_problem_of_a_seed(rt: HostRuntime) -> Result<(), Fail> {
    let alloc = rt.alloc();
    assert_eq!(rt; told(&rt, alloc, 7, 1)?, (0, 0, 0, 0));
    assert_eq!(rt; told(&rt, alloc, 0, 2)?, (0, 170_617, 240_629, 170_000));
    assert_eq!(rt; told(&rt, alloc, 5, 3)?, (12, 240_736, 422, 416_414));
    assert_eq!(rt; told(&rt, alloc, 1, 5)?, (89, 680_790, 723_197, 915_479));
    assert_eq!(rt;
        told(&rt, alloc, u64::MAX, 64)?,
        (238_331, 13_678_623, 14_578_346, 15_501_726)
    );
    Ok(())
}
