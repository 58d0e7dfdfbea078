//! Problems that are made from a number. The expected lines were found apart from this code.

use crate::running::{Ending, Files, Run, expect, plain};
use std::alloc::Global;
use std::process::Abort;
use std::test::Fail;

const FORTY: &str =
    "DEMO 1 40 NODES 64000 MET 1033 COVER 901 NEAR 4 BEST 29489 22462713364480 SOURCE 29489\n";

// Runs without files, and asserts the status and what stands in the output.
fn expect_made(
    rt: &impl Abort,
    alloc: Global,
    run: &Run,
    status: u8,
    out: &str,
    err: &str,
) -> Result<(), Fail> {
    let files: Files = Vec::new(alloc);
    expect(rt, alloc, files, run, &Ending { status, out, err })
}

#[test]
fn writes_the_line_of_a_seed_and_a_side(rt: HostRuntime) -> Result<(), Fail> {
    let alloc = rt.alloc();
    for (seed, side, out) in [
        (
            "7",
            "1",
            "DEMO 7 1 NODES 1 MET 1 COVER 1 NEAR 1 BEST 0 22677427322880 SOURCE 0\n",
        ),
        (
            "0",
            "2",
            "DEMO 0 2 NODES 8 MET 9 COVER 8 NEAR 1 BEST 0 22677427322880 SOURCE 0\n",
        ),
        (
            "18446744073709551615",
            "2",
            "DEMO 18446744073709551615 2 NODES 8 MET 9 COVER 8 NEAR 3 BEST 3 22677427322880 SOURCE 3\n",
        ),
        (
            "1",
            "5",
            "DEMO 1 5 NODES 125 MET 81 COVER 68 NEAR 9 BEST 89 22677007892480 SOURCE 89\n",
        ),
    ] {
        expect_made(&rt, alloc, &plain(&["demo", seed, side]), 0, out, "")?;
    }
    Ok(())
}

#[test]
fn writes_the_same_line_at_each_run(rt: HostRuntime) -> Result<(), Fail> {
    let alloc = rt.alloc();
    for _turn in 0..2 {
        expect_made(&rt, alloc, &plain(&["demo", "1", "40"]), 0, FORTY, "")?;
    }
    Ok(())
}

#[test]
fn reads_nothing_and_ends_with_a_failing_write(rt: HostRuntime) -> Result<(), Fail> {
    let alloc = rt.alloc();
    let mut run = plain(&["demo", "7", "1"]);
    run.failing_calls = &[1];
    let line = "DEMO 7 1 NODES 1 MET 1 COVER 1 NEAR 1 BEST 0 22677427322880 SOURCE 0\n";
    expect_made(&rt, alloc, &run, 0, line, "")?;
    run.failing_writes = &[2];
    expect_made(&rt, alloc, &run, 8, "DEMO 7 1 N", "edtloc: write\n")
}
