//! What the checker says of the report of the sample after changes.

use crate::running::{Ending, Files, Program, Run, expect, plain};
use crate::sample::{Change, TEXT, changed, sample};
use edt_outside::Name;
use std::alloc::Global;
use std::process::Abort;
use std::test::Fail;

// The line of the sample's report.
pub const PROVED: &str = "CHECK 1 PROVED 0 0 0 0 10000000 0 0 343597383680 1\n";

// A run of the checker over the sample in which nothing fails.
pub fn check_of_sample<'a>() -> Run<'a> {
    Run {
        program: Program::Checker,
        ..plain(&["e1.in", "e1.report"])
    }
}

// The sample's files with its report after these changes.
pub fn sample_with_report(
    rt: &impl Abort,
    alloc: Global,
    changes: &[Change],
) -> Result<Files, Fail> {
    let mut files = sample(rt, alloc, changes)?;
    let name = "e1.report";
    if let Some(bytes) = changed(rt, alloc, name, TEXT.as_bytes(), changes)? {
        files.push((Name::new(alloc, name)?, bytes))?;
    }
    Ok(files)
}

// Runs over the changed sample, and asserts what the run ends with.
pub fn expect_sample(
    rt: &impl Abort,
    alloc: Global,
    changes: &[Change],
    run: &Run,
    ending: &Ending,
) -> Result<(), Fail> {
    let files = sample_with_report(rt, alloc, changes)?;
    expect(rt, alloc, files, run, ending)
}

// Asserts that the changed sample has this line, with this status.
pub fn expect_line(
    rt: &impl Abort,
    alloc: Global,
    changes: &[Change],
    status: u8,
    line: &str,
) -> Result<(), Fail> {
    let ending = Ending {
        status,
        out: line,
        err: "",
    };
    expect_sample(rt, alloc, changes, &check_of_sample(), &ending)
}

// Asserts that the changed sample is refused with this status and line.
pub fn expect_refused(
    rt: &impl Abort,
    alloc: Global,
    changes: &[Change],
    status: u8,
    err: &str,
) -> Result<(), Fail> {
    let ending = Ending {
        status,
        out: "",
        err,
    };
    expect_sample(rt, alloc, changes, &check_of_sample(), &ending)
}
