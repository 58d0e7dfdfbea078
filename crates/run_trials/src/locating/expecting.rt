//! What the locator writes of the changed sample.

use crate::running::{Ending, expect, plain};
use crate::sample::{Change, sample};
use std::alloc::Global;
use std::process::Abort;
use std::test::Fail;

// Locates with the sample after these changes, and asserts what the run ends with.
pub fn expect_sample(
    rt: &impl Abort,
    alloc: Global,
    changes: &[Change],
    ending: &Ending,
) -> Result<(), Fail> {
    let files = sample(rt, alloc, changes)?;
    expect(rt, alloc, files, &plain(&["locate", "e1.in"]), ending)
}

// Asserts that the run writes this text.
pub fn expect_text(
    rt: &impl Abort,
    alloc: Global,
    changes: &[Change],
    text: &str,
) -> Result<(), Fail> {
    let ending = Ending {
        status: 0,
        out: text,
        err: "",
    };
    expect_sample(rt, alloc, changes, &ending)
}

// Asserts that the run is refused with this status and line.
pub fn expect_refused(
    rt: &impl Abort,
    alloc: Global,
    changes: &[Change],
    status: u8,
    err: &str,
) -> Result<(), Fail> {
    let ending = Ending {
        status,
        out: "",
        err,
    };
    expect_sample(rt, alloc, changes, &ending)
}
