//! Runs over a shelf that has no memory left from one of its calls on.

use super::expecting::{PROVED, check_of_sample, sample_with_report};
use crate::running::{Ending, expect_over, shelf_of};
use crate::scarce_shelf::ScarceShelf;
use std::alloc::Global;
use std::process::Abort;
use std::test::Fail;

// Checks the sample's report on a shelf with memory for so many of these calls, and asserts what the run ends with.
fn expect_after(rt: &impl Abort, alloc: Global, left: u64, ending: &Ending) -> Result<(), Fail> {
    let run = check_of_sample();
    let shelf = shelf_of(rt, alloc, sample_with_report(rt, alloc, &[])?, &run)?;
    let mut scarce = ScarceShelf { shelf, left };
    expect_over(rt, alloc, &mut scarce, &run, ending)
}

#[test]
fn writes_nothing_where_the_shelf_has_no_memory(rt: HostRuntime) -> Result<(), Fail> {
    let alloc = rt.alloc();
    // The control file and the phase file are opened, each header is asked for and opened, and each body and the report are opened.
    for left in 0..9 {
        let ending = Ending {
            status: 6,
            out: "",
            err: "edtcheck: memory\n",
        };
        expect_after(&rt, alloc, left, &ending)?;
    }
    let ending = Ending {
        status: 0,
        out: PROVED,
        err: "",
    };
    expect_after(&rt, alloc, 9, &ending)
}
