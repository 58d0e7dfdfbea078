//! Runs over a shelf that has no memory left from one of its calls on.

use crate::running::{Ending, expect_over, plain, shelf_of};
use crate::sample::{TEXT, sample};
use crate::scarce_shelf::ScarceShelf;
use std::alloc::Global;
use std::process::Abort;
use std::test::Fail;

// Locates over the sample on a shelf with memory for so many of these calls, and asserts what the run ends with.
fn expect_after(rt: &impl Abort, alloc: Global, left: u64, ending: &Ending) -> Result<(), Fail> {
    let run = plain(&["locate", "e1.in"]);
    let shelf = shelf_of(rt, alloc, sample(rt, alloc, &[])?, &run)?;
    let mut scarce = ScarceShelf { shelf, left };
    expect_over(rt, alloc, &mut scarce, &run, ending)
}

#[test]
fn writes_nothing_where_the_shelf_has_no_memory(rt: HostRuntime) -> Result<(), Fail> {
    let alloc = rt.alloc();
    // The control file and the phase file are opened, each header is asked for and opened, and each body is opened.
    for left in 0..8 {
        let ending = Ending {
            status: 6,
            out: "",
            err: "edtloc: memory\n",
        };
        expect_after(&rt, alloc, left, &ending)?;
    }
    let ending = Ending {
        status: 0,
        out: TEXT,
        err: "",
    };
    expect_after(&rt, alloc, 8, &ending)
}
