//! Runs in which a call or a write fails.

use super::expecting::{PROVED, check_of_sample, expect_sample};
use crate::running::{Ending, Run};
use crate::sample::{
    CONTROL, Change, FIRST_BODY, FIRST_HEADER, PHASES, SECOND_BODY, SECOND_HEADER, TEXT,
};
use std::alloc::Global;
use std::process::Abort;
use std::test::Fail;

// Asserts that a run on the sample ends with the name of this file where one of its calls fails.
fn expect_read(
    rt: &impl Abort,
    alloc: Global,
    piece: usize,
    call: u64,
    name: &str,
) -> Result<(), Fail> {
    let line = format!(in alloc; "edtcheck: read {name}\n")?;
    let run = Run {
        piece,
        failing_calls: &[call],
        ..check_of_sample()
    };
    let ending = Ending {
        status: 7,
        out: "",
        err: line.as_str(),
    };
    expect_sample(rt, alloc, &[], &run, &ending)
}

#[test]
fn names_the_file_of_each_call_that_fails(rt: HostRuntime) -> Result<(), Fail> {
    let alloc = rt.alloc();
    // The files in the order of reading, with the calls before the first read of each: a header is asked for before it is opened.
    let files = [
        ("e1.in", 1, CONTROL.len()),
        ("obs.txt", 1, PHASES.len()),
        ("time/a.P.AAA.time.hdr", 2, FIRST_HEADER.len()),
        ("time/a.P.BBB.time.hdr", 2, SECOND_HEADER.len()),
        ("time/a.P.AAA.time.usec", 1, FIRST_BODY.len()),
        ("time/a.P.BBB.time.usec", 1, SECOND_BODY.len()),
        ("e1.report", 1, TEXT.len()),
    ];
    for piece in [1, 3, 65536] {
        let mut call: u64 = 0;
        for (name, opening, length) in files {
            // The last read finds the end.
            let calls = length
                .div_ceil(piece.max(1))
                .wrapping_add(opening)
                .wrapping_add(1);
            for _ in 0..calls {
                call = call.wrapping_add(1);
                expect_read(&rt, alloc, piece, call, name)?;
            }
        }
        let run = Run {
            piece,
            failing_calls: &[call.wrapping_add(1)],
            ..check_of_sample()
        };
        let ending = Ending {
            status: 0,
            out: PROVED,
            err: "",
        };
        expect_sample(&rt, alloc, &[], &run, &ending)?;
    }
    Ok(())
}

#[test]
fn leaves_the_bytes_before_a_write_that_fails(rt: HostRuntime) -> Result<(), Fail> {
    let alloc = rt.alloc();
    for taken in 0..PROVED.len() {
        let Some(out) = PROVED.get(..taken) else {
            return Err("a front of the line".into());
        };
        let run = Run {
            taking: 1,
            failing_writes: &[(taken as u64).wrapping_add(1)],
            ..check_of_sample()
        };
        let ending = Ending {
            status: 8,
            out,
            err: "edtcheck: write\n",
        };
        expect_sample(&rt, alloc, &[], &run, &ending)?;
    }
    Ok(())
}

#[test]
fn keeps_its_status_where_the_errors_fail(rt: HostRuntime) -> Result<(), Fail> {
    // Ten bytes a write, and each piece of the line begins one.
    let changes = [Change::Swap("e1.report", "EDTLOC 1", "EDTLOC 01")];
    for (write, err) in [(1, ""), (2, "edtcheck: ")] {
        let run = Run {
            failing_errors: &[write],
            ..check_of_sample()
        };
        let ending = Ending {
            status: 10,
            out: "",
            err,
        };
        expect_sample(&rt, rt.alloc(), &changes, &run, &ending)?;
    }
    Ok(())
}
