//! Runs that locate, in which a call or a write fails.

use crate::running::{Ending, expect, plain};
use crate::sample::Change::{Add, Swap};
use crate::sample::{
    CONTROL, FIRST_BODY, FIRST_HEADER, PHASES, SECOND_BODY, SECOND_HEADER, TEXT, sample,
};
use std::alloc::Global;
use std::process::Abort;
use std::test::Fail;

// Asserts that a run on the sample ends with the name of this file where one of its calls fails.
fn expect_read(
    rt: &impl Abort,
    alloc: Global,
    piece: usize,
    call: u64,
    name: &str,
) -> Result<(), Fail> {
    let failing = [call];
    let mut run = plain(&["locate", "e1.in"]);
    run.piece = piece;
    run.failing_calls = &failing;
    let line = format!(in alloc; "edtloc: read {name}\n")?;
    let ending = Ending {
        status: 7,
        out: "",
        err: line.as_str(),
    };
    expect(rt, alloc, sample(rt, alloc, &[])?, &run, &ending)
}

#[test]
fn names_the_file_of_each_call_that_fails(rt: HostRuntime) -> Result<(), Fail> {
    let alloc = rt.alloc();
    // The files in the order of reading, with the calls before the first read of each: a header is asked for before it is opened.
    let files = [
        ("e1.in", 1, CONTROL.len()),
        ("obs.txt", 1, PHASES.len()),
        ("time/a.P.AAA.time.hdr", 2, FIRST_HEADER.len()),
        ("time/a.P.BBB.time.hdr", 2, SECOND_HEADER.len()),
        ("time/a.P.AAA.time.usec", 1, FIRST_BODY.len()),
        ("time/a.P.BBB.time.usec", 1, SECOND_BODY.len()),
    ];
    for piece in [1, 3, 65536] {
        let mut call: u64 = 0;
        for (name, opening, length) in files {
            // The last read finds the end.
            let calls = length
                .div_ceil(piece.max(1))
                .wrapping_add(opening)
                .wrapping_add(1);
            for _ in 0..calls {
                call = call.wrapping_add(1);
                expect_read(&rt, alloc, piece, call, name)?;
            }
        }
        let failing = [call.wrapping_add(1)];
        let mut run = plain(&["locate", "e1.in"]);
        run.piece = piece;
        run.failing_calls = &failing;
        let ending = Ending {
            status: 0,
            out: TEXT,
            err: "",
        };
        expect(&rt, alloc, sample(&rt, alloc, &[])?, &run, &ending)?;
    }
    Ok(())
}

#[test]
fn leaves_the_bytes_before_a_write_that_fails(rt: HostRuntime) -> Result<(), Fail> {
    let alloc = rt.alloc();
    for taken in 0..TEXT.len() {
        let Some(out) = TEXT.get(..taken) else {
            return Err("a front of the text".into());
        };
        let failing = [(taken as u64).wrapping_add(1)];
        let mut run = plain(&["locate", "e1.in"]);
        run.taking = 1;
        run.failing_writes = &failing;
        let ending = Ending {
            status: 8,
            out,
            err: "edtloc: write\n",
        };
        expect(&rt, alloc, sample(&rt, alloc, &[])?, &run, &ending)?;
    }
    Ok(())
}

#[test]
fn names_the_file_whose_call_failed(rt: HostRuntime) -> Result<(), Fail> {
    let alloc = rt.alloc();
    // Of each file there is an open, one read that gives it, and one that finds its end.
    for (call, err) in [
        (1, "edtloc: read e1.in\n"),
        (3, "edtloc: read e1.in\n"),
        (4, "edtloc: read grid.in\n"),
        (7, "edtloc: read obs.txt\n"),
        (9, "edtloc: read obs.txt\n"),
        // A header is asked for first, and then opened and read.
        (10, "edtloc: read time/a.P.AAA.time.hdr\n"),
        (11, "edtloc: read time/a.P.AAA.time.hdr\n"),
        (12, "edtloc: read time/a.P.AAA.time.hdr\n"),
        (14, "edtloc: read time/a.P.BBB.time.hdr\n"),
        (17, "edtloc: read time/a.P.BBB.time.hdr\n"),
        // Then the bodies are opened and read.
        (18, "edtloc: read time/a.P.AAA.time.usec\n"),
        (19, "edtloc: read time/a.P.AAA.time.usec\n"),
        (21, "edtloc: read time/a.P.BBB.time.usec\n"),
        (23, "edtloc: read time/a.P.BBB.time.usec\n"),
    ] {
        let changes = [
            Swap("e1.in", "# sample", "INCLUDE grid.in"),
            Add("grid.in", b"# a comment\n"),
        ];
        let failing = [call];
        let mut run = plain(&["locate", "e1.in"]);
        run.failing_calls = &failing;
        let ending = Ending {
            status: 7,
            out: "",
            err,
        };
        expect(&rt, alloc, sample(&rt, alloc, &changes)?, &run, &ending)?;
    }
    Ok(())
}

#[test]
fn names_an_absent_control_file(rt: HostRuntime) -> Result<(), Fail> {
    let alloc = rt.alloc();
    let run = plain(&["locate", "none.in"]);
    let ending = Ending {
        status: 9,
        out: "",
        err: "edtloc: absent none.in\n",
    };
    expect(&rt, alloc, sample(&rt, alloc, &[])?, &run, &ending)
}

#[test]
fn ends_with_a_failing_write(rt: HostRuntime) -> Result<(), Fail> {
    let alloc = rt.alloc();
    // Ten bytes a write: three for the head line, and then those of the block.
    for (write, status, out, err) in [
        (1, 8, "", "edtloc: write\n"),
        (2, 8, "EDTLOC 1 E", "edtloc: write\n"),
        (4, 8, "EDTLOC 1 EVENTS 1 PASSED 2 0\n", "edtloc: write\n"),
        (
            5,
            8,
            "EDTLOC 1 EVENTS 1 PASSED 2 0\nEVENT 1 PI",
            "edtloc: write\n",
        ),
        (60, 0, TEXT, ""),
    ] {
        let failing = [write];
        let mut run = plain(&["locate", "e1.in"]);
        run.failing_writes = &failing;
        let ending = Ending { status, out, err };
        expect(&rt, alloc, sample(&rt, alloc, &[])?, &run, &ending)?;
    }
    Ok(())
}

#[test]
fn keeps_its_status_where_the_errors_fail(rt: HostRuntime) -> Result<(), Fail> {
    let alloc = rt.alloc();
    // Ten bytes a write, and each piece of the line begins one: `edtloc:`, ` control `, `0`, ` `, `7`, ` ` and `Method`.
    for (write, err) in [
        (1, ""),
        (2, "edtloc:"),
        (3, "edtloc: control "),
        (7, "edtloc: control 0 7 "),
    ] {
        let changes = [Swap("e1.in", "LOCMETH EDT", "LOCMETH EDT_OT_WT")];
        let failing = [write];
        let mut run = plain(&["locate", "e1.in"]);
        run.failing_errors = &failing;
        let ending = Ending {
            status: 3,
            out: "",
            err,
        };
        expect(&rt, alloc, sample(&rt, alloc, &changes)?, &run, &ending)?;
    }
    Ok(())
}
