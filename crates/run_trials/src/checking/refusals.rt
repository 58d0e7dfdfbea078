//! Runs that are refused.

use super::expecting::{check_of_sample, expect_refused, expect_sample};
use crate::running::{Ending, Run};
use crate::sample::Change;
use std::alloc::Global;
use std::process::Abort;
use std::test::Fail;

// Text of the sample's report, what stands in its place, and the first faulty line with its cause.
const FAULTY: [(&str, &str, &str); 18] = [
    ("EDTLOC 1", "EDTLOC 01", "1 Form"),
    ("PASSED 2 0", "PASSED 2 0 ", "1 Form"),
    ("PASSED 2 0", "PASSED 2\t0", "1 Form"),
    ("PASSED 2 0", "PASSED 2", "1 Form"),
    ("PASSED 2 0", "PASSED 02 0", "1 Number"),
    (
        "EVENTS 1 PASSED 2",
        "EVENTS 2 PASSED 4294967296",
        "1 Number",
    ),
    ("EVENTS 1", "EVENTS 2", "1 Events"),
    ("EVENT 1 PICKS 2", "EVENT 2 PICKS x", "2 Number"),
    ("EVENT 1", "EVENT 2", "2 Form"),
    ("EVENT 1", "EVENTS 1", "2 Form"),
    ("CERT LOCATED", "CERTIFICATE", "18 Form"),
    ("CERT LOCATED", "CERT  LOCATED", "9 Form"),
    ("BEST 0 343597383680", "BEST 0 0", "10 Number"),
    ("NEAR 1", "NEAR 100001", "11 Limit"),
    ("COVER 3", "COVER 2000001", "13 Limit"),
    ("1 2 0 1 0 1 0", "1 2 0 1 0 1 00", "15 Number"),
    ("END\n", "", "17 Form"),
    ("END\n", "END\n\n", "18 Form"),
];

#[test]
fn faulty_reports_are_refused_at_their_first_fault(rt: HostRuntime) -> Result<(), Fail> {
    let alloc = rt.alloc();
    for (old, new, fault) in FAULTY {
        let line = format!(in alloc; "edtcheck: report {fault}\n")?;
        let change = Change::Swap("e1.report", old, new);
        expect_refused(&rt, alloc, &[change], 10, line.as_str())?;
    }
    Ok(())
}

#[test]
fn a_report_without_a_whole_first_line_is_refused(rt: HostRuntime) -> Result<(), Fail> {
    for bytes in [b"".as_slice(), b"EDTLOC 1 EVENTS 1 PASSED 2 0".as_slice()] {
        let change = Change::Put("e1.report", bytes);
        let line = "edtcheck: report 1 Form\n";
        expect_refused(&rt, rt.alloc(), &[change], 10, line)?;
    }
    Ok(())
}

// Asserts how a report of so many line feeds is refused.
fn expect_feeds(rt: &impl Abort, alloc: Global, bytes: usize, line: &str) -> Result<(), Fail> {
    let report = vec![in alloc; b'\n'; bytes]?;
    let changes = [Change::Put("e1.report", &report)];
    expect_refused(rt, alloc, &changes, 10, line)
}

#[test]
fn a_report_past_its_limit_is_refused_before_it_is_read(rt: HostRuntime) -> Result<(), Fail> {
    let alloc = rt.alloc();
    expect_feeds(&rt, alloc, 268_435_456, "edtcheck: report 1 Form\n")?;
    expect_feeds(&rt, alloc, 268_435_457, "edtcheck: report 0 TooLong\n")
}

#[test]
fn the_report_is_read_after_the_input(rt: HostRuntime) -> Result<(), Fail> {
    let alloc = rt.alloc();
    let faulty = Change::Swap("e1.report", "EDTLOC", "");
    let gone = Change::Remove("e1.report");
    for (change, status, line) in [
        (
            Change::Swap("e1.in", "LOCGAU 0.1", "LOCGAU x"),
            3,
            "edtcheck: control 0 8 Number\n",
        ),
        (
            Change::Swap("obs.txt", "45.0000", "x"),
            4,
            "edtcheck: phases 1 Number\n",
        ),
        (
            Change::Swap("time/a.P.AAA.time.hdr", "USEC32", "FLOAT"),
            5,
            "edtcheck: header time/a.P.AAA.time.hdr FloatBody\n",
        ),
        (
            Change::Remove("time/a.P.BBB.time.usec"),
            9,
            "edtcheck: absent time/a.P.BBB.time.usec\n",
        ),
    ] {
        expect_refused(&rt, alloc, &[change, faulty], status, line)?;
        expect_refused(&rt, alloc, &[change, gone], status, line)?;
    }
    expect_refused(&rt, alloc, &[gone], 9, "edtcheck: absent e1.report\n")
}

#[test]
fn words_without_a_shape_do_nothing(rt: HostRuntime) -> Result<(), Fail> {
    let words: [&[&str]; 5] = [
        &[],
        &["e1.in"],
        &["e1.in", ""],
        &["e 1.in", "e1.report"],
        &["e1.in", "e1.report", "x"],
    ];
    for words in words {
        let run = Run {
            words,
            failing_calls: &[1],
            ..check_of_sample()
        };
        let ending = Ending {
            status: 2,
            out: "",
            err: "edtcheck: words\n",
        };
        expect_sample(&rt, rt.alloc(), &[], &run, &ending)?;
    }
    Ok(())
}
