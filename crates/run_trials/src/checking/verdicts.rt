//! What the line of an event says of its certificate.

use super::expecting::{PROVED, expect_line};
use crate::sample::Change;
use std::alloc::Global;
use std::process::Abort;
use std::test::Fail;

const NEAR: &str = "NEAR 1\n0 343597383680\n";

const COVER: &str = "COVER 3\n0 1 0 1 0 1 343597383680\n1 2 0 1 0 1 0\n2 4 0 1 0 1 0\n";

const LOCATED: &str =
    "CERT LOCATED\nBEST 0 343597383680\nNEAR 1\n0 343597383680\nCOVER 3\n0 1 0 1 0 1 343597383680
1 2 0 1 0 1 0\n2 4 0 1 0 1 0\n";

// Text of the sample's report, what stands in its place, and what the line then says.
const REFUSED: [(&str, &str, &str); 13] = [
    (
        COVER,
        "COVER 4\n0 1 0 1 0 1 343597383680\n0 1 0 1 0 1 343597383680\n1 2 0 1 0 1 0\n2 4 0 1 0 1 0\n",
        "TWICE 0",
    ),
    (
        COVER,
        "COVER 2\n0 1 0 1 0 1 343597383680\n2 4 0 1 0 1 0\n",
        "UNCOVERED 1",
    ),
    (
        "0 1 0 1 0 1 343597383680",
        "0 1 0 1 0 1 343597383679",
        "WRONGBOUND 0",
    ),
    (COVER, "COVER 1\n0 4 0 1 0 1 343597383680\n", "NOTCLOSED 0"),
    ("BEST 0", "BEST 1", "WRONGSCORE 1"),
    (NEAR, "NEAR 0\n", "NEARWRONG 0"),
    ("0 1 0 1 0 1", "0 5 0 1 0 1", "OUTSIDE 0"),
    ("1 2 0 1 0 1 0", "2 2 0 1 0 1 0", "OUTSIDE 1"),
    (COVER, "COVER 0\n", "UNCOVERED 0"),
    ("BEST 0", "BEST 4", "WRONGSCORE 4"),
    (
        "BEST 0 343597383680",
        "BEST 0 18446744073709551615",
        "WRONGSCORE 0",
    ),
    (
        NEAR,
        "NEAR 2\n0 343597383680\n0 343597383680\n",
        "NEARWRONG 1",
    ),
    (
        LOCATED,
        "CERT NOFIT\nCOVER 1\n0 4 0 1 0 1 343597383680\n",
        "NOTCLOSED 0",
    ),
];

#[test]
fn certificates_are_refused_with_the_first_verdict(rt: HostRuntime) -> Result<(), Fail> {
    let alloc = rt.alloc();
    for (old, new, verdict) in REFUSED {
        let line = format!(in alloc; "CHECK 1 REFUSED {verdict}\n")?;
        let change = Change::Swap("e1.report", old, new);
        expect_line(&rt, alloc, &[change], 1, line.as_str())?;
    }
    let zero = "CERT NOFIT\nCOVER 1\n0 4 0 1 0 1 0\n";
    let change = Change::Swap("e1.report", LOCATED, zero);
    expect_line(&rt, alloc, &[change], 1, "CHECK 1 REFUSED WRONGBOUND 0\n")
}

#[test]
fn any_cover_proves_whose_bounds_do(rt: HostRuntime) -> Result<(), Fail> {
    let alloc = rt.alloc();
    expect_line(&rt, alloc, &[], 0, PROVED)?;
    let singles =
        "COVER 4\n0 1 0 1 0 1 343597383680\n1 2 0 1 0 1 0\n2 3 0 1 0 1 0\n3 4 0 1 0 1 0\n";
    expect_line(
        &rt,
        alloc,
        &[Change::Swap("e1.report", COVER, singles)],
        0,
        PROVED,
    )
}

// The text that a run of three lanes writes, and one of lanes that the control file doesn't give.
#[test]
fn the_line_of_the_lanes_is_passed_over(rt: HostRuntime) -> Result<(), Fail> {
    let alloc = rt.alloc();
    let told = Change::Swap("e1.report", "MET 5\n", "MET 5\nLANES 3 EVENTS 4 LOST 0\n");
    let given = Change::Swap("e1.in", "LOCGAU", "EDTLANES 3\nLOCGAU");
    expect_line(&rt, alloc, &[told, given], 0, PROVED)?;
    expect_line(&rt, alloc, &[told], 0, PROVED)?;
    expect_line(&rt, alloc, &[given], 0, PROVED)
}

#[test]
fn a_line_of_any_length_is_passed_over(rt: HostRuntime) -> Result<(), Fail> {
    let alloc = rt.alloc();
    let more = "x".repeat(alloc, 5000)?;
    let line = format!(in alloc; "MET 5\n{more}\n")?;
    let change = Change::Swap("e1.report", "MET 5\n", line.as_str());
    expect_line(&rt, alloc, &[change], 0, PROVED)
}

// The sample in which no pair ever fits, and a certificate of that.
#[test]
fn no_fit_is_proved_where_no_node_scores(rt: HostRuntime) -> Result<(), Fail> {
    let changes = [
        Change::Swap("e1.in", "10.0 0.0 0.0", "11.0 0.0 0.0"),
        Change::Swap("e1.in", "LOCGRID 4 1 1", "LOCGRID 3 1 1"),
        Change::Swap("e1.report", LOCATED, "CERT NOFIT\nCOVER 1\n0 3 0 1 0 1 0\n"),
    ];
    expect_line(&rt, rt.alloc(), &changes, 0, "CHECK 1 PROVED NOFIT\n")
}

// With this kernel the nodes 0 and 1 have the same score.
#[test]
fn a_later_node_of_the_best_score_is_refused(rt: HostRuntime) -> Result<(), Fail> {
    let alloc = rt.alloc();
    let kernel = Change::Swap("e1.in", "LOCGAU", "EDTKERNEL COUNT 1.0\nLOCGAU");
    let cover = "COVER 3\n0 1 0 1 0 1 343597383680\n1 2 0 1 0 1 343597383680\n2 4 0 1 0 1 0\n";
    let near = "NEAR 2\n0 343597383680\n1 343597383680\n";
    let first = [
        kernel,
        Change::Swap("e1.report", COVER, cover),
        Change::Swap("e1.report", NEAR, near),
    ];
    let line = "CHECK 1 PROVED 0 0 0 0 10000000 0 0 343597383680 2\n";
    expect_line(&rt, alloc, &first, 0, line)?;
    let later = [
        first[0],
        first[1],
        first[2],
        Change::Swap("e1.report", "BEST 0", "BEST 1"),
    ];
    expect_line(&rt, alloc, &later, 1, "CHECK 1 REFUSED NOTFIRST 0\n")
}

// Asserts what is said of the event of the changed sample where its report has this block.
fn expect_block(
    rt: &impl Abort,
    alloc: Global,
    changes: &[Change],
    block: &str,
    status: u8,
    words: &str,
) -> Result<(), Fail> {
    let mut all = Vec::new(alloc);
    for change in changes {
        all.push(*change)?;
    }
    all.push(Change::Swap("e1.report", LOCATED, block))?;
    let line = format!(in alloc; "CHECK 1 {words}\n")?;
    expect_line(rt, alloc, &all, status, line.as_str())
}

// Without the header of one station the sample's event has one used pick. A search of that event would pass a budget of 4.
#[test]
fn kinds_are_held_against_the_event(rt: HostRuntime) -> Result<(), Fail> {
    let few = Change::Remove("time/a.P.BBB.time.hdr");
    let three = Change::Swap("e1.in", "EDT 9999.0 2", "EDT 9999.0 3");
    let budget = Change::Swap("e1.in", "LOCGAU", "EDTBUDGET 4\nLOCGAU");
    for (changes, kind, status, words) in [
        (&[][..], "CERT FEW\n", 1, "REFUSED KIND"),
        (&[], "CERT MANY\n", 1, "REFUSED KIND"),
        (&[], "CERT BUDGET\n", 0, "UNPROVED BUDGET"),
        (&[], "CERT NEARLIMIT\n", 0, "UNPROVED NEARLIMIT"),
        (&[few], LOCATED, 1, "REFUSED KIND"),
        (&[few], "CERT BUDGET\n", 1, "REFUSED KIND"),
        (&[few], "CERT FEW\n", 0, "AGREED FEW"),
        (&[three], "CERT FEW\n", 0, "AGREED FEW"),
        (&[budget], "CERT BUDGET\n", 0, "UNPROVED BUDGET"),
        (
            &[budget],
            LOCATED,
            0,
            "PROVED 0 0 0 0 10000000 0 0 343597383680 1",
        ),
    ] {
        expect_block(&rt, rt.alloc(), changes, kind, status, words)?;
    }
    Ok(())
}

// Asserts the same where these are the phase file's lines, and duplicates aren't rejected.
fn expect_of_picks(
    rt: &impl Abort,
    alloc: Global,
    lines: &str,
    block: &str,
    status: u8,
    words: &str,
) -> Result<(), Fail> {
    let kept = Change::Swap("e1.in", "2 -1 -1 -1 0", "2 -1 -1 -1 0 -1 0");
    let changes = [kept, Change::Put("obs.txt", lines.as_bytes())];
    expect_block(rt, alloc, &changes, block, status, words)
}

#[test]
fn many_picks_agree_with_their_own_kind_alone(rt: HostRuntime) -> Result<(), Fail> {
    let alloc = rt.alloc();
    let lines = "AAA ? ? ? P U 19940217 2216 45.0 GAU 0.1\n".repeat(alloc, 257)?;
    let lines = lines.as_str();
    expect_of_picks(&rt, alloc, lines, "CERT MANY\n", 0, "AGREED MANY")?;
    expect_of_picks(&rt, alloc, lines, "CERT FEW\n", 1, "REFUSED KIND")?;
    expect_of_picks(&rt, alloc, lines, "CERT BUDGET\n", 1, "REFUSED KIND")?;
    expect_of_picks(&rt, alloc, lines, LOCATED, 1, "REFUSED KIND")
}
