//! Texts that a run writes for the sample and its changes. The expected values were found apart from this code.

use super::expecting::expect_text;
use crate::running::{Ending, expect, plain};
use crate::sample::Change::{Add, Put, Remove, Swap};
use crate::sample::{TEXT, sample};
use std::alloc::Global;
use std::process::Abort;
use std::test::Fail;

const GRID_LINE: &str = "LOCGRID 4 1 1 10.0 0.0 0.0 1.0 1.0 1.0 PROB_DENSITY SAVE\n";

const METHOD_LINE: &str = "LOCMETH EDT 9999.0 2 -1 -1 -1 0\n";

const LAST_LINE: &str = "LOCSEARCH OCT 1 1 1 0.01 10000 5000 0 1\n";

const SECOND_PICK: &str = "BBB ? ? ? P U 19940217 2216 46.0000 GAU";

#[test]
fn writes_the_text_of_the_sample_in_any_pieces(rt: HostRuntime) -> Result<(), Fail> {
    let alloc = rt.alloc();
    for piece in [1, 7, 65536] {
        let mut run = plain(&["locate", "e1.in"]);
        run.piece = piece;
        let ending = Ending {
            status: 0,
            out: TEXT,
            err: "",
        };
        expect(&rt, alloc, sample(&rt, alloc, &[])?, &run, &ending)?;
    }
    Ok(())
}

// Asserts that this text is written after this line is put after the sample's control file and this text for that in its phase file.
fn expect_with_line<'x>(
    rt: &impl Abort,
    alloc: Global,
    line: &str,
    old: &'x str,
    new: &'x str,
    text: &str,
) -> Result<(), Fail> {
    let last = format!(in alloc; "{LAST_LINE}{line}\n")?;
    let changes = [
        Swap("e1.in", LAST_LINE, last.as_str()),
        Swap("obs.txt", old, new),
    ];
    expect_text(rt, alloc, &changes, text)
}

#[test]
fn writes_the_same_text_where_another_statement_changes_nothing(
    rt: HostRuntime,
) -> Result<(), Fail> {
    let alloc = rt.alloc();
    for (line, old, new) in [
        ("LOCDELAY BBB P 5 0.5", "46.0000", "46.5000"),
        ("LOCALIAS BBX BBB 0 0 0 9999 99 99", "BBB", "BBX"),
        // As many boxes as are met.
        ("EDTBUDGET 5", "46.0000", "46.0"),
        ("EDTNEAR 999", "46.0000", "46.0"),
    ] {
        expect_with_line(&rt, alloc, line, old, new, TEXT)?;
    }
    let both = format!(in alloc; "{GRID_LINE}{METHOD_LINE}")?;
    let changes = [
        Swap("e1.in", both.as_str(), "INCLUDE grid.in\n"),
        Add("grid.in", both.as_bytes()),
    ];
    expect_text(&rt, alloc, &changes, TEXT)
}

#[test]
fn reads_bodies_whose_greatest_byte_comes_first(rt: HostRuntime) -> Result<(), Fail> {
    let changes = [
        Swap("e1.in", "loc/a", "loc/a 1"),
        Put(
            "time/a.P.AAA.time.usec",
            b"\x00\x0f\x42\x40\x00\x1e\x84\x80\x00\x2d\xc6\xc0\x00\x3d\x09\x00",
        ),
        Put(
            "time/a.P.BBB.time.usec",
            b"\x00\x1e\x84\x80\x00\x1e\x84\x80\x00\x1e\x84\x80\x00\x1e\x84\x80",
        ),
    ];
    expect_text(&rt, rt.alloc(), &changes, TEXT)
}

#[test]
fn tells_the_picks_that_are_not_used_and_the_events_that_are_not_located(
    rt: HostRuntime,
) -> Result<(), Fail> {
    let duplicate = "BBB ? ? ? P U 19940217 2216 46.0000 GAU 1.00e-01 -1.00e+00 -1.00e+00 -1.00e+00
AAA ? ? ? P U 19940217 2216 45.0000 GAU";
    for (change, text) in [
        (Put("obs.txt", b""), "EDTLOC 1 EVENTS 0 PASSED 2 0\n"),
        (
            Remove("time/a.P.BBB.time.hdr"),
            "EDTLOC 1 EVENTS 1 PASSED 2 0
EVENT 1 PICKS 1 SKIPPED 1
PICK AAA P 761523405000000 1000 -
SKIP 2 BBB P NOGRID
CERT FEW
END
",
        ),
        (
            Swap("e1.in", "EDT 9999.0", "EDT 1.0"),
            "EDTLOC 1 EVENTS 1 PASSED 2 0
EVENT 1 PICKS 0 SKIPPED 2
SKIP 1 AAA P FAR
SKIP 2 BBB P FAR
CERT FEW
END
",
        ),
        (
            Swap("obs.txt", SECOND_PICK, duplicate),
            "EDTLOC 1 EVENTS 1 PASSED 2 0
EVENT 1 PICKS 2 SKIPPED 1
PICK AAA P 761523405000000 1000 0
PICK BBB P 761523406000000 1000 0
SKIP 3 AAA P DUPLICATE
HYPOCENTRE 0 0 0 10000000 0 0
ORIGIN 1994-02-17 22:16:44.000000
RMS 0
MET 5
CERT LOCATED
BEST 0 343597383680
NEAR 1
0 343597383680
COVER 3
0 1 0 1 0 1 343597383680
1 2 0 1 0 1 0
2 4 0 1 0 1 0
END
",
        ),
        // The picks are too far apart for any node.
        (
            Swap("obs.txt", "46.0000", "56.0000"),
            "EDTLOC 1 EVENTS 1 PASSED 2 0
EVENT 1 PICKS 2 SKIPPED 0
PICK AAA P 761523405000000 1000 -
PICK BBB P 761523416000000 1000 -
MET 1
CERT NOFIT
COVER 1
0 4 0 1 0 1 0
END
",
        ),
        (
            Swap("e1.in", "# sample", "EDTBUDGET 4"),
            "EDTLOC 1 EVENTS 1 PASSED 2 0
EVENT 1 PICKS 2 SKIPPED 0
PICK AAA P 761523405000000 1000 -
PICK BBB P 761523406000000 1000 -
CERT BUDGET
END
",
        ),
        // Comments part no events, and passed lines neither.
        (
            Swap(
                "obs.txt",
                "BBB ?",
                "PUBLIC_ID first
# a comment

BBB ?",
            ),
            "EDTLOC 1 EVENTS 2 PASSED 2 1
EVENT 1 PICKS 1 SKIPPED 0
PICK AAA P 761523405000000 1000 -
CERT FEW
END
EVENT 2 PICKS 1 SKIPPED 0
PICK BBB P 761523406000000 1000 -
CERT FEW
END
",
        ),
    ] {
        expect_text(&rt, rt.alloc(), &[change], text)?;
    }
    Ok(())
}

#[test]
fn tells_what_lanes_do_and_changes_no_other_line(rt: HostRuntime) -> Result<(), Fail> {
    let alloc = rt.alloc();
    for (lanes, seed, line) in [
        ("1", "54321", ""),
        ("3", "54321", "LANES 3 EVENTS 4 LOST 0\n"),
        // A draw loses a lane.
        ("3", "-1", "LANES 3 EVENTS 5 LOST 1\n"),
        ("64", "54321", "LANES 64 EVENTS 4 LOST 0\n"),
    ] {
        let last = format!(in alloc; "{LAST_LINE}EDTLANES {lanes}\n")?;
        let changes = [
            Swap("e1.in", LAST_LINE, last.as_str()),
            Swap("e1.in", "54321", seed),
        ];
        let met = format!(in alloc; "MET 5\n{line}")?;
        let text = TEXT.replacen(alloc, "MET 5\n", met.as_str(), 1)?;
        expect_text(&rt, alloc, &changes, text.as_str())?;
    }
    Ok(())
}

#[test]
fn tells_the_lanes_of_each_event_that_has_a_problem(rt: HostRuntime) -> Result<(), Fail> {
    for (change, text) in [
        (
            Swap("e1.in", "LOCSEARCH OCT 1", "EDTBUDGET 4\nLOCSEARCH OCT 1"),
            "EDTLOC 1 EVENTS 1 PASSED 2 0
EVENT 1 PICKS 2 SKIPPED 0
PICK AAA P 761523405000000 1000 -
PICK BBB P 761523406000000 1000 -
LANES 3 EVENTS 4 LOST 0
CERT BUDGET
END
",
        ),
        // The roots alone pass the budget.
        (
            Swap("e1.in", "LOCSEARCH OCT 1", "EDTBUDGET 3\nLOCSEARCH OCT 4"),
            "EDTLOC 1 EVENTS 1 PASSED 2 0
EVENT 1 PICKS 2 SKIPPED 0
PICK AAA P 761523405000000 1000 -
PICK BBB P 761523406000000 1000 -
LANES 3 EVENTS 0 LOST 0
CERT BUDGET
END
",
        ),
        (
            Swap("obs.txt", "46.0000", "56.0000"),
            "EDTLOC 1 EVENTS 1 PASSED 2 0
EVENT 1 PICKS 2 SKIPPED 0
PICK AAA P 761523405000000 1000 -
PICK BBB P 761523416000000 1000 -
MET 1
LANES 3 EVENTS 0 LOST 0
CERT NOFIT
COVER 1
0 4 0 1 0 1 0
END
",
        ),
        // Few picks are no problem, and nothing is searched.
        (
            Swap("e1.in", "EDT 9999.0", "EDT 1.0"),
            "EDTLOC 1 EVENTS 1 PASSED 2 0
EVENT 1 PICKS 0 SKIPPED 2
SKIP 1 AAA P FAR
SKIP 2 BBB P FAR
CERT FEW
END
",
        ),
    ] {
        let changes = [Swap("e1.in", "# sample", "EDTLANES 3"), change];
        expect_text(&rt, rt.alloc(), &changes, text)?;
    }
    Ok(())
}

#[test]
fn locates_no_event_of_more_than_256_used_picks(rt: HostRuntime) -> Result<(), Fail> {
    let alloc = rt.alloc();
    // Duplicates aren't rejected.
    let picks = "AAA ? ? ? P U 19940217 2216 45.0000 GAU 0.1\n".repeat(alloc, 257)?;
    let lines = "PICK AAA P 761523405000000 1000 -\n".repeat(alloc, 257)?;
    let changes = [
        Swap("e1.in", "2 -1 -1 -1 0", "2 -1 -1 -1 0 -1 0"),
        Put("obs.txt", picks.as_bytes()),
    ];
    let text = format!(in alloc;
        "EDTLOC 1 EVENTS 1 PASSED 2 0\nEVENT 1 PICKS 257 SKIPPED 0\n{lines}CERT MANY\nEND\n"
    )?;
    expect_text(&rt, alloc, &changes, text.as_str())
}

// What a text has of a located event after its pick lines, where its first node is the best of the sample's four and no other is near: the
// seconds of the origin, the root mean square, the score, and the bound of the last two nodes.
fn located_lines(
    alloc: Global,
    origin: &str,
    rms: u64,
    score: u64,
    last: u64,
) -> Result<String, Fail> {
    Ok(format!(in alloc;
        "HYPOCENTRE 0 0 0 10000000 0 0\nORIGIN 1994-02-17 22:16:{origin}\nRMS {rms}\nMET 5\nCERT LOCATED\nBEST 0 {score}\nNEAR 1\n0 {score}\nCOVER 3\n0 1 0 1 0 1 {score}\n1 2 0 1 0 1 0\n2 4 0 1 0 1 {last}\nEND\n"
    )?)
}

#[test]
fn takes_the_times_of_s_from_those_of_p_by_the_ratio(rt: HostRuntime) -> Result<(), Fail> {
    let alloc = rt.alloc();
    // The grid has the P time of 1000001 microseconds at node 0 and, with the ratio 1.7321, the S time of 1732102 there: 732101 past the
    // P time. A misfit of 3124 is the last of the kernel's first step, and one of 3125 is of the second, on either side.
    for (seconds, first, second, origin, score, last) in [
        (
            "728976",
            3125,
            0,
            "43.996874",
            343_513_497_600,
            1_517_813_760,
        ),
        (
            "728977",
            3124,
            0,
            "43.996875",
            343_597_383_680,
            1_517_813_760,
        ),
        (
            "735225",
            0,
            3124,
            "43.999999",
            343_597_383_680,
            1_754_398_720,
        ),
        (
            "735226",
            0,
            3125,
            "43.999999",
            343_513_497_600,
            1_754_398_720,
        ),
    ] {
        let pick = format!(in alloc; "AAA ? ? ? S U 19940217 2216 45.{seconds} GAU")?;
        let changes = [
            Swap("e1.in", "2 -1 -1 -1 0", "2 -1 -1 1.7321 0"),
            Swap("obs.txt", SECOND_PICK, pick.as_str()),
            Put(
                "time/a.P.AAA.time.usec",
                b"\x41\x42\x0f\x00\x80\x84\x1e\x00\xc0\xc6\x2d\x00\x00\x09\x3d\x00",
            ),
        ];
        let lines = located_lines(alloc, origin, 2210, score, last)?;
        let text = format!(in alloc;
            "EDTLOC 1 EVENTS 1 PASSED 2 0\nEVENT 1 PICKS 2 SKIPPED 0\nPICK AAA P 761523405000000 1000 {first}\nPICK AAA S 761523405{seconds} 1000 {second}\n{lines}"
        )?;
        expect_text(&rt, alloc, &changes, text.as_str())?;
    }
    Ok(())
}

#[test]
fn locates_with_each_kernel(rt: HostRuntime) -> Result<(), Fail> {
    let alloc = rt.alloc();
    expect_with_line(&rt, alloc, "EDTKERNEL TRIANGLE", "46.0000", "46.0", TEXT)?;
    // Within one second nodes 0 and 1 fit as well, and within three seconds all four.
    expect_with_line(
        &rt,
        alloc,
        "EDTKERNEL COUNT 1.0",
        "46.0000",
        "46.0",
        "EDTLOC 1 EVENTS 1 PASSED 2 0
EVENT 1 PICKS 2 SKIPPED 0
PICK AAA P 761523405000000 1000 0
PICK BBB P 761523406000000 1000 0
HYPOCENTRE 0 0 0 10000000 0 0
ORIGIN 1994-02-17 22:16:44.000000
RMS 0
MET 5
CERT LOCATED
BEST 0 343597383680
NEAR 2
0 343597383680
1 343597383680
COVER 3
0 1 0 1 0 1 343597383680
1 2 0 1 0 1 343597383680
2 4 0 1 0 1 0
END
",
    )?;
    expect_with_line(
        &rt,
        alloc,
        "EDTKERNEL COUNT 3.0",
        "46.0000",
        "46.0",
        "EDTLOC 1 EVENTS 1 PASSED 2 0
EVENT 1 PICKS 2 SKIPPED 0
PICK AAA P 761523405000000 1000 0
PICK BBB P 761523406000000 1000 0
HYPOCENTRE 0 0 0 10000000 0 0
ORIGIN 1994-02-17 22:16:44.000000
RMS 0
MET 7
CERT LOCATED
BEST 0 343597383680
NEAR 4
0 343597383680
1 343597383680
2 343597383680
3 343597383680
COVER 4
0 1 0 1 0 1 343597383680
1 2 0 1 0 1 343597383680
2 3 0 1 0 1 343597383680
3 4 0 1 0 1 343597383680
END
",
    )?;
    let picks =
        "EDTLOC 1 EVENTS 1 PASSED 2 0\nEVENT 1 PICKS 2 SKIPPED 0\nPICK AAA P 761523405000000 1000 0\nPICK BBB P 761523406100000 1000 100000\n";
    let lines = located_lines(alloc, "44.000000", 70711, 343_597_383_680, 0)?;
    let text = format!(in alloc; "{picks}{lines}")?;
    expect_with_line(
        &rt,
        alloc,
        "EDTKERNEL COUNT 1.0",
        "46.0000",
        "46.1000",
        text.as_str(),
    )
}
