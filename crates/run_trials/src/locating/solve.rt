//! Texts and refusals of `solve` on worked problem files. The expected values were found apart from this code.

use crate::running::{Ending, expect, one_file, plain};
use std::alloc::Global;
use std::process::Abort;
use std::test::Fail;

// Two standard picks: weight 1000, variance 20000000000, so that the scale of their pair is 200000.
const ONE_NODE: &str = "EDTPROBLEM 1 1 1 1 2 0 1000 20000000000 0 1000 20000000000 5 5";

const BEST: &str = "BEST 0 0 0 0 343597383680\n";

// Runs `solve problem` on the text, and asserts its status and what it writes.
fn expect_solved(
    rt: &impl Abort,
    alloc: Global,
    text: &[u8],
    piece: usize,
    status: u8,
    out: &str,
    err: &str,
) -> Result<(), Fail> {
    let mut run = plain(&["solve", "problem"]);
    run.piece = piece;
    let files = one_file(alloc, "problem", text)?;
    expect(rt, alloc, files, &run, &Ending { status, out, err })
}

#[test]
fn writes_the_first_best_node_in_any_pieces(rt: HostRuntime) -> Result<(), Fail> {
    let alloc = rt.alloc();
    for (text, out) in [
        (ONE_NODE, "BEST 0 0 0 0 343597383680\n"),
        // Nodes 1 and 2 tie, and the first in grid order stands.
        (
            "EDTPROBLEM 1 2 2 1 2 0 1000 20000000000 0 1000 20000000000 800000 0 0 800000 0 0 0 0",
            "BEST 1 0 1 0 343597383680\n",
        ),
        (
            "EDTPROBLEM 1 2 1 1 2 0 1000 20000000000 0 1000 20000000000 800000 900000 0 0",
            "NOFIT\n",
        ),
        // Leading zeros, a minus before 0, and every blank and line feed between words.
        (
            "\n\tEDTPROBLEM\r\n1 0001\x0b1\x0c1 2\n\n-0 01000 20000000000\n000 1000 020000000000\n5\r\n5\r\n",
            "BEST 0 0 0 0 343597383680\n",
        ),
        // The last node wins.
        (
            "EDTPROBLEM 1 1 1 2 2 2000000000 1000 20000000000 0 1000 20000000000 0 2000000000 0 0",
            "BEST 1 0 0 1 343597383680\n",
        ),
        // The observed times are as far from 0 and from each other as they may be, and no travel times make up for that.
        (
            "EDTPROBLEM 1 0000000000000000001 1 2 2 1000000000000 2000 0 -100000000000 1 20000000000000000 0 2000000000 2000000000 0",
            "NOFIT\n",
        ),
    ] {
        for piece in [1, 3, 65536] {
            expect_solved(&rt, alloc, text.as_bytes(), piece, 0, out, "")?;
        }
    }
    Ok(())
}

#[test]
fn names_the_first_faulty_word(rt: HostRuntime) -> Result<(), Fail> {
    let alloc = rt.alloc();
    for (text, err) in [
        ("", "edtloc: problem Form 1\n"),
        ("EDTPROBLEMS 1", "edtloc: problem Form 1\n"),
        ("EDTPROBLEM", "edtloc: problem Form 2\n"),
        ("EDTPROBLEM 01 1 1 1", "edtloc: problem Form 2\n"),
        ("EDTPROBLEM 1 0 x", "edtloc: problem Limit 3\n"),
        ("EDTPROBLEM 1 4097", "edtloc: problem Limit 3\n"),
        ("EDTPROBLEM 1 +1", "edtloc: problem Form 3\n"),
        ("EDTPROBLEM 1 256 256 1 2", "edtloc: problem Form 7\n"),
        ("EDTPROBLEM 1 100 100 1 100", "edtloc: problem Form 7\n"),
        ("EDTPROBLEM 1 100 100 1 101", "edtloc: problem Limit 6\n"),
        (
            "EDTPROBLEM 1 00000000000000000001",
            "edtloc: problem Form 3\n",
        ),
        ("EDTPROBLEM 1 4096 -1", "edtloc: problem Form 4\n"),
        ("EDTPROBLEM 1 256 256 2 2", "edtloc: problem Limit 5\n"),
        ("EDTPROBLEM 1 4096 17 1", "edtloc: problem Limit 5\n"),
        ("EDTPROBLEM 1 1 1 1 1", "edtloc: problem Limit 6\n"),
        ("EDTPROBLEM 1 1 1 1 257", "edtloc: problem Limit 6\n"),
        ("EDTPROBLEM 1 100 100 6 17", "edtloc: problem Limit 6\n"),
        (
            "EDTPROBLEM 1 1 1 1 2 1000000000001",
            "edtloc: problem Limit 7\n",
        ),
        (
            "EDTPROBLEM 1 1 1 1 2 -1000000000001",
            "edtloc: problem Limit 7\n",
        ),
        ("EDTPROBLEM 1 1 1 1 2 -", "edtloc: problem Form 7\n"),
        ("EDTPROBLEM 1 1 1 1 2 0 0", "edtloc: problem Limit 8\n"),
        ("EDTPROBLEM 1 1 1 1 2 0 2001", "edtloc: problem Limit 8\n"),
        ("EDTPROBLEM 1 1 1 1 2 0 -1", "edtloc: problem Form 8\n"),
        (
            "EDTPROBLEM 1 1 1 1 2 0 1000 20000000000000001",
            "edtloc: problem Limit 9\n",
        ),
        (
            "EDTPROBLEM 1 1 1 1 2 0 1000 20000000000 0",
            "edtloc: problem Form 11\n",
        ),
        (
            "EDTPROBLEM 1 1 1 1 2 -600000000000 1 0 500000000001",
            "edtloc: problem Limit 10\n",
        ),
        (
            "EDTPROBLEM 1 1 1 1 2 0 1 0 0 1 0 2000000001 x",
            "edtloc: problem Limit 13\n",
        ),
        (
            "EDTPROBLEM 1 1 1 1 2 0 1 0 0 1 0 0",
            "edtloc: problem Form 14\n",
        ),
        (
            "EDTPROBLEM 1 1 1 1 2 0 1 0 0 1 0 0 0 0",
            "edtloc: problem Form 15\n",
        ),
    ] {
        expect_solved(&rt, alloc, text.as_bytes(), 65536, 4, "", err)?;
    }
    Ok(())
}

#[test]
fn reads_files_up_to_their_limit(rt: HostRuntime) -> Result<(), Fail> {
    let alloc = rt.alloc();
    let mut blanks = vec![in alloc; b' '; 16_777_216]?;
    expect_solved(
        &rt,
        alloc,
        &blanks,
        65536,
        4,
        "",
        "edtloc: problem Form 1\n",
    )?;
    blanks.push(b' ')?;
    expect_solved(
        &rt,
        alloc,
        &blanks,
        65536,
        4,
        "",
        "edtloc: problem TooLong 0\n",
    )
}

#[test]
fn ends_with_a_failing_call_and_with_an_absent_file(rt: HostRuntime) -> Result<(), Fail> {
    let alloc = rt.alloc();
    // The open, the one read that gives the file, and the one that finds its end; a fourth call doesn't come.
    for (call, name, status, out, err) in [
        (1, "problem", 7, "", "edtloc: read problem\n"),
        (2, "problem", 7, "", "edtloc: read problem\n"),
        (3, "problem", 7, "", "edtloc: read problem\n"),
        (4, "problem", 0, BEST, ""),
        (9, "none", 9, "", "edtloc: absent none\n"),
        (1, "none", 7, "", "edtloc: read none\n"),
    ] {
        let words = ["solve", name];
        let failing = [call];
        let mut run = plain(&words);
        run.failing_calls = &failing;
        let files = one_file(alloc, "problem", ONE_NODE.as_bytes())?;
        expect(&rt, alloc, files, &run, &Ending { status, out, err })?;
    }
    Ok(())
}

#[test]
fn ends_with_a_failing_write_and_passes_over_failing_errors(rt: HostRuntime) -> Result<(), Fail> {
    let alloc = rt.alloc();
    // Ten bytes a write: the text is `BEST 0 0 0`, ` 0 3435973` and `83680` with its line feed.
    for (write, status, out, err, front) in [
        (1, 8, "", "edtloc: write\n", "edtloc: wr"),
        (2, 8, "BEST 0 0 0", "edtloc: write\n", "edtloc: wr"),
        (
            3,
            8,
            "BEST 0 0 0 0 3435973",
            "edtloc: write\n",
            "edtloc: wr",
        ),
        (4, 0, BEST, "", ""),
    ] {
        let failing = [write];
        let mut run = plain(&["solve", "problem"]);
        run.failing_writes = &failing;
        let files = one_file(alloc, "problem", ONE_NODE.as_bytes())?;
        expect(&rt, alloc, files, &run, &Ending { status, out, err })?;
        // The second write to the errors fails as well: a front of the line stands, and the status is the same.
        run.failing_errors = &[2];
        let files = one_file(alloc, "problem", ONE_NODE.as_bytes())?;
        let ending = Ending {
            status,
            out,
            err: front,
        };
        expect(&rt, alloc, files, &run, &ending)?;
    }
    Ok(())
}

#[test]
fn ends_with_a_faulty_file_where_the_errors_fail(rt: HostRuntime) -> Result<(), Fail> {
    let alloc = rt.alloc();
    // The first write to the errors fails, or the third, after the two that the first piece takes.
    for (write, err) in [(1, ""), (3, "edtloc: problem ")] {
        let failing = [write];
        let mut run = plain(&["solve", "problem"]);
        run.failing_errors = &failing;
        let ending = Ending {
            status: 4,
            out: "",
            err,
        };
        let files = one_file(alloc, "problem", b"EDTPROBLEM 1 x")?;
        expect(&rt, alloc, files, &run, &ending)?;
    }
    Ok(())
}
