//! Words of a run that have a shape, and words that have none.

use crate::running::{Ending, expect, one_file, plain};
use std::alloc::Global;
use std::process::Abort;
use std::test::Fail;

// Runs these words over one file, and asserts the status and the line of refusal.
fn expect_words(
    rt: &impl Abort,
    alloc: Global,
    words: &[&str],
    status: u8,
    err: &str,
) -> Result<(), Fail> {
    let files = one_file(alloc, "problem", b"")?;
    let ending = Ending {
        status,
        out: "",
        err,
    };
    expect(rt, alloc, files, &plain(words), &ending)
}

fn expect_no_shape(rt: &impl Abort, alloc: Global, words: &[&str]) -> Result<(), Fail> {
    expect_words(rt, alloc, words, 2, "edtloc: words\n")
}

#[test]
fn refuses_words_without_a_shape(rt: HostRuntime) -> Result<(), Fail> {
    let alloc = rt.alloc();
    expect_no_shape(&rt, alloc, &[])?;
    expect_no_shape(&rt, alloc, &["locate"])?;
    expect_no_shape(&rt, alloc, &["locate", ""])?;
    expect_no_shape(&rt, alloc, &["locate", "a", "b"])?;
    expect_no_shape(&rt, alloc, &["locate", "e1 in"])?;
    expect_no_shape(&rt, alloc, &["Locate", "problem"])?;
    expect_no_shape(&rt, alloc, &["solve"])?;
    expect_no_shape(&rt, alloc, &["solve", ""])?;
    expect_no_shape(&rt, alloc, &["solve", "pro blem"])?;
    expect_no_shape(&rt, alloc, &["solve", "problem", "more"])?;
    expect_no_shape(&rt, alloc, &["solved", "problem"])?;
    expect_no_shape(&rt, alloc, &["locate", "a", "b", "c"])
}

#[test]
fn takes_seeds_and_sides_as_shortest_decimals_within_their_limits(
    rt: HostRuntime,
) -> Result<(), Fail> {
    let alloc = rt.alloc();
    for (seed, side) in [
        ("1", "65"),
        ("1", "0"),
        ("01", "5"),
        ("1", "05"),
        ("", "5"),
        ("1", ""),
        ("-1", "5"),
        ("+1", "5"),
        ("1", "5 "),
        ("1.0", "5"),
        ("18446744073709551616", "5"),
        ("1", "18446744073709551617"),
    ] {
        expect_no_shape(&rt, alloc, &["demo", seed, side])?;
    }
    expect_no_shape(&rt, alloc, &["demo"])?;
    expect_no_shape(&rt, alloc, &["demo", "1"])?;
    expect_no_shape(&rt, alloc, &["demo", "1", "1", "1"])?;
    expect_no_shape(&rt, alloc, &["Demo", "1", "1"])
}

#[test]
fn takes_file_words_of_at_most_255_bytes(rt: HostRuntime) -> Result<(), Fail> {
    let alloc = rt.alloc();
    let long = String::from_utf8(vec![in alloc; b'n'; 256]?)?;
    let longest = String::from_utf8(vec![in alloc; b'n'; 255]?)?;
    let absent = format!(in alloc; "edtloc: absent {longest}\n")?;
    expect_no_shape(&rt, alloc, &["locate", long.as_str()])?;
    expect_no_shape(&rt, alloc, &["solve", long.as_str()])?;
    let err = absent.as_str();
    expect_words(&rt, alloc, &["locate", longest.as_str()], 9, err)?;
    expect_words(&rt, alloc, &["solve", longest.as_str()], 9, err)
}
