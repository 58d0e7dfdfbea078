//! Refusals of the files of a run that locates. The expected values were found apart from this code.

use super::expecting::{expect_refused, expect_text};
use crate::sample::Change::{Add, Put, Remove, Swap};
use crate::sample::{CONTROL, FIRST_HEADER, TEXT};
use std::test::Fail;

const GRID_LINE: &str = "LOCGRID 4 1 1 10.0 0.0 0.0 1.0 1.0 1.0 PROB_DENSITY SAVE\n";

const LAST_LINE: &str = "LOCSEARCH OCT 1 1 1 0.01 10000 5000 0 1\n";

#[test]
fn names_the_first_faulty_line_of_a_control_file(rt: HostRuntime) -> Result<(), Fail> {
    let alloc = rt.alloc();
    let twice = format!(in alloc; "{GRID_LINE}{GRID_LINE}")?;
    let errors = format!(in alloc; "{LAST_LINE}LOCGAU2 0.01 0.05 2.0\n")?;
    for (old, new, err) in [
        (
            "LOCMETH EDT",
            "LOCMETH EDT_OT_WT",
            "edtloc: control 0 7 Method\n",
        ),
        (GRID_LINE, twice.as_str(), "edtloc: control 0 7 Repeated\n"),
        (GRID_LINE, "", "edtloc: control 0 0 Missing LOCGRID\n"),
        (LAST_LINE, errors.as_str(), "edtloc: control 0 10 NotYet\n"),
    ] {
        expect_refused(&rt, alloc, &[Swap("e1.in", old, new)], 3, err)?;
    }
    Ok(())
}

#[test]
fn names_a_faulty_line_after_those_of_the_sample(rt: HostRuntime) -> Result<(), Fail> {
    let alloc = rt.alloc();
    let long = "#".repeat(alloc, 4097)?;
    let many = "INCLUDE more.in\n".repeat(alloc, 17)?;
    for (more, err) in [
        ("EDTKERNEL COUNT", "edtloc: control 0 10 Fields\n"),
        ("EDTKERNEL COSINE", "edtloc: control 0 10 FileType\n"),
        ("EDTBUDGET 0", "edtloc: control 0 10 Limit\n"),
        (long.as_str(), "edtloc: control 0 10 LongLine\n"),
        (many.as_str(), "edtloc: control 0 26 Limit\n"),
    ] {
        let control = format!(in alloc; "{CONTROL}{more}\n")?;
        let changes = [Put("e1.in", control.as_str().as_bytes())];
        expect_refused(&rt, alloc, &changes, 3, err)?;
    }
    Ok(())
}

#[test]
fn names_the_first_faulty_line_of_an_included_file(rt: HostRuntime) -> Result<(), Fail> {
    let alloc = rt.alloc();
    for (included, err) in [
        ("INCLUDE more.in\n", "edtloc: control 1 1 NestedInclude\n"),
        ("# grid\nLOCGRID 4 1\n", "edtloc: control 1 2 Fields\n"),
        // The statement's second line is in the main file, after the included one.
        (GRID_LINE, "edtloc: control 0 6 Repeated\n"),
    ] {
        let changes = [
            Swap("e1.in", "# sample", "INCLUDE grid.in"),
            Add("grid.in", included.as_bytes()),
        ];
        expect_refused(&rt, alloc, &changes, 3, err)?;
    }
    Ok(())
}

#[test]
fn names_absent_included_files_before_faulty_statements(rt: HostRuntime) -> Result<(), Fail> {
    let changes = [
        Swap("e1.in", "# sample", "LOCMETH EDT\nINCLUDE grid.in"),
        Remove("obs.txt"),
    ];
    expect_refused(&rt, rt.alloc(), &changes, 9, "edtloc: absent grid.in\n")
}

#[test]
fn refuses_control_files_past_their_limit(rt: HostRuntime) -> Result<(), Fail> {
    let alloc = rt.alloc();
    let whole = vec![in alloc; b'\n'; 1_048_576]?;
    let main = [Put("e1.in", &whole)];
    let err = "edtloc: control 0 0 Missing LOCFILES\n";
    expect_refused(&rt, alloc, &main, 3, err)?;
    let included = [
        Swap("e1.in", "# sample", "INCLUDE first.in"),
        Add("first.in", &whole),
    ];
    expect_text(&rt, alloc, &included, TEXT)?;
    let long = vec![in alloc; b' '; 1_048_577]?;
    let main = [Put("e1.in", &long)];
    expect_refused(&rt, alloc, &main, 3, "edtloc: control 0 0 TooLong\n")?;
    let included = [
        Swap("e1.in", "# sample", "INCLUDE first.in\nINCLUDE second.in"),
        Add("first.in", b""),
        Add("second.in", &long),
    ];
    expect_refused(&rt, alloc, &included, 3, "edtloc: control 2 0 TooLong\n")
}

#[test]
fn names_the_first_faulty_line_of_a_phase_file(rt: HostRuntime) -> Result<(), Fail> {
    let alloc = rt.alloc();
    for (old, new, err) in [
        (
            "BBB ? ? ? P U 19940217",
            "BBB ? ? ? P U 19940230",
            "edtloc: phases 2 Date\n",
        ),
        ("45.0000", "1000", "edtloc: phases 1 Time\n"),
        ("GAU", "BOX", "edtloc: phases 1 ErrorType\n"),
    ] {
        expect_refused(&rt, alloc, &[Swap("obs.txt", old, new)], 4, err)?;
    }
    Ok(())
}

#[test]
fn refuses_a_phase_file_past_its_limit(rt: HostRuntime) -> Result<(), Fail> {
    let alloc = rt.alloc();
    let whole = vec![in alloc; b'\n'; 16_777_216]?;
    let changes = [Put("obs.txt", &whole)];
    let text = "EDTLOC 1 EVENTS 0 PASSED 2 0\n";
    expect_text(&rt, alloc, &changes, text)?;
    let long = vec![in alloc; b' '; 16_777_217]?;
    let changes = [Put("obs.txt", &long)];
    expect_refused(&rt, alloc, &changes, 4, "edtloc: phases 0 TooLong\n")
}

#[test]
fn refuses_headers_of_another_form(rt: HostRuntime) -> Result<(), Fail> {
    let alloc = rt.alloc();
    let header = "time/a.P.BBB.time.hdr";
    for (old, new, err) in [
        (
            "USEC32",
            "FLOAT",
            "edtloc: header time/a.P.BBB.time.hdr FloatBody\n",
        ),
        (
            " USEC32",
            "",
            "edtloc: header time/a.P.BBB.time.hdr FloatBody\n",
        ),
        (
            "TIME",
            "SLOW_LEN",
            "edtloc: header time/a.P.BBB.time.hdr Kind\n",
        ),
        (
            "BBB 13.0 0.0 0.0",
            "BBB 13.0 0.0",
            "edtloc: header time/a.P.BBB.time.hdr Shape\n",
        ),
    ] {
        expect_refused(&rt, alloc, &[Swap(header, old, new)], 5, err)?;
    }
    Ok(())
}

#[test]
fn refuses_headers_past_their_limits(rt: HostRuntime) -> Result<(), Fail> {
    let alloc = rt.alloc();
    let header = "time/a.P.AAA.time.hdr";
    for (old, new, err) in [
        (
            "1.0 1.0 1.0 TIME",
            "1.0 0.0 1.0 TIME",
            "edtloc: header time/a.P.AAA.time.hdr Limit\n",
        ),
        (
            "4 1 1 10.0",
            "4 1 1 1e30",
            "edtloc: header time/a.P.AAA.time.hdr Number\n",
        ),
    ] {
        expect_refused(&rt, alloc, &[Swap(header, old, new)], 5, err)?;
    }
    Ok(())
}

#[test]
fn refuses_a_header_file_past_its_limit(rt: HostRuntime) -> Result<(), Fail> {
    let alloc = rt.alloc();
    let blanks = " ".repeat(alloc, 65_536 - FIRST_HEADER.len())?;
    let whole = format!(in alloc; "{FIRST_HEADER}{blanks}")?;
    let changes = [Put("time/a.P.AAA.time.hdr", whole.as_str().as_bytes())];
    expect_text(&rt, alloc, &changes, TEXT)?;
    let long = format!(in alloc; "{whole} ")?;
    let changes = [Put("time/a.P.AAA.time.hdr", long.as_str().as_bytes())];
    let err = "edtloc: header time/a.P.AAA.time.hdr TooLong\n";
    expect_refused(&rt, alloc, &changes, 5, err)
}

#[test]
fn refuses_bodies_of_another_length_or_with_a_time_past_its_limit(
    rt: HostRuntime,
) -> Result<(), Fail> {
    let alloc = rt.alloc();
    let body = "time/a.P.BBB.time.usec";
    for (bytes, err) in [
        (
            b"\0\0\0\0\0\0\0\0\0\0\0\0\0\0\0".as_slice(),
            "edtloc: body time/a.P.BBB.time.usec Short\n",
        ),
        (
            b"\0\0\0\0\0\0\0\0\0\0\0\0\0\0\0\0\0".as_slice(),
            "edtloc: body time/a.P.BBB.time.usec Long\n",
        ),
        // The third time is 2000000001.
        (
            b"\0\0\0\0\0\0\0\0\x01\x94\x35\x77\xff\xff\xff\xff".as_slice(),
            "edtloc: body time/a.P.BBB.time.usec TimeLimit 2\n",
        ),
    ] {
        expect_refused(&rt, alloc, &[Put(body, bytes)], 5, err)?;
    }
    let err = "edtloc: absent time/a.P.BBB.time.usec\n";
    expect_refused(&rt, alloc, &[Remove(body)], 9, err)
}

// P and S picks of six stations.
const TWELVE_PICKS: &[u8] = b"AAA ? ? ? P ? 19940217 2216 45 GAU 0.1
AAA ? ? ? S ? 19940217 2216 45 GAU 0.1
BBB ? ? ? P ? 19940217 2216 45 GAU 0.1
BBB ? ? ? S ? 19940217 2216 45 GAU 0.1
CCC ? ? ? P ? 19940217 2216 45 GAU 0.1
CCC ? ? ? S ? 19940217 2216 45 GAU 0.1
DDD ? ? ? P ? 19940217 2216 45 GAU 0.1
DDD ? ? ? S ? 19940217 2216 45 GAU 0.1
EEE ? ? ? P ? 19940217 2216 45 GAU 0.1
EEE ? ? ? S ? 19940217 2216 45 GAU 0.1
FFF ? ? ? P ? 19940217 2216 45 GAU 0.1
FFF ? ? ? S ? 19940217 2216 45 GAU 0.1
";

#[test]
fn refuses_more_times_than_all_rows_may_have_before_any_body(rt: HostRuntime) -> Result<(), Fail> {
    let header = FIRST_HEADER.as_bytes();
    // Twelve rows of 2,000,000 nodes.
    let changes = [
        Swap("e1.in", "LOCGRID 4 1 1", "LOCGRID 125 125 128"),
        Swap("e1.in", "2 -1 -1 -1 0", "2 -1 -1 1.7321 0"),
        Put("obs.txt", TWELVE_PICKS),
        Remove("time/a.P.AAA.time.usec"),
        Add("time/a.P.CCC.time.hdr", header),
        Add("time/a.P.DDD.time.hdr", header),
        Add("time/a.P.EEE.time.hdr", header),
        Add("time/a.P.FFF.time.hdr", header),
    ];
    expect_refused(&rt, rt.alloc(), &changes, 5, "edtloc: grids Cells\n")
}

#[test]
fn names_the_axis_on_which_a_search_grid_is_not_aligned(rt: HostRuntime) -> Result<(), Fail> {
    let alloc = rt.alloc();
    for (new, err) in [
        (
            "LOCGRID 4 1 1 10.5 0.5 0.0",
            "edtloc: body time/a.P.AAA.time.usec NotAligned X\n",
        ),
        (
            "LOCGRID 4 1 1 10.0 0.5 0.5",
            "edtloc: body time/a.P.AAA.time.usec NotAligned Y\n",
        ),
        (
            "LOCGRID 4 1 1 10.0 0.0 0.5",
            "edtloc: body time/a.P.AAA.time.usec NotAligned Z\n",
        ),
    ] {
        let changes = [Swap("e1.in", "LOCGRID 4 1 1 10.0 0.0 0.0", new)];
        expect_refused(&rt, alloc, &changes, 5, err)?;
    }
    Ok(())
}

#[test]
fn names_the_phase_file_where_it_is_absent(rt: HostRuntime) -> Result<(), Fail> {
    let alloc = rt.alloc();
    expect_refused(
        &rt,
        alloc,
        &[Remove("obs.txt")],
        9,
        "edtloc: absent obs.txt\n",
    )?;
    // A faulty control file is told of first.
    let changes = [Put("e1.in", &CONTROL.as_bytes()[..9]), Remove("obs.txt")];
    let err = "edtloc: control 0 0 Missing LOCFILES\n";
    expect_refused(&rt, alloc, &changes, 3, err)
}
