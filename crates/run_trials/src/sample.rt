//! A sample of two stations over four nodes in a row, and its changes.

use crate::running::Files;
use edt_outside::Name;
use std::alloc::Global;
use std::process::Abort;
use std::test::Fail;

pub const CONTROL: &str = "# sample
CONTROL 1 54321
TRANS SIMPLE 46.0 8.0 0.0
LOCSIG observatory
LOCFILES obs.txt NLLOC_OBS time/a loc/a
LOCGRID 4 1 1 10.0 0.0 0.0 1.0 1.0 1.0 PROB_DENSITY SAVE
LOCMETH EDT 9999.0 2 -1 -1 -1 0
LOCGAU 0.1 0.0
LOCSEARCH OCT 1 1 1 0.01 10000 5000 0 1
";

pub const PHASES: &str =
    "AAA ? ? ? P U 19940217 2216 45.0000 GAU 1.00e-01 -1.00e+00 -1.00e+00 -1.00e+00
BBB ? ? ? P U 19940217 2216 46.0000 GAU 1.00e-01 -1.00e+00 -1.00e+00 -1.00e+00
";

pub const FIRST_HEADER: &str = "4 1 1 10.0 0.0 0.0 1.0 1.0 1.0 TIME USEC32
AAA 10.0 0.0 0.0
";

pub const SECOND_HEADER: &str = "4 1 1 10.0 0.0 0.0 1.0 1.0 1.0 TIME USEC32
BBB 13.0 0.0 0.0
";

// 1, 2, 3 and 4 seconds.
pub const FIRST_BODY: &[u8] = b"\x40\x42\x0f\x00\x80\x84\x1e\x00\xc0\xc6\x2d\x00\x00\x09\x3d\x00";

// 2 seconds at each node.
pub const SECOND_BODY: &[u8] = b"\x80\x84\x1e\x00\x80\x84\x1e\x00\x80\x84\x1e\x00\x80\x84\x1e\x00";

// The text of the sample: its pair has the weight 327680, and its misfit is 0 at node 0 and past the kernel's end elsewhere.
pub const TEXT: &str = "EDTLOC 1 EVENTS 1 PASSED 2 0
EVENT 1 PICKS 2 SKIPPED 0
PICK AAA P 761523405000000 1000 0
PICK BBB P 761523406000000 1000 0
HYPOCENTRE 0 0 0 10000000 0 0
ORIGIN 1994-02-17 22:16:44.000000
RMS 0
MET 5
CERT LOCATED
BEST 0 343597383680
NEAR 1
0 343597383680
COVER 3
0 1 0 1 0 1 343597383680
1 2 0 1 0 1 0
2 4 0 1 0 1 0
END
";

// What is changed in the sample.
#[derive(Clone, Copy)]
pub enum Change<'a> {
    // In this file of the sample, for this text, the other.
    Swap(&'a str, &'a str, &'a str),
    // These bytes in place of those of this file of the sample.
    Put(&'a str, &'a [u8]),
    // This file of the sample is left out.
    Remove(&'a str),
    // One more file.
    Add(&'a str, &'a [u8]),
}

// The sample's files after these changes.
pub fn sample(rt: &impl Abort, alloc: Global, changes: &[Change]) -> Result<Files, Fail> {
    let mut files = Vec::new(alloc);
    for (name, bytes) in [
        ("e1.in", CONTROL.as_bytes()),
        ("obs.txt", PHASES.as_bytes()),
        ("time/a.P.AAA.time.hdr", FIRST_HEADER.as_bytes()),
        ("time/a.P.AAA.time.usec", FIRST_BODY),
        ("time/a.P.BBB.time.hdr", SECOND_HEADER.as_bytes()),
        ("time/a.P.BBB.time.usec", SECOND_BODY),
    ] {
        if let Some(bytes) = changed(rt, alloc, name, bytes, changes)? {
            files.push((Name::new(alloc, name)?, bytes))?;
        }
    }
    for change in changes {
        if let Change::Add(name, bytes) = change {
            files.push((Name::new(alloc, name)?, bytes.to_vec(alloc)?))?;
        }
    }
    Ok(files)
}

// What a file of this name and these bytes holds after these changes, if it is left.
pub fn changed(
    rt: &impl Abort,
    alloc: Global,
    name: &str,
    bytes: &[u8],
    changes: &[Change],
) -> Result<Option<Vec<u8>>, Fail> {
    let mut now = bytes.to_vec(alloc)?;
    for change in changes {
        match change {
            Change::Swap(file, old, new) if *file == name => {
                now = swapped(rt, alloc, &now, old, new)?;
            }
            Change::Put(file, bytes) if *file == name => now = bytes.to_vec(alloc)?,
            Change::Remove(file) if *file == name => return Ok(None),
            _ => {}
        }
    }
    Ok(Some(now))
}

// The text with `new` in place of the first `old`, which stands there.
fn swapped(
    rt: &impl Abort,
    alloc: Global,
    bytes: &[u8],
    old: &str,
    new: &str,
) -> Result<Vec<u8>, Fail> {
    let text = str::from_utf8(bytes)?;
    assert!(rt; text.contains(old), "no {old}");
    Ok(text.replacen(alloc, old, new, 1)?.into_bytes())
}
