//! Runs over the most nodes that a search grid may have, and over more near nodes than are told. To score each node would take too long.
//! The expected values were found apart from this code.

use super::expecting::expect_text;
use crate::sample::Change::{Put, Swap};
use std::alloc::Global;
use std::process::Abort;
use std::test::Fail;

// The lines of 256 used picks that fit the first node, before and after those of the picks themselves, up to the first box.
const PICKED: &str = "EDTLOC 1 EVENTS 1 PASSED 2 0
EVENT 1 PICKS 256 SKIPPED 0
";

const FOUND: &str = "HYPOCENTRE 0 0 0 10000000 0 0
ORIGIN 1994-02-17 22:16:44.000000
RMS 0
MET 57
CERT LOCATED
BEST 0 11215018603315200
NEAR 1
0 11215018603315200
COVER 50
0 1 0 1 0 1 11215018603315200
";

// The lines of the boxes but for the first, which is the first node alone: the other children of each box that holds this node.
const OTHER_BOXES: &str = "0 1 0 1 1 2 5585519069102080
0 1 1 2 0 1 5585519069102080
0 1 1 2 1 2 5585519069102080
1 2 0 1 0 1 5585519069102080
1 2 0 1 1 2 5585519069102080
1 2 1 2 0 1 5585519069102080
1 2 1 2 1 2 5585519069102080
0 2 0 2 2 4 5585519069102080
0 2 2 4 0 2 5585519069102080
0 2 2 4 2 4 5585519069102080
2 4 0 2 0 2 5585519069102080
2 4 0 2 2 4 5585519069102080
2 4 2 4 0 2 5585519069102080
2 4 2 4 2 4 5585519069102080
0 4 0 4 4 8 5585519069102080
0 4 4 8 0 4 5585519069102080
0 4 4 8 4 8 5585519069102080
4 8 0 4 0 4 5585519069102080
4 8 0 4 4 8 5585519069102080
4 8 4 8 0 4 5585519069102080
4 8 4 8 4 8 5585519069102080
0 8 0 8 8 16 5585519069102080
0 8 8 16 0 8 5585519069102080
0 8 8 16 8 16 5585519069102080
8 16 0 8 0 8 5585519069102080
8 16 0 8 8 16 5585519069102080
8 16 8 16 0 8 5585519069102080
8 16 8 16 8 16 5585519069102080
0 16 0 16 16 32 5585519069102080
0 16 16 32 0 16 5585519069102080
0 16 16 32 16 32 5585519069102080
16 32 0 16 0 16 5585519069102080
16 32 0 16 16 32 5585519069102080
16 32 16 32 0 16 5585519069102080
16 32 16 32 16 32 5585519069102080
0 32 0 32 32 64 5585519069102080
0 32 32 63 0 32 5585519069102080
0 32 32 63 32 64 5585519069102080
32 63 0 32 0 32 5585519069102080
32 63 0 32 32 64 5585519069102080
32 63 32 63 0 32 5585519069102080
32 63 32 63 32 64 5585519069102080
0 63 0 63 64 128 5585519069102080
0 63 63 125 0 64 5585519069102080
0 63 63 125 64 128 5585519069102080
63 125 0 63 0 64 5585519069102080
63 125 0 63 64 128 5585519069102080
63 125 63 125 0 64 5585519069102080
63 125 63 125 64 128 5585519069102080
";

// A body with this time at the first node and 2 seconds at the others.
fn body(alloc: Global, nodes: usize, first: u32) -> Result<Vec<u8>, Fail> {
    let mut bytes = Vec::new(alloc);
    bytes.extend_from_slice(&first.to_le_bytes())?;
    let others = 2_000_000_u32
        .to_le_bytes()
        .repeat(alloc, nodes.saturating_sub(1))?;
    bytes.extend_from_slice(&others)?;
    Ok(bytes)
}

// What is changed in the sample: the counts of its nodes, its method, its picks and its bodies.
#[derive(Drop)]
struct Wider {
    counts: String,
    grid: String,
    method: String,
    picks: String,
    first: Vec<u8>,
    second: Vec<u8>,
}

// Asserts that this text is written for the sample with these changes.
fn expect_wider(rt: &impl Abort, alloc: Global, wider: &Wider, text: &str) -> Result<(), Fail> {
    let changes = [
        Swap("e1.in", "LOCGRID 4 1 1", wider.grid.as_str()),
        Swap("e1.in", "2 -1 -1 -1 0", wider.method.as_str()),
        Put("obs.txt", wider.picks.as_str().as_bytes()),
        Swap("time/a.P.AAA.time.hdr", "4 1 1", wider.counts.as_str()),
        Put("time/a.P.AAA.time.usec", &wider.first),
        Swap("time/a.P.BBB.time.hdr", "4 1 1", wider.counts.as_str()),
        Put("time/a.P.BBB.time.usec", &wider.second),
    ];
    expect_text(rt, alloc, &changes, text)
}

// Asserts that this text is written for the sample with these counts of nodes, this method and these picks, where the first station's times
// are 1 second at the first node and 2 seconds elsewhere, and the second's 2 seconds.
fn expect_over(
    rt: &impl Abort,
    alloc: Global,
    counts: &str,
    nodes: usize,
    method: &str,
    picks: String,
    text: &str,
) -> Result<(), Fail> {
    let wider = Wider {
        counts: String::from_str(alloc, counts)?,
        grid: format!(in alloc; "LOCGRID {counts}")?,
        method: String::from_str(alloc, method)?,
        picks,
        first: body(alloc, nodes, 1_000_000)?,
        second: body(alloc, nodes, 2_000_000)?,
    };
    expect_wider(rt, alloc, &wider, text)
}

#[test]
fn searches_two_million_nodes_with_256_picks(rt: HostRuntime) -> Result<(), Fail> {
    let alloc = rt.alloc();
    // Each pick stands 128 times, and duplicates aren't rejected.
    let first = "AAA ? ? ? P U 19940217 2216 45.0 GAU 0.1\n".repeat(alloc, 128)?;
    let second = "BBB ? ? ? P U 19940217 2216 46.0 GAU 0.1\n".repeat(alloc, 128)?;
    let first_lines = "PICK AAA P 761523405000000 1000 0\n".repeat(alloc, 128)?;
    let second_lines = "PICK BBB P 761523406000000 1000 0\n".repeat(alloc, 128)?;
    let text = format!(in alloc; "{PICKED}{first_lines}{second_lines}{FOUND}{OTHER_BOXES}END\n")?;
    expect_over(
        &rt,
        alloc,
        "125 125 128",
        2_000_000,
        "2 -1 -1 -1 0 -1 0",
        format!(in alloc; "{first}{second}")?,
        text.as_str(),
    )
}

#[test]
fn tells_no_list_of_more_than_100_000_near_nodes(rt: HostRuntime) -> Result<(), Fail> {
    let alloc = rt.alloc();
    // The picks fit all nodes but the first.
    let picks = String::from_str(
        alloc,
        "AAA ? ? ? P U 19940217 2216 46.0 GAU 0.1\nBBB ? ? ? P U 19940217 2216 46.0 GAU 0.1\n",
    )?;
    let text = "EDTLOC 1 EVENTS 1 PASSED 2 0
EVENT 1 PICKS 2 SKIPPED 0
PICK AAA P 761523406000000 1000 -
PICK BBB P 761523406000000 1000 -
CERT NEARLIMIT
END
";
    expect_over(&rt, alloc, "47 47 46", 101_614, "2 -1 -1 -1 0", picks, text)
}
