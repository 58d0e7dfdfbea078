//! Blocks of a sample of two stations over four nodes in a row, written out by hand.
ghost use Rattle.std.specs.Prelude.{◌≡◌, IfOk, IsTrue};
ghost use Rattle.octree_search.specs.Outcomes.{found_value};
ghost use Rattle.event_assembly.specs.AssemblyValues.{case_value};
ghost use Rattle.location_report.specs.Reports.{IsTellable, IsWhole, has_problem};

use crate::sample::{BODY_A, BODY_B, HEADER_A, HEADER_B, control_in, events_in, shelf_with};
use cover_certificate::{MOST_BOXES, MOST_NEAR};
use edt_outside::{MemoryShelf, Name};
use event_assembly::{Assembly, Case, assemble};
use location_report::{LaneCount, report};
use node_boxes::{BoxBound, Grid, NodeBox};
use octree_search::{Found, Located};
use std::alloc::Global;
use std::process::Abort;
use std::test::Fail;

const CONTROL: &str = "LOCFILES obs.txt NLLOC_OBS time/a loc/a
LOCGRID 4 1 1 10.0 0.0 0.0 1.0 1.0 1.0
LOCMETH EDT 9999.0 2 -1 -1 -1 0 -1.0 0
LOCGAU 0.1 0.0
LOCSEARCH OCT 1 1 1
";

// The score of a node at which the two picks agree.
const WEIGHT: u64 = 343_597_383_680;

// The picks of the sample.
const PICKS: &str = "AAA ? ? ? P U 19940217 2216 45.0 GAU 0.1 -1 -1 -1
BBB ? ? ? P U 19940217 2216 46.0 GAU 0.1 -1 -1 -1
";

// The time grids of the sample.
fn shelf(rt: &impl Abort, alloc: Global) -> Result<MemoryShelf, Fail> {
    let mut files = Vec::new(alloc);
    for (name, bytes) in [
        ("time/a.P.AAA.time.hdr", HEADER_A),
        ("time/a.P.AAA.time.usec", BODY_A),
        ("time/a.P.BBB.time.hdr", HEADER_B),
        ("time/a.P.BBB.time.usec", BODY_B),
    ] {
        files.push((Name::new(alloc, name)?, bytes.to_vec(alloc)?))?;
    }
    shelf_with(rt, alloc, files, 65536, &[])
}

// The events of a phase file with the times of the sample.
fn assembly(rt: &impl Abort, alloc: Global, picks: &str) -> Result<Assembly, Fail>
    ensures { IfOk result IsWhole }
{
    let control = control_in(alloc, CONTROL)?;
    let events = events_in(alloc, picks)?;
    let mut shelf = shelf(rt, alloc)?;
    match assemble(alloc, &mut shelf, &control, &events) {
        Ok(assembly) => Ok(assembly),
        Err(_) => Err(Fail::from("no assembly")),
    }
}

// Whether an event has a problem.
fn is_ready(case: &Case) -> bool
    ensures { result ≡ has_problem (case_value case.now) }
{
    matches!(case, Case::Ready(_))
}

// Whether a block may tell what was found.
fn is_tellable(grid: &Grid, found: &Found) -> bool
    ensures { IsTrue result → IsTellable grid.now (found_value found.now) }
{
    match found {
        Found::Located(event) => {
            event.hyp < grid.nodes()
                && event.score >= 1
                && event.near.len() <= MOST_NEAR
                && event.cover.len() <= MOST_BOXES
        }
        Found::NoFit { cover, .. } => cover.len() <= MOST_BOXES,
        Found::Budget | Found::NearLimit => true,
    }
}

// The block of an event that has no outcome.
fn block_without(alloc: Global, number: u32, assembly: &Assembly) -> Result<Vec<u8>, Fail>
    requires { IsWhole assembly.now }
{
    let place = number as usize;
    if place < 1 || place > assembly.events.len() {
        return Err(Fail::from("no event"));
    }
    if is_ready(&assembly.events[place - 1].case) {
        return Err(Fail::from("a problem"));
    }
    Ok(report(alloc, number, assembly, None, None)?)
}

// The block of an event that has an outcome.
fn block_with(
    alloc: Global,
    number: u32,
    assembly: &Assembly,
    found: &Found,
    lanes: Option<LaneCount>,
) -> Result<Vec<u8>, Fail>
    requires { IsWhole assembly.now }
{
    let place = number as usize;
    if place < 1 || place > assembly.events.len() {
        return Err(Fail::from("no event"));
    }
    if !is_ready(&assembly.events[place - 1].case) {
        return Err(Fail::from("no problem"));
    }
    if !is_tellable(&assembly.frame.grid, found) {
        return Err(Fail::from("past a limit"));
    }
    Ok(report(alloc, number, assembly, Some(found), lanes)?)
}

// A box of places on the first axis.
fn slab(x0: u32, x1: u32, bound: u64) -> BoxBound {
    BoxBound {
        area: NodeBox {
            x0,
            x1,
            y0: 0,
            y1: 1,
            z0: 0,
            z1: 1,
        },
        bound,
    }
}

// A located event at node 0, with so many of the first nodes near.
fn located(alloc: Global, near_nodes: u32) -> Result<Found, Fail> {
    let mut near = Vec::new(alloc);
    for node in 0..near_nodes {
        near.push((node, WEIGHT))?;
    }
    let mut cover = Vec::new(alloc);
    cover.push(slab(0, 1, WEIGHT))?;
    cover.push(slab(1, 2, 0))?;
    cover.push(slab(2, 4, 0))?;
    Ok(Found::Located(Located {
        hyp: 0,
        score: WEIGHT,
        near,
        cover,
        met: 5,
    }))
}

// An event that fits nowhere.
fn fitless(alloc: Global) -> Result<Found, Fail> {
    let mut cover = Vec::new(alloc);
    cover.push(slab(0, 4, 0))?;
    Ok(Found::NoFit { cover, met: 1 })
}

// What follows the lines of a located event.
const COVER: &str = "COVER 3
0 1 0 1 0 1 343597383680
1 2 0 1 0 1 0
2 4 0 1 0 1 0
END
";

#[test]
fn located_events_have_residuals_and_an_origin(rt: HostRuntime) -> Result<(), Fail> {
    let alloc = rt.alloc();
    let late = "AAA ? ? ? P U 19940217 2216 45.0 GAU 0.1 -1 -1 -1
BBB ? ? ? P U 19940217 2216 46.1 GAU 0.1 -1 -1 -1
";
    let early = "AAA ? ? ? P U 19691231 2359 59.123456 GAU 0.1 -1 -1 -1
BBB ? ? ? P U 19691231 2359 60.123456 GAU 0.1 -1 -1 -1
";
    let rows = [
        (
            PICKS,
            1,
            "PICK AAA P 761523405000000 1000 0\nPICK BBB P 761523406000000 1000 0\nHYPOCENTRE 0 0 0 10000000 0 0\nORIGIN 1994-02-17 22:16:44.000000\nRMS 0\nMET 5\nCERT LOCATED\nBEST 0 343597383680\nNEAR 1\n0 343597383680\n",
        ),
        (
            late,
            2,
            "PICK AAA P 761523405000000 1000 0\nPICK BBB P 761523406100000 1000 100000\nHYPOCENTRE 0 0 0 10000000 0 0\nORIGIN 1994-02-17 22:16:44.000000\nRMS 70711\nMET 5\nCERT LOCATED\nBEST 0 343597383680\nNEAR 2\n0 343597383680\n1 343597383680\n",
        ),
        (
            early,
            1,
            "PICK AAA P -876544 1000 0\nPICK BBB P 123456 1000 0\nHYPOCENTRE 0 0 0 10000000 0 0\nORIGIN 1969-12-31 23:59:58.123456\nRMS 0\nMET 5\nCERT LOCATED\nBEST 0 343597383680\nNEAR 1\n0 343597383680\n",
        ),
    ];
    for (picks, near_nodes, lines) in rows {
        let assembly = assembly(&rt, alloc, picks)?;
        let text = block_with(alloc, 1, &assembly, &located(alloc, near_nodes)?, None)?;
        let wanted = format!(in alloc; "EVENT 1 PICKS 2 SKIPPED 0\n{lines}{COVER}")?;
        assert!(rt; text.as_slice() == wanted.as_bytes(), "at {lines}");
    }
    Ok(())
}

#[test]
fn other_outcomes_have_no_residuals(rt: HostRuntime) -> Result<(), Fail> {
    let alloc = rt.alloc();
    let assembly = assembly(&rt, alloc, PICKS)?;
    let lanes = LaneCount {
        lanes: 3,
        events: 4,
        lost: 1,
    };
    let rows = [
        (
            fitless(alloc)?,
            None,
            "MET 1\nCERT NOFIT\nCOVER 1\n0 4 0 1 0 1 0\nEND\n",
        ),
        (
            fitless(alloc)?,
            Some(lanes),
            "MET 1\nLANES 3 EVENTS 4 LOST 1\nCERT NOFIT\nCOVER 1\n0 4 0 1 0 1 0\nEND\n",
        ),
        (Found::Budget, None, "CERT BUDGET\nEND\n"),
        (
            Found::Budget,
            Some(lanes),
            "LANES 3 EVENTS 4 LOST 1\nCERT BUDGET\nEND\n",
        ),
        (Found::NearLimit, None, "CERT NEARLIMIT\nEND\n"),
        (
            Found::NearLimit,
            Some(lanes),
            "LANES 3 EVENTS 4 LOST 1\nCERT NEARLIMIT\nEND\n",
        ),
    ];
    for (found, lanes, lines) in rows {
        let text = block_with(alloc, 1, &assembly, &found, lanes)?;
        let wanted = format!(in alloc;
            "EVENT 1 PICKS 2 SKIPPED 0\nPICK AAA P 761523405000000 1000 -\nPICK BBB P 761523406000000 1000 -\n{lines}"
        )?;
        assert!(rt; text.as_slice() == wanted.as_bytes(), "at {lines}");
    }
    Ok(())
}

#[test]
fn events_of_few_or_many_picks_have_no_outcome(rt: HostRuntime) -> Result<(), Fail> {
    let alloc = rt.alloc();
    let few = format!(in alloc;
        "{PICKS}\nAAA ? ? ? P U 19940217 2216 45.0 GAU 0.1 -1 -1 -1\nCCC ? ? ? P U 19940217 2216 45.0 GAU 0.1 -1 -1 -1\n"
    )?;
    let text = block_without(alloc, 2, &assembly(&rt, alloc, few.as_str())?)?;
    let wanted =
        "EVENT 2 PICKS 1 SKIPPED 1\nPICK AAA P 761523405000000 1000 -\nSKIP 5 CCC P NOGRID\nCERT FEW\nEND\n";
    assert!(rt; text.as_slice() == wanted.as_bytes());
    let mut many = String::new(alloc);
    for _ in 0..257 {
        many.push_str("AAA ? ? ? P U 19940217 2216 45.0 GAU 0.1 -1 -1 -1\n")?;
    }
    let text = block_without(alloc, 1, &assembly(&rt, alloc, many.as_str())?)?;
    assert!(rt;
        text.starts_with(b"EVENT 1 PICKS 257 SKIPPED 0\nPICK AAA P 761523405000000 1000 -\n")
    );
    assert!(rt; text.ends_with(b"1000 -\nCERT MANY\nEND\n"));
    Ok(())
}

#[test]
fn origins_are_dates_with_six_digits_of_a_second(rt: HostRuntime) -> Result<(), Fail> {
    let alloc = rt.alloc();
    let rows: [(&str, &str, &str, i64, &str); 7] = [
        (
            "19700101 0000",
            "1.0",
            "2.0",
            0,
            "1970-01-01 00:00:00.000000",
        ),
        (
            "19700101 0000",
            "0.999999",
            "1.999999",
            -1,
            "1969-12-31 23:59:59.999999",
        ),
        (
            "20000229 2359",
            "60.000001",
            "61.000001",
            951_868_799_000_001,
            "2000-02-29 23:59:59.000001",
        ),
        (
            "21000301 0000",
            "1.0",
            "2.0",
            4_107_542_400_000_000,
            "2100-03-01 00:00:00.000000",
        ),
        (
            "10000101 0000",
            "1.0",
            "2.0",
            -30_610_224_000_000_000,
            "1000-01-01 00:00:00.000000",
        ),
        (
            "10000101 0000",
            "0.999999",
            "1.999999",
            -30_610_224_000_000_001,
            "0999-12-31 23:59:59.999999",
        ),
        (
            "99981231 2359",
            "998.999999",
            "999.999999",
            253_370_765_737_999_999,
            "9999-01-01 00:15:37.999999",
        ),
    ];
    for (day, first, second, time, origin) in rows {
        let picks = format!(in alloc;
            "AAA ? ? ? P U {day} {first} GAU 0.1 -1 -1 -1\nBBB ? ? ? P U {day} {second} GAU 0.1 -1 -1 -1\n"
        )?;
        let assembly = assembly(&rt, alloc, picks.as_str())?;
        let text = block_with(alloc, 1, &assembly, &located(alloc, 1)?, None)?;
        let wanted = format!(in alloc;
            "EVENT 1 PICKS 2 SKIPPED 0\nPICK AAA P {} 1000 0\nPICK BBB P {} 1000 0\nHYPOCENTRE 0 0 0 10000000 0 0\nORIGIN {origin}\nRMS 0\nMET 5\nCERT LOCATED\nBEST 0 343597383680\nNEAR 1\n0 343597383680\n{COVER}",
            time.saturating_add(1_000_000),
            time.saturating_add(2_000_000)
        )?;
        assert!(rt; text.as_slice() == wanted.as_bytes(), "at {origin}");
    }
    Ok(())
}
