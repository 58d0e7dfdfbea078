//! Worked runs over files in memory: each refusal with its name, each limit at its last good and first bad value. The expected values were
//! found apart from this code.
ghost use Rattle.std.specs.Prelude.{◌≤◌, IfOk, All, length, vec_len};
ghost use Rattle.control_reader.specs.Limits.{IsControl};
ghost use Rattle.phase_reader.specs.Limits.{IsEvent};

use crate::sample::{BODY_A, BODY_B, HEADER_A, HEADER_B, control_in, events_in, shelf_with};
use control_reader::Control;
use edt_outside::{MemoryShelf, Name};
use event_assembly::{AssembleFault, Assembly, Case, assemble};
use phase_reader::Event;
use std::alloc::Global;
use std::process::Abort;
use std::test::Fail;

// The times 1000000, 2000000, 3000000 and 4000000, the highest byte first.
const BIG_BODY_A: &[u8] = b"\x00\x0f\x42\x40\x00\x1e\x84\x80\x00\x2d\xc6\xc0\x00\x3d\x09\x00";

const PICK_A: &str = "AAA ? ? ? P U 19940217 2216 45.0000 GAU 1.00e-01 -1 -1 -1\n";

const PICK_B: &str = "BBB ? ? ? P U 19940217 2216 46.0000 GAU 1.00e-01 -1 -1 -1\n";

const S_PICK_A: &str = "AAA ? ? ? S U 19940217 2216 47.0000 GAU 1.00e-01 -1 -1 -1\n";

const READY: &str =
    "ready 2: 0 1 | 1000000 2000000 3000000 4000000 | 2000000 2000000 2000000 2000000";

// What these tests vary of a run: words of the control, a letter for each line of picks, and the files of the P grids of AAA and BBB.
#[derive(Clone, Copy)]
struct Run<'a> {
    swap: &'a str,
    grid: &'a str,
    method: &'a str,
    picks: &'a str,
    headers: [Option<&'a [u8]>; 2],
    bodies: [Option<&'a [u8]>; 2],
    piece: usize,
    failing: &'a [u64],
}

// Two stations with a P pick each.
const SAMPLE: Run<'static> = Run {
    swap: "",
    grid: "4 1 1 10.0 0.0 0.0 1.0 1.0 1.0",
    method: "9999.0 2 -1 -1 -1 0",
    picks: "AB",
    headers: [Some(HEADER_A), Some(HEADER_B)],
    bodies: [Some(BODY_A), Some(BODY_B)],
    piece: 65536,
    failing: &[],
};

// The control of a run.
fn control_of(alloc: Global, run: &Run) -> Result<Control, Fail>
    ensures { IfOk result IsControl }
{
    let swap = run.swap;
    let grid = run.grid;
    let method = run.method;
    let text = format!(in alloc;
        "LOCFILES obs.txt NLLOC_OBS time/a loc/a {swap}\nLOCGRID {grid}\nLOCMETH EDT {method}\nLOCGAU 0.1 0.0\nLOCSEARCH OCT 1 1 1\n"
    )?;
    control_in(alloc, text.as_str())
}

// The events of a line for each letter: a P pick at AAA or BBB, an S pick at AAA, or a blank line.
fn events_of(alloc: Global, letters: &str) -> Result<Vec<Event>, Fail>
    ensures events { IfOk result (λ events. All IsEvent events.items) }
    ensures few { IfOk result (λ events. vec_len events ≤ 10000) }
{
    let mut text = String::new(alloc);
    for letter in letters.as_bytes() {
        text.push_str(match letter {
            b'A' => PICK_A,
            b'B' => PICK_B,
            b'a' => S_PICK_A,
            _ => "\n",
        })?;
    }
    events_in(alloc, text.as_str())
}

// A file of this name and these bytes, if it is there.
fn add_file(
    alloc: Global,
    files: &mut Vec<(Name, Vec<u8>)>,
    name: &str,
    bytes: Option<&[u8]>,
) -> Result<(), Fail> {
    if let Some(bytes) = bytes {
        files.push((Name::new(alloc, name)?, bytes.to_vec(alloc)?))?;
    }
    Ok(())
}

// The shelf of a run.
fn shelf_of(rt: &impl Abort, alloc: Global, run: &Run) -> Result<MemoryShelf, Fail> {
    let [header_a, header_b] = run.headers;
    let [body_a, body_b] = run.bodies;
    let mut files = Vec::new(alloc);
    add_file(alloc, &mut files, "time/a.P.AAA.time.hdr", header_a)?;
    add_file(alloc, &mut files, "time/a.P.BBB.time.hdr", header_b)?;
    add_file(alloc, &mut files, "time/a.P.AAA.time.usec", body_a)?;
    add_file(alloc, &mut files, "time/a.P.BBB.time.usec", body_b)?;
    shelf_with(rt, alloc, files, run.piece, run.failing)
}

// The text of a refusal.
fn fault_text(alloc: Global, fault: &AssembleFault) -> Result<String, Fail> {
    Ok(match fault {
        AssembleFault::Absent(name) => format!(in alloc; "Absent {}", name.as_str())?,
        AssembleFault::Failed(name) => format!(in alloc; "Failed {}", name.as_str())?,
        AssembleFault::Header { name, cause } => {
            format!(in alloc; "Header {} {cause:?}", name.as_str())?
        }
        AssembleFault::HeaderLong(name) => format!(in alloc; "HeaderLong {}", name.as_str())?,
        AssembleFault::Body { name, cause } => {
            format!(in alloc; "Body {} {cause:?}", name.as_str())?
        }
        AssembleFault::Align { name, axis } => {
            format!(in alloc; "Align {} {axis:?}", name.as_str())?
        }
        AssembleFault::Cells => String::from_str(alloc, "Cells")?,
        AssembleFault::Memory => String::from_str(alloc, "Memory")?,
    })
}

// The text of what becomes of an event: of a problem the number of its picks and the rows of the first four.
fn case_text(alloc: Global, case: &Case) -> Result<String, Fail> {
    match case {
        Case::Few => Ok(String::from_str(alloc, "few")?),
        Case::Many => Ok(String::from_str(alloc, "many")?),
        Case::Ready(problem) => {
            let mut text = format!(in alloc; "ready {}:", problem.picks.len())?;
            for pick in problem.picks.iter().take(4) {
                let row = format!(in alloc; " {}", pick.row)?;
                text.push_str(row.as_str())?;
            }
            Ok(text)
        }
    }
}

// The text of an assembly: each event, and of each row the times at the first four nodes.
fn assembly_text(alloc: Global, assembly: &Assembly) -> Result<String, Fail> {
    let mut text = String::new(alloc);
    for event in &assembly.events {
        if !text.is_empty() {
            text.push_str("; ")?;
        }
        let case = case_text(alloc, &event.case)?;
        text.push_str(case.as_str())?;
    }
    let field = &assembly.field;
    let nodes = field.grid().nodes().min(4);
    for row in 0..field.rows() {
        text.push_str(" |")?;
        for node in 0..nodes {
            let time = format!(in alloc; " {}", field.time(row, node))?;
            text.push_str(time.as_str())?;
        }
    }
    Ok(text)
}

// The text of what `assemble` answers for these files.
fn answer_of(
    alloc: Global,
    shelf: &mut MemoryShelf,
    control: &Control,
    events: &[Event],
) -> Result<String, Fail>
    requires control { IsControl control.now }
    requires events { All IsEvent events.now }
    requires few { length events.now ≤ 10000 }
{
    match assemble(alloc, shelf, control, events) {
        Ok(assembly) => assembly_text(alloc, &assembly),
        Err(fault) => fault_text(alloc, &fault),
    }
}

// The text of what `assemble` answers for a run.
fn answer(rt: &impl Abort, alloc: Global, run: &Run) -> Result<String, Fail> {
    let control = control_of(alloc, run)?;
    let events = events_of(alloc, run.picks)?;
    let mut shelf = shelf_of(rt, alloc, run)?;
    answer_of(alloc, &mut shelf, &control, &events)
}

// Each of these runs has this answer.
fn answers(rt: &impl Abort, alloc: Global, rows: &[(Run, &str)]) -> Result<(), Fail> {
    for (run, wanted) in rows {
        let text = answer(rt, alloc, run)?;
        assert_eq!(rt; text.as_str(), *wanted);
    }
    Ok(())
}

#[test]
fn a_run_is_assembled_in_any_pieces(rt: HostRuntime) -> Result<(), Fail> {
    for piece in [1, 3, 65536] {
        let text = answer(&rt, rt.alloc(), &Run { piece, ..SAMPLE })?;
        assert_eq!(rt; text.as_str(), READY, "{piece}");
    }
    Ok(())
}

#[test]
fn the_control_gives_the_order_of_the_bytes(rt: HostRuntime) -> Result<(), Fail> {
    let bodies = [
        Some(BIG_BODY_A),
        Some(b"\x00\x1e\x84\x80\x00\x1e\x84\x80\x00\x1e\x84\x80\x00\x1e\x84\x80".as_slice()),
    ];
    answers(
        &rt,
        rt.alloc(),
        &[
            (
                Run {
                    swap: "1",
                    bodies,
                    ..SAMPLE
                },
                READY,
            ),
            (
                Run {
                    swap: "1",
                    ..SAMPLE
                },
                "Body time/a.P.AAA.time.usec TimeLimit(1)",
            ),
        ],
    )
}

#[test]
fn a_faulty_header_is_refused(rt: HostRuntime) -> Result<(), Fail> {
    let rows: [(&[u8], &str); 6] = [
        (b"4 1 1 10 0 0 1 1 1 TIME FLOAT\nBBB 13 0 0\n", "FloatBody"),
        (b"4 1 1 10 0 0 1 1 1 TIME\nBBB 13 0 0\n", "FloatBody"),
        (b"4 1 1 10 0 0 1 1 1 ANGLE USEC32\nBBB 13 0 0\n", "Kind"),
        (b"4 1 1 10 0 0 1 1 1 TIME USEC32\n", "Shape"),
        (b"4.5 1 1 10 0 0 1 1 1 TIME USEC32\nBBB 13 0 0\n", "Number"),
        (b"0 1 1 10 0 0 1 1 1 TIME USEC32\nBBB 13 0 0\n", "Limit"),
    ];
    for (header, cause) in &rows {
        let run = Run {
            headers: [Some(HEADER_A), Some(*header)],
            ..SAMPLE
        };
        let text = answer(&rt, rt.alloc(), &run)?;
        let wanted = format!(in rt.alloc(); "Header time/a.P.BBB.time.hdr {cause}")?;
        assert_eq!(rt; text.as_str(), wanted.as_str());
    }
    Ok(())
}

#[test]
fn a_header_has_at_most_65536_bytes(rt: HostRuntime) -> Result<(), Fail> {
    let alloc = rt.alloc();
    for (more, wanted) in [(0, READY), (1, "HeaderLong time/a.P.BBB.time.hdr")] {
        let mut header = HEADER_B.to_vec(alloc)?;
        header.resize(65_536 + more, b'\n')?;
        let headers = [Some(HEADER_A), Some(header.as_slice())];
        let text = answer(&rt, alloc, &Run { headers, ..SAMPLE })?;
        assert_eq!(rt; text.as_str(), wanted);
    }
    Ok(())
}

#[test]
fn a_faulty_body_is_refused(rt: HostRuntime) -> Result<(), Fail> {
    let rows: [(Option<&[u8]>, &str); 5] = [
        (None, "Absent time/a.P.BBB.time.usec"),
        (
            Some(b"\x80\x84\x1e\x00\x80\x84\x1e\x00\x80\x84\x1e\x00\x80\x84\x1e"),
            "Body time/a.P.BBB.time.usec Short",
        ),
        (
            Some(b"\x80\x84\x1e\x00\x80\x84\x1e\x00\x80\x84\x1e\x00\x80\x84\x1e\x00\x00"),
            "Body time/a.P.BBB.time.usec Long",
        ),
        (
            Some(b"\x80\x84\x1e\x00\x80\x84\x1e\x00\x00\x94\x35\x77\x80\x84\x1e\x00"),
            "ready 2: 0 1 | 1000000 2000000 3000000 4000000 | 2000000 2000000 2000000000 2000000",
        ),
        (
            Some(b"\x80\x84\x1e\x00\x80\x84\x1e\x00\x01\x94\x35\x77\x80\x84\x1e\x00"),
            "Body time/a.P.BBB.time.usec TimeLimit(2)",
        ),
    ];
    for (body, wanted) in &rows {
        let run = Run {
            bodies: [Some(BODY_A), *body],
            ..SAMPLE
        };
        let text = answer(&rt, rt.alloc(), &run)?;
        assert_eq!(rt; text.as_str(), *wanted);
    }
    Ok(())
}

#[test]
fn search_nodes_off_the_time_grid_are_refused(rt: HostRuntime) -> Result<(), Fail> {
    answers(
        &rt,
        rt.alloc(),
        &[
            (
                Run {
                    grid: "2 1 1 11.0 0.0 0.0 2.0 1.0 1.0",
                    ..SAMPLE
                },
                "ready 2: 0 1 | 2000000 4000000 | 2000000 2000000",
            ),
            (
                Run {
                    grid: "3 1 1 10.5 0.0 0.0 1.0 1.0 1.0",
                    ..SAMPLE
                },
                "Align time/a.P.AAA.time.usec X",
            ),
            (
                Run {
                    grid: "4 2 1 10.0 0.0 0.0 1.0 1.0 1.0",
                    ..SAMPLE
                },
                "Align time/a.P.AAA.time.usec Y",
            ),
            (
                Run {
                    grid: "4 1 1 10.0 0.0 0.5 1.0 1.0 1.0",
                    bodies: [Some(b"\x00"), Some(BODY_B)],
                    ..SAMPLE
                },
                "Body time/a.P.AAA.time.usec Short",
            ),
        ],
    )
}

#[test]
fn a_failed_call_names_its_file(rt: HostRuntime) -> Result<(), Fail> {
    // each header takes four calls: has, open and two reads; each body three
    let rows = [
        (1, "Failed time/a.P.AAA.time.hdr"),
        (2, "Failed time/a.P.AAA.time.hdr"),
        (4, "Failed time/a.P.AAA.time.hdr"),
        (5, "Failed time/a.P.BBB.time.hdr"),
        (8, "Failed time/a.P.BBB.time.hdr"),
        (9, "Failed time/a.P.AAA.time.usec"),
        (11, "Failed time/a.P.AAA.time.usec"),
        (12, "Failed time/a.P.BBB.time.usec"),
        (14, "Failed time/a.P.BBB.time.usec"),
        (15, READY),
    ];
    for (call, wanted) in rows {
        let text = answer(
            &rt,
            rt.alloc(),
            &Run {
                failing: &[call],
                ..SAMPLE
            },
        )?;
        assert_eq!(rt; text.as_str(), wanted, "{call}");
    }
    Ok(())
}

#[test]
fn the_first_refusal_in_the_order_of_work_decides(rt: HostRuntime) -> Result<(), Fail> {
    let odd: &[u8] = b"4 1 1 10 0 0 1 1 1 ANGLE USEC32\n? 0 0 0\n";
    answers(
        &rt,
        rt.alloc(),
        &[
            (
                Run {
                    headers: [Some(odd), Some(b"")],
                    ..SAMPLE
                },
                "Header time/a.P.AAA.time.hdr Kind",
            ),
            (
                Run {
                    headers: [Some(HEADER_A), Some(odd)],
                    bodies: [None, None],
                    ..SAMPLE
                },
                "Header time/a.P.BBB.time.hdr Kind",
            ),
            (
                Run {
                    bodies: [Some(b""), None],
                    ..SAMPLE
                },
                "Body time/a.P.AAA.time.usec Short",
            ),
            (
                Run {
                    picks: "BA",
                    bodies: [Some(b""), None],
                    ..SAMPLE
                },
                "Absent time/a.P.BBB.time.usec",
            ),
        ],
    )
}

#[test]
fn a_faulty_header_of_an_unused_pick_is_refused(rt: HostRuntime) -> Result<(), Fail> {
    let headers = [Some(HEADER_A), Some(b"".as_slice())];
    answers(
        &rt,
        rt.alloc(),
        &[
            (
                Run {
                    method: "9999.0 2 1 -1 -1 0",
                    ..SAMPLE
                },
                "few",
            ),
            (
                Run {
                    method: "9999.0 2 1 -1 -1 0",
                    headers,
                    ..SAMPLE
                },
                "Header time/a.P.BBB.time.hdr Shape",
            ),
        ],
    )
}

#[test]
fn few_picks_need_no_bodies(rt: HostRuntime) -> Result<(), Fail> {
    let one = Run {
        headers: [Some(HEADER_A), None],
        bodies: [None, None],
        ..SAMPLE
    };
    answers(
        &rt,
        rt.alloc(),
        &[
            (one, "few"),
            (
                Run {
                    picks: "AB A",
                    ..one
                },
                "few; few",
            ),
            (
                Run {
                    method: "9999.0 3 -1 -1 -1 0",
                    headers: SAMPLE.headers,
                    ..one
                },
                "few",
            ),
            (
                Run {
                    method: "1.0 2 -1 -1 -1 0",
                    headers: SAMPLE.headers,
                    ..one
                },
                "few",
            ),
        ],
    )
}

#[test]
fn two_picks_are_needed_and_as_many_as_the_control_asks_for(rt: HostRuntime) -> Result<(), Fail> {
    let three = Run {
        picks: "ABa",
        method: "9999.0 2 -1 -1 2.0 0",
        ..SAMPLE
    };
    let rows =
        "ready 3: 0 1 2 | 1000000 2000000 3000000 4000000 | 2000000 2000000 2000000 2000000 | 2000000 4000000 6000000 8000000";
    answers(
        &rt,
        rt.alloc(),
        &[
            (
                Run {
                    picks: "A",
                    method: "9999.0 1 -1 -1 -1 0",
                    ..SAMPLE
                },
                "few",
            ),
            (
                Run {
                    method: "9999.0 -1 -1 -1 -1 0",
                    ..SAMPLE
                },
                READY,
            ),
            (
                Run {
                    method: "9999.0 3 -1 -1 2.0 0",
                    ..three
                },
                rows,
            ),
            (
                Run {
                    method: "9999.0 4 -1 -1 2.0 0",
                    ..three
                },
                "few",
            ),
            (
                Run {
                    method: "9999.0 2 -1 1 2.0 0",
                    ..three
                },
                rows,
            ),
            (
                Run {
                    method: "9999.0 2 -1 2 2.0 0",
                    ..three
                },
                "few",
            ),
            (
                Run {
                    method: "9999.0 2 -1 1 2.0 0",
                    ..SAMPLE
                },
                "few",
            ),
        ],
    )
}

#[test]
fn at_most_256_picks_are_used(rt: HostRuntime) -> Result<(), Fail> {
    let alloc = rt.alloc();
    let control = control_of(
        alloc,
        &Run {
            method: "9999.0 2 -1 -1 -1 0 -1.0 0",
            ..SAMPLE
        },
    )?;
    for (more, wanted) in [
        (
            255,
            "ready 256: 0 1 0 0 | 1000000 2000000 3000000 4000000 | 2000000 2000000 2000000 2000000",
        ),
        (256, "many"),
    ] {
        let mut letters = String::from_str(alloc, "AB")?;
        for _ in 1..more {
            letters.push_str("A")?;
        }
        let events = events_of(alloc, letters.as_str())?;
        let mut shelf = shelf_of(&rt, alloc, &SAMPLE)?;
        let text = answer_of(alloc, &mut shelf, &control, &events)?;
        assert_eq!(rt; text.as_str(), wanted);
    }
    Ok(())
}

#[test]
fn s_times_come_from_p_grids_by_the_ratio(rt: HostRuntime) -> Result<(), Fail> {
    let picks = "Aa";
    // the times 1000001, 1000000, 0 and 5
    let odd: &[u8] = b"\x41\x42\x0f\x00\x40\x42\x0f\x00\x00\x00\x00\x00\x05\x00\x00\x00";
    // the times 5, 5, 1000000001 and 1000000000
    let long: &[u8] = b"\x05\x00\x00\x00\x05\x00\x00\x00\x01\xca\x9a\x3b\x00\xca\x9a\x3b";
    let by_two = Run {
        method: "9999.0 2 -1 -1 2.0 0",
        picks,
        bodies: [Some(long), None],
        ..SAMPLE
    };
    answers(
        &rt,
        rt.alloc(),
        &[
            (
                Run {
                    method: "9999.0 2 -1 -1 1.7321 0",
                    bodies: [Some(odd), None],
                    ..by_two
                },
                "ready 2: 0 1 | 1000001 1000000 0 5 | 1732102 1732100 0 9",
            ),
            (by_two, "Body time/a.P.AAA.time.usec TimeLimit(2)"),
            (
                Run {
                    grid: "2 1 1 12.0 0.0 0.0 1.0 1.0 1.0",
                    ..by_two
                },
                "Body time/a.P.AAA.time.usec TimeLimit(0)",
            ),
            (
                Run {
                    grid: "1 1 1 13.0 0.0 0.0 1.0 1.0 1.0",
                    ..by_two
                },
                "ready 2: 0 1 | 1000000000 | 2000000000",
            ),
            (
                Run {
                    method: "9999.0 2 -1 -1 0.0 0",
                    ..by_two
                },
                "few",
            ),
        ],
    )
}

#[test]
fn events_share_rows_in_the_order_of_their_keys(rt: HostRuntime) -> Result<(), Fail> {
    let b_first =
        "ready 2: 0 1 | 2000000 2000000 2000000 2000000 | 1000000 2000000 3000000 4000000";
    let twice =
        "ready 2: 0 1; ready 2: 1 0 | 1000000 2000000 3000000 4000000 | 2000000 2000000 2000000 2000000";
    let rows = [("BA", b_first), ("AB BA", twice), ("aAB", READY), ("", "")];
    for (picks, wanted) in rows {
        let text = answer(&rt, rt.alloc(), &Run { picks, ..SAMPLE })?;
        assert_eq!(rt; text.as_str(), wanted);
    }
    Ok(())
}

// The headers of so many stations, over a grid of 2,000,000 nodes.
fn large_headers(alloc: Global, stations: u32) -> Result<Vec<(Name, Vec<u8>)>, Fail> {
    let mut files = Vec::new(alloc);
    for station in 0..stations {
        let name = format!(in alloc; "time/a.P.S{station}.time.hdr")?;
        let header = format!(in alloc; "125 125 128 0 0 0 1 1 1 TIME USEC32\nS{station} 0 0 0\n")?;
        add_file(alloc, &mut files, name.as_str(), Some(header.as_bytes()))?;
    }
    Ok(files)
}

// A P pick at each of so many stations.
fn many_picks(alloc: Global, stations: u32) -> Result<Vec<Event>, Fail>
    ensures events { IfOk result (λ events. All IsEvent events.items) }
    ensures few { IfOk result (λ events. vec_len events ≤ 10000) }
{
    let mut text = String::new(alloc);
    for station in 0..stations {
        let line = format!(in alloc; "S{station} ? ? ? P ? 20000101 0000 0 GAU 0.1\n")?;
        text.push_str(line.as_str())?;
    }
    events_in(alloc, text.as_str())
}

// Ten rows of 2,000,000 times are not too many: then the first body is asked for, which isn't there. Eleven are, before any body.
#[test]
fn rows_have_at_most_20000000_times(rt: HostRuntime) -> Result<(), Fail> {
    let alloc = rt.alloc();
    let grid = "125 125 128 0 0 0 1 1 1";
    let control = control_of(alloc, &Run { grid, ..SAMPLE })?;
    for (stations, wanted) in [(10, "Absent time/a.P.S0.time.usec"), (11, "Cells")] {
        let picks = many_picks(alloc, stations)?;
        let files = large_headers(alloc, stations)?;
        let mut shelf = shelf_with(&rt, alloc, files, 65536, &[])?;
        let text = answer_of(alloc, &mut shelf, &control, &picks)?;
        assert_eq!(rt; text.as_str(), wanted, "{stations}");
    }
    Ok(())
}
