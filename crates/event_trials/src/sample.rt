//! Control files, phase files and time grids of two stations over four nodes in a row, in memory.
ghost use Rattle.std.specs.Prelude.{◌≤◌, IfOk, All, vec_len};
ghost use Rattle.control_reader.specs.Limits.{IsControl};
ghost use Rattle.phase_reader.specs.Limits.{IsEvent};

use control_reader::{Control, include_names, read_control};
use edt_outside::{MemoryShelf, Name, names_differ};
use phase_reader::{Event, read_phases};
use std::alloc::Global;
use std::process::Abort;
use std::test::Fail;

pub const HEADER_A: &[u8] = b"4 1 1 10.0 0.0 0.0 1.0 1.0 1.0 TIME USEC32\nAAA 10.0 0.0 0.0\n";

pub const HEADER_B: &[u8] = b"4 1 1 10.0 0.0 0.0 1.0 1.0 1.0 TIME USEC32\nBBB 13.0 0.0 0.0\n";

// The times 1000000, 2000000, 3000000 and 4000000, the lowest byte first.
pub const BODY_A: &[u8] = b"\x40\x42\x0f\x00\x80\x84\x1e\x00\xc0\xc6\x2d\x00\x00\x09\x3d\x00";

// The time 2000000, four times.
pub const BODY_B: &[u8] = b"\x80\x84\x1e\x00\x80\x84\x1e\x00\x80\x84\x1e\x00\x80\x84\x1e\x00";

// What a control file without includes says.
pub fn control_in(alloc: Global, text: &str) -> Result<Control, Fail>
    ensures { IfOk result IsControl }
{
    if text.len() > 1_048_576 {
        return Err(Fail::from("a long control"));
    }
    match include_names(alloc, text.as_bytes()) {
        Ok(names) if names.is_empty() => {}
        _ => return Err(Fail::from("an included file")),
    }
    match read_control(alloc, text.as_bytes(), &[]) {
        Ok(control) => Ok(control),
        Err(_) => Err(Fail::from("no control")),
    }
}

// The events of a phase file.
pub fn events_in(alloc: Global, text: &str) -> Result<Vec<Event>, Fail>
    ensures events { IfOk result (λ events. All IsEvent events.items) }
    ensures few { IfOk result (λ events. vec_len events ≤ 10000) }
{
    if text.len() > 16_777_216 {
        return Err(Fail::from("long picks"));
    }
    match read_phases(alloc, text.as_bytes()) {
        Ok(phases) => Ok(phases.events),
        Err(_) => Err(Fail::from("no picks")),
    }
}

// A shelf in memory of these files.
pub fn shelf_with(
    rt: &impl Abort,
    alloc: Global,
    files: Vec<(Name, Vec<u8>)>,
    piece: usize,
    failing: &[u64],
) -> Result<MemoryShelf, Fail> {
    assert!(rt; piece > 0);
    assert!(rt; names_differ(&files));
    Ok(MemoryShelf::new(files, piece, failing.to_vec(alloc)?))
}
