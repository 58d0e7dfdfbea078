//! The line that a refusal writes to standard error. It takes no memory, and ends at the first piece that is refused.
ghost use Rattle.std.specs.Prelude.{◌≡◌, IsTrue};
ghost use Rattle.std.specs.List.{flat_map};
ghost use Rattle.text_terms.specs.Names.{is_name};
ghost use Rattle.run_input.specs.CauseNames.{body_cause_name};
ghost use Rattle.run_input.specs.Lines.{absent_line, body_line, control_line, control_too_long_line, header_line, phases_line, read_line};
ghost use Rattle.run_input.specs.RefusalLines.{is_named, refusal_line};
ghost use Rattle.run_input.specs.Told.{Told};

use crate::cause_names::{
    axis_cause_name, control_cause_name, header_cause_name, phase_cause_name,
};
use crate::refusals::Refusal;
use control_reader::ControlFault;
use edt_outside::{Sink, put_all};
use edt_text::Name;
use itoa::Buffer;
use phase_reader::PhaseFault;
use time_grid::GridFault;

/// Tells of a refusal: writes its line after the program's own word, as `edtloc:`, in pieces up to the first that is refused.
pub fn tell_refusal<E: Sink>(program: &[u8], refusal: &Refusal, err: &mut E)
    ensures told { Told E.taken E.faults err.old err.new (refusal_line program.now refusal.now) }
    ensures named { IsTrue (is_named refusal.now) }
{
    match refusal {
        Refusal::Control(fault) => put_control(program, fault, err),
        Refusal::ControlTooLong(file) => put_control_too_long(program, *file, err),
        Refusal::Phases(fault) => put_phases(program, fault, err),
        Refusal::PhasesTooLong => put_pieces(err, &[program, b" phases 0 TooLong\n"]),
        Refusal::Header { name, cause } => {
            put_header(program, name, header_cause_name(*cause), err)
        }
        Refusal::HeaderLong(name) => put_header(program, name, b"TooLong", err),
        Refusal::Body { name, cause } => put_body(program, name, *cause, err),
        Refusal::Align { name, axis } => {
            put_body_cause(program, name, axis_cause_name(*axis), err)
        }
        Refusal::Cells => put_pieces(err, &[program, b" grids Cells\n"]),
        Refusal::Memory => put_pieces(err, &[program, b" memory\n"]),
        Refusal::Read(name) => put_read(program, name, err),
        Refusal::Absent(name) => put_absent(program, name, err),
    }
}

// Tells of a faulty line of a control file.
#[tactic(auto, unfolding(crate::specs::Lines::control_line))]
fn put_control<E: Sink>(program: &[u8], fault: &ControlFault, err: &mut E)
    ensures told { Told E.taken E.faults err.old err.new (control_line program.now fault.now) }
{
    let mut file = Buffer::new();
    let mut line = Buffer::new();
    put_pieces(
        err,
        &[
            program,
            b" control ",
            file.format(fault.file).as_bytes(),
            b" ",
            line.format(fault.line).as_bytes(),
            b" ",
            control_cause_name(&fault.cause),
            b"\n",
        ],
    )
}

// Tells of a control file past its limit.
#[tactic(auto, unfolding(crate::specs::Lines::control_too_long_line))]
fn put_control_too_long<E: Sink>(program: &[u8], file: u32, err: &mut E)
    ensures told { Told E.taken E.faults err.old err.new (control_too_long_line program.now file) }
{
    let mut buffer = Buffer::new();
    put_pieces(
        err,
        &[
            program,
            b" control ",
            buffer.format(file).as_bytes(),
            b" 0 TooLong\n",
        ],
    )
}

// Tells of a faulty line of a phase file.
#[tactic(auto, unfolding(crate::specs::Lines::phases_line))]
fn put_phases<E: Sink>(program: &[u8], fault: &PhaseFault, err: &mut E)
    ensures told { Told E.taken E.faults err.old err.new (phases_line program.now fault.now) }
{
    let mut line = Buffer::new();
    put_pieces(
        err,
        &[
            program,
            b" phases ",
            line.format(fault.line).as_bytes(),
            b" ",
            phase_cause_name(&fault.cause),
            b"\n",
        ],
    )
}

// Tells of a header that is refused.
#[tactic(auto, unfolding(crate::specs::Lines::header_line))]
fn put_header<E: Sink>(program: &[u8], name: &Name, cause: &[u8], err: &mut E)
    ensures told { Told E.taken E.faults err.old err.new (header_line program.now name.now cause.now) }
    ensures named { IsTrue (is_name 512 name.now) }
{
    put_pieces(
        err,
        &[
            program,
            b" header ",
            name.as_str().as_bytes(),
            b" ",
            cause,
            b"\n",
        ],
    )
}

// Tells of a body that is refused.
fn put_body<E: Sink>(program: &[u8], name: &Name, cause: GridFault, err: &mut E)
    ensures told { Told E.taken E.faults err.old err.new (body_line program.now name.now (body_cause_name cause)) }
    ensures named { IsTrue (is_name 512 name.now) }
{
    match cause {
        GridFault::TimeLimit(node) => put_time_limit(program, name, node, err),
        GridFault::Absent => put_body_cause(program, name, b"Absent", err),
        GridFault::Failed => put_body_cause(program, name, b"Failed", err),
        GridFault::Short => put_body_cause(program, name, b"Short", err),
        GridFault::Long => put_body_cause(program, name, b"Long", err),
        GridFault::Memory => put_body_cause(program, name, b"Memory", err),
    }
}

// Tells of a body with a time past the limit.
#[tactic(auto, unfolding(crate::specs::Lines::body_line))]
fn put_time_limit<E: Sink>(program: &[u8], name: &Name, node: u32, err: &mut E)
    ensures told { Told E.taken E.faults err.old err.new
        (body_line program.now name.now (body_cause_name (GridFault.TimeLimit node))) }
    ensures named { IsTrue (is_name 512 name.now) }
{
    let mut buffer = Buffer::new();
    put_pieces(
        err,
        &[
            program,
            b" body ",
            name.as_str().as_bytes(),
            b" ",
            b"TimeLimit ",
            buffer.format(node).as_bytes(),
            b"\n",
        ],
    )
}

// Tells of a body that is refused for this cause.
#[tactic(auto, unfolding(crate::specs::Lines::body_line))]
fn put_body_cause<E: Sink>(program: &[u8], name: &Name, cause: &[u8], err: &mut E)
    ensures told { Told E.taken E.faults err.old err.new (body_line program.now name.now cause.now) }
    ensures named { IsTrue (is_name 512 name.now) }
{
    put_pieces(
        err,
        &[
            program,
            b" body ",
            name.as_str().as_bytes(),
            b" ",
            cause,
            b"\n",
        ],
    )
}

// Tells of a file that could not be read.
fn put_read<E: Sink>(program: &[u8], name: &Name, err: &mut E)
    ensures told { Told E.taken E.faults err.old err.new (read_line program.now name.now) }
    ensures named { IsTrue (is_name 512 name.now) }
{
    put_pieces(err, &[program, b" read ", name.as_str().as_bytes(), b"\n"])
}

// Tells of a file that isn't there.
fn put_absent<E: Sink>(program: &[u8], name: &Name, err: &mut E)
    ensures told { Told E.taken E.faults err.old err.new (absent_line program.now name.now) }
    ensures named { IsTrue (is_name 512 name.now) }
{
    put_pieces(
        err,
        &[program, b" absent ", name.as_str().as_bytes(), b"\n"],
    )
}

/// Writes the pieces of a line one after another, up to the first that is refused.
pub fn put_pieces<E: Sink>(err: &mut E, pieces: &[&[u8]])
    ensures told { Told E.taken E.faults err.old err.new (flat_map (λ piece. piece.now) pieces.now) }
{
    for piece in pieces {
        match put_all(err, piece) {
            Ok(()) => {}
            Err(_) => return,
        }
    }
}
