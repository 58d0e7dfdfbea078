//! The lines of a block, appended to a text.
ghost use Rattle.std.specs.Prelude.{◌≡◌, ◌++◌, ◌<◌, [], ◌∷◌, OnOk, codes, decimal};
ghost use Rattle.std.specs.Fmt.{signed_decimal};
ghost use Rattle.std.specs.List.{flat_map, join_with_byte};
ghost use Rattle.cover_certificate.specs.BlockLines.{text_of_lines};
ghost use Rattle.node_boxes.specs.Frame.{IsOrigin, IsSpacing, IsValidFrame};
ghost use Rattle.node_boxes.specs.Grid.{node_count};
ghost use Rattle.location_report.specs.Lines.{coordinate, event_line, hypocentre_line, lanes_line, met_line, origin_line, pick_line, place_line, reason_name, rms_line, skip_line};
ghost use Rattle.location_report.specs.Reports.{lane_values};

use crate::dates::{push_clock, push_date};
use crate::lanes::LaneCount;
use edt_text::push_signed;
use itoa::Buffer;
use node_boxes::Frame;
use station_table::{Reason, Skip, UsedPick};
use std::alloc::AllocError;

/// Appends the number of an event, and how many of its picks are used and how many aren't.
#[tactic(auto, unfolding(crate::specs::Lines::event_line))]
pub(crate) fn push_event(
    out: &mut Vec<u8>,
    number: u32,
    used: usize,
    skipped: usize,
) -> Result<(), AllocError>
    ensures { OnOk result (out.new.items ≡ out.old.items ++ text_of_lines (event_line number used skipped ∷ [])) }
{
    let mut numbers = (Buffer::new(), Buffer::new(), Buffer::new());
    push_pieces(
        out,
        &[
            b"EVENT ",
            numbers.0.format(number).as_bytes(),
            b" PICKS ",
            numbers.1.format(used).as_bytes(),
            b" SKIPPED ",
            numbers.2.format(skipped).as_bytes(),
            b"\n",
        ],
    )
}

/// Appends a used pick with the word of its residual.
#[tactic(auto, unfolding(crate::specs::Lines::pick_line))]
pub(crate) fn push_pick(
    out: &mut Vec<u8>,
    pick: &UsedPick,
    residual: &[u8],
) -> Result<(), AllocError>
    ensures { OnOk result (out.new.items
        ≡ out.old.items ++ text_of_lines (pick_line (pick.now, residual.now) ∷ [])) }
{
    let mut time = Buffer::new();
    let mut weight = Buffer::new();
    push_pieces(
        out,
        &[
            b"PICK ",
            pick.station.as_str().as_bytes(),
            b" ",
            pick.phase.as_str().as_bytes(),
            b" ",
            time.format(pick.time).as_bytes(),
            b" ",
            weight.format(pick.weight).as_bytes(),
            b" ",
            residual,
            b"\n",
        ],
    )
}

/// Appends a pick that isn't used.
#[tactic(auto, unfolding(crate::specs::Lines::skip_line))]
pub(crate) fn push_skip(out: &mut Vec<u8>, skip: &Skip) -> Result<(), AllocError>
    ensures { OnOk result (out.new.items ≡ out.old.items ++ text_of_lines (skip_line skip.now ∷ [])) }
{
    let mut line = Buffer::new();
    push_pieces(
        out,
        &[
            b"SKIP ",
            line.format(skip.line).as_bytes(),
            b" ",
            skip.station.as_str().as_bytes(),
            b" ",
            skip.phase.as_str().as_bytes(),
            b" ",
            reason_name(&skip.reason),
            b"\n",
        ],
    )
}

/// Appends the place of the hypocentre on the axes, and where it lies in millimetres.
pub(crate) fn push_hypocentre(out: &mut Vec<u8>, frame: &Frame, node: u32) -> Result<(), AllocError>
    requires frame { IsValidFrame frame.now }
    requires node { node < node_count frame.now.grid }
    ensures { OnOk result (out.new.items ≡ out.old.items ++ text_of_lines (hypocentre_line frame.now node ∷ [])) }
{
    let place = frame.grid.place(node);
    let x = coordinate(frame.ox, frame.dx, place.0);
    let y = coordinate(frame.oy, frame.dy, place.1);
    let z = coordinate(frame.oz, frame.dz, place.2);
    push_place(out, place, x, y, z)
}

// Appends a place on the axes, and where it lies.
#[tactic(auto, unfolding(crate::specs::Lines::place_line))]
fn push_place(
    out: &mut Vec<u8>,
    place: (u32, u32, u32),
    x: i64,
    y: i64,
    z: i64,
) -> Result<(), AllocError>
    ensures { OnOk result (out.new.items ≡ out.old.items ++ text_of_lines (place_line place x y z ∷ [])) }
{
    push_node(out, place)?;
    push_way(out, x)?;
    push_way(out, y)?;
    push_way(out, z)?;
    out.push(b'\n')?;
    Ok(())
}

// Appends the first words of the line of a hypocentre: its place on the axes.
fn push_node(out: &mut Vec<u8>, place: (u32, u32, u32)) -> Result<(), AllocError>
    ensures { OnOk result (out.new.items ≡ out.old.items ++ join_with_byte 32
        (codes "HYPOCENTRE" ∷ decimal place.0 ∷ decimal place.1 ∷ decimal place.2 ∷ [])) }
{
    let mut numbers = (Buffer::new(), Buffer::new(), Buffer::new());
    push_pieces(
        out,
        &[
            b"HYPOCENTRE ",
            numbers.0.format(place.0).as_bytes(),
            b" ",
            numbers.1.format(place.1).as_bytes(),
            b" ",
            numbers.2.format(place.2).as_bytes(),
        ],
    )
}

// Appends a blank and a number.
fn push_way(out: &mut Vec<u8>, way: i64) -> Result<(), AllocError>
    ensures { OnOk result (out.new.items ≡ out.old.items ++ 32 ∷ signed_decimal way) }
{
    out.push(b' ')?;
    push_signed(out, way)
}

/// Appends the origin time, which is given in microseconds from the start of 1970-01-01, as a date and a time of day.
#[tactic(auto, unfolding(crate::specs::Lines::origin_line))]
pub(crate) fn push_origin(out: &mut Vec<u8>, time: i64) -> Result<(), AllocError>
    ensures { OnOk result (out.new.items ≡ out.old.items ++ text_of_lines (origin_line time ∷ [])) }
{
    out.extend_from_slice(b"ORIGIN ")?;
    push_date(out, time)?;
    out.push(b' ')?;
    push_clock(out, time)?;
    out.push(b'\n')?;
    Ok(())
}

/// Appends the root mean square of the residuals.
#[tactic(auto, unfolding(crate::specs::Lines::rms_line))]
pub(crate) fn push_rms(out: &mut Vec<u8>, rms: u64) -> Result<(), AllocError>
    ensures { OnOk result (out.new.items ≡ out.old.items ++ text_of_lines (rms_line rms ∷ [])) }
{
    let mut number = Buffer::new();
    push_pieces(out, &[b"RMS ", number.format(rms).as_bytes(), b"\n"])
}

/// Appends how many boxes were met.
#[tactic(auto, unfolding(crate::specs::Lines::met_line))]
pub(crate) fn push_met(out: &mut Vec<u8>, met: u32) -> Result<(), AllocError>
    ensures { OnOk result (out.new.items ≡ out.old.items ++ text_of_lines (met_line met ∷ [])) }
{
    let mut number = Buffer::new();
    push_pieces(out, &[b"MET ", number.format(met).as_bytes(), b"\n"])
}

/// Appends what the lanes did.
#[tactic(auto, unfolding(crate::specs::Lines::lanes_line))]
pub(crate) fn push_lanes(out: &mut Vec<u8>, count: LaneCount) -> Result<(), AllocError>
    ensures { OnOk result (out.new.items ≡ out.old.items ++ text_of_lines (lanes_line (lane_values count) ∷ [])) }
{
    let mut numbers = (Buffer::new(), Buffer::new(), Buffer::new());
    push_pieces(
        out,
        &[
            b"LANES ",
            numbers.0.format(count.lanes).as_bytes(),
            b" EVENTS ",
            numbers.1.format(count.events).as_bytes(),
            b" LOST ",
            numbers.2.format(count.lost).as_bytes(),
            b"\n",
        ],
    )
}

// Where a place on an axis lies, in millimetres.
fn coordinate(origin: i64, spacing: i64, place: u32) -> i64
    requires origin { IsOrigin origin }
    requires spacing { IsSpacing spacing }
    ensures { result ≡ coordinate origin spacing place }
{
    origin + i64::from(place) * spacing
}

// The name of a reason.
fn reason_name(reason: &Reason) -> &[u8]
    ensures { result.now ≡ reason_name reason.now }
{
    match reason {
        Reason::Excluded => b"EXCLUDED",
        Reason::Weight0 => b"WEIGHT0",
        Reason::ErrMag => b"ERRMAG",
        Reason::Duplicate => b"DUPLICATE",
        Reason::NoGrid => b"NOGRID",
        Reason::Far => b"FAR",
        Reason::BeyondMax => b"BEYONDMAX",
    }
}

// Appends pieces one after another.
fn push_pieces(out: &mut Vec<u8>, pieces: &[&[u8]]) -> Result<(), AllocError>
    ensures { OnOk result (out.new.items ≡ out.old.items ++ flat_map (λ piece. piece.now) pieces.now) }
{
    for piece in pieces {
        out.extend_from_slice(piece)?;
    }
    Ok(())
}
