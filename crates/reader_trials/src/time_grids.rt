//! Bodies and search grids worked by hand, read whole and streamed, in several pieces and buffers.
ghost use Rattle.std.specs.Prelude.{◌≡◌, ◌≤◌, ◌≤ℤ◌, ◌^◌, None, IfOk, pos, unsigned_abs};
ghost use Rattle.grid_header.specs.Reading.{IsValidHeader};
ghost use Rattle.node_boxes.specs.Frame.{IsValidFrame};

use crate::endless::Endless;
use edt_outside::{Failed, MemoryShelf, Name, Shelf, names_differ};
use grid_header::Header;
use node_boxes::{Frame, Grid};
use std::alloc::Global;
use std::process::Abort;
use std::test::Fail;
use time_grid::{AlignFault, Axis, ByteOrder, GridFault, StreamFault, TimeGrid, stream_times};

const PIECES: [usize; 3] = [1, 3, 65536];

const BUFFERS: [usize; 3] = [4, 7, 65536];

// The times 1000000, 2000000, 3000000 and 4000000, the lowest byte first and last.
const LITTLE: &[u8] = b"\x40\x42\x0f\x00\x80\x84\x1e\x00\xc0\xc6\x2d\x00\x00\x09\x3d\x00";

const BIG: &[u8] = b"\x00\x0f\x42\x40\x00\x1e\x84\x80\x00\x2d\xc6\xc0\x00\x3d\x09\x00";

// A time grid with its first node at (10 km, 0, 0) and nodes 1 km apart.
fn header(x: u32, y: u32, z: u32) -> Header
    requires x { (1 ≤ x) × (x ≤ 10) }
    requires y { (1 ≤ y) × (y ≤ 10) }
    requires z { (1 ≤ z) × (z ≤ 10) }
    ensures { IsValidHeader result }
{
    Header {
        x,
        y,
        z,
        ox: 10_000_000,
        oy: 0,
        oz: 0,
        dx: 1_000_000,
        dy: 1_000_000,
        dz: 1_000_000,
        sx: 10_000_000,
        sy: 0,
        sz: 0,
    }
}

// A search grid of these counts, this origin and these spacings.
fn frame(counts: (u32, u32, u32), origin: (i64, i64, i64), spacing: i64) -> Result<Frame, Fail>
    requires x { unsigned_abs origin.0 ≤ 10 ^ 10 }
    requires y { unsigned_abs origin.1 ≤ 10 ^ 10 }
    requires z { unsigned_abs origin.2 ≤ 10 ^ 10 }
    requires spacing { (pos 1 ≤ℤ spacing) × (spacing ≤ℤ pos (10 ^ 9)) }
    ensures { IfOk result IsValidFrame }
{
    let grid = Grid::new(counts.0, counts.1, counts.2).ok_or("a search grid")?;
    Ok(Frame {
        grid,
        ox: origin.0,
        oy: origin.1,
        oz: origin.2,
        dx: spacing,
        dy: spacing,
        dz: spacing,
    })
}

// A shelf with this body alone, under the name "body".
fn shelf(
    rt: &impl Abort,
    alloc: Global,
    body: &[u8],
    piece: usize,
    failing: &[u64],
) -> Result<MemoryShelf, Fail> {
    assert!(rt; piece > 0);
    let mut files = Vec::new(alloc);
    files.push((Name::new(alloc, "body")?, body.to_vec(alloc)?))?;
    assert!(rt; names_differ(&files));
    Ok(MemoryShelf::new(files, piece, failing.to_vec(alloc)?))
}

// The bytes of a body of these times, the lowest byte first.
fn body_of(alloc: Global, times: &[u32]) -> Result<Vec<u8>, Fail> {
    let mut bytes = Vec::new(alloc);
    for time in times {
        bytes.extend_from_slice(&time.to_le_bytes())?;
    }
    Ok(bytes)
}

// The times of the search nodes, or the refusal, of a stream through a buffer of `room` bytes, which are at least 4.
fn stream<S: Shelf>(
    alloc: Global,
    shelf: &mut S,
    name: &str,
    header: &Header,
    order: ByteOrder,
    frame: &Frame,
    room: usize,
) -> Result<Result<Vec<u32>, StreamFault>, Fail>
    requires header { IsValidHeader header.now }
    requires frame { IsValidFrame frame.now }
{
    let mut buffer = vec![in alloc; 0; room.max(4)]?;
    let mut into = vec![in alloc; 0; frame.grid.nodes() as usize]?;
    let answer = stream_times(shelf, name, header, order, frame, &mut buffer, &mut into);
    Ok(answer.map(|()| into))
}

// Reads a body whole and streams it, in each of the pieces and buffers, and expects these times of the search nodes or this refusal.
fn expect(
    rt: &impl Abort,
    alloc: Global,
    header: &Header,
    order: ByteOrder,
    frame: &Frame,
    body: &[u8],
    wanted: Result<&[u32], StreamFault>,
) -> Result<(), Fail>
    requires header { IsValidHeader header.now }
    requires frame { IsValidFrame frame.now }
{
    for piece in PIECES {
        let mut whole = shelf(rt, alloc, body, piece, &[])?;
        match TimeGrid::read(alloc, &mut whole, "body", header, order) {
            Ok(grid) => expect_search_times(rt, alloc, &grid, frame, wanted)?,
            Err(fault) => assert_eq!(rt; Err(StreamFault::from(fault)), wanted, "{piece}"),
        }
        for room in BUFFERS {
            let mut parts = shelf(rt, alloc, body, piece, &[])?;
            let answer = stream(alloc, &mut parts, "body", header, order, frame, room)?;
            let times = answer.as_ref().map(|times| times.as_slice());
            assert_eq!(rt; times.map_err(|fault| *fault), wanted, "{piece} {room}");
        }
    }
    Ok(())
}

fn expect_search_times(
    rt: &impl Abort,
    alloc: Global,
    grid: &TimeGrid,
    frame: &Frame,
    wanted: Result<&[u32], StreamFault>,
) -> Result<(), Fail>
    requires { IsValidFrame frame.now }
{
    match grid.on_search_grid(alloc, frame) {
        Ok(times) => assert_eq!(rt; Ok(times.as_slice()), wanted),
        Err(AlignFault::NotAligned(axis)) => assert_eq!(rt;
            Err(StreamFault::NotAligned(axis)),
            wanted
        ),
        Err(AlignFault::Memory) => assert!(rt; false),
    }
    Ok(())
}

#[test]
fn bodies_are_read_in_both_orders_and_judged(rt: HostRuntime) -> Result<(), Fail> {
    let alloc = rt.alloc();
    let header = header(4, 1, 1);
    let frame = frame((4, 1, 1), (10_000_000, 0, 0), 1_000_000)?;
    let latest = body_of(alloc, &[0, 2_000_000_000, 0, 2_000_000_000])?;
    let late = body_of(alloc, &[2_000_000_000, 0, 2_000_000_001, u32::MAX])?;
    let longer = body_of(alloc, &[1, 2, 3, 4, u32::MAX])?;
    let mut seventeen = body_of(alloc, &[1, 2, 3, 4, u32::MAX])?;
    seventeen.truncate(17);
    let mut fifteen = body_of(alloc, &[2_000_000_000, 0, 2_000_000_001, u32::MAX])?;
    fifteen.truncate(15);
    let four: &[u32] = &[1_000_000, 2_000_000, 3_000_000, 4_000_000];
    let limits: &[u32] = &[0, 2_000_000_000, 0, 2_000_000_000];
    for (order, body, wanted) in [
        (ByteOrder::Little, LITTLE, Ok(four)),
        (ByteOrder::Big, BIG, Ok(four)),
        // The second number is then 2156142080.
        (ByteOrder::Big, LITTLE, Err(StreamFault::TimeLimit(1))),
        (ByteOrder::Little, &LITTLE[..15], Err(StreamFault::Short)),
        (ByteOrder::Little, &[], Err(StreamFault::Short)),
        (ByteOrder::Little, &seventeen, Err(StreamFault::Long)),
        (ByteOrder::Little, &longer, Err(StreamFault::Long)),
        (ByteOrder::Little, &latest, Ok(limits)),
        (ByteOrder::Little, &late, Err(StreamFault::TimeLimit(2))),
        // The length comes before the limit of times.
        (ByteOrder::Little, &fifteen, Err(StreamFault::Short)),
    ] {
        expect(&rt, alloc, &header, order, &frame, body, wanted)?;
    }
    Ok(())
}

#[test]
fn search_nodes_are_picked_out_of_a_line(rt: HostRuntime) -> Result<(), Fail> {
    let alloc = rt.alloc();
    let header = header(3, 1, 1);
    let body = body_of(alloc, &[5, 6, 7])?;
    let six: &[u32] = &[6, 7];
    let ends: &[u32] = &[5, 7];
    let last: &[u32] = &[7];
    for (nodes, origin, spacing, times) in [
        (2, 11_000_000, 1_000_000, six),
        (2, 10_000_000, 2_000_000, ends),
        // The spacing of one node alone is used nowhere.
        (1, 12_000_000, 999_999, last),
    ] {
        let frame = frame((nodes, 1, 1), (origin, 0, 0), spacing)?;
        expect(
            &rt,
            alloc,
            &header,
            ByteOrder::Little,
            &frame,
            &body,
            Ok(times),
        )?;
    }
    Ok(())
}

#[test]
fn an_axis_is_unaligned_at_any_of_its_nodes(rt: HostRuntime) -> Result<(), Fail> {
    let alloc = rt.alloc();
    let header = header(3, 1, 1);
    let body = body_of(alloc, &[5, 6, 7])?;
    let mut short = body_of(alloc, &[5, 6, 7])?;
    short.truncate(11);
    let off = Err(StreamFault::NotAligned(Axis::X));
    for (nodes, origin, spacing) in [
        (2, 10_500_000, 1_000_000),
        (2, 10_000_000, 500_000),
        (3, 11_000_000, 1_000_000),
        (2, 9_000_000, 1_000_000),
    ] {
        let frame = frame((nodes, 1, 1), (origin, 0, 0), spacing)?;
        expect(&rt, alloc, &header, ByteOrder::Little, &frame, &body, off)?;
        // The body's own fault comes first.
        let mut cut = shelf(&rt, alloc, &short, 3, &[])?;
        let answer = stream(
            alloc,
            &mut cut,
            "body",
            &header,
            ByteOrder::Little,
            &frame,
            7,
        )?;
        assert_eq!(rt; answer.err(), Some(StreamFault::Short));
    }
    Ok(())
}

#[test]
fn search_nodes_are_picked_out_of_a_block(rt: HostRuntime) -> Result<(), Fail> {
    let alloc = rt.alloc();
    let header = header(3, 4, 5);
    let mut numbers = Vec::new(alloc);
    for number in 0..60 {
        numbers.push(number)?;
    }
    let body = body_of(alloc, &numbers)?;
    // Every second node along each axis, from (0, 1, 1) on: (ix * 4 + iy) * 5 + iz.
    let block: &[u32] = &[6, 8, 16, 18, 46, 48, 56, 58];
    for (origin, wanted) in [
        ((10_000_000, 1_000_000, 1_000_000), Ok(block)),
        (
            (10_000_001, 1_000_001, 0),
            Err(StreamFault::NotAligned(Axis::X)),
        ),
        (
            (10_000_000, 2_000_000, 1_000_001),
            Err(StreamFault::NotAligned(Axis::Y)),
        ),
        (
            (10_000_000, 1_000_000, 3_000_000),
            Err(StreamFault::NotAligned(Axis::Z)),
        ),
        (
            (10_000_000, 1_000_000, -1_000_000),
            Err(StreamFault::NotAligned(Axis::Z)),
        ),
    ] {
        let frame = frame((2, 2, 2), origin, 2_000_000)?;
        expect(
            &rt,
            alloc,
            &header,
            ByteOrder::Little,
            &frame,
            &body,
            wanted,
        )?;
    }
    Ok(())
}

#[test]
fn nodes_have_times_up_to_the_last(rt: HostRuntime) -> Result<(), Fail> {
    let alloc = rt.alloc();
    let mut shelf = shelf(&rt, alloc, LITTLE, 3, &[])?;
    let grid = TimeGrid::read(
        alloc,
        &mut shelf,
        "body",
        &header(2, 1, 2),
        ByteOrder::Little,
    )?;
    for (node, time) in [
        (0, Some(1_000_000)),
        (3, Some(4_000_000)),
        (4, None),
        (u32::MAX, None),
    ] {
        assert_eq!(rt; grid.at(node), time, "{node}");
    }
    Ok(())
}

#[test]
fn what_fails_and_what_is_absent_is_named_as_it_is_met(rt: HostRuntime) -> Result<(), Fail> {
    let alloc = rt.alloc();
    let header = header(4, 1, 1);
    let frame = frame((1, 1, 1), (0, 0, 0), 1)?;
    let longer = body_of(alloc, &[1, 2, 3, 4, 5])?;
    // The open, the first read, a later one; and the one that finds a byte too many, in pieces of 3 bytes.
    for (name, failing, read, streamed) in [
        ("body", 1, GridFault::Failed, StreamFault::Failed),
        ("body", 2, GridFault::Failed, StreamFault::Failed),
        ("body", 7, GridFault::Failed, StreamFault::Failed),
        ("body", 8, GridFault::Long, StreamFault::Long),
        ("nobody", 2, GridFault::Absent, StreamFault::Absent),
    ] {
        let mut whole = shelf(&rt, alloc, &longer, 3, &[failing])?;
        let answer = TimeGrid::read(alloc, &mut whole, name, &header, ByteOrder::Little);
        assert_eq!(rt; answer.err(), Some(read), "{name} {failing}");
        let mut parts = shelf(&rt, alloc, &longer, 3, &[failing])?;
        let answer = stream(
            alloc,
            &mut parts,
            name,
            &header,
            ByteOrder::Little,
            &frame,
            7,
        )?;
        assert_eq!(rt; answer.err(), Some(streamed), "{name} {failing}");
    }
    Ok(())
}

#[test]
fn a_body_without_end_is_long(rt: HostRuntime) -> Result<(), Fail> {
    let alloc = rt.alloc();
    let header = header(10, 10, 10);
    let frame = frame((1, 1, 1), (10_000_000, 0, 0), 1)?;
    let answer = TimeGrid::read(
        alloc,
        &mut Endless { most: 1 },
        "body",
        &header,
        ByteOrder::Little,
    );
    assert_eq!(rt; answer.err(), Some(GridFault::Long));
    let answer = stream(
        alloc,
        &mut Endless { most: 1 },
        "body",
        &header,
        ByteOrder::Little,
        &frame,
        7,
    )?;
    assert_eq!(rt; answer.err(), Some(StreamFault::Long));
    Ok(())
}
