//! The bodies of the time grids that have a row of times.
ghost use Rattle.std.specs.Prelude.{◌≡◌, ◌≤◌, ◌<◌, ◌<ℤ◌, ◌≤ℤ◌, ◌^◌, pos, [], IfOk, IfErr, OnOk, OnSome, IfSome, All, Some, length, map, slice_get, unsigned_abs};
ghost use Rattle.node_boxes.specs.declared.limits.TheConstants.{GREATEST_TIME};
ghost use Rattle.edt_outside.specs.Counts.{RisesExactly};
ghost use Rattle.edt_score.specs.Field.{IsRow};
ghost use Rattle.grid_header.specs.Reading.{IsValidHeader};
ghost use Rattle.node_boxes.specs.Grid.{node_count};
ghost use Rattle.control_reader.specs.Limits.{IsControl};
ghost use Rattle.control_reader.specs.ControlValues.{values_of};
ghost use Rattle.station_table.specs.Limits.{IsKey};
ghost use Rattle.event_assembly.specs.Answers.{HasBodyCause, StaysEnded, assemble_failed, assemble_absent};
ghost use Rattle.event_assembly.specs.Assembling.{keys_at, roots_for};
ghost use Rattle.event_assembly.specs.Names.{body_name};
ghost use Rattle.event_assembly.specs.Rows.{byte_order, by_ratio, times_for};
ghost use Rattle.event_assembly.specs.Inside.Reads.{header_in, body_refusal, IsConvertible, HasHeader, IsRowKey, Converts, ReadsTimes, ReadsRow, ReadsRows};

use crate::faults::AssembleFault;
use crate::names::body_name;
use control_reader::Control;
use edt_outside::Shelf;
use edt_score::Field;
use edt_text::Name;
use grid_header::Header;
use node_boxes::{GREATEST_TIME, roots};
use station_table::GridKey;
use std::alloc::Global;
use time_grid::{ByteOrder, GridFault, StreamFault, stream_times};

/// How many bytes of a body are held at once.
const PIECE: usize = 65_536;

/// The field of the rows of keys, in order: `rows` has the number of the key of each. The first refusal decides.
///
/// One buffer serves all bodies, and it is taken before the first one.
pub(crate) fn read_rows<S: Shelf>(
    alloc: Global,
    shelf: &mut S,
    control: &Control,
    keys: &[GridKey],
    headers: &[Option<Header>],
    rows: &[u32],
) -> Result<Field, AssembleFault>
    requires control { IsControl control.now }
    requires keys { All IsKey keys.now }
    requires ratios { All (IsConvertible (values_of control.now)) keys.now }
    requires headers { IfSome (S.files shelf.old) (λ files.
        headers.now ≡ map (header_in files (values_of control.now)) keys.now) }
    requires few { length rows.now < 2 ^ 32 }
    requires rows { All (IsRowKey keys.now headers.now) rows.now }
    ensures told { IfSome (S.files shelf.old) (λ files.
        ReadsRows files (values_of control.now) (keys_at keys.now rows.now) result) }
    ensures grid { IfOk result (λ field. field.grid ≡ control.now.frame.grid) }
    ensures roots { IfOk result (λ field. field.roots ≡ roots_for (values_of control.now)) }
    ensures one_each { IfOk result (λ field. length field.rows ≡ length rows.now) }
    ensures cause { IfErr result HasBodyCause }
    ensures ended { OnOk result (StaysEnded (S.files shelf.old) (S.left shelf.old) (S.left shelf.new)) }
    ensures same_files { S.files shelf.new ≡ S.files shelf.old }
    ensures faults { RisesExactly (assemble_failed result) (S.faults shelf.old) (S.faults shelf.new) }
    ensures misses { RisesExactly (assemble_absent result) (S.misses shelf.old) (S.misses shelf.new) }
    ensures lacks { S.lacks shelf.new ≡ S.lacks shelf.old }
    ensures calls { S.calls shelf.old ≤ S.calls shelf.new }
{
    let (x, y, z) = control.cells;
    let roots = roots(alloc, &control.frame.grid, x, y, z)?;
    let mut field = Field::new(alloc, control.frame.grid, roots)?;
    let mut buffer = vec![in alloc; 0; PIECE]?;
    for row in rows {
        let key = &keys[*row as usize];
        let header = header_of_key(headers, *row);
        let times = read_row(alloc, shelf, control, key, header, &mut buffer)?;
        field.push_row(times)?;
    }
    Ok(field)
}

// The header of a key that has one.
fn header_of_key(headers: &[Option<Header>], key: u32) -> &Header
    requires { HasHeader headers.now key }
    ensures value { slice_get headers.now key ≡ Some (Some result.now) }
    ensures valid { IsValidHeader result.now }
{
    match &headers[key as usize] {
        Some(header) => header,
        None => unreachable!(),
    }
}

// The times of a row at the search nodes, as its key wants them. Their list is taken before the body is opened.
fn read_row<S: Shelf>(
    alloc: Global,
    shelf: &mut S,
    control: &Control,
    key: &GridKey,
    header: &Header,
    buffer: &mut [u8],
) -> Result<Vec<u32>, AssembleFault>
    requires control { IsControl control.now }
    requires key { IsKey key.now }
    requires ratio { IsConvertible (values_of control.now) key.now }
    requires header { IsValidHeader header.now }
    requires room { 4 ≤ length buffer.old }
    ensures told { IfSome (S.files shelf.old) (λ files.
        ReadsRow files (values_of control.now) key.now header.now result) }
    ensures row { IfOk result (λ times. IsRow control.now.frame.grid times.items) }
    ensures cause { IfErr result HasBodyCause }
    ensures ended { OnOk result (OnSome (S.files shelf.old) (S.left shelf.new ≡ Some [])) }
    ensures same_files { S.files shelf.new ≡ S.files shelf.old }
    ensures faults { RisesExactly (assemble_failed result) (S.faults shelf.old) (S.faults shelf.new) }
    ensures misses { RisesExactly (assemble_absent result) (S.misses shelf.old) (S.misses shelf.new) }
    ensures lacks { S.lacks shelf.new ≡ S.lacks shelf.old }
    ensures calls { S.calls shelf.old ≤ S.calls shelf.new }
{
    let name = body_name(alloc, control, key)?;
    let mut times = vec![in alloc; 0; control.frame.grid.nodes() as usize]?;
    read_times(shelf, control, key, header, name, buffer, &mut times)?;
    Ok(times)
}

// Puts the times of the body of this name at the search nodes into `times`, as its key wants them.
fn read_times<S: Shelf>(
    shelf: &mut S,
    control: &Control,
    key: &GridKey,
    header: &Header,
    name: Name,
    buffer: &mut [u8],
    times: &mut [u32],
) -> Result<(), AssembleFault>
    requires control { IsControl control.now }
    requires key { IsConvertible (values_of control.now) key.now }
    requires header { IsValidHeader header.now }
    requires name { name ≡ body_name (values_of control.now) key.now }
    requires room { 4 ≤ length buffer.old }
    requires places { length times.old ≡ node_count control.now.frame.grid }
    ensures told { IfSome (S.files shelf.old) (λ files.
        ReadsTimes files (values_of control.now) key.now header.now times.new result) }
    ensures row { OnOk result (IsRow control.now.frame.grid times.new) }
    ensures cause { IfErr result HasBodyCause }
    ensures ended { OnOk result (OnSome (S.files shelf.old) (S.left shelf.new ≡ Some [])) }
    ensures same_files { S.files shelf.new ≡ S.files shelf.old }
    ensures faults { RisesExactly (assemble_failed result) (S.faults shelf.old) (S.faults shelf.new) }
    ensures misses { RisesExactly (assemble_absent result) (S.misses shelf.old) (S.misses shelf.new) }
    ensures lacks { S.lacks shelf.new ≡ S.lacks shelf.old }
    ensures calls { S.calls shelf.old ≤ S.calls shelf.new }
{
    let order = byte_order(control);
    let text = name.as_str();
    match stream_times(shelf, text, header, order, &control.frame, buffer, times) {
        Ok(()) => {}
        Err(fault) => return Err(body_refusal(name, fault)),
    }
    match convert_for(control, key, times) {
        None => Ok(()),
        Some(node) => Err(AssembleFault::Body {
            name,
            cause: GridFault::TimeLimit(node),
        }),
    }
}

// The order of the bytes of bodies.
fn byte_order(control: &Control) -> ByteOrder
    ensures { result ≡ byte_order (values_of control.now) }
{
    if control.swap {
        ByteOrder::Big
    } else {
        ByteOrder::Little
    }
}

// The refusal of a body, by the fault of its stream.
fn body_refusal(name: Name, fault: StreamFault) -> AssembleFault
    ensures value { result ≡ body_refusal name fault }
    ensures cause { HasBodyCause result }
{
    match fault {
        StreamFault::Absent => AssembleFault::Absent(name),
        StreamFault::Failed => AssembleFault::Failed(name),
        StreamFault::Short => AssembleFault::Body {
            name,
            cause: GridFault::Short,
        },
        StreamFault::Long => AssembleFault::Body {
            name,
            cause: GridFault::Long,
        },
        StreamFault::TimeLimit(node) => AssembleFault::Body {
            name,
            cause: GridFault::TimeLimit(node),
        },
        StreamFault::NotAligned(axis) => AssembleFault::Align { name, axis },
        StreamFault::Memory => AssembleFault::Memory,
    }
}

// Makes the times of a key of those that were read, or answers the first node whose time is then past its limit.
#[tactic(auto, unfolding(crate::specs::Rows::times_for))]
fn convert_for(control: &Control, key: &GridKey, times: &mut [u32]) -> Option<u32>
    requires control { IsControl control.now }
    requires key { IsConvertible (values_of control.now) key.now }
    requires few { length times.old < 2 ^ 32 }
    requires times { All (λ time. time ≤ GREATEST_TIME) times.old }
    ensures { Converts (times_for (values_of control.now) key.now times.old) times.new result }
{
    if key.converted {
        convert(ratio(control), times)
    } else {
        None
    }
}

// The ratio of the velocities in millionths, where it is above 0.
fn ratio(control: &Control) -> u64
    requires some { pos 0 <ℤ control.now.vpvs }
    requires limit { control.now.vpvs ≤ℤ pos 10000000 }
    ensures value { result ≡ unsigned_abs control.now.vpvs }
    ensures limit { result ≤ 10000000 }
{
    control.vpvs.unsigned_abs()
}

// Multiplies times by a ratio in millionths, or answers the first node whose time is then past its limit.
fn convert(ratio: u64, times: &mut [u32]) -> Option<u32>
    requires ratio { ratio ≤ 10000000 }
    requires few { length times.old < 2 ^ 32 }
    requires times { All (λ time. time ≤ GREATEST_TIME) times.old }
    ensures { Converts (map (by_ratio ratio) times.old) times.new result }
{
    for node in 0..times.len() {
        let time = (u64::from(times[node]) * ratio + 500_000) / 1_000_000;
        if time > GREATEST_TIME {
            return Some(node as u32);
        }
        times[node] = time as u32;
    }
    None
}
