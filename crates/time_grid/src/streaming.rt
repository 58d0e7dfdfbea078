//! Bodies that are streamed straight to the search nodes.
ghost use Rattle.std.specs.Prelude.{◌≡◌, [], ◌+◌, ◌*◌, ◌≤◌, All, None, Some, length, IfSome, OnSome, OnOk, IsErrOf};
ghost use Rattle.edt_outside.specs.Counts.{RisesExactly};
ghost use Rattle.grid_header.specs.Reading.{IsValidHeader};
ghost use Rattle.node_boxes.specs.declared.limits.TheConstants.{GREATEST_TIME};
ghost use Rattle.node_boxes.specs.Frame.{IsValidFrame};
ghost use Rattle.node_boxes.specs.Grid.{node_count};
ghost use Rattle.time_grid.specs.Alignment.{first_unaligned_axis, search_times, time_grid_size};
ghost use Rattle.time_grid.specs.Numbers.{body_times};
ghost use Rattle.time_grid.specs.StreamFaults.{StreamsBody, stream_absent, stream_failed};

use crate::body::read_body;
use crate::faults::{Axis, StreamFault};
use crate::grids::node_total;
use crate::numbers::ByteOrder;
use crate::selections::Selection;
use edt_outside::Shelf;
use grid_header::Header;
use node_boxes::Frame;

/// Puts the times of the nodes of a search grid into `into`, in grid order, from the body of this name, in whatever pieces the shelf
/// gives it: each time is that of the node of the time grid with the same coordinates. The buffer, of at least 4 bytes, holds a piece of
/// the body at a time, and `into` has one place per search node. After a refusal nothing is said of either.
///
/// Refuses with `Absent` where there is no such file and with `Failed` where a call of the shelf failed, as they are met; with `Short`
/// where the file ends before 4 bytes per node of the time grid, and `Long` where a byte follows them; then with `TimeLimit` and the
/// first node of the time grid whose time passes 2,000,000,000 microseconds; then with `NotAligned` and the first axis, in the order X,
/// Y, Z, on which some search node has the coordinate of no node of the time grid; and with `Memory` where the shelf had no memory to
/// open the file. At most `4 * nodes + 2` calls of the shelf are made, also where the body has no end.
pub fn stream_times<S: Shelf>(
    shelf: &mut S,
    name: &str,
    header: &Header,
    order: ByteOrder,
    frame: &Frame,
    buffer: &mut [u8],
    into: &mut [u32],
) -> Result<(), StreamFault>
    requires header { IsValidHeader header.now }
    requires frame { IsValidFrame frame.now }
    requires room { 4 ≤ length buffer.old }
    requires places { length into.old ≡ node_count frame.now.grid }
    ensures same_files { S.files shelf.new ≡ S.files shelf.old }
    ensures told { IfSome (S.files shelf.old) (λ file. StreamsBody order (node_count (time_grid_size header.now))
        (λ bytes. into.new ≡ search_times header.now frame.now (body_times order bytes (node_count (time_grid_size header.now)))) (file name.now) result) }
    ensures aligned { OnOk result (first_unaligned_axis header.now frame.now ≡ None) }
    ensures axis { (axis : Axis) → IsErrOf result (StreamFault.NotAligned axis)
        → first_unaligned_axis header.now frame.now ≡ Some axis }
    ensures one_a_node { length into.new ≡ node_count frame.now.grid }
    ensures limit { OnOk result (All (λ time. time ≤ GREATEST_TIME) into.new) }
    ensures ended { OnSome (S.files shelf.old) (OnOk result (S.left shelf.new ≡ Some [])) }
    ensures faults { RisesExactly (stream_failed result) (S.faults shelf.old) (S.faults shelf.new) }
    ensures misses { RisesExactly (stream_absent result) (S.misses shelf.old) (S.misses shelf.new) }
    ensures lacks { S.lacks shelf.new ≡ S.lacks shelf.old }
    ensures calls_stay { S.calls shelf.old ≤ S.calls shelf.new }
    ensures calls { S.calls shelf.new ≤ S.calls shelf.old + 4 * node_count (time_grid_size header.now) + 2 }
{
    let nodes = node_total(header);
    match Selection::of_search_nodes(header, frame) {
        Ok(selection) => Ok(read_body(shelf, name, order, nodes, selection, buffer, into)?),
        Err(axis) => {
            let none = Selection::none();
            read_body(shelf, name, order, nodes, none, buffer, &mut [])?;
            Err(StreamFault::NotAligned(axis))
        }
    }
}
