//! A time grid that is held whole.
ghost use Rattle.std.specs.Prelude.{◌≡◌, ◌↔◌, [], ◌+◌, ◌*◌, ◌≤◌, All, None, Some, length, slice_get, IsNone, IfSome, OnSome, IfOk, OnOk, IsErrOf};
ghost use Rattle.edt_outside.specs.Counts.{RisesExactly};
ghost use Rattle.grid_header.specs.Reading.{IsValidHeader};
ghost use Rattle.node_boxes.specs.declared.limits.TheConstants.{GREATEST_TIME};
ghost use Rattle.node_boxes.specs.Frame.{IsValidFrame};
ghost use Rattle.node_boxes.specs.Grid.{node_count};
ghost use Rattle.time_grid.specs.Alignment.{first_unaligned_axis, search_times, time_grid_size};
ghost use Rattle.time_grid.specs.GridFaults.{ReadsBody, grid_absent, grid_failed};
ghost use Rattle.time_grid.specs.Numbers.{IsTime, body_times};
ghost use Rattle.time_grid.specs.Inside.Selections.{AreSelected, IsSelection, selection_size};
ghost use Rattle.time_grid.specs.TimeGrids.{IsTimeGrid};

use crate::body::read_body;
use crate::cursors::Cursor;
use crate::faults::{AlignFault, Axis, GridFault};
use crate::numbers::ByteOrder;
use crate::selections::Selection;
use edt_outside::Shelf;
use grid_header::Header;
use node_boxes::Frame;
use std::alloc::{AllocError, Global};
use std::marker::Model;

/// How many bytes of a body are asked for at once.
const PIECE: usize = 65536;

/// The header of a time grid, and the time of each of its nodes, in grid order, in microseconds and at most 2,000,000,000.
#[derive(Drop)]
pub struct TimeGrid {
    header: Header,
    times: Vec<u32>,
}

impl Model for TimeGrid {
    ghost use Rattle.time_grid.specs.TimeGrids.{HeldTimes, IsTimeGrid};

    ghost Value = { HeldTimes };

    ghost view = { λ grid. record { header = grid.header; times = grid.times.items } };

    ghost invariant = { λ grid. IsTimeGrid (record { header = grid.header; times = grid.times.items }) };
}

impl TimeGrid {
    /// Reads the body of this name, in whatever pieces the shelf gives it.
    ///
    /// Refuses with `Absent` where there is no such file and with `Failed` where a call of the shelf failed, as they are met; with
    /// `Short` where the file ends before 4 bytes per node, and `Long` where a byte follows them; then with `TimeLimit` and the first
    /// node whose time passes 2,000,000,000 microseconds; and with `Memory` where memory ran out. At most `4 * nodes + 2` calls of the
    /// shelf are made, also where the body has no end.
    pub fn read<S: Shelf>(
        alloc: Global,
        shelf: &mut S,
        name: &str,
        header: &Header,
        order: ByteOrder,
    ) -> Result<TimeGrid, GridFault>
        requires header { IsValidHeader header.now }
        ensures same_files { S.files shelf.new ≡ S.files shelf.old }
        ensures told { IfSome (S.files shelf.old) (λ file. ReadsBody order (node_count (time_grid_size header.now))
            (λ bytes grid. grid.times ≡ body_times order bytes (node_count (time_grid_size header.now))) (file name.now) result) }
        ensures header { IfOk result (λ grid. grid.header ≡ header.now) }
        ensures kept { IfOk result IsTimeGrid }
        ensures ended { OnSome (S.files shelf.old) (OnOk result (S.left shelf.new ≡ Some [])) }
        ensures faults { RisesExactly (grid_failed result) (S.faults shelf.old) (S.faults shelf.new) }
        ensures misses { RisesExactly (grid_absent result) (S.misses shelf.old) (S.misses shelf.new) }
        ensures lacks { S.lacks shelf.new ≡ S.lacks shelf.old }
        ensures calls_stay { S.calls shelf.old ≤ S.calls shelf.new }
        ensures calls { S.calls shelf.new ≤ S.calls shelf.old + 4 * node_count (time_grid_size header.now) + 2 }
    {
        let nodes = node_total(header);
        let mut times = vec![in alloc; 0; nodes]?;
        let mut buffer = vec![in alloc; 0; PIECE]?;
        let every = Selection::whole(header);
        match read_body(shelf, name, order, nodes, every, &mut buffer, &mut times) {
            Ok(()) => Ok(TimeGrid {
                header: *header,
                times,
            }),
            Err(fault) => Err(fault),
        }
    }

    /// The time of a node, or `None` exactly past the last node.
    pub fn at(&self, node: u32) -> Option<u32>
        ensures value { result ≡ slice_get self.now.times node }
        ensures limit { IfSome result (λ time. time ≤ GREATEST_TIME) }
        ensures end { IsNone result ↔ node_count (time_grid_size self.now.header) ≤ node }
    {
        self.times.get(node as usize).copied()
    }

    /// The times of the nodes of a search grid, in grid order: each is that of the node with the same coordinates.
    ///
    /// Refuses with `NotAligned` and the first axis, in the order X, Y, Z, on which some search node has the coordinate of no node, and
    /// with `Memory` where memory ran out.
    pub fn on_search_grid(&self, alloc: Global, frame: &Frame) -> Result<Vec<u32>, AlignFault>
        requires frame { IsValidFrame frame.now }
        ensures value { IfOk result (λ times. times.items ≡ search_times self.now.header frame.now self.now.times) }
        ensures aligned { IfOk result (λ _. first_unaligned_axis self.now.header frame.now ≡ None) }
        ensures axis { (axis : Axis) → IsErrOf result (AlignFault.NotAligned axis)
            → first_unaligned_axis self.now.header frame.now ≡ Some axis }
        ensures one_a_node { IfOk result (λ times. length times.items ≡ node_count frame.now.grid) }
        ensures limit { IfOk result (λ times. All (λ time. time ≤ GREATEST_TIME) times.items) }
    {
        match Selection::of_search_nodes(&self.header, frame) {
            Ok(selection) => Ok(selected_times(alloc, &self.times, selection)?),
            Err(axis) => Err(AlignFault::NotAligned(axis)),
        }
    }
}

/// How many nodes the time grid of a header has.
pub(crate) fn node_total(header: &Header) -> usize
    requires { IsValidHeader header.now }
    ensures value { result ≡ node_count (time_grid_size header.now) }
    ensures few { result ≤ 16000000 }
{
    header.x as usize * header.y as usize * header.z as usize
}

// The times of the selected nodes, in grid order.
fn selected_times(
    alloc: Global,
    times: &[u32],
    selection: Selection,
) -> Result<Vec<u32>, AllocError>
    requires selection { IsSelection (length times.now) selection }
    requires few { length times.now ≤ 16000000 }
    ensures one_a_node { IfOk result (λ taken. length taken.items ≡ node_count (selection_size selection)) }
    ensures value { IfOk result (λ taken. AreSelected times.now selection taken.items) }
{
    let count = selection.x * selection.y * selection.z;
    let mut cursor = Cursor::new(selection);
    let mut taken = Vec::with_capacity(alloc, count)?;
    for _ in 0..count {
        taken.push(times[cursor.node()])?;
        cursor.advance();
    }
    Ok(taken)
}
