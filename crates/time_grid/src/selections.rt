//! Nodes of a time grid that are taken.
ghost use Rattle.std.specs.Prelude.{◌≡◌, ℕ, ◌<◌, ◌≤◌, true, false, None, Some, IfOk, IfErr};
ghost use Rattle.grid_header.specs.Reading.{IsValidHeader};
ghost use Rattle.node_boxes.specs.Frame.{IsValidFrame};
ghost use Rattle.node_boxes.specs.Grid.{IsGrid, node_count};
ghost use Rattle.time_grid.specs.Alignment.{axis_of, first_unaligned_axis, time_grid_size, time_node};
ghost use Rattle.time_grid.specs.Axes.{is_aligned};
ghost use Rattle.time_grid.specs.Inside.Steps.{ArePlaces};
ghost use Rattle.time_grid.specs.Inside.Selections.{IsSelection, selected_node, selection_size};
ghost use Rattle.time_grid.specs.declared.faults.Axis.TheVariants.{X, Y, Z};

use crate::axes::{AxisPair, Places};
use crate::faults::Axis;
use grid_header::Header;
use node_boxes::{Frame, Grid};

/// Nodes of a time grid, one for each place of a grid of `x` by `y` by `z`: the place (ix, iy, iz) has the node
/// `start + ix * x_step + iy * y_step + iz * z_step`. Their numbers rise in grid order.
#[derive(Clone, Copy)]
pub(crate) struct Selection {
    pub x: usize,
    pub y: usize,
    pub z: usize,
    pub start: usize,
    pub x_step: usize,
    pub y_step: usize,
    pub z_step: usize,
}

impl Selection {
    /// No node.
    pub fn none() -> Selection
        ensures selection { (nodes : ℕ) → IsSelection nodes result }
        ensures size { node_count (selection_size result) ≡ 0 }
    {
        Selection {
            x: 0,
            y: 1,
            z: 1,
            start: 0,
            x_step: 0,
            y_step: 0,
            z_step: 0,
        }
    }

    /// Every node.
    pub fn whole(header: &Header) -> Selection
        requires { IsValidHeader header.now }
        ensures selection { IsSelection (node_count (time_grid_size header.now)) result }
        ensures size { selection_size result ≡ time_grid_size header.now }
        ensures nodes { (k : ℕ) → k < node_count (time_grid_size header.now) → selected_node result k ≡ k }
    {
        let row = header.z as usize;
        Selection {
            x: header.x as usize,
            y: header.y as usize,
            z: row,
            start: 0,
            x_step: header.y as usize * row,
            y_step: row,
            z_step: 1,
        }
    }

    /// The nodes with the coordinates of the search nodes. Refuses with the first axis on which some search node has the coordinate of
    /// no node.
    #[tactic(auto, unfolding(crate::specs::Alignment::first_unaligned_axis))]
    pub fn of_search_nodes(header: &Header, frame: &Frame) -> Result<Selection, Axis>
        requires header { IsValidHeader header.now }
        requires frame { IsValidFrame frame.now }
        ensures axis { IfErr result (λ axis. first_unaligned_axis header.now frame.now ≡ Some axis) }
        ensures aligned { IfOk result (λ _. first_unaligned_axis header.now frame.now ≡ None) }
        ensures selection { IfOk result (IsSelection (node_count (time_grid_size header.now))) }
        ensures size { IfOk result (λ selection. selection_size selection ≡ frame.now.grid) }
        ensures nodes { IfOk result (λ selection. (k : ℕ) → k < node_count frame.now.grid
            → selected_node selection k ≡ time_node header.now frame.now k) }
    {
        let x = axis_places(header, frame, Axis::X)?;
        let y = axis_places(header, frame, Axis::Y)?;
        let z = axis_places(header, frame, Axis::Z)?;
        Ok(Selection::at_places(header, frame, x, y, z))
    }

    // The nodes at these places on the three axes.
    fn at_places(header: &Header, frame: &Frame, x: Places, y: Places, z: Places) -> Selection
        requires header { IsValidHeader header.now }
        requires x { ArePlaces (axis_of header.now frame.now X) x }
        requires y { ArePlaces (axis_of header.now frame.now Y) y }
        requires z { ArePlaces (axis_of header.now frame.now Z) z }
        ensures selection { IsSelection (node_count (time_grid_size header.now)) result }
        ensures size { selection_size result ≡ frame.now.grid }
        ensures nodes { (k : ℕ) → k < node_count frame.now.grid
            → selected_node result k ≡ time_node header.now frame.now k }
    {
        let row = header.z as usize;
        let plane = header.y as usize * row;
        Selection {
            x: frame.grid.x() as usize,
            y: frame.grid.y() as usize,
            z: frame.grid.z() as usize,
            start: x.first * plane + y.first * row + z.first,
            x_step: x.stride * plane,
            y_step: y.stride * row,
            z_step: z.stride,
        }
    }
}

// The places of the search nodes on an axis, or that axis where one of them is at no node of the time grid.
fn axis_places(header: &Header, frame: &Frame, axis: Axis) -> Result<Places, Axis>
    requires header { IsValidHeader header.now }
    requires frame { IsValidFrame frame.now }
    ensures some { IfOk result (ArePlaces (axis_of header.now frame.now axis)) }
    ensures aligned { IfOk result (λ _. is_aligned (axis_of header.now frame.now axis) ≡ true) }
    ensures axis { IfErr result (λ off. off ≡ axis) }
    ensures none { IfErr result (λ _. is_aligned (axis_of header.now frame.now axis) ≡ false) }
{
    match AxisPair::new(header, frame, axis).places() {
        Some(places) => Ok(places),
        None => Err(axis),
    }
}
