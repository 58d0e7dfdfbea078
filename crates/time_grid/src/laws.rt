//! Laws of the definitions.
ghost use Rattle.std.specs.Prelude.{◌≡◌, ℕ, ◌<◌, None};
ghost use Rattle.grid_header.specs.declared.header.Header.{Header};
ghost use Rattle.node_boxes.specs.declared.frame.Frame.{Frame};
ghost use Rattle.node_boxes.specs.Grid.{node_count};
ghost use Rattle.time_grid.specs.Alignment.{HasSameCoordinates, first_unaligned_axis, time_node};

/// Where no axis is unaligned, each search node has a node of the time grid, at the same coordinates on all three axes.
pub fn same_coordinates()
    ensures { (header : Header) (frame : Frame) (node : ℕ) → first_unaligned_axis header frame ≡ None
        → node < node_count frame.grid
        → HasSameCoordinates header frame node (time_node header frame node) }
{}
