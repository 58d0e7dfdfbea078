//! All the memory that a check takes.

ghost use Rattle.std.specs.Prelude.{◌≡◌, IfOk};
ghost use Rattle.node_boxes.specs.Grid.{node_count};

use crate::bound_room::BoundRoom;
use node_boxes::Grid;
use std::alloc::{AllocError, Global};
use std::marker::Model;

/// A mark for each node of a grid, and room for the bounds of any valid problem. It is seen as the
/// number of the nodes. One `Marks` serves one check after another: each clears it first.
#[derive(Drop)]
pub struct Marks {
    pub(crate) places: Vec<u32>,
    pub(crate) room: BoundRoom,
}

impl Model for Marks {
    ghost use Rattle.std.specs.Prelude.{ℕ, length};

    ghost Value = { ℕ };

    ghost view = { λ marks. length marks.places.items };
}

impl Marks {
    /// Marks of the nodes of this grid. Running out of memory is the only refusal.
    pub fn new(alloc: Global, grid: &Grid) -> Result<Marks, AllocError>
        ensures { IfOk result (λ marks. marks ≡ node_count grid.now) }
    {
        Ok(Marks {
            places: vec![in alloc; 0; grid.nodes() as usize]?,
            room: BoundRoom::new(alloc)?,
        })
    }
}
