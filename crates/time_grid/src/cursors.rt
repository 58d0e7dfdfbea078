//! A walk over the nodes that are taken, as their numbers pass by.
ghost use Rattle.std.specs.Prelude.{◌≡◌, ℕ, ◌+◌, ◌/◌, ◌^◌, ◌<◌, ◌≤◌, length, slice_index};
ghost use Rattle.node_boxes.specs.Grid.{node_count};
ghost use Rattle.time_grid.specs.Inside.Cursors.{IsAhead, IsCursor, IsTaken};
ghost use Rattle.time_grid.specs.Inside.Selections.{IsSelection, selected_node, selection_size};

use crate::numbers::{ByteOrder, number_at};
use crate::selections::Selection;

/// The next place of a selection, and its node.
#[derive(Clone, Copy)]
pub(crate) struct Cursor {
    selection: Selection,
    // How many places lie before it.
    done: usize,
    ix: usize,
    iy: usize,
    iz: usize,
    // The nodes of the places (ix, 0, 0), (ix, iy, 0) and (ix, iy, iz).
    plane: usize,
    row: usize,
    node: usize,
}

impl Cursor {
    /// The first place of a selection.
    pub fn new(selection: Selection) -> Cursor
        ensures cursor { (nodes : ℕ) → IsSelection nodes selection → IsCursor nodes result }
        ensures selection { result.selection ≡ selection }
        ensures done { result.done ≡ 0 }
    {
        Cursor {
            selection,
            done: 0,
            ix: 0,
            iy: 0,
            iz: 0,
            plane: selection.start,
            row: selection.start,
            node: selection.start,
        }
    }

    /// The node of the place.
    pub fn node(&self) -> usize
        requires cursor { (nodes : ℕ) × IsCursor nodes self.now }
        requires left { self.now.done < node_count (selection_size self.now.selection) }
        ensures { result ≡ selected_node self.now.selection self.now.done }
    {
        self.node
    }

    /// Goes to the next place.
    pub fn advance(&mut self)
        requires cursor { (nodes : ℕ) × (nodes ≤ 16000000) × IsCursor nodes self.old }
        requires left { self.old.done < node_count (selection_size self.old.selection) }
        ensures cursor { (nodes : ℕ) → IsCursor nodes self.old → IsCursor nodes self.new }
        ensures selection { self.new.selection ≡ self.old.selection }
        ensures done { self.new.done ≡ self.old.done + 1 }
        ensures rises { self.new.ix < self.new.selection.x → self.old.node < self.new.node }
    {
        self.done += 1;
        self.iz += 1;
        if self.iz < self.selection.z {
            self.node += self.selection.z_step;
            return;
        }
        self.iz = 0;
        self.iy += 1;
        if self.iy < self.selection.y {
            self.row += self.selection.y_step;
            self.node = self.row;
            return;
        }
        self.iy = 0;
        self.ix += 1;
        self.plane += self.selection.x_step;
        self.row = self.plane;
        self.node = self.plane;
    }

    /// Takes from a piece, whose first number is that of node `first`, the numbers of the places that are left and whose nodes are in
    /// it, each into its place of `into`.
    pub fn take(&mut self, order: ByteOrder, first: usize, piece: &[u8], into: &mut [u32])
        requires cursor { (nodes : ℕ) × (nodes ≤ 16000000) × IsCursor nodes self.old }
        requires places { length into.old ≡ node_count (selection_size self.old.selection) }
        requires ahead { IsAhead first self.old }
        requires room { first + length piece.now / 4 < 2 ^ 64 }
        ensures cursor { (nodes : ℕ) → IsCursor nodes self.old → IsCursor nodes self.new }
        ensures selection { self.new.selection ≡ self.old.selection }
        ensures ahead { IsAhead (first + length piece.now / 4) self.new }
        ensures on { self.old.done ≤ self.new.done }
        ensures kept { (k : ℕ) → k < self.old.done → slice_index into.new k ≡ slice_index into.old k }
        ensures taken { (k : ℕ) → self.old.done ≤ k → k < self.new.done
            → IsTaken order first piece.now (selected_node self.old.selection k) (slice_index into.new k) }
    {
        let end = first + piece.len() / 4;
        while self.done < into.len() && self.node < end {
            into[self.done] = number_at(order, piece, self.node - first);
            self.advance();
        }
    }
}
