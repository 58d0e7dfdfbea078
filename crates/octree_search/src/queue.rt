//! The boxes that wait to be opened.
ghost use Rattle.std.specs.Prelude.{◌≡◌, ◌≤◌, [], ◌∷◌, All, IfNone, IfSome, OnErr, OnOk};
ghost use Rattle.std.specs.List.Sorted.{IsPermutation};

use node_boxes::NodeBox;
use std::alloc::{AllocError, Global};
use std::collections::BinaryHeap;
use std::marker::Model;

/// A box that waits, by its bound first.
#[derive(Clone, Copy, PartialEq, Eq, PartialOrd, Ord, Debug)]
pub struct Waiting {
    /// Its bound.
    pub bound: u64,
    /// Its place among the boxes that were met.
    pub place: u32,
    /// The box.
    pub area: NodeBox,
}

/// The boxes that wait, of which the one with the greatest bound comes first.
#[derive(Drop)]
pub(crate) struct Queue {
    heap: BinaryHeap<Waiting>,
}

impl Model for Queue {
    ghost use Rattle.std.specs.Prelude.{List};
    ghost use Rattle.std.specs.BinaryHeap.{IsHeap, heap_items};
    ghost use Rattle.octree_search.specs.declared.queue.Waiting.{Waiting};

    ghost Value = { List Waiting };

    ghost view = { λ q. heap_items q.heap };

    ghost invariant = { λ q. IsHeap ⟦<Waiting as Ord>⟧.cmp (heap_items q.heap) };
}

impl Queue {
    /// A queue where nothing waits.
    pub fn new(alloc: Global) -> Queue
        ensures { result ≡ [] }
    {
        Queue {
            heap: BinaryHeap::new(alloc),
        }
    }

    /// Puts one more box into the queue. Out of memory it stays as it was.
    pub fn push(&mut self, item: Waiting) -> Result<(), AllocError>
        ensures ok { OnOk result (IsPermutation (item ∷ self.old) self.new) }
        ensures err { OnErr result (self.new ≡ self.old) }
    {
        self.heap.push(item)?;
        Ok(())
    }

    /// Takes a box with the greatest bound, or `None` where none waits.
    pub fn pop(&mut self) -> Option<Waiting>
        ensures some { IfSome result (λ top. IsPermutation self.old (top ∷ self.new)) }
        ensures greatest { IfSome result (λ top. All (λ w. w.bound ≤ top.bound) self.new) }
        ensures none { IfNone result (self.old ≡ []) }
    {
        self.heap.pop()
    }
}
