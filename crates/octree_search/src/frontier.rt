//! What is known in the course of a search.
ghost use Rattle.std.specs.Prelude.{◌≡◌, ℕ, ◌+◌, ◌^◌, ◌<◌, ◌≤◌, [], ◌∷◌, ◌++◌, length, map, All, IfOk, OnOk};
ghost use Rattle.std.specs.List.Sorted.{IsPermutation};
ghost use Rattle.node_boxes.specs.Boxes.{IsSplittable};
ghost use Rattle.node_boxes.specs.Children.{children_of};
ghost use Rattle.node_boxes.specs.Octree.{IsOctreeBox};
ghost use Rattle.octree_search.specs.Arena.{IsOpened, fresh};
ghost use Rattle.octree_search.specs.Inside.Meeting.{best_after, best_with, wait_of, waits};

use crate::arena::{Met, open_at};
use crate::nearness::threshold;
use crate::queue::{Queue, Waiting};
use edt_score::Judge;
use node_boxes::NodeBox;
use std::alloc::{AllocError, Global};

/// The boxes that were met, those of them that wait to be opened, and the best score that a single box told so far.
#[derive(Drop)]
pub(crate) struct Frontier {
    pub met: Vec<Met>,
    pub queue: Queue,
    pub best: u64,
}

impl Frontier {
    /// No box was met yet; there is room for so many.
    pub fn new(alloc: Global, room: usize) -> Result<Frontier, AllocError>
        ensures met { IfOk result (λ f. f.met.items ≡ []) }
        ensures queue { IfOk result (λ f. f.queue ≡ []) }
        ensures best { IfOk result (λ f. f.best ≡ 0) }
    {
        Ok(Frontier {
            met: Vec::with_capacity(alloc, room)?,
            queue: Queue::new(alloc),
            best: 0,
        })
    }

    /// Meets a box: asks for its bound, and lets it wait unless it is single, which tells its score, or below the threshold.
    fn meet<J: Judge>(
        &mut self,
        judge: &mut J,
        margin: u32,
        area: &NodeBox,
    ) -> Result<(), AllocError>
        requires margin { margin ≤ 999 }
        requires few { length self.old.met.items + 1 < 2 ^ 32 }
        requires ready { J.ready judge.old }
        requires tree { IsOctreeBox (J.roots judge.old) area.now }
        requires room { J.count judge.old + 1 < 2 ^ 64 }
        // the judge
        ensures still { J.ready judge.new }
        ensures same_grid { J.grid judge.new ≡ J.grid judge.old }
        ensures same_roots { J.roots judge.new ≡ J.roots judge.old }
        ensures same_bounds { J.bound_of judge.new ≡ J.bound_of judge.old }
        ensures asked { J.count judge.new ≡ J.count judge.old + 1 }
        // what is known
        ensures met { OnOk result
            (self.new.met.items ≡ self.old.met.items ++ fresh (J.bound_of judge.old) area.now ∷ []) }
        ensures best { OnOk result (self.new.best ≡ best_with (J.bound_of judge.old) self.old.best area.now) }
        ensures queue { OnOk result (IsPermutation
            (wait_of margin (J.bound_of judge.old) self.old.best (length self.old.met.items) area.now ++ self.old.queue)
            self.new.queue) }
    {
        let bound = judge.bound(area);
        let place = self.met.len() as u32;
        self.met.push(Met {
            area: *area,
            bound,
            first_child: None,
        })?;
        if area.is_single() {
            self.best = self.best.max(bound);
            return Ok(());
        }
        if bound < threshold(margin, self.best) {
            return Ok(());
        }
        self.queue.push(Waiting {
            bound,
            place,
            area: *area,
        })
    }

    /// Meets boxes one after another.
    pub fn meet_all<J: Judge>(
        &mut self,
        judge: &mut J,
        margin: u32,
        areas: &[NodeBox],
    ) -> Result<(), AllocError>
        requires margin { margin ≤ 999 }
        requires few { length self.old.met.items + length areas.now < 2 ^ 32 }
        requires ready { J.ready judge.old }
        requires tree { All (IsOctreeBox (J.roots judge.old)) areas.now }
        requires room { J.count judge.old + length areas.now < 2 ^ 64 }
        // the judge
        ensures still { J.ready judge.new }
        ensures same_grid { J.grid judge.new ≡ J.grid judge.old }
        ensures same_roots { J.roots judge.new ≡ J.roots judge.old }
        ensures same_bounds { J.bound_of judge.new ≡ J.bound_of judge.old }
        ensures most { J.count judge.new ≤ J.count judge.old + length areas.now }
        ensures asked { OnOk result (J.count judge.new ≡ J.count judge.old + length areas.now) }
        // what is known
        ensures met { OnOk result
            (self.new.met.items ≡ self.old.met.items ++ map (fresh (J.bound_of judge.old)) areas.now) }
        ensures best { OnOk result (self.new.best ≡ best_after (J.bound_of judge.old) self.old.best areas.now) }
        ensures queue { OnOk result (IsPermutation
            (waits margin (J.bound_of judge.old) self.old.best (length self.old.met.items) areas.now ++ self.old.queue)
            self.new.queue) }
    {
        for area in areas {
            self.meet(judge, margin, area)?;
        }
        Ok(())
    }

    /// Opens a box that waited: meets its children, and links it to them.
    pub fn open<J: Judge>(
        &mut self,
        judge: &mut J,
        margin: u32,
        top: &Waiting,
    ) -> Result<(), AllocError>
        requires margin { margin ≤ 999 }
        requires several { IsSplittable top.now.area }
        requires place { top.now.place < length self.old.met.items }
        requires few { length self.old.met.items + length (children_of top.now.area) < 2 ^ 32 }
        requires ready { J.ready judge.old }
        requires tree { IsOctreeBox (J.roots judge.old) top.now.area }
        requires room { J.count judge.old + length (children_of top.now.area) < 2 ^ 64 }
        // the judge
        ensures still { J.ready judge.new }
        ensures same_grid { J.grid judge.new ≡ J.grid judge.old }
        ensures same_roots { J.roots judge.new ≡ J.roots judge.old }
        ensures same_bounds { J.bound_of judge.new ≡ J.bound_of judge.old }
        ensures most { J.count judge.new ≤ J.count judge.old + length (children_of top.now.area) }
        ensures asked { OnOk result (J.count judge.new ≡ J.count judge.old + length (children_of top.now.area)) }
        // what is known
        ensures met { OnOk result (IsOpened
            (self.old.met.items ++ map (fresh (J.bound_of judge.old)) (children_of top.now.area))
            top.now.place (length self.old.met.items) self.new.met.items) }
        ensures best { OnOk result
            (self.new.best ≡ best_after (J.bound_of judge.old) self.old.best (children_of top.now.area)) }
        ensures queue { OnOk result (IsPermutation
            (waits margin (J.bound_of judge.old) self.old.best (length self.old.met.items) (children_of top.now.area)
            ++ self.old.queue)
            self.new.queue) }
    {
        let first_child = self.met.len() as u32;
        let (room, count) = top.area.children().list();
        self.meet_all(judge, margin, &room[..count])?;
        open_at(&mut self.met, top.place, first_child);
        Ok(())
    }
}
