//! Meeting boxes: a judge is asked for their bounds, and they wait. Room for them is made before.
ghost use Rattle.std.specs.Prelude.{◌≡◌, ◌+◌, ◌^◌, ◌<◌, ◌≤◌, [], ◌∷◌, ◌++◌, All, OnErr, OnOk, length, map, vec_capacity, vec_len};
ghost use Rattle.node_boxes.specs.Boxes.{IsSplittable};
ghost use Rattle.node_boxes.specs.Children.{children_of};
ghost use Rattle.node_boxes.specs.Octree.{IsOctreeBox};
ghost use Rattle.octree_search.specs.Arena.{IsOpened, fresh, waiting};
ghost use Rattle.search_lanes.specs.Inside.Slots.{waits_from};

use edt_score::Judge;
use node_boxes::NodeBox;
use octree_search::{Met, Waiting, open_at};
use std::alloc::AllocError;

/// Opens a box: meets its children, which go to the end of the open boxes, and links it to them. Out of memory nothing has changed, and
/// the judge wasn't asked.
pub(crate) fn open_box<J: Judge>(
    judge: &mut J,
    met: &mut Vec<Met>,
    boxes: &mut Vec<Waiting>,
    held: &Waiting,
) -> Result<(), AllocError>
    requires several { IsSplittable held.now.area }
    requires place { held.now.place < length met.old.items }
    requires few { length met.old.items + length (children_of held.now.area) < 2 ^ 32 }
    requires ready { J.ready judge.old }
    requires tree { IsOctreeBox (J.roots judge.old) held.now.area }
    requires room { J.count judge.old + length (children_of held.now.area) < 2 ^ 64 }
    // the judge
    ensures still { J.ready judge.new }
    ensures same_grid { J.grid judge.new ≡ J.grid judge.old }
    ensures same_roots { J.roots judge.new ≡ J.roots judge.old }
    ensures same_bounds { J.bound_of judge.new ≡ J.bound_of judge.old }
    ensures asked { OnOk result (J.count judge.new ≡ J.count judge.old + length (children_of held.now.area)) }
    ensures unasked { OnErr result (J.count judge.new ≡ J.count judge.old) }
    // the boxes
    ensures met { OnOk result (IsOpened
        (met.old.items ++ map (fresh (J.bound_of judge.old)) (children_of held.now.area))
        held.now.place (length met.old.items) met.new.items) }
    ensures boxes { OnOk result (boxes.new.items
        ≡ boxes.old.items ++ waits_from (J.bound_of judge.old) (length met.old.items) (children_of held.now.area)) }
    ensures met_refused { OnErr result (met.new.items ≡ met.old.items) }
    ensures boxes_refused { OnErr result (boxes.new.items ≡ boxes.old.items) }
{
    let (room, count) = held.area.children().list();
    met.reserve(count)?;
    boxes.reserve(count)?;
    let first_child = met.len() as u32;
    meet_all(judge, met, boxes, &room[..count]);
    open_at(met, held.place, first_child);
    Ok(())
}

/// Meets boxes one after another.
pub(crate) fn meet_all<J: Judge>(
    judge: &mut J,
    met: &mut Vec<Met>,
    boxes: &mut Vec<Waiting>,
    areas: &[NodeBox],
)
    requires met_room { vec_len met.old + length areas.now ≤ vec_capacity met.old }
    requires boxes_room { vec_len boxes.old + length areas.now ≤ vec_capacity boxes.old }
    requires few { length met.old.items + length areas.now < 2 ^ 32 }
    requires ready { J.ready judge.old }
    requires tree { All (IsOctreeBox (J.roots judge.old)) areas.now }
    requires room { J.count judge.old + length areas.now < 2 ^ 64 }
    // the judge
    ensures still { J.ready judge.new }
    ensures same_grid { J.grid judge.new ≡ J.grid judge.old }
    ensures same_roots { J.roots judge.new ≡ J.roots judge.old }
    ensures same_bounds { J.bound_of judge.new ≡ J.bound_of judge.old }
    ensures asked { J.count judge.new ≡ J.count judge.old + length areas.now }
    // the boxes
    ensures met { met.new.items ≡ met.old.items ++ map (fresh (J.bound_of judge.old)) areas.now }
    ensures boxes { boxes.new.items
        ≡ boxes.old.items ++ waits_from (J.bound_of judge.old) (length met.old.items) areas.now }
{
    for area in areas {
        meet(judge, met, boxes, area);
    }
}

// Meets a box: asks for its bound, and lets it wait.
fn meet<J: Judge>(judge: &mut J, met: &mut Vec<Met>, boxes: &mut Vec<Waiting>, area: &NodeBox)
    requires met_room { vec_len met.old + 1 ≤ vec_capacity met.old }
    requires boxes_room { vec_len boxes.old + 1 ≤ vec_capacity boxes.old }
    requires few { length met.old.items + 1 < 2 ^ 32 }
    requires ready { J.ready judge.old }
    requires tree { IsOctreeBox (J.roots judge.old) area.now }
    requires room { J.count judge.old + 1 < 2 ^ 64 }
    // the judge
    ensures still { J.ready judge.new }
    ensures same_grid { J.grid judge.new ≡ J.grid judge.old }
    ensures same_roots { J.roots judge.new ≡ J.roots judge.old }
    ensures same_bounds { J.bound_of judge.new ≡ J.bound_of judge.old }
    ensures asked { J.count judge.new ≡ J.count judge.old + 1 }
    // the boxes
    ensures met { met.new.items ≡ met.old.items ++ fresh (J.bound_of judge.old) area.now ∷ [] }
    ensures boxes { boxes.new.items
        ≡ boxes.old.items ++ waiting (J.bound_of judge.old) (length met.old.items) area.now ∷ [] }
    ensures met_room { vec_capacity met.old ≤ vec_capacity met.new }
    ensures boxes_room { vec_capacity boxes.old ≤ vec_capacity boxes.new }
{
    let bound = judge.bound(area);
    let place = met.len() as u32;
    put(
        met,
        Met {
            area: *area,
            bound,
            first_child: None,
        },
    );
    put(
        boxes,
        Waiting {
            bound,
            place,
            area: *area,
        },
    );
}

// Adds an item, for which there is room.
fn put<T: Drop>(items: &mut Vec<T>, item: T)
    requires { vec_len items.old + 1 ≤ vec_capacity items.old }
    ensures items { items.new.items ≡ items.old.items ++ item ∷ [] }
    ensures room { vec_capacity items.old ≤ vec_capacity items.new }
{
    let _ = items.push(item);
}
