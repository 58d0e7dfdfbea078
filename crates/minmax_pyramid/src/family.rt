//! A box with its children and the way to it, found once for all rows.
ghost use Rattle.std.specs.Prelude.{◌≡◌, ◌<◌, ◌≤◌, length, take, slice_get, Some, IfSome};
ghost use Rattle.std.specs.List.{AllByRecursion};
ghost use Rattle.node_boxes.specs.declared.node_box.NodeBox.{NodeBox};
ghost use Rattle.node_boxes.specs.Boxes.{IsIn, IsNonempty, IsSplittable};
ghost use Rattle.node_boxes.specs.Grid.{GridSize};
ghost use Rattle.node_boxes.specs.Children.{children_of};
ghost use Rattle.minmax_pyramid.specs.Families.{FamilyWay, IsChildAt, IsFamilyOf};
ghost use Rattle.minmax_pyramid.specs.Inside.FamilyParts.{IsWayTo, family_way};

use node_boxes::NodeBox;
use std::marker::Model;

/// Boxes below a root are at most this many steps down, since an axis has at most 4096 nodes.
const MOST_STEPS: usize = 16;

/// The children of one box of an octree, with the way down to them. A way that was found once serves
/// each row of times.
#[derive(Drop)]
pub struct Family {
    root: usize,
    len: usize,
    places: [u8; 16],
    parent: NodeBox,
    children: [NodeBox; 8],
    count: usize,
}

impl Model for Family {
    ghost use Rattle.std.specs.Prelude.{◌≤◌, take};
    ghost use Rattle.minmax_pyramid.specs.Families.{FamilyWay};
    ghost use Rattle.minmax_pyramid.specs.Inside.FamilyParts.{KeepsChildren};

    ghost Value = { FamilyWay };

    ghost view = { λ f. record { root = f.root; places = take f.len f.places; parent = f.parent } };

    ghost invariant = { λ f. (f.len ≤ 16) × KeepsChildren f.parent f.children f.count };
}

/// The way down from a root to a box that can be split.
#[derive(Clone, Copy)]
struct Way {
    root: usize,
    len: usize,
    places: [u8; 16],
    parent: NodeBox,
}

impl Family {
    /// The box whose children the family is.
    pub fn parent(&self) -> NodeBox
        ensures value { result ≡ self.now.parent }
        ensures split { IsSplittable self.now.parent }
    {
        self.parent
    }

    /// The children, in their order.
    pub fn children(&self) -> &[NodeBox]
        ensures { result.now ≡ children_of self.now.parent }
    {
        &self.children[..self.count]
    }

    /// The place of a box among the children, below 8. `None` only where it isn't found there.
    pub fn place_of(&self, area: &NodeBox) -> Option<usize>
        ensures at { IfSome result (λ place. IsChildAt self.now.parent place area.now) }
        ensures few { IfSome result (λ place. place < 8) }
    {
        let place = guess(&self.parent, area);
        let child = self.children().get(place)?;
        if *child == *area && place < 8 {
            Some(place)
        } else {
            None
        }
    }

    /// The number of the root above the family.
    pub(crate) fn root(&self) -> usize
        ensures { result ≡ self.now.root }
    {
        self.root
    }

    /// The places of the children on the way down from the root to the parent.
    pub(crate) fn places(&self) -> &[u8]
        ensures { result.now ≡ self.now.places }
    {
        &self.places[..self.len]
    }

    /// The family of the boxes below a parent.
    fn of(way: &Way) -> Family
        requires split { IsSplittable way.now.parent }
        requires few { way.now.len ≤ 16 }
        ensures { result ≡ family_way way.now }
    {
        let kids = way.parent.children();
        let mut children = [way.parent; 8];
        for place in 0..kids.len() {
            let Some(child) = kids.get(place) else {
                break;
            };
            children[place] = child;
        }
        Family {
            root: way.root,
            len: way.len,
            places: way.places,
            parent: way.parent,
            children,
            count: kids.len(),
        }
    }
}

/// The family that a box below a root belongs to. `None` only where it isn't found there, as the root itself.
pub(crate) fn find_family(roots: &[NodeBox], root: usize, area: &NodeBox) -> Option<Family>
    requires below { root < length roots.now }
    requires some { AllByRecursion IsNonempty roots.now }
    ensures { IfSome result (λ family. IsFamilyOf roots.now family) }
{
    let way = find_way(roots, root, area)?;
    Some(Family::of(&way))
}

/// The way down from a root to the parent of a box.
fn find_way(roots: &[NodeBox], root: usize, area: &NodeBox) -> Option<Way>
    requires below { root < length roots.now }
    requires some { AllByRecursion IsNonempty roots.now }
    ensures { IfSome result (λ way. IsWayTo roots.now way) }
{
    let mut places = [0u8; MOST_STEPS];
    let mut here = roots[root];
    for len in 0..MOST_STEPS {
        if here.is_single() {
            return None;
        }
        let (place, child) = step(&here, area)?;
        if child == *area {
            return Some(Way {
                root,
                len,
                places,
                parent: here,
            });
        }
        places[len] = place as u8;
        here = child;
    }
    None
}

/// The child that holds the first node of a box below, and its place. `None` only where it isn't found.
fn step(parent: &NodeBox, area: &NodeBox) -> Option<(usize, NodeBox)>
    requires { IsSplittable parent.now }
    ensures at { IfSome result (λ found. IsChildAt parent.now found.0 found.1) }
    ensures few { IfSome result (λ found. found.0 < 8) }
{
    let place = guess(parent, area);
    if 8 <= place {
        return None;
    }
    let child = parent.children().get(place)?;
    Some((place, child))
}

/// The place of the child that holds the first node of a box below. Whoever asks tests it.
fn guess(parent: &NodeBox, area: &NodeBox) -> usize {
    let mut place = usize::from(is_upper(parent.x0, parent.x1, area.x0));
    if 1 < parent.y1.wrapping_sub(parent.y0) {
        place = place
            .wrapping_mul(2)
            .wrapping_add(usize::from(is_upper(parent.y0, parent.y1, area.y0)));
    }
    if 1 < parent.z1.wrapping_sub(parent.z0) {
        place = place
            .wrapping_mul(2)
            .wrapping_add(usize::from(is_upper(parent.z0, parent.z1, area.z0)));
    }
    place
}

/// Whether a place lies in the second half of a range.
fn is_upper(low: u32, high: u32, place: u32) -> bool {
    low.wrapping_add(high.wrapping_sub(low).div_ceil(2)) <= place
}
