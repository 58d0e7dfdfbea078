//! The children of a box: each axis of more than one node is halved.
ghost use Rattle.std.specs.Prelude.{◌≡◌, ◌<◌, ◌≤◌, ◌-◌, length, slice_get, take};
ghost use Rattle.node_boxes.specs.Boxes.{IsSplittable};
ghost use Rattle.node_boxes.specs.Children.{children_of, halves};

use crate::node_box::NodeBox;
use std::marker::Model;

/// The children of a box: in the order of the x parts, then y, then z, with z fastest.
#[derive(Drop)]
pub struct Children {
    area: NodeBox,
}

impl Model for Children {
    ghost use Rattle.std.specs.Prelude.{List};
    ghost use Rattle.node_boxes.specs.declared.node_box.NodeBox.{NodeBox};
    ghost use Rattle.node_boxes.specs.Boxes.{IsSplittable};
    ghost use Rattle.node_boxes.specs.Children.{children_of};

    ghost Value = { List NodeBox };

    ghost view = { λ c. children_of c.area };

    ghost invariant = { λ c. IsSplittable c.area };
}

impl Children {
    /// The children of a box that can be split.
    pub(crate) fn of(area: NodeBox) -> Children
        requires { IsSplittable area }
        ensures { result ≡ children_of area }
    {
        Children { area }
    }

    /// How many children there are: 2 to 8.
    pub fn len(&self) -> usize
        ensures value { result ≡ length self.now }
        ensures from { 2 ≤ result }
        ensures to { result ≤ 8 }
    {
        let area = &self.area;
        half_count(area.x0, area.x1) * half_count(area.y0, area.y1) * half_count(area.z0, area.z1)
    }

    /// The child at a place, from 0. `None` exactly past the end.
    pub fn get(&self, place: usize) -> Option<NodeBox>
        ensures { result ≡ slice_get self.now place }
    {
        let area = &self.area;
        let ny = half_count(area.y0, area.y1);
        let nz = half_count(area.z0, area.z1);
        let rest = place % (ny * nz);
        let (x0, x1) = half(area.x0, area.x1, place / (ny * nz))?;
        let (y0, y1) = half(area.y0, area.y1, rest / nz)?;
        let (z0, z1) = half(area.z0, area.z1, rest % nz)?;
        Some(NodeBox {
            x0,
            x1,
            y0,
            y1,
            z0,
            z1,
        })
    }

    /// Lists the children from the start of a room of 8 boxes, and answers it and how many they are.
    pub fn list(&self) -> ([NodeBox; 8], usize)
        ensures count { result.1 ≡ length self.now }
        ensures few { result.1 ≤ 8 }
        ensures value { take result.1 result.0 ≡ self.now }
    {
        let mut room = [NO_BOX; 8];
        let count = self.len();
        for place in 0..count {
            room[place] = self.get(place).unwrap_or(NO_BOX);
        }
        (room, count)
    }
}

/// What stands in a room past the children of a box.
const NO_BOX: NodeBox = NodeBox {
    x0: 0,
    x1: 0,
    y0: 0,
    y1: 0,
    z0: 0,
    z1: 0,
};

/// How many halves a range has.
fn half_count(low: u32, high: u32) -> usize
    requires { low < high }
    ensures value { result ≡ length (halves low high) }
    ensures from { 1 ≤ result }
    ensures to { result ≤ 2 }
{
    if high - low == 1 { 1 } else { 2 }
}

/// The half of a range at a place.
fn half(low: u32, high: u32, place: usize) -> Option<(u32, u32)>
    requires { low < high }
    ensures { result ≡ slice_get (halves low high) place }
{
    if high - low == 1 {
        return if place == 0 { Some((low, high)) } else { None };
    }
    let middle = low + (high - low).div_ceil(2);
    match place {
        0 => Some((low, middle)),
        1 => Some((middle, high)),
        _ => None,
    }
}
