//! The distance of a grid's source from the middle of the search grid.
ghost use Rattle.std.specs.Prelude.{◌≡◌, ◌≤◌, ◌^◌, ◌*◌, ◌-◌, ◌*ℤ◌, ◌-ℤ◌, ◌&&◌, nat_lt, int_lt, pos, unsigned_abs};
ghost use Rattle.control_reader.specs.ControlValues.{values_of};
ghost use Rattle.node_boxes.specs.Frame.{IsValidFrame};
ghost use Rattle.control_reader.specs.Limits.{IsControl};
ghost use Rattle.station_table.specs.Distances as spec;
ghost use Rattle.station_table.specs.Limits.{IsPlace};

use crate::keys::Place;
use control_reader::Control;
use node_boxes::Frame;

/// Whether the source of a grid is further from the middle of the search grid than the greatest distance, where that is above 0, or
/// nearer than the least one, where that is above 0.
#[tactic(auto, unfolding(crate::specs::Distances::is_too_far))]
pub(crate) fn is_too_far(control: &Control, source: &Place) -> bool
    requires control { IsControl control.now }
    requires source { IsPlace source.now }
    ensures { result ≡ spec.is_too_far (values_of control.now) source.now }
{
    match *source {
        Place::Absent => false,
        Place::At { x, y } => {
            let square = twice_distance_squared(&control.frame, x, y);
            is_past(control.max_dist, square) || is_short_of(control.min_dist, square)
        }
    }
}

// The square of twice a distance passes that of twice the greatest one, where that is above 0.
fn is_past(greatest: i64, square: u128) -> bool
    requires { unsigned_abs greatest ≤ 10 ^ 12 }
    ensures { result ≡ (int_lt (pos 0) greatest && nat_lt (4 * spec.square greatest) square) }
{
    greatest > 0 && square > twice_squared(greatest)
}

// The square of twice a distance is below that of twice the least one, where that is above 0.
fn is_short_of(least: i64, square: u128) -> bool
    requires { unsigned_abs least ≤ 10 ^ 12 }
    ensures { result ≡ (int_lt (pos 0) least && nat_lt square (4 * spec.square least)) }
{
    least > 0 && square < twice_squared(least)
}

// The square of twice a distance of at most 10^12 mm.
fn twice_squared(distance: i64) -> u128
    requires { unsigned_abs distance ≤ 10 ^ 12 }
    ensures { result ≡ 4 * spec.square distance }
{
    4 * square(distance)
}

// The square of twice the horizontal distance from the middle of the search grid.
#[tactic(auto, unfolding(crate::specs::Distances::twice_distance_squared))]
fn twice_distance_squared(frame: &Frame, x: i64, y: i64) -> u128
    requires frame { IsValidFrame frame.now }
    requires x { unsigned_abs x ≤ 10 ^ 10 }
    requires y { unsigned_abs y ≤ 10 ^ 10 }
    ensures { result ≡ spec.twice_distance_squared frame.now x y }
{
    let grid = frame.grid;
    square(twice_from_middle(frame.ox, frame.dx, grid.x(), x))
        + square(twice_from_middle(frame.oy, frame.dy, grid.y(), y))
}

// Twice the distance along an axis from its middle, which lies half-way between its first node and its last.
fn twice_from_middle(origin: i64, spacing: i64, nodes: u32, at: i64) -> i64
    requires origin { unsigned_abs origin ≤ 10 ^ 10 }
    requires spacing { unsigned_abs spacing ≤ 10 ^ 9 }
    requires some { 1 ≤ nodes }
    requires nodes { nodes ≤ 4096 }
    requires at { unsigned_abs at ≤ 10 ^ 10 }
    ensures value { result ≡ spec.twice_from_middle origin spacing nodes at }
    ensures limit { unsigned_abs result ≤ 10 ^ 13 }
{
    twice_offset(origin, at) - breadth(spacing, nodes)
}

// Twice the distance along an axis from its first node.
fn twice_offset(origin: i64, at: i64) -> i64
    requires origin { unsigned_abs origin ≤ 10 ^ 10 }
    requires at { unsigned_abs at ≤ 10 ^ 10 }
    ensures value { result ≡ (pos 2 *ℤ at) -ℤ (pos 2 *ℤ origin) }
    ensures limit { unsigned_abs result ≤ 4 * 10 ^ 10 }
{
    2 * at - 2 * origin
}

// The distance between the first node of an axis and its last.
fn breadth(spacing: i64, nodes: u32) -> i64
    requires spacing { unsigned_abs spacing ≤ 10 ^ 9 }
    requires some { 1 ≤ nodes }
    requires nodes { nodes ≤ 4096 }
    ensures value { result ≡ pos (nodes - 1) *ℤ spacing }
    ensures limit { unsigned_abs result ≤ 4095 * 10 ^ 9 }
{
    i64::from(nodes - 1) * spacing
}

// The square of a whole number of at most 10^13 in size.
fn square(n: i64) -> u128
    requires { unsigned_abs n ≤ 10 ^ 13 }
    ensures value { result ≡ spec.square n }
    ensures limit { result ≤ 10 ^ 26 }
{
    let size = u128::from(n.unsigned_abs());
    size * size
}
