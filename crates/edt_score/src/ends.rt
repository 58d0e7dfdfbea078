//! Where each pick stands at a node or over a box, as numbers that are never negative.

ghost use Rattle.std.specs.Prelude.{◌≡◌, ◌<◌, ◌≤◌, ◌-ℤ◌, All, length, map, unsigned_abs};
ghost use Rattle.node_boxes.specs.Grid.{node_count};
ghost use Rattle.node_boxes.specs.Octree.{IsOctreeBox};
ghost use Rattle.edt_score.specs.Field.{time_at};
ghost use Rattle.edt_score.specs.Inside.Ends.{end_of, ends_gap, ends_of, ends_within, point};
ghost use Rattle.edt_score.specs.BoxBound.{box_spans};
ghost use Rattle.edt_score.specs.Inside.Pairs.{IsReadable};

use crate::field::Field;
use crate::problem::ProblemPick;
use node_boxes::NodeBox;

/// What is added to each end: 2^42 microseconds, more than any end is below 0.
const LIFT: i64 = 4_398_046_511_104;

/// The observed time of a pick, counted from a start and lifted, less the greatest and less the
/// least travel time. All are in microseconds.
#[derive(Clone, Copy)]
pub(crate) struct Ends {
    pub(crate) low: u64,
    pub(crate) high: u64,
}

impl Ends {
    /// Room for ends that are written later.
    pub(crate) const ZERO: Ends = Ends { low: 0, high: 0 };

    /// How far two picks are apart at least, for every choice of their travel times.
    pub(crate) fn gap(&self, other: &Ends) -> u64
        ensures { result ≡ ends_gap self.now other.now }
    {
        // one of the two is 0, since neither pick's ends are out of order
        self.low.saturating_sub(other.high) | other.low.saturating_sub(self.high)
    }
}

/// The ends of a pick with this observed time and this span of travel times.
pub(crate) fn ends_within(observed: i64, start: i64, span: (u32, u32)) -> Ends
    requires { unsigned_abs (observed -ℤ start) ≤ 2200000000000 }
    ensures { result ≡ ends_within start observed span }
{
    let (least, greatest) = span;
    Ends {
        low: end(observed, start, greatest),
        high: end(observed, start, least),
    }
}

/// An observed time, counted from `start` and lifted, less a travel time.
fn end(observed: i64, start: i64, travel: u32) -> u64
    requires { unsigned_abs (observed -ℤ start) ≤ 2200000000000 }
    ensures { result ≡ end_of start observed travel }
{
    (observed - start - i64::from(travel) + LIFT).unsigned_abs()
}

/// Writes the ends of each pick at a node.
pub(crate) fn fill_points(
    field: &Field,
    picks: &[ProblemPick],
    node: u32,
    start: i64,
    ends: &mut [Ends],
)
    requires node { node < node_count field.now.grid }
    requires picks { All (IsReadable field.now start) picks.now }
    requires lengths { length ends.old ≡ length picks.now }
    ensures { ends.new ≡ map (ends_of start (point (time_at field.now) node)) picks.now }
{
    for (i, pick) in picks.iter().enumerate() {
        ends[i] = ends_at(field, pick, node, start);
    }
}

/// The ends of a pick at a node.
fn ends_at(field: &Field, pick: &ProblemPick, node: u32, start: i64) -> Ends
    requires node { node < node_count field.now.grid }
    requires pick { IsReadable field.now start pick.now }
    ensures { result ≡ ends_of start (point (time_at field.now) node) pick.now }
{
    let time = field.time(pick.row, node);
    ends_within(pick.time, start, (time, time))
}

/// Writes the ends of each pick over an octree box.
pub(crate) fn fill_box(
    field: &Field,
    picks: &[ProblemPick],
    area: &NodeBox,
    start: i64,
    ends: &mut [Ends],
)
    requires tree { IsOctreeBox field.now.roots area.now }
    requires picks { All (IsReadable field.now start) picks.now }
    requires lengths { length ends.old ≡ length picks.now }
    ensures { ends.new ≡ map (ends_of start (box_spans field.now area.now)) picks.now }
{
    for (i, pick) in picks.iter().enumerate() {
        ends[i] = ends_over(field, pick, area, start);
    }
}

/// The ends of a pick over an octree box.
fn ends_over(field: &Field, pick: &ProblemPick, area: &NodeBox, start: i64) -> Ends
    requires tree { IsOctreeBox field.now.roots area.now }
    requires pick { IsReadable field.now start pick.now }
    ensures { result ≡ ends_of start (box_spans field.now area.now) pick.now }
{
    ends_within(pick.time, start, field.span(pick.row, area))
}
