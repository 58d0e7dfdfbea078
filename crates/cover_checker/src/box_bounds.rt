//! The bound of a box, from the travel times at all its nodes.

ghost use Rattle.std.specs.Prelude.{◌≡◌, ◌∷◌, ◌+◌, ◌*◌, ◌^◌, ◌<◌, ◌≤◌, All, length, map};
ghost use Rattle.kernel_table.specs.Falloff.{AnswersItsShape};
ghost use Rattle.minmax_pyramid.specs.Spans.{greatest, least, span_over};
ghost use Rattle.node_boxes.specs.Boxes.{IsIn};
ghost use Rattle.node_boxes.specs.BoxNodes.{box_nodes};
ghost use Rattle.node_boxes.specs.Grid.{node_count};
ghost use Rattle.edt_score.specs.Bound.{IsTimeSpan};
ghost use Rattle.cover_checker.specs.Inside.Walks.{AreSpansOf};
ghost use Rattle.edt_score.specs.PairTerms.{pairs_of};
ghost use Rattle.cover_checker.specs.Inside.Cases.{case_falloff, case_grid, case_picks, case_scoring};

use crate::bound_room::BoundRoom;
use crate::case::Case;
use edt_score::{KeptPairs, Look};
use node_boxes::{Grid, NodeBox};

/// The bound of a box that lies in the grid. Each pick's time at each node of the box counts as one look-up.
pub(crate) fn box_bound<F: Fn(u64, u64) -> u64, L: Look>(
    case: &Case<F>,
    look: &mut L,
    room: &mut BoundRoom,
    area: &NodeBox,
) -> u64
    requires inside { IsIn (case_grid case.now) area.now }
    requires answers { AnswersItsShape F.Fn (case_falloff case.now) }
    requires picks { L.picks look.old ≡ length (case_picks case.now) }
    requires nodes { L.nodes look.old ≡ node_count (case_grid case.now) }
    requires pairs { room.old ≡ pairs_of (case_picks case.now) }
    requires looks { let nodes = box_nodes (case_grid case.now) area.now in
        L.count look.old + length (case_picks case.now) * length nodes < 2 ^ 64 }
    ensures value { result ≡ (case_scoring case.now (L.times look.old)).bound area.now }
    ensures same_picks { L.picks look.new ≡ L.picks look.old }
    ensures same_nodes { L.nodes look.new ≡ L.nodes look.old }
    ensures same_times { L.times look.new ≡ L.times look.old }
    ensures looked { let nodes = box_nodes (case_grid case.now) area.now in
        L.count look.new ≡ L.count look.old + length (case_picks case.now) * length nodes }
    ensures pairs { room.new ≡ room.old }
{
    bound_in(case, look, area, &mut room.spans, &mut room.pairs)
}

/// The same in room for the spans of 256 picks.
fn bound_in<F: Fn(u64, u64) -> u64, L: Look>(
    case: &Case<F>,
    look: &mut L,
    area: &NodeBox,
    room: &mut [(u32, u32)],
    pairs: &mut KeptPairs,
) -> u64
    requires inside { IsIn (case_grid case.now) area.now }
    requires answers { AnswersItsShape F.Fn (case_falloff case.now) }
    requires picks { L.picks look.old ≡ length (case_picks case.now) }
    requires nodes { L.nodes look.old ≡ node_count (case_grid case.now) }
    requires room { length room.old ≡ 256 }
    requires pairs { pairs.old ≡ pairs_of (case_picks case.now) }
    requires looks { let nodes = box_nodes (case_grid case.now) area.now in
        L.count look.old + length (case_picks case.now) * length nodes < 2 ^ 64 }
    ensures value { result ≡ (case_scoring case.now (L.times look.old)).bound area.now }
    ensures same_picks { L.picks look.new ≡ L.picks look.old }
    ensures same_nodes { L.nodes look.new ≡ L.nodes look.old }
    ensures same_times { L.times look.new ≡ L.times look.old }
    ensures looked { let nodes = box_nodes (case_grid case.now) area.now in
        L.count look.new ≡ L.count look.old + length (case_picks case.now) * length nodes }
    ensures room { length room.new ≡ 256 }
    ensures pairs { pairs.new ≡ pairs.old }
{
    let spans = &mut room[..case.picks.len()];
    fill_spans(case.grid, look, area, spans);
    pairs.bound(case.falloff, case.picks, spans)
}

/// Writes the span of each pick over a box.
fn fill_spans<L: Look>(grid: &Grid, look: &mut L, area: &NodeBox, spans: &mut [(u32, u32)])
    requires inside { IsIn grid.now area.now }
    requires picks { L.picks look.old ≡ length spans.old }
    requires few { length spans.old ≤ 256 }
    requires nodes { L.nodes look.old ≡ node_count grid.now }
    requires looks { L.count look.old + length spans.old * length (box_nodes grid.now area.now) < 2 ^ 64 }
    ensures spans { AreSpansOf (L.times look.old) (box_nodes grid.now area.now) (length spans.new) spans.new }
    ensures times { All IsTimeSpan spans.new }
    ensures room { length spans.new ≡ length spans.old }
    ensures same_picks { L.picks look.new ≡ L.picks look.old }
    ensures same_nodes { L.nodes look.new ≡ L.nodes look.old }
    ensures same_times { L.times look.new ≡ L.times look.old }
    ensures looked { L.count look.new
        ≡ L.count look.old + length spans.old * length (box_nodes grid.now area.now) }
{
    for i in 0..spans.len() {
        spans[i] = look.span(i as u32, grid, area);
    }
}
