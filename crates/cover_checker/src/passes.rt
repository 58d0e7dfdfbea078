//! The printed bounds of a cover whose boxes lie in the grid.

ghost use Rattle.std.specs.Prelude.{◌≡◌, ◌+◌, ◌*◌, ◌^◌, ◌<◌, ◌≤◌, All, length};
ghost use Rattle.kernel_table.specs.Falloff.{AnswersItsShape};
ghost use Rattle.node_boxes.specs.Boxes.{IsIn};
ghost use Rattle.node_boxes.specs.Grid.{node_count};
ghost use Rattle.edt_score.specs.PairTerms.{pairs_of};
ghost use Rattle.cover_checker.specs.Findings.{not_closed, not_zero, wrong_bound};
ghost use Rattle.cover_checker.specs.Inside.Cases.{case_falloff, case_grid, case_picks, case_scoring};
ghost use Rattle.cover_checker.specs.Inside.Walks.{nodes_in};

use crate::bound_room::BoundRoom;
use crate::box_bounds::box_bound;
use crate::case::Case;
use crate::verdict::Verdict;
use edt_score::Look;
use node_boxes::BoxBound;

/// The first box whose printed bound isn't its bound.
#[tactic(auto, unfolding(crate::specs::Findings::wrong_bound))]
pub(crate) fn first_wrong<F: Fn(u64, u64) -> u64, L: Look>(
    case: &Case<F>,
    look: &mut L,
    room: &mut BoundRoom,
    boxes: &[BoxBound],
) -> Option<Verdict>
    requires few { length boxes.now ≤ 2000000 }
    requires inside { All (λ b. IsIn (case_grid case.now) b.area) boxes.now }
    requires answers { AnswersItsShape F.Fn (case_falloff case.now) }
    requires picks { L.picks look.old ≡ length (case_picks case.now) }
    requires nodes { L.nodes look.old ≡ node_count (case_grid case.now) }
    requires pairs { room.old ≡ pairs_of (case_picks case.now) }
    requires looks { let nodes = nodes_in (case_grid case.now) boxes.now in
        L.count look.old + length (case_picks case.now) * nodes < 2 ^ 64 }
    ensures value { result ≡ wrong_bound (case_scoring case.now (L.times look.old)) boxes.now }
    ensures same_picks { L.picks look.new ≡ L.picks look.old }
    ensures same_nodes { L.nodes look.new ≡ L.nodes look.old }
    ensures same_times { L.times look.new ≡ L.times look.old }
    ensures looked { let nodes = nodes_in (case_grid case.now) boxes.now in
        L.count look.new ≤ L.count look.old + length (case_picks case.now) * nodes }
    ensures pairs { room.new ≡ room.old }
{
    for (i, b) in boxes.iter().enumerate() {
        if box_bound(case, look, room, &b.area) != b.bound {
            return Some(Verdict::WrongBound(i as u32));
        }
    }
    None
}

/// The first box of several nodes whose printed bound reaches a threshold.
#[tactic(auto, unfolding(crate::specs::Findings::not_closed))]
pub(crate) fn first_open(boxes: &[BoxBound], least: u64) -> Option<Verdict>
    requires few { length boxes.now ≤ 2000000 }
    ensures { result ≡ not_closed least boxes.now }
{
    for (i, b) in boxes.iter().enumerate() {
        if !b.area.is_single() && least <= b.bound {
            return Some(Verdict::NotClosed(i as u32));
        }
    }
    None
}

/// The first box with a printed bound above 0.
#[tactic(auto, unfolding(crate::specs::Findings::not_zero))]
pub(crate) fn first_positive(boxes: &[BoxBound]) -> Option<Verdict>
    requires few { length boxes.now ≤ 2000000 }
    ensures { result ≡ not_zero boxes.now }
{
    for (i, b) in boxes.iter().enumerate() {
        if 0 < b.bound {
            return Some(Verdict::NotClosed(i as u32));
        }
    }
    None
}
