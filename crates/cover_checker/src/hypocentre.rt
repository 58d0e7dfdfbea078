//! The printed hypocentre.

ghost use Rattle.std.specs.Prelude.{◌≡◌, ◌+◌, ◌^◌, ◌<◌, ◌≤◌, All, length};
ghost use Rattle.kernel_table.specs.Falloff.{AnswersItsShape};
ghost use Rattle.node_boxes.specs.declared.node_box.NodeBox.{NodeBox};
ghost use Rattle.node_boxes.specs.Boxes.{IsIn};
ghost use Rattle.node_boxes.specs.Grid.{node_count};
ghost use Rattle.node_boxes.specs.GridOrder.{node_number};
ghost use Rattle.edt_score.specs.Judging.{node_box};
ghost use Rattle.edt_score.specs.PairTerms.{pairs_of};
ghost use Rattle.cover_certificate.specs.Blocks.{located_value};
ghost use Rattle.cover_checker.specs.Findings.{wrong_score};
ghost use Rattle.cover_checker.specs.Inside.Cases.{case_falloff, case_grid, case_picks, case_scoring};
ghost use Rattle.cover_checker.specs.Inside.Walks.{beats, first_beating};

use crate::bound_room::BoundRoom;
use crate::box_bounds::box_bound;
use crate::case::Case;
use crate::verdict::Verdict;
use cover_certificate::LocatedBlock;
use edt_score::Look;
use node_boxes::{BoxBound, Grid, NodeBox};

/// Whether the printed hypocentre isn't a node or hasn't the printed score. Each pick's time is looked up
/// at most once.
#[tactic(auto, unfolding(crate::specs::Findings::wrong_score))]
pub(crate) fn score_fault<F: Fn(u64, u64) -> u64, L: Look>(
    case: &Case<F>,
    look: &mut L,
    room: &mut BoundRoom,
    event: &LocatedBlock,
) -> Option<Verdict>
    requires answers { AnswersItsShape F.Fn (case_falloff case.now) }
    requires picks { L.picks look.old ≡ length (case_picks case.now) }
    requires nodes { L.nodes look.old ≡ node_count (case_grid case.now) }
    requires pairs { room.old ≡ pairs_of (case_picks case.now) }
    requires looks { L.count look.old + length (case_picks case.now) < 2 ^ 64 }
    ensures value { result ≡ wrong_score (case_scoring case.now (L.times look.old)) (located_value event.now) }
    ensures same_picks { L.picks look.new ≡ L.picks look.old }
    ensures same_nodes { L.nodes look.new ≡ L.nodes look.old }
    ensures same_times { L.times look.new ≡ L.times look.old }
    ensures looked { L.count look.new ≤ L.count look.old + length (case_picks case.now) }
    ensures pairs { room.new ≡ room.old }
{
    if event.hyp >= case.grid.nodes() {
        return Some(Verdict::WrongScore(event.hyp));
    }
    let area = single_box(case.grid, event.hyp);
    if box_bound(case, look, room, &area) != event.score {
        return Some(Verdict::WrongScore(event.hyp));
    }
    None
}

/// The box of one node.
fn single_box(grid: &Grid, node: u32) -> NodeBox
    requires { node < node_count grid.now }
    ensures { result ≡ node_box grid.now node }
{
    let _nodes = grid.nodes();
    let (x, y, z) = grid.place(node);
    NodeBox {
        x0: x,
        x1: x + 1,
        y0: y,
        y1: y + 1,
        z0: z,
        z1: z + 1,
    }
}

/// The first single box whose printed bound beats the printed score, or has it at an earlier node.
pub(crate) fn first_better(grid: &Grid, event: &LocatedBlock) -> Option<Verdict>
    requires inside { All (λ b. IsIn grid.now b.area) event.now.cover.items }
    ensures { result ≡ first_beating grid.now (located_value event.now) }
{
    for b in &event.cover {
        if b.area.is_single()
            && beats(
                event,
                grid.node_number(b.area.x0, b.area.y0, b.area.z0),
                b.bound,
            )
        {
            return Some(Verdict::NotFirst(grid.node_number(b.area.x0, b.area.y0, b.area.z0)));
        }
    }
    None
}

/// Whether a node with this score comes before the printed hypocentre.
fn beats(event: &LocatedBlock, node: u32, score: u64) -> bool
    ensures { result ≡ beats (located_value event.now) node score }
{
    event.score < score || score == event.score && node < event.hyp
}
