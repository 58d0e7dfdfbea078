//! The check of a certificate against travel times that are looked up.

ghost use Rattle.std.specs.Prelude.{◌≡◌, ℕ, ◌+◌, ◌*◌, ◌^◌, ◌<◌, ◌≤◌, IfNone, IfSome, IsTrue, length};
ghost use Rattle.kernel_table.specs.Falloff.{AnswersItsShape, shape_of};
ghost use Rattle.node_boxes.specs.Grid.{node_count};
ghost use Rattle.edt_score.specs.Look.{numbered};
ghost use Rattle.edt_score.specs.PairTerms.{pairs_of};
ghost use Rattle.edt_score.specs.Problem.{AreSoundPicks};
ghost use Rattle.cover_certificate.specs.Blocks.{FitsNowhere, IsLocated, IsValidBlock, IsValidLocated, block_value, located_value};
ghost use Rattle.cover_checker.specs.Scorings.{scoring_of};
ghost use Rattle.cover_checker.specs.Verdicts.{is_early, verdict_of};
ghost use Rattle.cover_checker.specs.Inside.Cases.{case_falloff, case_grid, case_picks, case_scoring};
ghost use Rattle.cover_checker.specs.Inside.Marking.{IsMarked};
ghost use Rattle.cover_checker.specs.Inside.Walks.{cover_finding};

use crate::bound_room::BoundRoom;
use crate::case::Case;
use crate::hypocentre::{first_better, score_fault};
use crate::marks::Marks;
use crate::near::near_fault;
use crate::passes::{first_open, first_positive, first_wrong};
use crate::placing::{free_node, place_boxes};
use crate::verdict::Verdict;
use cover_certificate::{Block, LocatedBlock};
use edt_score::{Look, Problem};
use kernel_table::Falloff;
use node_boxes::{BoxBound, Grid};
use octree_search::threshold;

/// Checks a certificate against the travel times that a look-up tells for each pick at each node.
///
/// The rows of the problem's picks aren't used. The margin is in thousandths, at most 999. With P picks
/// and n nodes, at most P * (n + 1) times are looked up, and none where the verdict is `NoClaim`,
/// `Outside`, `Twice` or `Uncovered`. Takes no memory; what the marks held doesn't matter.
pub fn check_look<F: Fn(u64, u64) -> u64, L: Look>(
    problem: &Problem,
    falloff: &Falloff<F>,
    grid: &Grid,
    look: &mut L,
    margin: u32,
    block: &Block,
    marks: &mut Marks,
) -> Verdict
    requires problem { AreSoundPicks problem.now.picks.items }
    requires answers { AnswersItsShape F.Fn falloff.now }
    requires margin { margin ≤ 999 }
    requires block { IsValidBlock (block_value block.now) }
    requires marks { marks.old ≡ node_count grid.now }
    // the look-up
    requires picks { L.picks look.old ≡ length problem.now.picks.items }
    requires nodes { L.nodes look.old ≡ node_count grid.now }
    requires room { L.count look.old + length problem.now.picks.items * (node_count grid.now + 1) < 2 ^ 64 }
    // the verdict
    ensures value { let picks = numbered problem.now.picks.items in
        let scoring = scoring_of (shape_of falloff.now) grid.now (L.times look.old) picks in
        result ≡ verdict_of scoring margin (block_value block.now) }
    // what is left
    ensures marks { marks.new ≡ marks.old }
    ensures same_picks { L.picks look.new ≡ L.picks look.old }
    ensures same_nodes { L.nodes look.new ≡ L.nodes look.old }
    ensures same_times { L.times look.new ≡ L.times look.old }
    // how often it looks
    ensures looked { L.count look.new ≤ L.count look.old + length problem.now.picks.items * (node_count grid.now + 1) }
    ensures early { IsTrue (is_early result) → L.count look.new ≡ L.count look.old }
{
    let case = Case {
        picks: &problem.picks,
        falloff,
        grid,
    };
    check_block(
        &case,
        look,
        margin,
        block,
        &mut marks.places,
        &mut marks.room,
    )
}

/// The check with the marks of the nodes and the room apart.
#[tactic(auto, unfolding(crate::specs::Verdicts::verdict_of))]
fn check_block<F: Fn(u64, u64) -> u64, L: Look>(
    case: &Case<F>,
    look: &mut L,
    margin: u32,
    block: &Block,
    marks: &mut [u32],
    room: &mut BoundRoom,
) -> Verdict
    requires margin { margin ≤ 999 }
    requires block { IsValidBlock (block_value block.now) }
    requires answers { AnswersItsShape F.Fn (case_falloff case.now) }
    requires picks { L.picks look.old ≡ length (case_picks case.now) }
    requires nodes { L.nodes look.old ≡ node_count (case_grid case.now) }
    requires marks { length marks.old ≡ node_count (case_grid case.now) }
    requires room { let nodes = node_count (case_grid case.now) in
        L.count look.old + length (case_picks case.now) * (nodes + 1) < 2 ^ 64 }
    ensures value { let scoring = case_scoring case.now (L.times look.old) in
        result ≡ verdict_of scoring margin (block_value block.now) }
    ensures same_picks { L.picks look.new ≡ L.picks look.old }
    ensures same_nodes { L.nodes look.new ≡ L.nodes look.old }
    ensures same_times { L.times look.new ≡ L.times look.old }
    ensures kept { length marks.new ≡ length marks.old }
    ensures looked { let nodes = node_count (case_grid case.now) in
        L.count look.new ≤ L.count look.old + length (case_picks case.now) * (nodes + 1) }
    ensures early { IsTrue (is_early result) → L.count look.new ≡ L.count look.old }
{
    match block {
        Block::Located(event) => check_located(case, look, margin, event, marks, room),
        Block::NoFit(boxes) => check_no_fit(case, look, boxes, marks, room),
        _ => Verdict::NoClaim,
    }
}

/// The check of a located event.
fn check_located<F: Fn(u64, u64) -> u64, L: Look>(
    case: &Case<F>,
    look: &mut L,
    margin: u32,
    event: &LocatedBlock,
    marks: &mut [u32],
    room: &mut BoundRoom,
) -> Verdict
    requires margin { margin ≤ 999 }
    requires block { IsValidLocated (located_value event.now) }
    requires answers { AnswersItsShape F.Fn (case_falloff case.now) }
    requires picks { L.picks look.old ≡ length (case_picks case.now) }
    requires nodes { L.nodes look.old ≡ node_count (case_grid case.now) }
    requires marks { length marks.old ≡ node_count (case_grid case.now) }
    requires room { let nodes = node_count (case_grid case.now) in
        L.count look.old + length (case_picks case.now) * (nodes + 1) < 2 ^ 64 }
    ensures value { let scoring = case_scoring case.now (L.times look.old) in
        result ≡ verdict_of scoring margin (IsLocated (located_value event.now)) }
    ensures same_picks { L.picks look.new ≡ L.picks look.old }
    ensures same_nodes { L.nodes look.new ≡ L.nodes look.old }
    ensures same_times { L.times look.new ≡ L.times look.old }
    ensures kept { length marks.new ≡ length marks.old }
    ensures looked { let nodes = node_count (case_grid case.now) in
        L.count look.new ≤ L.count look.old + length (case_picks case.now) * (nodes + 1) }
    ensures early { IsTrue (is_early result) → L.count look.new ≡ L.count look.old }
{
    if let Some(verdict) = cover_fault(case, look, &event.cover, marks, room) {
        return verdict;
    }
    let least = threshold(margin, event.score);
    if let Some(verdict) = first_open(&event.cover, least) {
        return verdict;
    }
    if let Some(verdict) = score_fault(case, look, room, event) {
        return verdict;
    }
    if let Some(verdict) = first_better(case.grid, event) {
        return verdict;
    }
    let _nodes = case.grid.nodes();
    if let Some(verdict) = near_fault(&event.near, &event.cover, least, marks) {
        return verdict;
    }
    Verdict::Proved
}

/// The check of an event that fits nowhere.
fn check_no_fit<F: Fn(u64, u64) -> u64, L: Look>(
    case: &Case<F>,
    look: &mut L,
    boxes: &[BoxBound],
    marks: &mut [u32],
    room: &mut BoundRoom,
) -> Verdict
    requires few { length boxes.now ≤ 2000000 }
    requires answers { AnswersItsShape F.Fn (case_falloff case.now) }
    requires picks { L.picks look.old ≡ length (case_picks case.now) }
    requires nodes { L.nodes look.old ≡ node_count (case_grid case.now) }
    requires marks { length marks.old ≡ node_count (case_grid case.now) }
    requires room { let nodes = node_count (case_grid case.now) in
        L.count look.old + length (case_picks case.now) * (nodes + 1) < 2 ^ 64 }
    ensures value { (margin : ℕ) → let scoring = case_scoring case.now (L.times look.old) in
        result ≡ verdict_of scoring margin (FitsNowhere boxes.now) }
    ensures same_picks { L.picks look.new ≡ L.picks look.old }
    ensures same_nodes { L.nodes look.new ≡ L.nodes look.old }
    ensures same_times { L.times look.new ≡ L.times look.old }
    ensures kept { length marks.new ≡ length marks.old }
    ensures looked { let nodes = node_count (case_grid case.now) in
        L.count look.new ≤ L.count look.old + length (case_picks case.now) * (nodes + 1) }
    ensures early { IsTrue (is_early result) → L.count look.new ≡ L.count look.old }
{
    if let Some(verdict) = cover_fault(case, look, boxes, marks, room) {
        return verdict;
    }
    if let Some(verdict) = first_positive(boxes) {
        return verdict;
    }
    Verdict::Proved
}

/// What is wrong with where the boxes lie and with their bounds. Where nothing is, the nodes are marked.
fn cover_fault<F: Fn(u64, u64) -> u64, L: Look>(
    case: &Case<F>,
    look: &mut L,
    boxes: &[BoxBound],
    marks: &mut [u32],
    room: &mut BoundRoom,
) -> Option<Verdict>
    requires few { length boxes.now ≤ 2000000 }
    requires answers { AnswersItsShape F.Fn (case_falloff case.now) }
    requires picks { L.picks look.old ≡ length (case_picks case.now) }
    requires nodes { L.nodes look.old ≡ node_count (case_grid case.now) }
    requires marks { length marks.old ≡ node_count (case_grid case.now) }
    requires room { let nodes = node_count (case_grid case.now) in
        L.count look.old + length (case_picks case.now) * nodes < 2 ^ 64 }
    ensures value { result ≡ cover_finding (case_scoring case.now (L.times look.old)) boxes.now }
    ensures marked { IfNone result (IsMarked (case_grid case.now) boxes.now marks.new) }
    ensures pairs { IfNone result (room.new ≡ pairs_of (case_picks case.now)) }
    ensures same_picks { L.picks look.new ≡ L.picks look.old }
    ensures same_nodes { L.nodes look.new ≡ L.nodes look.old }
    ensures same_times { L.times look.new ≡ L.times look.old }
    ensures kept { length marks.new ≡ length marks.old }
    ensures looked { let nodes = node_count (case_grid case.now) in
        L.count look.new ≤ L.count look.old + length (case_picks case.now) * nodes }
    ensures early { IfSome result (λ verdict. IsTrue (is_early verdict) → L.count look.new ≡ L.count look.old) }
{
    if let Some(verdict) = place_boxes(case.grid, boxes, marks) {
        return Some(verdict);
    }
    if let Some(verdict) = free_node(case.grid, boxes, marks) {
        return Some(verdict);
    }
    room.keep(case.picks);
    first_wrong(case, look, room, boxes)
}
