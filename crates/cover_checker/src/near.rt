//! The printed near list against the marks of a cover.

ghost use Rattle.std.specs.Prelude.{◌≡◌, ◌<◌, ◌≤◌, length, option_map};
ghost use Rattle.cover_checker.specs.declared.verdict.Verdict.TheVariants.{NearWrong};
ghost use Rattle.cover_checker.specs.Findings.{first_difference};
ghost use Rattle.cover_checker.specs.Inside.Walks.{has_entry, near_bound, near_walk};

use crate::verdict::Verdict;
use node_boxes::BoxBound;

/// The first place at which the printed list differs from the near nodes of the marked boxes.
pub(crate) fn near_fault(
    near: &[(u32, u64)],
    boxes: &[BoxBound],
    least: u64,
    marks: &[u32],
) -> Option<Verdict>
    requires few { length marks.now ≤ 2000000 }
    ensures { result ≡ option_map NearWrong (first_difference 0 near.now (near_walk boxes.now least 0 marks.now)) }
{
    let mut at = 0;
    for node in 0..marks.len() {
        let Some(bound) = near_bound(boxes, least, marks[node]) else {
            continue;
        };
        if !has_entry(near, at, node as u32, bound) {
            return Some(Verdict::NearWrong(at as u32));
        }
        at += 1;
    }
    if at < near.len() {
        return Some(Verdict::NearWrong(at as u32));
    }
    None
}

/// The printed bound of the box of a mark, where the box is single and reaches the threshold.
fn near_bound(boxes: &[BoxBound], least: u64, mark: u32) -> Option<u64>
    ensures { result ≡ near_bound boxes.now least mark }
{
    if mark == 0 {
        return None;
    }
    let b = boxes.get(mark as usize - 1)?;
    if b.area.is_single() && least <= b.bound {
        return Some(b.bound);
    }
    None
}

/// Whether the printed list has the entry of a node at a place.
fn has_entry(near: &[(u32, u64)], place: usize, node: u32, bound: u64) -> bool
    ensures { result ≡ has_entry near.now place (node, bound) }
{
    let Some(entry) = near.get(place) else {
        return false;
    };
    entry.0 == node && entry.1 == bound
}
