//! The ends of the picks over the children of a box, eight at a time.

ghost use Rattle.std.specs.Prelude.{◌≡◌, ℕ, ◌<◌, ◌≤◌, ◌-ℤ◌, All, length, slice_index_or, unsigned_abs};
ghost use Rattle.minmax_pyramid.specs.Families.{IsFamilyOf};
ghost use Rattle.edt_score.specs.Inside.Families.{AreEnds, AreFamilyEnds, IsClose, no_span};
ghost use Rattle.edt_score.specs.Inside.Ends.{ends_within};
ghost use Rattle.edt_score.specs.Inside.Pairs.{IsReadable};
ghost use Rattle.edt_score.specs.Inside.UsedRows.{AreRowsOf};
ghost use Rattle.edt_score.specs.Inside.Lanes.{lane};

use crate::ends::{Ends, ends_within};
use crate::field::Field;
use crate::problem::ProblemPick;
use crate::used_rows::UsedRows;
use minmax_pyramid::Family;

/// Writes the ends of each pick over the children of a family. Each row that the
/// picks use is asked once for its spans.
pub(crate) fn fill_family(
    field: &Field,
    picks: &[ProblemPick],
    used: &UsedRows,
    family: &Family,
    start: i64,
    spans: &mut [[(u32, u32); 8]],
    ends: &mut [[Ends; 8]],
)
    requires family { IsFamilyOf field.now.roots family.now }
    requires picks { All (IsReadable field.now start) picks.now }
    requires used { AreRowsOf picks.now used.now.rows.items used.now.places.items }
    requires room_for_spans { length spans.old ≡ length used.now.rows.items }
    requires room_for_ends { length ends.old ≡ length picks.now }
    ensures room_for_spans { length spans.new ≡ length spans.old }
    ensures room_for_ends { length ends.new ≡ length ends.old }
    ensures ends { AreFamilyEnds field.now start picks.now family.now.parent ends.new }
{
    field.fill_spans(&used.rows, family, spans);
    fill_ends(picks, &used.places, spans, start, ends);
}

/// Writes the ends of each pick over eight boxes, from the spans of the rows that the picks use.
fn fill_ends(
    picks: &[ProblemPick],
    places: &[usize],
    spans: &[[(u32, u32); 8]],
    start: i64,
    ends: &mut [[Ends; 8]],
)
    requires close { All (IsClose start) picks.now }
    requires places { length places.now ≡ length picks.now }
    requires within { All (λ place. place < length spans.now) places.now }
    requires room { length ends.old ≡ length picks.now }
    ensures room { length ends.new ≡ length picks.now }
    ensures ends { AreEnds (length picks.now) start picks.now places.now spans.now ends.new }
{
    for (i, pick) in picks.iter().enumerate() {
        ends[i] = eight_ends(pick.time, start, &spans[places[i]]);
    }
}

/// The ends of a pick over eight boxes.
fn eight_ends(observed: i64, start: i64, spans: &[(u32, u32); 8]) -> [Ends; 8]
    requires close { unsigned_abs (observed -ℤ start) ≤ 2200000000000 }
    ensures { (k : ℕ) → k < 8
        → lane k result ≡ ends_within start observed (slice_index_or spans.now k no_span) }
{
    let mut ends = [Ends::ZERO; 8];
    for k in 0..8 {
        ends[k] = ends_within(observed, start, spans[k]);
    }
    ends
}
