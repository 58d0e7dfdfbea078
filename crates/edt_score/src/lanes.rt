//! The sums over all pairs of picks for eight boxes side by side.

ghost use Rattle.std.specs.Prelude.{◌≡◌, ◌+◌, ◌*◌, ◌^◌, ◌≤◌, length, slice_index};
ghost use Rattle.edt_score.specs.Inside.Ends.{ends_value};
ghost use Rattle.edt_score.specs.Inside.Lanes.{EachAtMost, EachIs, lane, lane_row, lane_total};
ghost use Rattle.edt_score.specs.Inside.Pairs.{pair_count};

use crate::ends::Ends;
use crate::pairs::Pair;
use crate::totals::term;
use crate::values::Values;

/// What all pairs of ends are worth, for each of eight boxes.
pub(crate) fn table_totals<V: Values>(values: &V, ends: &[[Ends; 8]], pairs: &[Pair]) -> [u64; 8]
    requires few { length ends.now ≤ 256 }
    requires lengths { length pairs.now ≡ pair_count (length ends.now) }
    requires ready { V.Values.ready values.now }
    ensures { EachIs (lane_total (V.Values.shape values.now) ends.now pairs.now) result }
{
    let mut sums = [0; 8];
    let mut rest = ends;
    let mut left = pairs;
    while let Some((first, others)) = rest.split_first() {
        let (row, later) = left.split_at(others.len());
        add_row(values, first, others, row, &mut sums);
        rest = others;
        left = later;
    }
    sums
}

/// Adds what the ends of a pick are worth with those of each of the others.
fn add_row<V: Values>(
    values: &V,
    first: &[Ends; 8],
    others: &[[Ends; 8]],
    pairs: &[Pair],
    sums: &mut [u64; 8],
)
    requires few { length others.now ≤ 256 }
    requires lengths { length pairs.now ≡ length others.now }
    requires ready { V.Values.ready values.now }
    requires room { EachAtMost (λ k. 9 * 10 ^ 18) sums.old }
    ensures value { let shape = V.Values.shape values.now in
        EachIs (λ k. slice_index sums.old k + lane_row shape first.now others.now pairs.now k) sums.new }
    ensures bound { let most = length others.now * 274877906944000 in
        EachAtMost (λ k. slice_index sums.old k + most) sums.new }
{
    for (i, other) in others.iter().enumerate() {
        add_pair(values, first, other, &pairs[i], sums);
    }
}

/// Adds what the ends of two picks are worth.
fn add_pair<V: Values>(
    values: &V,
    first: &[Ends; 8],
    other: &[Ends; 8],
    pair: &Pair,
    sums: &mut [u64; 8],
)
    requires ready { V.Values.ready values.now }
    requires room { EachAtMost (λ k. 10 ^ 19) sums.old }
    ensures value { let value = ends_value (V.Values.shape values.now) in
        EachIs (λ k. slice_index sums.old k + value (lane k first.now) (lane k other.now) pair.now) sums.new }
    ensures bound { EachAtMost (λ k. slice_index sums.old k + 274877906944000) sums.new }
{
    for k in 0..8 {
        sums[k] += term(values, &first[k], &other[k], pair);
    }
}
