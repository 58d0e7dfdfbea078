//! The sum over all pairs of picks, from their ends.

ghost use Rattle.std.specs.Prelude.{◌≡◌, ◌*◌, ◌≤◌, length};
ghost use Rattle.kernel_table.specs.Falloff.{AnswersItsShape, shape_of};
ghost use Rattle.edt_score.specs.Inside.Ends.{ends_value, row_total, table_total};
ghost use Rattle.edt_score.specs.Inside.Pairs.{pair_count};

use crate::ends::Ends;
use crate::pairs::Pair;
use crate::values::{ByReciprocal, Values};
use kernel_table::{Falloff, Shape};

/// What all pairs of ends are worth by a falloff. Which kernel it is is asked once.
pub(crate) fn falloff_total<F: Fn(u64, u64) -> u64>(
    falloff: &Falloff<F>,
    ends: &[Ends],
    pairs: &[Pair],
) -> u64
    requires few { length ends.now ≤ 256 }
    requires lengths { length pairs.now ≡ pair_count (length ends.now) }
    requires answers { AnswersItsShape F.Fn falloff.now }
    ensures value { result ≡ table_total (shape_of falloff.now) ends.now pairs.now }
    ensures bound { result ≤ length pairs.now * 274877906944000 }
{
    match falloff.shape() {
        Shape::Gauss => table_total(&ByReciprocal, ends, pairs),
        _ => table_total(falloff, ends, pairs),
    }
}

/// What all pairs of ends are worth.
pub(crate) fn table_total<V: Values>(values: &V, ends: &[Ends], pairs: &[Pair]) -> u64
    requires few { length ends.now ≤ 256 }
    requires lengths { length pairs.now ≡ pair_count (length ends.now) }
    requires ready { V.Values.ready values.now }
    ensures value { result ≡ table_total (V.Values.shape values.now) ends.now pairs.now }
    ensures bound { result ≤ length pairs.now * 274877906944000 }
{
    let mut sum = 0;
    let mut rest = ends;
    let mut left = pairs;
    while let Some((first, others)) = rest.split_first() {
        let (row, later) = left.split_at(others.len());
        sum += row_total(values, first, others, row);
        rest = others;
        left = later;
    }
    sum
}

/// What the ends of a pick are worth with those of each of the others.
fn row_total<V: Values>(values: &V, first: &Ends, others: &[Ends], pairs: &[Pair]) -> u64
    requires few { length others.now ≤ 256 }
    requires lengths { length pairs.now ≡ length others.now }
    requires ready { V.Values.ready values.now }
    ensures value { result ≡ row_total (V.Values.shape values.now) first.now others.now pairs.now }
    ensures bound { result ≤ length others.now * 274877906944000 }
{
    let mut sum = 0;
    for (i, other) in others.iter().enumerate() {
        sum += term(values, first, other, &pairs[i]);
    }
    sum
}

/// What the ends of two picks are worth.
pub(crate) fn term<V: Values>(values: &V, first: &Ends, other: &Ends, pair: &Pair) -> u64
    requires ready { V.Values.ready values.now }
    ensures value { result ≡ ends_value (V.Values.shape values.now) first.now other.now pair.now }
    ensures bound { result ≤ 274877906944000 }
{
    pair.weight * values.value_at(first.gap(other), pair)
}
