//! Scale and weight of each pair of picks, made once.
ghost use Rattle.std.specs.Prelude.{◌≡◌, ◌++◌, ◌≤◌, All, IfOk, OnOk, length, map};
ghost use Rattle.edt_score.specs.Inside.Pairs.{IsPairable};
ghost use Rattle.edt_score.specs.PairTerms.{pairs_of, terms_of};

use crate::problem::ProblemPick;
use kernel_table::reciprocal;
use pair_weights::{scale, weight};
use std::alloc::{AllocError, Global};
use std::marker::Model;

/// The weight of a pair of picks and its scale, as the factor of `gauss_by` and as the end of the
/// table at four scales, in microseconds.
#[derive(Drop)]
pub(crate) struct Pair {
    pub(crate) reciprocal: u64,
    pub(crate) end: u64,
    pub(crate) weight: u64,
}

impl Model for Pair {
    ghost use Rattle.std.specs.Prelude.{◌≤◌, ◌/◌};
    ghost use Rattle.kernel_table.specs.Reciprocal.{IsReciprocal};
    ghost use Rattle.edt_score.specs.PairTerms.{PairTerms};

    ghost Value = { PairTerms };

    ghost view = { λ pair. record { scale = pair.end / 4; weight = pair.weight } };

    ghost invariant = { λ pair.
        IsReciprocal (pair.end / 4) pair.reciprocal pair.end × (pair.weight ≤ 262144000) };
}

impl Pair {
    /// A pair that is worth nothing, as room for pairs that are written later.
    pub(crate) fn nothing() -> Pair {
        Pair {
            reciprocal: reciprocal(1000),
            end: 4000,
            weight: 0,
        }
    }

    /// The pair of two picks.
    pub(crate) fn of(first: &ProblemPick, other: &ProblemPick) -> Pair
        requires first { IsPairable first.now }
        requires other { IsPairable other.now }
        ensures { result ≡ terms_of first.now other.now }
    {
        let scale = scale(first.variance, other.variance);
        Pair {
            reciprocal: reciprocal(scale),
            end: 4 * scale,
            weight: weight(first.weight, other.weight, scale),
        }
    }
}

/// All pairs of the picks: the first pick with each later one, then the second, and so on.
pub(crate) fn collect_pairs(alloc: Global, picks: &[ProblemPick]) -> Result<Vec<Pair>, AllocError>
    requires few { length picks.now ≤ 256 }
    requires picks { All IsPairable picks.now }
    ensures { IfOk result (λ pairs. pairs.items ≡ pairs_of picks.now) }
{
    let count = picks.len() * picks.len().saturating_sub(1) / 2;
    let mut pairs = Vec::with_capacity(alloc, count)?;
    let mut rest = picks;
    while let Some((first, others)) = rest.split_first() {
        push_pairs(&mut pairs, first, others)?;
        rest = others;
    }
    Ok(pairs)
}

/// Adds the pairs of one pick with others.
fn push_pairs(
    pairs: &mut Vec<Pair>,
    first: &ProblemPick,
    others: &[ProblemPick],
) -> Result<(), AllocError>
    requires first { IsPairable first.now }
    requires others { All IsPairable others.now }
    ensures { OnOk result (pairs.new.items ≡ pairs.old.items ++ map (terms_of first.now) others.now) }
{
    for other in others {
        pairs.push(Pair::of(first, other))?;
    }
    Ok(())
}
