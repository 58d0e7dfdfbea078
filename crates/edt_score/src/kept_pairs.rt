//! Bounds from one span for each pick, whoever tells the spans.

ghost use Rattle.std.specs.Prelude.{◌≡◌, [], ◌++◌, ◌+◌, ◌*◌, ◌<◌, ◌≤◌, ◌-ℤ◌, All, IfOk, length, map, take, unsigned_abs};
ghost use Rattle.kernel_table.specs.Falloff.{AnswersItsShape, shape_of};
ghost use Rattle.edt_score.specs.Bound.{IsTimeSpan};
ghost use Rattle.edt_score.specs.KeptPairs.{bound_of_spans, span_at};
ghost use Rattle.edt_score.specs.Look.{numbered};
ghost use Rattle.edt_score.specs.PairTerms.{pairs_of, terms_of};
ghost use Rattle.edt_score.specs.Problem.{AreSoundPicks};
ghost use Rattle.edt_score.specs.Inside.Ends.{ends_of};
ghost use Rattle.edt_score.specs.Inside.Families.{IsClose};
ghost use Rattle.edt_score.specs.Inside.Pairs.{IsPairable, pair_count};

use crate::ends::{Ends, ends_within};
use crate::pairs::Pair;
use crate::problem::ProblemPick;
use crate::totals::falloff_total;
use kernel_table::Falloff;
use std::alloc::{AllocError, Global};
use std::marker::Model;

/// The most picks of a problem.
const MOST_PICKS: usize = 256;

/// The most pairs of picks of a problem.
const MOST_PAIRS: usize = 32640;

/// The scale and the weight of each pair of a problem's picks, in room for any valid problem, so that
/// the bounds of one problem after another take no memory.
///
/// It is seen as the list of these scales and weights: the first pick with each later one, then the
/// second, and so on.
#[derive(Drop)]
pub struct KeptPairs {
    pairs: Vec<Pair>,
    count: usize,
    ends: Vec<Ends>,
}

impl Model for KeptPairs {
    ghost use Rattle.std.specs.Prelude.{List, take};
    ghost use Rattle.edt_score.specs.Inside.Pairs.{HasRoom};
    ghost use Rattle.edt_score.specs.PairTerms.{PairTerms};

    ghost Value = { List PairTerms };

    ghost view = { λ kept. take kept.count kept.pairs.items };

    ghost invariant = { λ kept. HasRoom kept.count kept.pairs.items kept.ends.items };
}

impl KeptPairs {
    /// Room for pairs, of which none is kept. Running out of memory is the only refusal.
    pub fn new(alloc: Global) -> Result<KeptPairs, AllocError>
        ensures { IfOk result (λ kept. kept ≡ []) }
    {
        Ok(KeptPairs {
            pairs: room_for_pairs(alloc)?,
            count: 0,
            ends: vec![in alloc; Ends::ZERO; MOST_PICKS]?,
        })
    }

    /// Keeps the pairs of these picks, in place of those before. Takes no memory.
    pub fn keep(&mut self, picks: &[ProblemPick])
        requires { AreSoundPicks picks.now }
        ensures { self.new ≡ pairs_of picks.now }
    {
        self.count = write_pairs(picks, &mut self.pairs);
    }

    /// The bound of the picks whose pairs are kept, with the least and the greatest travel time of each
    /// pick, in microseconds: at most what nodes with travel times between them can score. Takes no
    /// memory.
    pub fn bound<F: Fn(u64, u64) -> u64>(
        &mut self,
        falloff: &Falloff<F>,
        picks: &[ProblemPick],
        spans: &[(u32, u32)],
    ) -> u64
        requires picks { AreSoundPicks picks.now }
        requires kept { self.old ≡ pairs_of picks.now }
        requires one_a_pick { length spans.now ≡ length picks.now }
        requires spans { All IsTimeSpan spans.now }
        requires answers { AnswersItsShape F.Fn falloff.now }
        ensures value { result ≡ bound_of_spans (shape_of falloff.now) picks.now spans.now }
        ensures still { self.new ≡ self.old }
    {
        let pairs = &self.pairs[..self.count];
        spans_total(falloff, picks, spans, pairs, &mut self.ends)
    }
}

/// The bound of picks with these pairs and spans, in room for the ends of 256 picks.
fn spans_total<F: Fn(u64, u64) -> u64>(
    falloff: &Falloff<F>,
    picks: &[ProblemPick],
    spans: &[(u32, u32)],
    pairs: &[Pair],
    room: &mut [Ends],
) -> u64
    requires picks { AreSoundPicks picks.now }
    requires pairs { pairs.now ≡ pairs_of picks.now }
    requires one_a_pick { length spans.now ≡ length picks.now }
    requires spans { All IsTimeSpan spans.now }
    requires answers { AnswersItsShape F.Fn falloff.now }
    requires room { length room.old ≡ 256 }
    ensures value { result ≡ bound_of_spans (shape_of falloff.now) picks.now spans.now }
    ensures room { length room.new ≡ 256 }
{
    let start = picks[0].time;
    let ends = &mut room[..picks.len()];
    fill_spans(picks, spans, start, ends);
    falloff_total(falloff, ends, pairs)
}

/// Pairs that are worth nothing, as many as there are of the most picks.
fn room_for_pairs(alloc: Global) -> Result<Vec<Pair>, AllocError>
    ensures { IfOk result (λ pairs. length pairs.items ≡ 32640) }
{
    let mut pairs = Vec::with_capacity(alloc, MOST_PAIRS)?;
    for _ in 0..MOST_PAIRS {
        pairs.push(Pair::nothing())?;
    }
    Ok(pairs)
}

/// Writes the pairs of picks from the first place on, and answers how many there are.
fn write_pairs(picks: &[ProblemPick], room: &mut [Pair]) -> usize
    requires few { length picks.now ≤ 256 }
    requires picks { All IsPairable picks.now }
    requires room { length room.old ≡ 32640 }
    ensures room { length room.new ≡ length room.old }
    ensures count { result ≡ pair_count (length picks.now) }
    ensures pairs { take result room.new ≡ pairs_of picks.now }
{
    let mut at = 0;
    let mut rest = picks;
    while let Some((first, others)) = rest.split_first() {
        write_row(first, others, room, at);
        at += others.len();
        rest = others;
    }
    at
}

/// Writes the pairs of one pick with others, from a place on.
fn write_row(first: &ProblemPick, others: &[ProblemPick], room: &mut [Pair], at: usize)
    requires first { IsPairable first.now }
    requires others { All IsPairable others.now }
    requires room { at + length others.now ≤ length room.old }
    ensures room { length room.new ≡ length room.old }
    ensures pairs { take (at + length others.now) room.new
        ≡ take at room.old ++ map (terms_of first.now) others.now }
{
    for (i, other) in others.iter().enumerate() {
        room[at + i] = Pair::of(first, other);
    }
}

/// Writes the ends of each pick over its span.
fn fill_spans(picks: &[ProblemPick], spans: &[(u32, u32)], start: i64, ends: &mut [Ends])
    requires close { All (IsClose start) picks.now }
    requires spans { length spans.now ≡ length picks.now }
    requires room { length ends.old ≡ length picks.now }
    ensures { ends.new ≡ map (ends_of start (span_at spans.now)) (numbered picks.now) }
{
    for (i, pick) in picks.iter().enumerate() {
        ends[i] = ends_within(pick.time, start, spans[i]);
    }
}
