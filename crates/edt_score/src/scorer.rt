//! The score of a node and the bounds of boxes, for one problem and one kernel.
ghost use Rattle.std.specs.Prelude.{◌≡◌, ◌*◌, ◌^◌, ◌<◌, ◌≤◌, IfOk, length};
ghost use Rattle.node_boxes.specs.Octree.{IsOctreeBox};
ghost use Rattle.node_boxes.specs.Grid.{node_count};
ghost use Rattle.minmax_pyramid.specs.Families.{IsFamilyOf};
ghost use Rattle.kernel_table.specs.Falloff.{AnswersItsShape, shape_of};
ghost use Rattle.edt_score.specs.Problem.{IsValidProblem};
ghost use Rattle.edt_score.specs.Inside.Ends.{table_total};
ghost use Rattle.edt_score.specs.Inside.KeptFamily.{AreBounds};
ghost use Rattle.edt_score.specs.Inside.Lanes.{EachIs, lane_total};
ghost use Rattle.edt_score.specs.Inside.UsedRows.{AreRowsOf};
ghost use Rattle.edt_score.specs.Inside.Pairs.{pair_count};
ghost use Rattle.edt_score.specs.PairTerms.{pairs_of};

use crate::ends::{Ends, fill_box, fill_points};
use crate::family::fill_family;
use crate::field::Field;
use crate::lanes::table_totals;
use crate::pairs::{Pair, collect_pairs};
use crate::problem::Problem;
use crate::totals::falloff_total;
use crate::used_rows::UsedRows;
use crate::values::ByReciprocal;
use kernel_table::{Falloff, Shape};
use minmax_pyramid::Family;
use node_boxes::NodeBox;
use std::alloc::{AllocError, Global};

/// The most picks that a valid problem has.
const MAX_PICKS: usize = 256;

/// Scores the nodes of a field for one problem and one kernel.
///
/// It keeps the scale and the weight of each pair of picks, so that a score takes no root.
#[derive(Drop)]
pub struct Scorer<'a, F> {
    field: &'a Field,
    problem: &'a Problem,
    falloff: &'a Falloff<F>,
    pairs: Vec<Pair>,
    used: UsedRows,
    spans: Vec<[(u32, u32); 8]>,
    ends: Vec<[Ends; 8]>,
    pub ghost valid: { IsValidProblem field.now problem.now },
    ghost pairs_kept: { pairs.items ≡ pairs_of problem.now.picks.items },
    ghost rows_kept: { AreRowsOf problem.now.picks.items used.rows.items used.places.items },
    ghost room_for_spans: { length spans.items ≡ length used.rows.items },
    ghost room_for_ends: { length ends.items ≡ length problem.now.picks.items },
}

impl<'a, F: Fn(u64, u64) -> u64> Scorer<'a, F> {
    ghost use Rattle.edt_score.specs.Scorer.{IsSameScorer, area_bound, falloff_of, field_of, node_score, problem_of};

    /// A scorer of this field, this problem and this kernel. Running out of memory is the only refusal.
    pub fn new(
        alloc: Global,
        field: &'a Field,
        problem: &'a Problem,
        falloff: &'a Falloff<F>,
    ) -> Result<Scorer<'a, F>, AllocError>
        requires { IsValidProblem field.now problem.now }
        ensures field { IfOk result (λ scorer. field_of scorer ≡ field.now) }
        ensures problem { IfOk result (λ scorer. problem_of scorer ≡ problem.now) }
        ensures falloff { IfOk result (λ scorer. falloff_of scorer ≡ falloff.now) }
    {
        let pairs = collect_pairs(alloc, &problem.picks)?;
        let used = UsedRows::of(alloc, &problem.picks)?;
        let spans = vec![in alloc; [(0, 0); 8]; used.rows.len()]?;
        let ends = vec![in alloc; [Ends::ZERO; 8]; problem.picks.len()]?;
        Ok(Scorer {
            field,
            problem,
            falloff,
            pairs,
            used,
            spans,
            ends,
        })
    }

    /// The score of a node: the sum of the weights by the kernel's values over all pairs of picks.
    /// Takes no memory.
    pub fn score(&self, node: u32) -> u64
        requires node { node < node_count (field_of self.now).grid }
        requires answers { AnswersItsShape F.Fn (falloff_of self.now) }
        ensures value { result ≡ node_score self.now node }
        ensures bound { result < 9 * 10 ^ 18 }
    {
        let picks = self.problem.picks.as_slice();
        let start = picks[0].time;
        let _rows = self.field.rows();
        let mut room = [Ends::ZERO; MAX_PICKS];
        let ends = &mut room[..picks.len()];
        fill_points(self.field, picks, node, start, ends);
        self.total(ends)
    }

    /// What all pairs of ends are worth.
    fn total(&self, ends: &[Ends]) -> u64
        requires few { length ends.now ≤ 256 }
        requires lengths { length self.now.pairs.items ≡ pair_count (length ends.now) }
        requires answers { AnswersItsShape F.Fn (falloff_of self.now) }
        ensures value { let shape = shape_of (falloff_of self.now) in
            result ≡ table_total shape ends.now self.now.pairs.items }
        ensures bound { result ≤ length self.now.pairs.items * 274877906944000 }
    {
        falloff_total(self.falloff, ends, &self.pairs)
    }

    /// Writes the bounds of all boxes of a family. Takes no memory.
    pub(crate) fn fill_bounds(&mut self, family: &Family, bounds: &mut [u64; 8])
        requires answers { AnswersItsShape F.Fn (falloff_of self.old) }
        requires family { IsFamilyOf (field_of self.old).roots family.now }
        ensures bounds { AreBounds (area_bound self.old) family.now.parent bounds.new }
        ensures same { IsSameScorer self.old self.new }
    {
        let _rows = self.field.rows();
        let picks = self.problem.picks.as_slice();
        let start = picks[0].time;
        let (spans, ends) = (&mut self.spans, &mut self.ends);
        fill_family(self.field, picks, &self.used, family, start, spans, ends);
        *bounds = self.totals();
    }

    /// What all pairs of the ends over eight boxes are worth.
    fn totals(&self) -> [u64; 8]
        requires answers { AnswersItsShape F.Fn (falloff_of self.now) }
        ensures { let shape = shape_of (falloff_of self.now) in
            EachIs (lane_total shape self.now.ends.items self.now.pairs.items) result }
    {
        match self.falloff.shape() {
            Shape::Gauss => table_totals(&ByReciprocal, &self.ends, &self.pairs),
            _ => table_totals(self.falloff, &self.ends, &self.pairs),
        }
    }

    /// The bound of an octree box. Takes no memory.
    pub(crate) fn box_bound(&self, area: &NodeBox) -> u64
        requires answers { AnswersItsShape F.Fn (falloff_of self.now) }
        requires tree { IsOctreeBox (field_of self.now).roots area.now }
        ensures { result ≡ area_bound self.now area.now }
    {
        let picks = self.problem.picks.as_slice();
        let start = picks[0].time;
        let _rows = self.field.rows();
        let mut room = [Ends::ZERO; MAX_PICKS];
        let ends = &mut room[..picks.len()];
        fill_box(self.field, picks, area, start, ends);
        self.total(ends)
    }

    /// The field that the scorer was made from.
    pub fn field(&self) -> &Field
        ensures { result.now ≡ field_of self.now }
    {
        self.field
    }

    /// The problem that the scorer was made from.
    pub fn problem(&self) -> &Problem
        ensures { result.now ≡ problem_of self.now }
    {
        self.problem
    }

    /// The kernel that the scorer was made from.
    pub fn falloff(&self) -> &Falloff<F>
        ensures { result.now ≡ falloff_of self.now }
    {
        self.falloff
    }
}
