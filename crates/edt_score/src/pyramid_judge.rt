//! A judge whose bounds come from the spans of a field's rows.

ghost use Rattle.std.specs.Prelude.{◌≡◌, ℕ, IfSome};
ghost use Rattle.node_boxes.specs.declared.node_box.NodeBox.{NodeBox};
ghost use Rattle.kernel_table.specs.Falloff.{AnswersItsShape};
ghost use Rattle.edt_score.specs.Scorer.{IsSameScorer, area_bound, falloff_of, field_of};
ghost use Rattle.edt_score.specs.Inside.KeptFamily.{HasBounds};

use crate::judge::Judge;
use crate::scorer::Scorer;
use minmax_pyramid::Family;
use node_boxes::NodeBox;

/// Bounds of the boxes of a field's octree for one problem and one kernel.
///
/// The bounds of all children of a box are found at once and kept until a child of another box is
/// asked for, since a search asks for them one after the other.
#[derive(Drop)]
pub struct PyramidJudge<'a, F> {
    scorer: Scorer<'a, F>,
    family: Option<Family>,
    bounds: [u64; 8],
    asked: u64,
    ghost kept: { HasBounds (area_bound scorer) family bounds },
}

impl<'a, F: Fn(u64, u64) -> u64> PyramidJudge<'a, F> {
    ghost use Rattle.edt_score.specs.PyramidJudge.{scorer_of, times_asked};

    /// A judge that asks this scorer, and was not asked yet. Takes no memory.
    pub fn new(scorer: Scorer<'a, F>) -> PyramidJudge<'a, F>
        ensures scorer { IsSameScorer scorer.entry (scorer_of result) }
        ensures asked { times_asked result ≡ 0 }
    {
        PyramidJudge {
            scorer,
            family: None,
            bounds: [0; 8],
            asked: 0,
        }
    }
}

impl<'a, F: Fn(u64, u64) -> u64> Judge for PyramidJudge<'a, F> {
    ghost use Rattle.kernel_table.specs.Falloff.{AnswersItsShape, shape_of};
    ghost use Rattle.edt_score.specs.PyramidJudge.{scorer_of, times_asked};
    ghost use Rattle.edt_score.specs.Scorer.{area_bound, falloff_of, field_of, problem_of};
    ghost use Rattle.edt_score.specs.Inside.BoxDomination.{box_bounds-fall};

    ghost grid = { λ judge. (field_of (scorer_of judge)).grid };

    ghost roots = { λ judge. (field_of (scorer_of judge)).roots };

    ghost bound_of = { λ judge. area_bound (scorer_of judge) };

    ghost count = { times_asked };

    ghost ready = { λ judge. AnswersItsShape F.Fn (falloff_of (scorer_of judge)) };

    fn bound(&mut self, area: &NodeBox) -> u64 {
        self.asked += 1;
        if let Some(bound) = kept_bound(&self.family, &self.bounds, area) {
            return bound;
        }
        let Some((family, place)) = self.scorer.field().family_of(area) else {
            return self.scorer.box_bound(area);
        };
        self.scorer.fill_bounds(&family, &mut self.bounds);
        self.family = Some(family);
        self.bounds[place]
    }

    fn asked(&self) -> u64 {
        self.asked
    }

    ghost falls = { λ judge. box_bounds-fall (shape_of (falloff_of (scorer_of judge))) (field_of (scorer_of judge))
        (problem_of (scorer_of judge)).picks.items (field_of (scorer_of judge)).roots };
}

/// The bound of a box of the kept family.
fn kept_bound(kept: &Option<Family>, bounds: &[u64; 8], area: &NodeBox) -> Option<u64>
    ensures { (bound : NodeBox → ℕ) → HasBounds bound kept.now bounds.now
        → IfSome result (λ b. b ≡ bound area.now) }
{
    let Some(family) = kept else {
        return None;
    };
    let place = family.place_of(area)?;
    Some(bounds[place])
}
