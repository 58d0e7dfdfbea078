//! The search of the octree of a field for one problem.
ghost use Rattle.std.specs.Prelude.{◌≡◌, ◌≤◌, IfOk, OnOk};
ghost use Rattle.kernel_table.specs.Falloff.{AnswersItsShape, shape_of};
ghost use Rattle.edt_score.specs.BoxBound.{box_bound};
ghost use Rattle.edt_score.specs.Field.{IsField};
ghost use Rattle.edt_score.specs.Problem.{IsValidProblem};
ghost use Rattle.octree_search.specs.Outcomes.{found_value, outcome_of};

use edt_score::{Field, Problem, PyramidJudge, Scorer};
use kernel_table::Falloff;
use octree_search::{Found, search};
use std::alloc::{AllocError, Global};

// What the search finds of a problem over a field, with this margin in thousandths and this budget of boxes.
pub fn find<F: Fn(u64, u64) -> u64>(
    alloc: Global,
    field: &Field,
    problem: &Problem,
    falloff: &Falloff<F>,
    margin: u32,
    budget: u32,
) -> Result<Found, AllocError>
    requires valid { IsValidProblem field.now problem.now }
    requires answers { AnswersItsShape F.Fn falloff.now }
    requires margin { margin ≤ 999 }
    ensures value { IfOk result (λ found. found_value found ≡ outcome_of field.now.grid field.now.roots
        (box_bound (shape_of falloff.now) field.now problem.now.picks.items) margin budget) }
    ensures field { OnOk result (IsField field.now) }
{
    let scorer = Scorer::new(alloc, field, problem, falloff)?;
    let mut judge = PyramidJudge::new(scorer);
    search(
        alloc,
        &mut judge,
        field.grid(),
        field.roots(),
        margin,
        budget,
    )
}
