//! The search over several lanes for one event.
ghost use Rattle.std.specs.Prelude.{◌≡◌, count_by, length, IfOk, OnOk};
ghost use Rattle.control_reader.specs.ControlValues.{values_of};
ghost use Rattle.control_reader.specs.Limits.{IsControl};
ghost use Rattle.kernel_table.specs.Falloff.{AnswersItsShape, shape_of};
ghost use Rattle.edt_score.specs.Field.{IsField};
ghost use Rattle.edt_score.specs.Problem.{IsValidProblem};
ghost use Rattle.octree_search.specs.Outcomes.{found_value};
ghost use Rattle.search_lanes.specs.LaneRuns.{is_loss};
ghost use Rattle.location_report.specs.Reports.{lane_values};
ghost use Rattle.location_report.specs.Texts.{lane_events, lanes_after, outcome_of_picks};

use control_reader::Control;
use edt_score::{Field, Problem, PyramidJudge, Scorer};
use kernel_table::Falloff;
use location_report::LaneCount;
use octree_search::Found;
use search_lanes::{LaneEvent, search_lanes};
use std::alloc::{AllocError, Global};

// What the lanes of a control file find of a problem over a field, and what they do for it.
pub fn find_by_lanes<F: Fn(u64, u64) -> u64>(
    alloc: Global,
    field: &Field,
    problem: &Problem,
    falloff: &Falloff<F>,
    control: &Control,
) -> Result<(Found, LaneCount), AllocError>
    requires valid { IsValidProblem field.now problem.now }
    requires answers { AnswersItsShape F.Fn falloff.now }
    requires shape { shape_of falloff.now ≡ control.now.shape }
    requires limits { IsControl control.now }
    ensures found { IfOk result (λ pair. found_value pair.0
        ≡ outcome_of_picks (values_of control.now) field.now problem.now.picks.items) }
    ensures lanes { IfOk result (λ pair. lane_values pair.1
        ≡ lanes_after control.now.lanes (lane_events (values_of control.now) field.now problem.now.picks.items)) }
    ensures field { OnOk result (IsField field.now) }
{
    let scorer = Scorer::new(alloc, field, problem, falloff)?;
    let mut judge = PyramidJudge::new(scorer);
    let run = search_lanes(
        alloc,
        &mut judge,
        field.grid(),
        field.roots(),
        control.lanes,
        control.seed,
        control.margin,
        control.budget,
    )?;
    let count = LaneCount {
        lanes: control.lanes,
        events: run.events.len() as u64,
        lost: count_losses(&run.events) as u64,
    };
    Ok((run.found, count))
}

// How many of the events lose a lane.
fn count_losses(events: &[LaneEvent]) -> usize
    ensures { result ≡ count_by is_loss events.now }
{
    events
        .iter()
        .filter(|event| matches!(event, LaneEvent::Lost { .. }))
        .count()
}
