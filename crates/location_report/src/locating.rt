//! The origin time of an event at a node, and the residuals of its picks.
ghost use Rattle.std.specs.Prelude.{◌≡◌, ◌≢◌, ◌≤◌, ◌<◌, ◌*◌, ◌^◌, ◌+◌, IfOk, All, length, map, unsigned_abs};
ghost use Rattle.node_boxes.specs.Grid.{node_count};
ghost use Rattle.edt_score.specs.Problem.{IsValidPick, IsValidProblem};
ghost use Rattle.origin_time.specs.OriginTime.{IsOriginTime, origin_of};
ghost use Rattle.origin_time.specs.RootMeanSquare.{rms_of};
ghost use Rattle.origin_time.specs.Weights.{total_weight};
ghost use Rattle.location_report.specs.Blocks.{item_at, items_at, origin_at, residual_from, residuals_at};
ghost use Rattle.location_report.specs.Inside.Locating.{IsNearNode, IsTimed, IsWithinReach};

use edt_score::{Field, Problem, ProblemPick};
use origin_time::{OriginError, origin, rms};
use std::alloc::{AllocError, Global};

/// When an event at a node was, and how far its picks are from that.
#[derive(Drop)]
pub(crate) struct Origin {
    /// The origin time, in microseconds from the start of 1970-01-01.
    pub time: i64,
    /// The residuals of the picks in microseconds, with their weights in thousandths, in the order of the picks.
    pub residuals: Vec<(i64, u32)>,
    /// The root mean square of the residuals, in microseconds.
    pub rms: u64,
}

impl Origin {
    /// The origin time of a problem at a node, by the times of a field. Running out of memory is the only refusal.
    pub fn of(
        alloc: Global,
        field: &Field,
        problem: &Problem,
        node: u32,
    ) -> Result<Origin, AllocError>
        requires problem { IsValidProblem field.now problem.now }
        requires times { All IsTimed problem.now.picks.items }
        requires node { node < node_count field.now.grid }
        ensures time { IfOk result (λ origin. origin.time ≡ origin_at field.now node problem.now.picks.items) }
        ensures residuals { IfOk result (λ origin.
            origin.residuals.items ≡ residuals_at field.now node problem.now.picks.items) }
        ensures rms { IfOk result (λ origin. origin.rms
            ≡ rms_of (residuals_at field.now node problem.now.picks.items)) }
    {
        let items = items_at(alloc, field, &problem.picks, node)?;
        let time = time_of(alloc, &items)?;
        let residuals = residuals_from(alloc, &items, time)?;
        let rms = rms(&residuals);
        Ok(Origin {
            time,
            residuals,
            rms,
        })
    }
}

// What the picks say of the origin: their times less their travel times to the node, with their weights.
fn items_at(
    alloc: Global,
    field: &Field,
    picks: &[ProblemPick],
    node: u32,
) -> Result<Vec<(i64, u32)>, AllocError>
    requires picks { All (IsValidPick field.now) picks.now }
    requires times { All IsTimed picks.now }
    requires node { node < node_count field.now.grid }
    ensures value { IfOk result (λ items. items.items ≡ items_at field.now node picks.now) }
    ensures near { IfOk result (λ _. All (IsNearNode field.now node) picks.now) }
{
    let mut items = Vec::with_capacity(alloc, picks.len())?;
    for pick in picks {
        items.push(item_at(field, pick, node))?;
    }
    Ok(items)
}

// What a pick says of the origin.
fn item_at(field: &Field, pick: &ProblemPick, node: u32) -> (i64, u32)
    requires pick { IsValidPick field.now pick.now }
    requires time { IsTimed pick.now }
    requires node { node < node_count field.now.grid }
    ensures value { result ≡ item_at field.now node pick.now }
    ensures near { IsNearNode field.now node pick.now }
{
    let travel = field.time(pick.row, node);
    (pick.time - i64::from(travel), pick.weight)
}

// The origin time of items whose weights don't add to 0.
fn time_of(alloc: Global, items: &[(i64, u32)]) -> Result<i64, AllocError>
    requires { total_weight items.now ≢ 0 }
    ensures value { IfOk result (λ time. time ≡ origin_of items.now) }
    ensures is { IfOk result (IsOriginTime items.now) }
{
    match origin(alloc, items) {
        Ok(time) => Ok(time),
        Err(OriginError::NoWeight) => unreachable!(),
        Err(OriginError::Memory) => Err(AllocError),
    }
}

// How far items are from a time, with their weights.
fn residuals_from(
    alloc: Global,
    items: &[(i64, u32)],
    time: i64,
) -> Result<Vec<(i64, u32)>, AllocError>
    requires { All (IsWithinReach time) items.now }
    ensures { IfOk result (λ residuals. residuals.items ≡ map (residual_from time) items.now) }
{
    let mut residuals = Vec::with_capacity(alloc, items.len())?;
    for item in items {
        residuals.push((item.0 - time, item.1))?;
    }
    Ok(residuals)
}
