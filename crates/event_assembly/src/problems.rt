//! The problems of events that are located.
ghost use Rattle.std.specs.Prelude.{◌≡◌, ◌<◌, IfOk, All, length, map};
ghost use Rattle.control_reader.specs.ControlValues.{values_of};
ghost use Rattle.event_assembly.specs.AssemblyValues.{case_value, event_value};
ghost use Rattle.event_assembly.specs.Inside.Problems.{problem_pick, case_by, event_by};

use crate::assembly::{Case, Prepared};
use crate::deciding::{MOST_PICKS, is_few};
use control_reader::Control;
use edt_score::{Problem, ProblemPick};
use station_table::{Picks, UsedPick};
use std::alloc::{AllocError, Global};

/// The events with their picks and what becomes of them. `row_of_key` has the row of each key that has one. Running out of memory is the only
/// refusal.
pub(crate) fn prepare(
    alloc: Global,
    control: &Control,
    decided: Vec<Picks>,
    row_of_key: &[u32],
) -> Result<Vec<Prepared>, AllocError>
    requires { All (λ picks. All (λ pick. pick.key < length row_of_key.now) picks.used.items) decided.items }
    ensures { IfOk result (λ prepared.
        map event_value prepared.items ≡ map (event_by (values_of control.now) row_of_key.now) decided.items) }
{
    let mut prepared = Vec::with_capacity(alloc, decided.len())?;
    for picks in decided {
        let case = case_of(alloc, control, &picks.used, row_of_key)?;
        prepared.push(Prepared { picks, case })?;
    }
    Ok(prepared)
}

// What becomes of an event with these used picks.
#[tactic(auto, unfolding(crate::specs::Cases::is_many))]
fn case_of(
    alloc: Global,
    control: &Control,
    used: &[UsedPick],
    row_of_key: &[u32],
) -> Result<Case, AllocError>
    requires { All (λ pick. pick.key < length row_of_key.now) used.now }
    ensures { IfOk result (λ case. case_value case ≡ case_by (values_of control.now) row_of_key.now used.now) }
{
    if is_few(control, used) {
        return Ok(Case::Few);
    }
    if used.len() > MOST_PICKS {
        return Ok(Case::Many);
    }
    Ok(Case::Ready(problem_of(alloc, used, row_of_key)?))
}

// The problem of these used picks.
fn problem_of(alloc: Global, used: &[UsedPick], row_of_key: &[u32]) -> Result<Problem, AllocError>
    requires { All (λ pick. pick.key < length row_of_key.now) used.now }
    ensures { IfOk result (λ problem. problem.picks.items ≡ map (problem_pick row_of_key.now) used.now) }
{
    let mut picks = Vec::with_capacity(alloc, used.len())?;
    for pick in used {
        picks.push(ProblemPick {
            time: pick.time,
            weight: pick.weight,
            variance: pick.variance,
            row: row_of_key[pick.key as usize],
        })?;
    }
    Ok(Problem { picks })
}
