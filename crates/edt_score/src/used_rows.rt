//! The rows that the picks of a problem use, each once.

ghost use Rattle.std.specs.Prelude.{◌≡◌, ◌<◌, ◌≤◌, All, IfOk, IfSome, OnErr, OnOk, length, slice_index};
ghost use Rattle.edt_score.specs.Inside.UsedRows.{AreRowsOf, IsKept};

use crate::problem::ProblemPick;
use std::alloc::{AllocError, Global};

/// Rows of a field, each once, and for each pick the place of its row among them.
#[derive(Drop)]
pub(crate) struct UsedRows {
    pub(crate) rows: Vec<u32>,
    pub(crate) places: Vec<usize>,
}

impl UsedRows {
    /// The rows of picks.
    pub(crate) fn of(alloc: Global, picks: &[ProblemPick]) -> Result<UsedRows, AllocError>
        ensures { IfOk result (λ used. AreRowsOf picks.now used.rows.items used.places.items) }
    {
        let mut rows = Vec::with_capacity(alloc, picks.len())?;
        let mut places = Vec::with_capacity(alloc, picks.len())?;
        for pick in picks {
            let place = keep_row(&mut rows, pick.row)?;
            places.push(place)?;
        }
        Ok(UsedRows { rows, places })
    }
}

/// The place of a row among the rows, at whose end it is added if it isn't there.
fn keep_row(rows: &mut Vec<u32>, row: u32) -> Result<usize, AllocError>
    ensures { IfOk result (λ place. IsKept rows.old.items row place rows.new.items) }
{
    if let Some(place) = place_of(rows, row) {
        return Ok(place);
    }
    rows.push(row)?;
    Ok(rows.len() - 1)
}

/// The place of a row among the rows.
fn place_of(rows: &[u32], row: u32) -> Option<usize>
    ensures { IfSome result (λ place.
        (place < length rows.now) × (slice_index rows.now place ≡ row)) }
{
    rows.iter().position(|kept| *kept == row)
}
