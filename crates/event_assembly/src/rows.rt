//! Which time grids have a row of times.
ghost use Rattle.std.specs.Prelude.{◌≡◌, ◌*◌, ◌^◌, ◌||◌, ◌<◌, ℕ, [], ◌∷◌, ◌++◌, false, if◌then◌else◌, IfOk, OnOk, All, length, get_or, nat_lt};
ghost use Rattle.std.specs.List.{list_any};
ghost use Rattle.control_reader.specs.ControlValues.{values_of};
ghost use Rattle.station_table.specs.Limits.{IsUsedPick};
ghost use Rattle.event_assembly.specs.Inside.Deciding.{AreUsed};
ghost use Rattle.event_assembly.specs.Inside.Numbering.{has_key, needs_key, AreNumbered};

use crate::deciding::is_ready;
use control_reader::Control;
use station_table::{Picks, UsedPick};
use std::alloc::{AllocError, Global};

/// The most times that all rows have together.
const MOST_TIMES: u64 = 20_000_000;

/// The rows of times: the keys of the used picks of ready events, in order.
#[derive(Drop)]
pub(crate) struct Rows {
    /// The number of the key of each row.
    pub keys: Vec<u32>,
    /// The row of each key that has one.
    pub row_of_key: Vec<u32>,
}

impl Rows {
    /// The rows of the marked keys. Running out of memory is the only refusal.
    pub fn of_marks(alloc: Global, marks: &[bool]) -> Result<Rows, AllocError>
        requires { length marks.now < 2 ^ 32 }
        ensures { IfOk result (AreNumbered marks.now) }
    {
        let mut rows = Rows {
            keys: Vec::new(alloc),
            row_of_key: Vec::with_capacity(alloc, marks.len())?,
        };
        for key in 0..marks.len() {
            rows.take_key(key as u32, marks[key])?;
        }
        Ok(rows)
    }

    // Takes the next key, which gets a row where it is marked.
    fn take_key(&mut self, key: u32, marked: bool) -> Result<(), AllocError>
        requires { length self.old.keys.items < 2 ^ 32 }
        ensures keys { OnOk result (self.new.keys.items
            ≡ (if marked then self.old.keys.items ++ key ∷ [] else self.old.keys.items)) }
        ensures row { OnOk result (self.new.row_of_key.items
            ≡ self.old.row_of_key.items ++ length self.old.keys.items ∷ []) }
    {
        self.row_of_key.push(self.keys.len() as u32)?;
        if marked {
            self.keys.push(key)?;
        }
        Ok(())
    }
}

/// Marks the keys, of so many, that used picks of ready events have. Running out of memory is the only refusal.
pub(crate) fn mark_keys(
    alloc: Global,
    control: &Control,
    keys: usize,
    decided: &[Picks],
) -> Result<Vec<bool>, AllocError>
    requires { All (AreUsed keys) decided.now }
    ensures long { IfOk result (λ marks. length marks.items ≡ keys) }
    ensures marks { IfOk result (λ marks. (k : ℕ) → get_or marks.items k false ≡ list_any (λ picks.
        needs_key (values_of control.now) k picks.used.items) decided.now) }
{
    let mut marks = vec![in alloc; false; keys]?;
    for picks in decided {
        mark_if_ready(control, &mut marks, &picks.used);
    }
    Ok(marks)
}

// Marks the keys that the used picks of an event have, where it is ready.
fn mark_if_ready(control: &Control, marks: &mut [bool], used: &[UsedPick])
    requires { All (IsUsedPick (length marks.old)) used.now }
    ensures { (k : ℕ)
        → get_or marks.new k false ≡ (get_or marks.old k false || needs_key (values_of control.now) k used.now) }
{
    if is_ready(control, used) {
        mark_used(marks, used);
    }
}

// Marks the keys that these picks have.
fn mark_used(marks: &mut [bool], used: &[UsedPick])
    requires { All (IsUsedPick (length marks.old)) used.now }
    ensures { (k : ℕ) → get_or marks.new k false ≡ (get_or marks.old k false || has_key k used.now) }
{
    for pick in used {
        marks[pick.key as usize] = true;
    }
}

/// Whether the rows of these keys have too many times.
pub(crate) fn is_past_limit(rows: &[u32], nodes: u32) -> bool
    requires { length rows.now < 2 ^ 32 }
    ensures { result ≡ nat_lt 20000000 (length rows.now * nodes) }
{
    rows.len() as u64 * u64::from(nodes) > MOST_TIMES
}
