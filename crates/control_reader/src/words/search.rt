//! What the words of the statements that guide the search say: `LOCGAU`, `LOCSEARCH`, `CONTROL`, `EDTNEAR`, `EDTBUDGET` and
//! `EDTLANES`.
ghost use Rattle.std.specs.Prelude.{◌≡◌, ◌≤◌, ◌^◌, length, IfOk, IfErr, OnOk, None, Some};
ghost use Rattle.edt_text.specs.PlacedWords.{placed_words};
ghost use Rattle.control_reader.specs.Limits.{IsCellCount};
ghost use Rattle.control_reader.specs.Words.{whole_at};
ghost use Rattle.control_reader.specs.Values.{cells_of_number, sigma_of, cells_of, seed_of, count_of};
ghost use Rattle.control_reader.specs.WordFaults.{octree_fault, sigma_fault, cells_fault, seed_fault, margin_fault, budget_fault, lanes_fault};

use super::names::is_word;
use super::numbers::{millionths_from_to, whole, whole_from_to};
use crate::fault::ControlCause;
use edt_text::PlacedWords;

// Limits of this project: microseconds of the error of the travel times, cells along an axis, thousandths of the margin, boxes, and lanes.
const GREATEST_SIGMA: i64 = 100_000_000;

const MOST_CELLS: i64 = 4096;

const GREATEST_MARGIN: i64 = 999;

const GREATEST_BUDGET: i64 = 4_000_000;

const MOST_LANES: i64 = 64;

/// What `LOCGAU` says: the error of the travel times in microseconds.
#[tactic(auto, unfolding(crate::specs::WordFaults::sigma_fault, crate::specs::Values::sigma_of))]
pub(crate) fn read_sigma(arguments: &PlacedWords) -> Result<u64, ControlCause>
    requires { 1 ≤ length (placed_words arguments.now) }
    ensures value { IfOk result (λ value. value ≡ sigma_of (placed_words arguments.now)) }
    ensures good { OnOk result (sigma_fault (placed_words arguments.now) ≡ None) }
    ensures limits { IfOk result (λ sigma. sigma ≤ 10 ^ 8) }
    ensures fault { IfErr result (λ cause. sigma_fault (placed_words arguments.now) ≡ Some cause) }
{
    let sigma = millionths_from_to(arguments, 0, 0, GREATEST_SIGMA)?;
    Ok(sigma as u64)
}

/// What `LOCSEARCH` says: the initial cells along x, y and z.
#[tactic(auto, unfolding(crate::specs::WordFaults::cells_fault, crate::specs::Values::cells_of))]
pub(crate) fn read_cells(arguments: &PlacedWords) -> Result<(u32, u32, u32), ControlCause>
    requires { 1 ≤ length (placed_words arguments.now) }
    ensures value { IfOk result (λ value. value ≡ cells_of (placed_words arguments.now)) }
    ensures good { OnOk result (cells_fault (placed_words arguments.now) ≡ None) }
    ensures limits { IfOk result (λ cells. IsCellCount cells.0 × IsCellCount cells.1 × IsCellCount cells.2) }
    ensures fault { IfErr result (λ cause. cells_fault (placed_words arguments.now) ≡ Some cause) }
{
    if is_word(arguments, 0, b"OCT") {
        return read_octree(arguments);
    }
    if is_word(arguments, 0, b"GRID") || is_word(arguments, 0, b"MET") {
        return Ok((1, 1, 1));
    }
    Err(ControlCause::FileType)
}

// The initial cells of a search of the type `OCT`.
fn read_octree(arguments: &PlacedWords) -> Result<(u32, u32, u32), ControlCause>
    ensures value { IfOk result (λ cells. cells
        ≡ (
          cells_of_number (whole_at 1 (placed_words arguments.now)),
          cells_of_number (whole_at 2 (placed_words arguments.now)),
          cells_of_number (whole_at 3 (placed_words arguments.now)),
        )) }
    ensures good { OnOk result (octree_fault (placed_words arguments.now) ≡ None) }
    ensures limits { IfOk result (λ cells. IsCellCount cells.0 × IsCellCount cells.1 × IsCellCount cells.2) }
    ensures fault { IfErr result (λ cause. octree_fault (placed_words arguments.now) ≡ Some cause) }
{
    if !arguments.has(4) {
        return Err(ControlCause::Fields);
    }
    let x = whole(arguments, 1)?;
    let y = whole(arguments, 2)?;
    let z = whole(arguments, 3)?;
    Ok((cell_count(x), cell_count(y), cell_count(z)))
}

// A count of cells, brought into its range.
fn cell_count(number: i64) -> u32
    ensures value { result ≡ cells_of_number number }
    ensures limits { IsCellCount result }
{
    number.clamp(1, MOST_CELLS) as u32
}

/// What `CONTROL` says: the seed of random numbers.
#[tactic(auto, unfolding(crate::specs::WordFaults::seed_fault, crate::specs::Values::seed_of))]
pub(crate) fn read_seed(arguments: &PlacedWords) -> Result<i64, ControlCause>
    requires { 2 ≤ length (placed_words arguments.now) }
    ensures value { IfOk result (λ value. value ≡ seed_of (placed_words arguments.now)) }
    ensures good { OnOk result (seed_fault (placed_words arguments.now) ≡ None) }
    ensures fault { IfErr result (λ cause. seed_fault (placed_words arguments.now) ≡ Some cause) }
{
    let _message_flag = whole(arguments, 0)?;
    whole(arguments, 1)
}

/// What `EDTNEAR` says: the margin in thousandths.
#[tactic(auto, unfolding(crate::specs::WordFaults::margin_fault, crate::specs::Values::count_of))]
pub(crate) fn read_margin(arguments: &PlacedWords) -> Result<u32, ControlCause>
    requires { 1 ≤ length (placed_words arguments.now) }
    ensures value { IfOk result (λ value. value ≡ count_of (placed_words arguments.now)) }
    ensures good { OnOk result (margin_fault (placed_words arguments.now) ≡ None) }
    ensures limits { IfOk result (λ margin. margin ≤ 999) }
    ensures fault { IfErr result (λ cause. margin_fault (placed_words arguments.now) ≡ Some cause) }
{
    let margin = whole_from_to(arguments, 0, 0, GREATEST_MARGIN)?;
    Ok(margin as u32)
}

/// What `EDTBUDGET` says: the greatest number of boxes.
#[tactic(auto, unfolding(crate::specs::WordFaults::budget_fault, crate::specs::Values::count_of))]
pub(crate) fn read_budget(arguments: &PlacedWords) -> Result<u32, ControlCause>
    requires { 1 ≤ length (placed_words arguments.now) }
    ensures value { IfOk result (λ value. value ≡ count_of (placed_words arguments.now)) }
    ensures good { OnOk result (budget_fault (placed_words arguments.now) ≡ None) }
    ensures limits { IfOk result (λ budget. (1 ≤ budget) × (budget ≤ 4000000)) }
    ensures fault { IfErr result (λ cause. budget_fault (placed_words arguments.now) ≡ Some cause) }
{
    let budget = whole_from_to(arguments, 0, 1, GREATEST_BUDGET)?;
    Ok(budget as u32)
}

/// What `EDTLANES` says: the number of lanes.
#[tactic(auto, unfolding(crate::specs::WordFaults::lanes_fault, crate::specs::Values::count_of))]
pub(crate) fn read_lanes(arguments: &PlacedWords) -> Result<u32, ControlCause>
    requires { 1 ≤ length (placed_words arguments.now) }
    ensures value { IfOk result (λ value. value ≡ count_of (placed_words arguments.now)) }
    ensures good { OnOk result (lanes_fault (placed_words arguments.now) ≡ None) }
    ensures limits { IfOk result (λ lanes. (1 ≤ lanes) × (lanes ≤ 64)) }
    ensures fault { IfErr result (λ cause. lanes_fault (placed_words arguments.now) ≡ Some cause) }
{
    let lanes = whole_from_to(arguments, 0, 1, MOST_LANES)?;
    Ok(lanes as u32)
}
