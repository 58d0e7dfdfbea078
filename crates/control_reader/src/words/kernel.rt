//! What the words of `EDTKERNEL` say.
ghost use Rattle.std.specs.Prelude.{◌≡◌, ◌≤◌, ◌^◌, length, unsigned_abs, IfOk, IfErr, OnOk, None, Some};
ghost use Rattle.edt_text.specs.PlacedWords.{placed_words};
ghost use Rattle.control_reader.specs.Limits.{IsShape};
ghost use Rattle.control_reader.specs.Words.{millionths_at};
ghost use Rattle.control_reader.specs.Values.{shape_of};
ghost use Rattle.control_reader.specs.WordFaults.{limit_fault, shape_fault};

use super::names::is_word;
use super::numbers::millionths_from_to;
use crate::fault::ControlCause;
use edt_text::PlacedWords;
use kernel_table::Shape;

// A limit of this project: microseconds of the misfit up to which a pair counts.
const GREATEST_LIMIT: i64 = 1_000_000_000;

/// What `EDTKERNEL` says: the kernel.
#[tactic(auto, unfolding(crate::specs::WordFaults::shape_fault, crate::specs::Values::shape_of))]
pub(crate) fn read_shape(arguments: &PlacedWords) -> Result<Shape, ControlCause>
    requires { 1 ≤ length (placed_words arguments.now) }
    ensures value { IfOk result (λ value. value ≡ shape_of (placed_words arguments.now)) }
    ensures good { OnOk result (shape_fault (placed_words arguments.now) ≡ None) }
    ensures limits { IfOk result IsShape }
    ensures fault { IfErr result (λ cause. shape_fault (placed_words arguments.now) ≡ Some cause) }
{
    if is_word(arguments, 0, b"COUNT") {
        return Ok(Shape::Count(read_limit(arguments)?));
    }
    if is_word(arguments, 0, b"TRIANGLE") {
        return Ok(Shape::Triangle);
    }
    if is_word(arguments, 0, b"GAUSS") {
        return Ok(Shape::Gauss);
    }
    Err(ControlCause::FileType)
}

// The limit after `COUNT`, in microseconds.
fn read_limit(arguments: &PlacedWords) -> Result<u64, ControlCause>
    ensures value { IfOk result (λ limit. limit ≡ unsigned_abs (millionths_at 1 (placed_words arguments.now))) }
    ensures good { OnOk result (limit_fault (placed_words arguments.now) ≡ None) }
    ensures limits { IfOk result (λ limit. limit ≤ 10 ^ 9) }
    ensures fault { IfErr result (λ cause. limit_fault (placed_words arguments.now) ≡ Some cause) }
{
    if !arguments.has(2) {
        return Err(ControlCause::Fields);
    }
    let limit = millionths_from_to(arguments, 1, 0, GREATEST_LIMIT)?;
    Ok(limit as u64)
}
