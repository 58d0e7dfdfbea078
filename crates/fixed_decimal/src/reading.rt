//! Decimals, read with their first fault.
ghost use Rattle.std.specs.Prelude.{◌≡◌, ◌≢◌, ◌+◌, ◌*◌, ◌%◌, ◌/◌, ◌^◌, ◌<◌, ◌↔◌, ◌&&◌, not, ℕ, [], true, false, pos, ◌*ℤ◌, unsigned_abs, length, Some, None, IfOk, IfErr, IsErrOf};
ghost use Rattle.fixed_decimal.specs.Form.{has_form};
ghost use Rattle.fixed_decimal.specs.Leaving.{LeavesFormAt};
ghost use Rattle.fixed_decimal.specs.Nearest.{IsNearest};
ghost use Rattle.fixed_decimal.specs.Value.{signed, top_of, bottom_of, is_negative, is_out_of_range, size_of, millionths_of, whole_of};

use crate::form::first_fault;
use crate::size::size;
use thiserror::Error;

/// Why a text has no reading, in the order in which the causes are tested.
#[derive(Clone, Copy, Debug, PartialEq, Eq, Error)]
pub enum DecimalError {
    /// There are no bytes.
    #[error("an empty number")]
    Empty,
    /// The text leaves the form of a decimal at this place, counted from 0: its length where it is cut short.
    #[error("no number from place {0}")]
    BadByte(usize),
    /// More than 30 digits stand before the exponent, the exponent passes 30 in size, or the
    /// value, rounded to millionths, is 10^9 or more in size.
    #[error("a number out of range")]
    Range,
    /// The value is no whole number.
    #[error("not a whole number")]
    NotWhole,
}

// The sign of a decimal and its size in millionths.
#[derive(Clone, Copy)]
struct Rounded {
    negative: bool,
    size: u64,
}

/// The value of a decimal in millionths, rounded with halves away from zero.
///
/// Refuses with `Empty` no bytes, then with `BadByte` the first place where the text leaves the form, then with `Range` more than 30
/// digits before the exponent (zeros counted), an exponent of more than 30 in size, and an answer of 10^15 or more in size.
pub fn read_millionths(text: &[u8]) -> Result<i64, DecimalError>
    ensures value { IfOk result (λ x. millionths_of text.now ≡ Some x) }
    ensures nearest { IfOk result (λ x. IsNearest (top_of text.now) (bottom_of text.now) (unsigned_abs x)) }
    ensures sign { IfOk result (λ x. x ≡ signed (is_negative text.now) (unsigned_abs x)) }
    ensures small { IfOk result (λ x. unsigned_abs x < 10 ^ 15) }
    ensures none { IfErr result (λ _. millionths_of text.now ≡ None) }
    ensures empty { IsErrOf result DecimalError.Empty ↔ (text.now ≡ []) }
    ensures bad_byte { (k : ℕ) → IsErrOf result (DecimalError.BadByte k) ↔
        ((0 < length text.now) × LeavesFormAt text.now k) }
    ensures range { IsErrOf result DecimalError.Range ↔
        ((has_form text.now ≡ true) × (is_out_of_range text.now ≡ true)) }
    ensures whole { IsErrOf result DecimalError.NotWhole → ⊥ }
{
    match read(text) {
        Ok(rounded) => Ok(with_sign(rounded.negative, rounded.size)),
        Err(fault) => Err(fault),
    }
}

/// The value of a decimal, rounded to millionths, where that is a whole number.
///
/// Refuses as `read_millionths` does, and then with `NotWhole` millionths that aren't a multiple of 1,000,000.
pub fn read_whole(text: &[u8]) -> Result<i64, DecimalError>
    ensures value { IfOk result (λ x. whole_of text.now ≡ Some x) }
    ensures millionths { IfOk result (λ x. millionths_of text.now ≡ Some (x *ℤ pos 1000000)) }
    ensures small { IfOk result (λ x. unsigned_abs x < 10 ^ 9) }
    ensures none { IfErr result (λ _. whole_of text.now ≡ None) }
    ensures empty { IsErrOf result DecimalError.Empty ↔ (text.now ≡ []) }
    ensures bad_byte { (k : ℕ) → IsErrOf result (DecimalError.BadByte k) ↔
        ((0 < length text.now) × LeavesFormAt text.now k) }
    ensures range { IsErrOf result DecimalError.Range ↔
        ((has_form text.now ≡ true) × (is_out_of_range text.now ≡ true)) }
    ensures not_whole { IsErrOf result DecimalError.NotWhole ↔
        ((has_form text.now ≡ true) × (is_out_of_range text.now ≡ false) × (size_of text.now % 1000000 ≢ 0)) }
{
    match read(text) {
        Ok(rounded) if rounded.size % 1_000_000 == 0 => Ok(with_sign(
            rounded.negative,
            rounded.size / 1_000_000,
        )),
        Ok(_) => Err(DecimalError::NotWhole),
        Err(fault) => Err(fault),
    }
}

// The sign and the size of a decimal, or its first fault.
fn read(text: &[u8]) -> Result<Rounded, DecimalError>
    ensures form { IfOk result (λ _. (has_form text.now ≡ true) × (is_out_of_range text.now ≡ false)) }
    ensures size { IfOk result (λ r. (r.size ≡ size_of text.now) × (r.size < 10 ^ 15)) }
    ensures sign { IfOk result (λ r. r.negative ≡ is_negative text.now) }
    ensures none { IfErr result (λ _. (has_form text.now && not (is_out_of_range text.now)) ≡ false) }
    ensures empty { IsErrOf result DecimalError.Empty ↔ (text.now ≡ []) }
    ensures bad_byte { (k : ℕ) → IsErrOf result (DecimalError.BadByte k) ↔
        ((0 < length text.now) × LeavesFormAt text.now k) }
    ensures range { IsErrOf result DecimalError.Range ↔
        ((has_form text.now ≡ true) × (is_out_of_range text.now ≡ true)) }
    ensures whole { IsErrOf result DecimalError.NotWhole → ⊥ }
{
    if text.is_empty() {
        return Err(DecimalError::Empty);
    }
    if let Some(place) = first_fault(text) {
        return Err(DecimalError::BadByte(place));
    }
    match size(text) {
        Some(size) => Ok(Rounded {
            negative: text[0] == b'-',
            size,
        }),
        None => Err(DecimalError::Range),
    }
}

fn with_sign(negative: bool, size: u64) -> i64
    requires { size < 10 ^ 15 }
    ensures value { result ≡ signed negative size }
    ensures size { unsigned_abs result ≡ size }
{
    let size = size as i64;
    if negative { -size } else { size }
}
