//! One word of a problem file, against the form that it has to have.

ghost use Rattle.std.specs.Prelude.{◌≡◌, ◌≤◌, ◌≤ℤ◌, pos, neg_ℤ, [], IfOk, unwrap_or, IsTrue, ◌↔◌, if◌then◌else◌};
ghost use Rattle.std.specs.Option.{option_copied};
ghost use Rattle.std.specs.Result.{result_err};
ghost use Rattle.text_terms.specs.Numerals.{value_of};
ghost use Rattle.edt_top.specs.Solve.ProblemFile.{is_number, has_minus, without_minus, signed_of, fault_in, Fixed, Whole, Observed};

use edt_text::digits_within;
use thiserror::Error;

/// Why a word of a problem file is faulty.
#[derive(Clone, Copy, Debug, PartialEq, Eq, Error)]
pub enum ProblemCause {
    /// The word isn't of its form, is missing, or is one too many.
    #[error("a word of another form")]
    Form,
    /// The word is a number out of its range.
    #[error("past a limit")]
    Limit,
}

const MOST_DIGITS: usize = 19;

// The greatest size of an observed time, and its greatest distance from the first pick's, in microseconds.
const MOST_TIME: u64 = 1_000_000_000_000;

const MOST_DISTANCE: u64 = 1_100_000_000_000;

// The number that 1 to 19 digits write.
pub fn number(word: &[u8]) -> Option<u64>
    ensures { result ≡ (if is_number word.now then Some (value_of word.now) else None) }
{
    if word.is_empty() || word.len() > MOST_DIGITS {
        return None;
    }
    digits_within(word, u64::MAX)
}

fn has_minus(word: &[u8]) -> bool
    ensures { result ≡ has_minus word.now }
{
    word.first() == Some(&b'-')
}

fn without_minus(word: &[u8]) -> &[u8]
    ensures { result.now ≡ without_minus word.now }
{
    match word {
        [b'-', digits @ ..] => digits,
        _ => word,
    }
}

// Why the word isn't this text.
pub fn fixed_in(word: Option<&[u8]>, text: &[u8]) -> Result<(), ProblemCause>
    ensures { result_err result ≡ fault_in (Fixed text.now) (option_copied word.entry) }
{
    match word {
        Some(word) if word == text => Ok(()),
        _ => Err(ProblemCause::Form),
    }
}

// The whole number that the word writes, or why it is none from `low` to `high`.
pub fn whole_in(word: Option<&[u8]>, low: u64, high: u64) -> Result<u64, ProblemCause>
    ensures fault { result_err result ≡ fault_in (Whole low high) (option_copied word.entry) }
    ensures value { IfOk result (λ v. v ≡ value_of (unwrap_or (option_copied word.entry) [])) }
    ensures least { IfOk result (λ v. low ≤ v) }
    ensures greatest { IfOk result (λ v. v ≤ high) }
{
    let Some(word) = word else {
        return Err(ProblemCause::Form)
    };
    match number(word) {
        Some(value) if low <= value && value <= high => Ok(value),
        Some(_) => Err(ProblemCause::Limit),
        None => Err(ProblemCause::Form),
    }
}

// The observed time that the word writes, in microseconds, beside that of the first pick, which itself has none before it.
pub fn observed_in(word: Option<&[u8]>, first: Option<i64>) -> Result<i64, ProblemCause>
    ensures fault { let text = unwrap_or (option_copied word.entry) [] in
        result_err result ≡ fault_in (Observed (unwrap_or first (signed_of text))) (option_copied word.entry) }
    ensures value { IfOk result (λ o. o ≡ signed_of (unwrap_or (option_copied word.entry) [])) }
{
    let Some(word) = word else {
        return Err(ProblemCause::Form)
    };
    let Some(size) = number(without_minus(word)) else {
        return Err(ProblemCause::Form)
    };
    if size > MOST_TIME {
        return Err(ProblemCause::Limit);
    }
    let observed = signed(has_minus(word), size);
    if observed.abs_diff(first.unwrap_or(observed)) > MOST_DISTANCE {
        return Err(ProblemCause::Limit);
    }
    Ok(observed)
}

// The number of this size, below 0 where `negative` is true.
fn signed(negative: bool, size: u64) -> i64
    requires { size ≤ 1000000000000 }
    ensures { result ≡ (if negative then neg_ℤ (pos size) else pos size) }
{
    if negative {
        -(size as i64)
    } else {
        size as i64
    }
}
