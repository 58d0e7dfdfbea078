//! Numbers at the places of words, each with its reading before its range.
ghost use Rattle.std.specs.Prelude.{◌≡◌, ◌≤◌, ◌<◌, ◌^◌, ◌≤ℤ◌, unsigned_abs, IfOk, IfErr, OnOk, OnErr, None, Some};
ghost use Rattle.fixed_decimal.specs.Value.{millionths_of, whole_of};
ghost use Rattle.edt_text.specs.PlacedWords.{placed_words};
ghost use Rattle.text_terms.specs.Words.{word_at};
ghost use Rattle.control_reader.specs.Words.{whole_at, millionths_at};
ghost use Rattle.control_reader.specs.WordFaults.{whole_fault, decimal_fault, any, from_to, at_most, in_size};

use crate::fault::ControlCause;
use edt_text::PlacedWords;
use fixed_decimal::{read_millionths, read_whole};

/// The whole number at a place, or else `Number`.
#[tactic(auto, unfolding(crate::specs::Words::whole_at))]
pub(crate) fn whole(words: &PlacedWords, place: usize) -> Result<i64, ControlCause>
    requires { place < 15 }
    ensures value { IfOk result (λ n. n ≡ whole_at place (placed_words words.now)) }
    ensures some { IfOk result (λ n. whole_of (word_at place (placed_words words.now)) ≡ Some n) }
    ensures size { IfOk result (λ n. unsigned_abs n < 10 ^ 9) }
    ensures good { OnOk result (whole_fault any (word_at place (placed_words words.now)) ≡ None) }
    ensures none { OnErr result (whole_of (word_at place (placed_words words.now)) ≡ None) }
    ensures fault { IfErr result (λ cause. whole_fault any (word_at place (placed_words words.now)) ≡ Some cause) }
    ensures number { IfErr result (λ cause. cause ≡ ControlCause.Number) }
{
    read_whole(words.at(place)).map_err(|_| ControlCause::Number)
}

/// The whole number at a place, from a least to a greatest, or else `Limit`.
pub(crate) fn whole_from_to(
    words: &PlacedWords,
    place: usize,
    least: i64,
    most: i64,
) -> Result<i64, ControlCause>
    requires { place < 15 }
    ensures value { IfOk result (λ n. n ≡ whole_at place (placed_words words.now)) }
    ensures range { IfOk result (λ n. (least ≤ℤ n) × (n ≤ℤ most)) }
    ensures good { OnOk result (whole_fault (from_to least most) (word_at place (placed_words words.now)) ≡ None) }
    ensures fault { IfErr result (λ cause. whole_fault (from_to least most)
        (word_at place (placed_words words.now)) ≡ Some cause) }
{
    let number = whole(words, place)?;
    if !is_from_to(least, most, number) {
        return Err(ControlCause::Limit);
    }
    Ok(number)
}

// The decimal at a place in millionths, or else `Number`.
#[tactic(auto, unfolding(crate::specs::Words::millionths_at))]
fn millionths(words: &PlacedWords, place: usize) -> Result<i64, ControlCause>
    requires { place < 15 }
    ensures value { IfOk result (λ n. n ≡ millionths_at place (placed_words words.now)) }
    ensures some { IfOk result (λ n. millionths_of (word_at place (placed_words words.now)) ≡ Some n) }
    ensures none { OnErr result (millionths_of (word_at place (placed_words words.now)) ≡ None) }
    ensures number { IfErr result (λ cause. cause ≡ ControlCause.Number) }
{
    read_millionths(words.at(place)).map_err(|_| ControlCause::Number)
}

/// The decimal at a place in millionths, from a least to a greatest, or else `Limit`.
pub(crate) fn millionths_from_to(
    words: &PlacedWords,
    place: usize,
    least: i64,
    most: i64,
) -> Result<i64, ControlCause>
    requires { place < 15 }
    ensures value { IfOk result (λ n. n ≡ millionths_at place (placed_words words.now)) }
    ensures range { IfOk result (λ n. (least ≤ℤ n) × (n ≤ℤ most)) }
    ensures good { OnOk result (decimal_fault (from_to least most) (word_at place (placed_words words.now)) ≡ None) }
    ensures fault { IfErr result (λ cause. decimal_fault (from_to least most)
        (word_at place (placed_words words.now)) ≡ Some cause) }
{
    let number = millionths(words, place)?;
    if !is_from_to(least, most, number) {
        return Err(ControlCause::Limit);
    }
    Ok(number)
}

/// The decimal at a place in millionths, at most so great in size, or else `Limit`.
pub(crate) fn millionths_in_size(
    words: &PlacedWords,
    place: usize,
    most: u64,
) -> Result<i64, ControlCause>
    requires { place < 15 }
    ensures value { IfOk result (λ n. n ≡ millionths_at place (placed_words words.now)) }
    ensures range { IfOk result (λ n. unsigned_abs n ≤ most) }
    ensures good { OnOk result (decimal_fault (in_size most) (word_at place (placed_words words.now)) ≡ None) }
    ensures fault { IfErr result (λ cause. decimal_fault (in_size most) (word_at place (placed_words words.now))
        ≡ Some cause) }
{
    let number = millionths(words, place)?;
    if number.unsigned_abs() > most {
        return Err(ControlCause::Limit);
    }
    Ok(number)
}

/// The decimal at a place in millionths, up to a greatest, or else `Limit`.
pub(crate) fn millionths_at_most(
    words: &PlacedWords,
    place: usize,
    most: i64,
) -> Result<i64, ControlCause>
    requires { place < 15 }
    ensures value { IfOk result (λ n. n ≡ millionths_at place (placed_words words.now)) }
    ensures range { IfOk result (λ n. n ≤ℤ most) }
    ensures good { OnOk result (decimal_fault (at_most most) (word_at place (placed_words words.now)) ≡ None) }
    ensures fault { IfErr result (λ cause. decimal_fault (at_most most) (word_at place (placed_words words.now))
        ≡ Some cause) }
{
    let number = millionths(words, place)?;
    if number > most {
        return Err(ControlCause::Limit);
    }
    Ok(number)
}

// Whether a number is from a least to a greatest.
fn is_from_to(least: i64, most: i64, number: i64) -> bool
    ensures { result ≡ from_to least most number }
{
    (least..=most).contains(&number)
}
