//! What the words of a pick mean.
ghost use Rattle.std.specs.Prelude.{◌≡◌, ◌+◌, ◌*◌, ◌<◌, ◌≤◌, ◌^◌, ◌+ℤ◌, ◌*ℤ◌, ◌&&◌, nat_le, if◌then◌else◌, pos, unsigned_abs, is_some, IsTrue, IfOk, IfErr, IfSome, OnOk, OnErr, slice_get, false};
ghost use Rattle.std.specs.Option.{option_map};
ghost use Rattle.fixed_decimal.specs.Value.{millionths_of};
ghost use Rattle.edt_text.specs.PlacedWords.{placed_words};
ghost use Rattle.phase_reader.specs.PickFields.{digits_of, date_of, clock_of, civil_of, time_of, clock_microseconds, is_date, is_clock, is_seconds, weight_of};
ghost use Rattle.phase_reader.specs.PickFaults.{seconds_fault, time_fault, is_weight};
ghost use Rattle.phase_reader.specs.Inside.PickDays.{civil_day, IsPickDay};

use crate::fault::PhaseCause;
use edt_text::{PlacedWords, digits_within};
use fixed_decimal::read_millionths;
use jiff::civil::Date;

/// The date and the time of a pick.
#[derive(Clone, Copy)]
pub(crate) struct PickTime {
    /// Year, month and day of the month.
    pub(crate) day: (i64, i64, i64),
    /// The microseconds from the start of 1970-01-01.
    pub(crate) time: i64,
}

// A day of the calendar.
#[derive(Clone, Copy)]
struct CivilDay {
    // Year, month and day of the month.
    date: (i64, i64, i64),
    // The days since 1970-01-01.
    number: i64,
}

/// What the date, the clock and the seconds of a line's words mean, or the first fault in them.
pub(crate) fn read_time(words: &PlacedWords) -> Result<PickTime, PhaseCause>
    ensures day { IfOk result (λ at. at.day ≡ civil_of (placed_words words.now)) }
    ensures time { IfOk result (λ at. at.time ≡ time_of (placed_words words.now)) }
    ensures bound { IfOk result (λ at. unsigned_abs at.time ≤ 3 * 10 ^ 17) }
    ensures good { OnOk result (time_fault (placed_words words.now) ≡ None) }
    ensures fault { IfErr result (λ cause. time_fault (placed_words words.now) ≡ Some cause) }
{
    let Some(day) = read_date(words.at(6)) else {
        return Err(PhaseCause::Date);
    };
    let Some(clock) = read_clock(words.at(7)) else {
        return Err(PhaseCause::Time);
    };
    let seconds = read_seconds(words.at(8))?;
    Ok(PickTime {
        day: day.date,
        time: time_at(day.number, clock, seconds),
    })
}

// The day that a word yyyymmdd names, if it is one of the Gregorian calendar in the years 1000 to 9998.
fn read_date(word: &[u8]) -> Option<CivilDay>
    ensures day { result ≡ option_map civil_day (date_of word.now) }
    ensures bound { IfSome result (λ day. IsPickDay day.number) }
{
    let number = read_digits(word, 8)?;
    day_of_number(number)
}

// The day that a number yyyymmdd names.
fn day_of_number(number: u32) -> Option<CivilDay>
    requires { number < 100000000 }
    ensures day { result ≡ (if is_date number then Some (civil_day number) else None) }
    ensures bound { IfSome result (λ day. IsPickDay day.number) }
{
    let (year, month, day) = (number / 10_000, number / 100 % 100, number % 100);
    if !is_year_in_range(year) {
        return None;
    }
    match Date::new(year as i16, month as i8, day as i8) {
        Ok(date) => Some(CivilDay {
            date: (i64::from(year), i64::from(month), i64::from(day)),
            number: i64::from(date.to_plain().to_unix_epoch_day()),
        }),
        Err(_) => None,
    }
}

// A year from 1000 to 9998.
fn is_year_in_range(year: u32) -> bool
    ensures { result ≡ (nat_le 1000 year && nat_le year 9998) }
{
    year >= 1000 && year <= 9998
}

// The microseconds of the day at which the minute of a word hhmm begins, if it is one from 0000 to 2359.
fn read_clock(word: &[u8]) -> Option<u64>
    ensures value { result ≡ option_map clock_microseconds (clock_of word.now) }
    ensures bound { IfSome result (λ clock. clock < 86400000000) }
{
    let number = read_digits(word, 4)?;
    clock_of_number(number)
}

// The microseconds of the day at which the minute of a number hhmm begins.
fn clock_of_number(number: u32) -> Option<u64>
    ensures value { result ≡ (if is_clock number then Some (clock_microseconds number) else None) }
    ensures bound { IfSome result (λ clock. clock < 86400000000) }
{
    if !is_minute(number) {
        return None;
    }
    Some(u64::from(number / 100) * 3_600_000_000 + u64::from(number % 100) * 60_000_000)
}

// A number hhmm from 0000 to 2359.
fn is_minute(number: u32) -> bool
    ensures { result ≡ is_clock number }
{
    number / 100 <= 23 && number % 100 <= 59
}

// The time of a day, the microseconds up to its minute and the seconds, in microseconds from the start of 1970-01-01.
fn time_at(day: i64, clock: u64, seconds: i64) -> i64
    requires day { IsPickDay day }
    requires clock { clock < 86400000000 }
    requires seconds { IsTrue (is_seconds seconds) }
    ensures value { result ≡ (day *ℤ pos 86400000000) +ℤ pos clock +ℤ seconds }
    ensures bound { unsigned_abs result ≤ 3 * 10 ^ 17 }
{
    day * 86_400_000_000 + clock as i64 + seconds
}

// Seconds in microseconds: a decimal, or else `Number`, from 0 to below 1000, or else `Time`.
fn read_seconds(word: &[u8]) -> Result<i64, PhaseCause>
    ensures value { IfOk result (λ seconds. millionths_of word.now ≡ Some seconds) }
    ensures good { IfOk result (λ seconds. IsTrue (is_seconds seconds)) }
    ensures fault { IfErr result (λ cause. seconds_fault (millionths_of word.now) ≡ Some cause) }
{
    let seconds = read_decimal(word)?;
    if seconds < 0 || seconds >= 1_000_000_000 {
        return Err(PhaseCause::Time);
    }
    Ok(seconds)
}

/// A decimal in millionths, or else `Number`.
pub(crate) fn read_decimal(word: &[u8]) -> Result<i64, PhaseCause>
    ensures value { IfOk result (λ value. millionths_of word.now ≡ Some value) }
    ensures small { IfOk result (λ value. unsigned_abs value < 10 ^ 15) }
    ensures none { OnErr result (millionths_of word.now ≡ None) }
    ensures fault { IfErr result (λ cause. cause ≡ PhaseCause.Number) }
{
    match read_millionths(word) {
        Ok(value) => Ok(value),
        Err(_) => Err(PhaseCause::Number),
    }
}

/// The prior weight of a line's words in thousandths, cut downwards, and 1000 without such a word. Where the word is no decimal it
/// is `Number`.
pub(crate) fn read_weight(words: &PlacedWords) -> Result<i64, PhaseCause>
    ensures value { IfOk result (λ weight. weight ≡ weight_of (slice_get (placed_words words.now) 14)) }
    ensures small { IfOk result (λ weight. unsigned_abs weight ≤ 10 ^ 12) }
    ensures good { IfOk result (λ _. IsTrue (is_weight (slice_get (placed_words words.now) 14))) }
    ensures bad { OnErr result (is_weight (slice_get (placed_words words.now) 14) ≡ false) }
    ensures fault { IfErr result (λ cause. cause ≡ PhaseCause.Number) }
{
    if !words.has(15) {
        return Ok(1000);
    }
    thousandths(words.at(14))
}

// A decimal in thousandths, cut downwards.
fn thousandths(word: &[u8]) -> Result<i64, PhaseCause>
    ensures value { IfOk result (λ weight. weight ≡ weight_of (Some word.now)) }
    ensures small { IfOk result (λ weight. unsigned_abs weight ≤ 10 ^ 12) }
    ensures good { IfOk result (λ _. IsTrue (is_some (millionths_of word.now))) }
    ensures bad { OnErr result (is_some (millionths_of word.now) ≡ false) }
    ensures fault { IfErr result (λ cause. cause ≡ PhaseCause.Number) }
{
    let millionths = read_decimal(word)?;
    Ok(millionths.div_euclid(1000))
}

// The number that a word of so many digits writes.
fn read_digits(word: &[u8], count: usize) -> Option<u32>
    requires { count ≤ 8 }
    ensures value { result ≡ digits_of count word.now }
    ensures bound { IfSome result (λ n. n < 10 ^ count) }
{
    if word.len() != count {
        return None;
    }
    let value = digits_within(word, 99_999_999)?;
    Some(value as u32)
}
