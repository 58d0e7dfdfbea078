//! Times as dates and times of day.
ghost use Rattle.std.specs.Prelude.{◌≡◌, ◌++◌, ◌≤◌, ◌^◌, ◌≤ℤ◌, ◌<ℤ◌, OnOk, pos, unsigned_abs};
ghost use Rattle.location_report.specs.Dates.{civil_text, clock_text, date_of_day, date_text, day_clock_text, era_date, padded, year_text};
ghost use Rattle.location_report.specs.Inside.CivilDays.{civil_value};

use itoa::Buffer;
use jiff_core::civil::Date;
use std::alloc::AllocError;

/// The microseconds of a day.
const DAY: i64 = 86_400_000_000;

/// The days of 400 years, after which the calendar repeats itself.
const ERA: i64 = 146_097;

/// A day of the calendar.
#[derive(Clone, Copy)]
pub(crate) struct CivilDay {
    pub year: i64,
    pub month: u8,
    pub day: u8,
}

/// Appends the date of a time, which is given in microseconds from the start of 1970-01-01, as year, month and day.
pub(crate) fn push_date(out: &mut Vec<u8>, time: i64) -> Result<(), AllocError>
    ensures { OnOk result (out.new.items ≡ out.old.items ++ date_text time) }
{
    push_day(out, date_of_day(time.div_euclid(DAY)))
}

/// Appends the time of day of such a time, as hours, minutes, seconds and six digits of a second.
pub(crate) fn push_clock(out: &mut Vec<u8>, time: i64) -> Result<(), AllocError>
    ensures { OnOk result (out.new.items ≡ out.old.items ++ clock_text time) }
{
    push_day_clock(out, time.rem_euclid(DAY) as u64)
}

// The date of a day, counted from 1970-01-01.
fn date_of_day(day: i64) -> CivilDay
    requires { unsigned_abs day ≤ 2 ^ 40 }
    ensures { civil_value result ≡ date_of_day day }
{
    let date = era_date(day.rem_euclid(ERA));
    CivilDay {
        year: date.year + day.div_euclid(ERA) * 400,
        month: date.month,
        day: date.day,
    }
}

// The date of a day of the first 400 years from 1970 on.
fn era_date(day: i64) -> CivilDay
    requires low { pos 0 ≤ℤ day }
    requires high { day <ℤ pos 146097 }
    ensures date { civil_value result ≡ era_date (unsigned_abs day) }
    ensures year { unsigned_abs result.year ≤ 2369 }
{
    match Date::from_unix_epoch_day(day) {
        Ok(date) => CivilDay {
            year: i64::from(date.year),
            month: date.month,
            day: date.day,
        },
        Err(_) => unreachable!(),
    }
}

// Appends a date.
#[tactic(auto, unfolding(crate::specs::Dates::civil_text))]
fn push_day(out: &mut Vec<u8>, date: CivilDay) -> Result<(), AllocError>
    ensures { OnOk result (out.new.items ≡ out.old.items ++ civil_text (civil_value date)) }
{
    push_year(out, date.year)?;
    out.push(b'-')?;
    push_padded(out, 2, u64::from(date.month))?;
    out.push(b'-')?;
    push_padded(out, 2, u64::from(date.day))
}

// Appends a year, with four digits at least.
fn push_year(out: &mut Vec<u8>, year: i64) -> Result<(), AllocError>
    ensures { OnOk result (out.new.items ≡ out.old.items ++ year_text year) }
{
    if year < 0 {
        out.push(b'-')?;
    }
    push_padded(out, 4, year.unsigned_abs())
}

// Appends the time of day of so many microseconds.
#[tactic(auto, unfolding(crate::specs::Dates::day_clock_text))]
fn push_day_clock(out: &mut Vec<u8>, clock: u64) -> Result<(), AllocError>
    ensures { OnOk result (out.new.items ≡ out.old.items ++ day_clock_text clock) }
{
    push_padded(out, 2, clock / 3_600_000_000)?;
    out.push(b':')?;
    push_padded(out, 2, clock / 60_000_000 % 60)?;
    out.push(b':')?;
    push_padded(out, 2, clock / 1_000_000 % 60)?;
    out.push(b'.')?;
    push_padded(out, 6, clock % 1_000_000)
}

// Appends a number, with zeros before it where it has fewer digits.
fn push_padded(out: &mut Vec<u8>, width: usize, n: u64) -> Result<(), AllocError>
    ensures { OnOk result (out.new.items ≡ out.old.items ++ padded width n) }
{
    let mut buffer = Buffer::new();
    let digits = buffer.format(n).as_bytes();
    for _ in 0..width.saturating_sub(digits.len()) {
        out.push(b'0')?;
    }
    out.extend_from_slice(digits)
}
