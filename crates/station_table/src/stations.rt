//! The station and the standard phase of a pick, and the delay of such a station and phase.
ghost use Rattle.std.specs.Prelude.{◌≡◌, ◌≤◌, ◌^◌, unsigned_abs};
ghost use Rattle.control_reader.specs.ControlValues.{values_of};
ghost use Rattle.control_reader.specs.Limits.{IsControl};
ghost use Rattle.station_table.specs.Stations as spec;
ghost use Rattle.station_table.specs.Using.{delay_for};

use control_reader::{Alias, Control};
use edt_text::Name;
use phase_reader::Pick;

/// The station of a pick: the other name that the first alias of its station gives whose two days enclose the pick's day, ends
/// included. That name isn't looked up again. Without such an alias it is the pick's own.
#[tactic(auto, unfolding(crate::specs::Stations::station_of))]
pub(crate) fn station_of<'a>(control: &'a Control, pick: &'a Pick) -> &'a Name
    ensures { result.now ≡ spec.station_of (values_of control.now) pick.now }
{
    match control
        .aliases
        .iter()
        .find(|alias| is_alias_of(pick, alias))
    {
        Some(alias) => &alias.alias,
        None => &pick.station,
    }
}

// Whether an alias is one of the pick's station on its day.
fn is_alias_of(pick: &Pick, alias: &Alias) -> bool
    ensures { result ≡ spec.is_alias_of pick.now alias.now }
{
    alias.station == pick.station
        && is_not_behind(alias.from, pick.day)
        && is_not_behind(pick.day, alias.to)
}

// Whether a day isn't after another one: year, month and day are compared in this order.
fn is_not_behind(day: (i64, i64, i64), other: (i64, i64, i64)) -> bool
    ensures { result ≡ spec.is_not_behind day other }
{
    day <= other
}

/// The standard phase of a pick: that of the first code that is its phase word, and without one the word itself.
#[tactic(auto, unfolding(crate::specs::Stations::phase_of))]
pub(crate) fn phase_of<'a>(control: &'a Control, pick: &'a Pick) -> &'a Name
    ensures { result.now ≡ spec.phase_of (values_of control.now) pick.now }
{
    match control.phase_ids.iter().find(|id| id.code == pick.phase) {
        Some(id) => &id.standard,
        None => &pick.phase,
    }
}

/// The delay of a station and a standard phase, in microseconds: that of the first statement that names both, and without one 0.
#[tactic(auto, unfolding(crate::specs::Using::delay_for))]
pub(crate) fn delay_of(control: &Control, station: &Name, phase: &Name) -> i64
    requires { IsControl control.now }
    ensures value { result ≡ delay_for (values_of control.now) station.now phase.now }
    ensures limit { unsigned_abs result ≤ 10 ^ 10 }
{
    match control
        .delays
        .iter()
        .find(|delay| delay.station == *station && delay.phase == *phase)
    {
        Some(delay) => delay.delay,
        None => 0,
    }
}
