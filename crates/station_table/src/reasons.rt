//! The reasons for which a pick isn't used.
ghost use Rattle.std.specs.Prelude.{◌≡◌, ℕ};
ghost use Rattle.control_reader.specs.ControlValues.{values_of};
ghost use Rattle.control_reader.specs.Limits.{IsControl};
ghost use Rattle.station_table.specs.Stations.{station_of, phase_of};
ghost use Rattle.station_table.specs.Reasons as spec;
ghost use Rattle.station_table.specs.Inside.Drafts as noted;
ghost use Rattle.station_table.specs.Using as rule;
ghost use Rattle.station_table.specs.Limits.{IsPlace};

use crate::distances::is_too_far;
use crate::keys::Place;
use crate::picks::Reason;
use control_reader::Control;
use edt_text::Name;
use phase_reader::Pick;

/// The first of `Excluded`, `Weight0` and `ErrMag` that holds for a pick of this station and this standard phase.
#[tactic(auto, unfolding(crate::specs::Reasons::early_reason))]
pub(crate) fn early_reason(
    control: &Control,
    pick: &Pick,
    station: &Name,
    phase: &Name,
) -> Option<Reason>
    requires station { station.now ≡ station_of (values_of control.now) pick.now }
    requires phase { phase.now ≡ phase_of (values_of control.now) pick.now }
    ensures { result ≡ spec.early_reason (values_of control.now) pick.now }
{
    if is_excluded(control, pick, station, phase) {
        Some(Reason::Excluded)
    } else if has_no_weight(pick) {
        Some(Reason::Weight0)
    } else if has_bad_error(pick) {
        Some(Reason::ErrMag)
    } else {
        None
    }
}

/// The first of the other reasons that holds for a pick, given whether an earlier pick has its key, where the source of its grid is, and
/// how many picks are used so far.
pub(crate) fn late_reason(
    control: &Control,
    is_met: bool,
    source: &Place,
    used: usize,
) -> Option<Reason>
    requires control { IsControl control.now }
    requires source { IsPlace source.now }
    ensures { result ≡ noted.late_reason (values_of control.now) is_met source.now used }
{
    if control.reject_duplicates && is_met {
        Some(Reason::Duplicate)
    } else if is_absent(source) {
        Some(Reason::NoGrid)
    } else if is_too_far(control, source) {
        Some(Reason::Far)
    } else if is_full(control, used) {
        Some(Reason::BeyondMax)
    } else {
        None
    }
}

// An exclusion names the station, and the phase word or the standard phase.
#[tactic(auto, unfolding(crate::specs::Reasons::is_excluded))]
fn is_excluded(control: &Control, pick: &Pick, station: &Name, phase: &Name) -> bool
    requires station { station.now ≡ station_of (values_of control.now) pick.now }
    requires phase { phase.now ≡ phase_of (values_of control.now) pick.now }
    ensures { result ≡ spec.is_excluded (values_of control.now) pick.now }
{
    control.excludes.iter().any(|exclude| {
        exclude.station == *station && (exclude.phase == pick.phase || exclude.phase == *phase)
    })
}

// The weight in thousandths is 0 or less.
fn has_no_weight(pick: &Pick) -> bool
    ensures { result ≡ spec.has_no_weight pick.now }
{
    pick.weight <= 0
}

// The error is negative or passes 100 seconds.
fn has_bad_error(pick: &Pick) -> bool
    ensures { result ≡ spec.has_bad_error pick.now }
{
    pick.error < 0 || pick.error > 100_000_000
}

// There is no grid.
fn is_absent(source: &Place) -> bool
    ensures { result ≡ rule.is_absent source.now }
{
    match source {
        Place::Absent => true,
        Place::At { .. } => false,
    }
}

// There is a greatest number of used picks, and so many are used.
fn is_full(control: &Control, used: usize) -> bool
    ensures { result ≡ rule.is_full (values_of control.now) used }
{
    control.max_phases > 0 && used as u64 >= control.max_phases.unsigned_abs()
}
