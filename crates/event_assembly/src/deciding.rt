//! Which picks of each event are used, and whether they are enough.
ghost use Rattle.std.specs.Prelude.{◌≡◌, ◌<◌, ◌^◌, IfOk, All, length, count_by, pos, int_lt};
ghost use Rattle.control_reader.specs.Limits.{IsControl};
ghost use Rattle.control_reader.specs.ControlValues.{values_of};
ghost use Rattle.phase_reader.specs.Limits.{IsEvent};
ghost use Rattle.phase_reader.specs.PhaseFile.{picks_of_events};
ghost use Rattle.station_table.specs.Limits.{HoldsKeysOf, IsPlace, KeysDiffer};
ghost use Rattle.event_assembly.specs.Cases.{is_few, is_ready, is_s};
ghost use Rattle.event_assembly.specs.Inside.Deciding.{AreDecided};

use control_reader::Control;
use phase_reader::Event;
use station_table::{GridKey, KeyTable, Picks, Place, UsedPick};
use std::alloc::{AllocError, Global};

/// The most used picks of an event that is located.
pub(crate) const MOST_PICKS: usize = 256;

/// The picks of each event, decided, in the order of the events. Running out of memory is the only refusal.
pub(crate) fn decide(
    alloc: Global,
    control: &Control,
    events: &[Event],
    keys: &[GridKey],
    places: &[Place],
) -> Result<Vec<Picks>, AllocError>
    requires control { IsControl control.now }
    requires events { All IsEvent events.now }
    requires one_each { length keys.now ≡ length places.now }
    requires few { length keys.now < 2 ^ 32 }
    requires differ { KeysDiffer keys.now }
    requires holds { All (λ event. HoldsKeysOf (values_of control.now) keys.now event.picks.items) events.now }
    requires near { All IsPlace places.now }
    ensures { IfOk result (λ decided.
        AreDecided (values_of control.now) keys.now places.now (picks_of_events events.now) decided.items) }
{
    let mut table = KeyTable::new(alloc, control, keys, places)?;
    let mut decided = Vec::with_capacity(alloc, events.len())?;
    for event in events {
        let picks = table.use_picks(alloc, event)?;
        decided.push(picks)?;
    }
    Ok(decided)
}

/// Whether too few picks are used: fewer than two, or fewer than the control asks for, or fewer of the standard phase `S`.
#[tactic(auto, unfolding(crate::specs::Cases::is_few))]
pub(crate) fn is_few(control: &Control, used: &[UsedPick]) -> bool
    ensures { result ≡ is_few (values_of control.now) used.now }
{
    used.len() < 2
        || is_below(used.len(), control.min_phases)
        || is_below(s_count(used), control.min_s)
}

/// Whether as many picks are used as an event needs to be located.
pub(crate) fn is_ready(control: &Control, used: &[UsedPick]) -> bool
    ensures { result ≡ is_ready (values_of control.now) used.now }
{
    !is_few(control, used) && used.len() <= MOST_PICKS
}

// Whether a count is below a number.
fn is_below(count: usize, least: i64) -> bool
    ensures { result ≡ int_lt (pos count) least }
{
    least > 0 && (count as u64) < least.unsigned_abs()
}

// How many picks are of the standard phase `S`.
fn s_count(used: &[UsedPick]) -> usize
    ensures { result ≡ count_by is_s used.now }
{
    used.iter()
        .filter(|pick| pick.phase.as_str().as_bytes() == b"S".as_slice())
        .count()
}
