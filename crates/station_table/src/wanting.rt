//! The time grids that the picks of events need.
ghost use Rattle.std.specs.Prelude.{◌≡◌, ◌≤◌, ◌*◌, ◌∷◌, [], IfOk, OnOk, All, length};
ghost use Rattle.control_reader.specs.ControlValues.{values_of};
ghost use Rattle.control_reader.specs.Limits.{IsControl};
ghost use Rattle.indexmap.specs.IndexSet.{insert_all};
ghost use Rattle.phase_reader.specs.Limits.{IsEvent};
ghost use Rattle.phase_reader.specs.PhaseFile.{picks_of_events};
ghost use Rattle.station_table.specs.Keys.{same_key, keys_of, wanted_keys};
ghost use Rattle.station_table.specs.Limits.{HoldsKeysOf, KeysDiffer, IsKey};

use crate::key_index::KeyIndex;
use crate::key_words::KeyWords;
use crate::keys::GridKey;
use crate::named_pick::NamedPick;
use control_reader::Control;
use phase_reader::{Event, Pick};
use std::alloc::{AllocError, Global};

/// The keys of all picks of all events that meet none of the reasons `Excluded`, `Weight0` and `ErrMag`, each once, in the order in
/// which they are first seen: so each event has the key of each of its picks that may need a grid among them. Picks that are unused
/// for another reason, such as duplicates, have theirs among them too.
///
/// Control and events are within the limits in which `read_control` and `read_phases` answer them. Running out of memory is the only refusal.
pub fn wanted(
    alloc: Global,
    control: &Control,
    events: &[Event],
) -> Result<Vec<GridKey>, AllocError>
    requires control { IsControl control.now }
    requires events { All IsEvent events.now }
    ensures value { IfOk result (λ keys.
        keys.items ≡ wanted_keys (values_of control.now) (picks_of_events events.now)) }
    ensures holds { IfOk result (λ keys. All (λ event.
        HoldsKeysOf (values_of control.now) keys.items event.picks.items) events.now) }
    ensures differ { IfOk result (λ keys. KeysDiffer keys.items) }
    ensures limits { IfOk result (λ keys. All IsKey keys.items) }
    ensures count { IfOk result (λ keys. length keys.items ≤ 4096 * length events.now) }
{
    let mut index = KeyIndex::new(alloc);
    for event in events {
        put_keys(&mut index, control, &event.picks)?;
    }
    index.to_keys(alloc)
}

// Puts the keys of the picks that may need a grid.
fn put_keys<'a>(
    index: &mut KeyIndex<'a>,
    control: &'a Control,
    picks: &'a [Pick],
) -> Result<(), AllocError>
    ensures { OnOk result (index.new ≡ insert_all same_key index.old (keys_of (values_of control.now) picks.now)) }
{
    for pick in picks {
        put_key(index, control, pick)?;
    }
    Ok(())
}

// Puts the key of a pick, if it may need a grid.
fn put_key<'a>(
    index: &mut KeyIndex<'a>,
    control: &'a Control,
    pick: &'a Pick,
) -> Result<(), AllocError>
    ensures { OnOk result (index.new
        ≡ insert_all same_key index.old (keys_of (values_of control.now) (pick.now ∷ []))) }
{
    let named = NamedPick::of(control, pick);
    match named.reason {
        Some(_) => Ok(()),
        None => index.put(KeyWords::for_phase(control, named.station, named.phase)),
    }
}
