//! Which picks of an event are used.
ghost use Rattle.std.specs.Prelude.{IfOk, All, length};
ghost use Rattle.std.specs.List.{AllPairs};
ghost use Rattle.control_reader.specs.ControlValues.{values_of};
ghost use Rattle.control_reader.specs.Limits.{IsControl};
ghost use Rattle.phase_reader.specs.Limits.{IsEvent};
ghost use Rattle.station_table.specs.Using.{ArePicksOf};
ghost use Rattle.station_table.specs.Limits.{AreKeysOf, AreNear, IsUsedPick};

use crate::key_table::KeyTable;
use crate::keys::{GridKey, Place};
use crate::picks::Picks;
use control_reader::Control;
use phase_reader::Event;
use std::alloc::{AllocError, Global};

/// The picks of an event that are used, and those that aren't, each with its first reason, by nine rules of this project. The first two
/// give a pick its station and its standard phase by the statements `LOCALIAS` and `LOCPHASEID`, and the others are those of `Reason`,
/// in its order. For many events, make one `KeyTable`, and call its `use_picks`.
///
/// `keys` has fewer than 2^32 keys, none of them twice, and each key of the event that `wanted` names. `places` has the place of the
/// source of each key, in the same order, with coordinates of at most 10^10 mm in size. Control and event are within the limits in which
/// `read_control` and `read_phases` answer them. Running out of memory is the only refusal.
///
/// Times are in microseconds, weights in thousandths, distances in millimetres. The times of two used picks differ by at most
/// 2,200,000,000,000 microseconds, and each is at most 4*10^17 in size.
pub fn use_picks(
    alloc: Global,
    control: &Control,
    event: &Event,
    keys: &[GridKey],
    places: &[Place],
) -> Result<Picks, AllocError>
    requires control { IsControl control.now }
    requires event { IsEvent event.now }
    requires keys { AreKeysOf (values_of control.now) keys.now places.now event.now.picks.items }
    ensures value { IfOk result (ArePicksOf (values_of control.now) keys.now places.now event.now.picks.items) }
    ensures near { IfOk result (λ picks. AllPairs AreNear picks.used.items) }
    ensures limits { IfOk result (λ picks. All (IsUsedPick (length keys.now)) picks.used.items) }
{
    let mut table = KeyTable::new(alloc, control, keys, places)?;
    table.use_picks(alloc, event)
}
