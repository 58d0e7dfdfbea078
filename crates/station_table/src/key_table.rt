//! The keys of a run, looked up by their names for one event after the other.
ghost use Rattle.std.specs.Prelude.{◌≡◌, ◌<◌, ◌^◌, IfOk, All, length};
ghost use Rattle.std.specs.List.{AllPairs};
ghost use Rattle.control_reader.specs.Limits.{IsControl};
ghost use Rattle.phase_reader.specs.Limits.{IsEvent};
ghost use Rattle.station_table.specs.KeyTables.{table_of};
ghost use Rattle.station_table.specs.Using.{ArePicksOf};
ghost use Rattle.station_table.specs.Limits.{AreNear, HoldsKeysOf, IsPlace, IsUsedPick, KeysDiffer};

use crate::draft::{Rules, draft_picks};
use crate::keys::{GridKey, Place};
use crate::met_keys::MetKeys;
use crate::picks::Picks;
use control_reader::Control;
use phase_reader::Event;
use std::alloc::{AllocError, Global};
use std::marker::Model;

/// The keys of a run with the places of their sources and the control, made once for all its events. Contracts see these three.
#[derive(Drop)]
pub struct KeyTable<'a> {
    rules: Rules<'a>,
    met: MetKeys,
}

impl<'a> Model for KeyTable<'a> {
    ghost use Rattle.std.specs.Prelude.{◌≡◌, length};
    ghost use Rattle.station_table.specs.KeyTables.{TableValues, table_of};
    ghost use Rattle.station_table.specs.Inside.Drafts.{AreRules};

    ghost Value = { TableValues };

    ghost view = { λ table. table_of table.rules.control.now table.rules.index table.rules.places.now };

    ghost invariant = { λ table. (AreRules table.rules) × (length table.met ≡ length table.rules.index) };
}

impl<'a> KeyTable<'a> {
    /// The table of fewer than 2^32 keys, none of them twice, and of the place of the source of each, in the same order, with coordinates
    /// of at most 10^10 mm in size. The control is within the limits in which `read_control` answers it. Running out of memory is the only
    /// refusal.
    pub fn new(
        alloc: Global,
        control: &'a Control,
        keys: &'a [GridKey],
        places: &'a [Place],
    ) -> Result<KeyTable<'a>, AllocError>
        requires control { IsControl control.now }
        requires one_each { length keys.now ≡ length places.now }
        requires few { length keys.now < 2 ^ 32 }
        requires differ { KeysDiffer keys.now }
        requires near { All IsPlace places.now }
        ensures { IfOk result (λ table. table ≡ table_of control.now keys.now places.now) }
    {
        let rules = Rules::new(alloc, control, keys, places)?;
        let met = MetKeys::new(alloc, keys.len())?;
        Ok(KeyTable { rules, met })
    }

    /// The picks of an event that are used, and those that aren't, as `use_picks` of this crate answers them. The keys hold each key of
    /// the event that `wanted` names, and the event is within the limits in which `read_phases` answers it. Running out of memory is the only
    /// refusal. The table is unchanged, so that it serves the next event.
    pub fn use_picks(&mut self, alloc: Global, event: &Event) -> Result<Picks, AllocError>
        requires event { IsEvent event.now }
        requires holds { HoldsKeysOf self.old.control self.old.keys event.now.picks.items }
        ensures value { IfOk result (ArePicksOf self.old.control self.old.keys self.old.places event.now.picks.items) }
        ensures near { IfOk result (λ picks. AllPairs AreNear picks.used.items) }
        ensures limits { IfOk result (λ picks. All (IsUsedPick (length self.old.keys)) picks.used.items) }
        ensures same { self.new ≡ self.old }
    {
        self.met.forget();
        draft_picks(alloc, &self.rules, &mut self.met, event)
    }
}
