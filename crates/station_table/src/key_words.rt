//! The words of a key, each where it stands.
ghost use Rattle.std.specs.Prelude.{◌≡◌, IfOk, IsTrue};
ghost use Rattle.text_terms.specs.Names.{is_name};
ghost use Rattle.control_reader.specs.ControlValues.{values_of};
ghost use Rattle.station_table.specs.Keys.{key_for, is_converted as spec_is_converted};

use crate::keys::GridKey;
use control_reader::Control;
use edt_text::Name;
use std::alloc::{AllocError, Global};

/// The words of a key, each where it stands. They are compared and hashed as the key's are, and no name is copied.
#[derive(Clone, Copy, PartialEq, Eq, Hash)]
pub(crate) struct KeyWords<'a> {
    station: &'a Name,
    phase: &'a Name,
    grid_phase: &'a str,
    converted: bool,
    ghost named: { IsTrue (is_name 512 grid_phase.now) },
}

impl<'a> KeyWords<'a> {
    ghost use Rattle.station_table.specs.Inside.KeyWords.{as_key};

    /// The words of a key.
    pub(crate) fn of(key: &'a GridKey) -> KeyWords<'a>
        ensures { as_key result ≡ key.now }
    {
        KeyWords {
            station: &key.station,
            phase: &key.phase,
            grid_phase: key.grid_phase.as_str(),
            converted: key.converted,
        }
    }

    /// The words of the key of a station and a standard phase.
    #[tactic(auto, unfolding(crate::specs::Keys::key_for))]
    pub(crate) fn for_phase(control: &Control, station: &'a Name, phase: &'a Name) -> KeyWords<'a>
        ensures { as_key result ≡ key_for (values_of control.now) station.now phase.now }
    {
        let converted = is_converted(control, phase);
        KeyWords {
            station,
            phase,
            grid_phase: if converted { "P" } else { phase.as_str() },
            converted,
        }
    }

    /// The key of these words.
    pub(crate) fn to_key(&self, alloc: Global) -> Result<GridKey, AllocError>
        ensures { IfOk result (λ key. key ≡ as_key self.now) }
    {
        let station = self.station.copy(alloc)?;
        let phase = self.phase.copy(alloc)?;
        let grid_phase = Name::of_valid(alloc, self.grid_phase.as_bytes())?;
        Ok(GridKey {
            station,
            phase,
            grid_phase,
            converted: self.converted,
        })
    }
}

// S times come from the P grids.
fn is_converted(control: &Control, phase: &Name) -> bool
    ensures { result ≡ spec_is_converted (values_of control.now) phase.now }
{
    phase.as_str() == "S" && control.vpvs > 0
}
