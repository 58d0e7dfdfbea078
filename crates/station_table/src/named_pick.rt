//! What every pick is given first: its station, its standard phase, and the first of three reasons.
ghost use Rattle.std.specs.Prelude.{◌≡◌};
ghost use Rattle.control_reader.specs.ControlValues.{values_of};
ghost use Rattle.station_table.specs.Inside.Named.{IsNamed};

use crate::picks::Reason;
use crate::reasons::early_reason;
use crate::stations::{phase_of, station_of};
use control_reader::Control;
use edt_text::Name;
use phase_reader::Pick;

/// A pick with its station and its standard phase, and why it needs no time grid, if it needs none.
#[derive(Clone, Copy)]
pub(crate) struct NamedPick<'a> {
    /// The pick.
    pub pick: &'a Pick,
    /// The station, after its other names.
    pub station: &'a Name,
    /// The standard phase.
    pub phase: &'a Name,
    /// The first of `Excluded`, `Weight0` and `ErrMag` that holds.
    pub reason: Option<Reason>,
}

impl<'a> NamedPick<'a> {
    /// What a pick is given by a control.
    pub fn of(control: &'a Control, pick: &'a Pick) -> NamedPick<'a>
        ensures pick { result.pick.now ≡ pick.now }
        ensures named { IsNamed (values_of control.now) result }
    {
        let station = station_of(control, pick);
        let phase = phase_of(control, pick);
        NamedPick {
            pick,
            station,
            phase,
            reason: early_reason(control, pick, station, phase),
        }
    }
}
