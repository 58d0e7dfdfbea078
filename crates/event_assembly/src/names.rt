//! The names of the files of time grids.
ghost use Rattle.std.specs.Prelude.{◌≡◌, IfOk, IsTrue};
ghost use Rattle.text_terms.specs.Names.{is_name};
ghost use Rattle.control_reader.specs.ControlValues.{values_of};
ghost use Rattle.station_table.specs.Limits.{IsKey};
ghost use Rattle.event_assembly.specs.Names.{header_name, body_name};

use control_reader::Control;
use edt_text::{Name, NameFault};
use station_table::GridKey;
use std::alloc::{AllocError, Global};

/// The name of the header of a key. Running out of memory is the only refusal.
pub(crate) fn header_name(
    alloc: Global,
    control: &Control,
    key: &GridKey,
) -> Result<Name, AllocError>
    requires root { IsTrue (is_name 255 control.now.time_root) }
    requires key { IsKey key.now }
    ensures { IfOk result (λ name. name ≡ header_name (values_of control.now) key.now) }
{
    let root = control.time_root.as_str();
    let phase = key.grid_phase.as_str();
    let station = key.station.as_str();
    let text = format!(in alloc; "{root}.{phase}.{station}.time.hdr")?;
    Name::of_valid(alloc, text.as_bytes())
}

/// The name of the body of a key. Running out of memory is the only refusal.
pub(crate) fn body_name(alloc: Global, control: &Control, key: &GridKey) -> Result<Name, AllocError>
    requires root { IsTrue (is_name 255 control.now.time_root) }
    requires key { IsKey key.now }
    ensures { IfOk result (λ name. name ≡ body_name (values_of control.now) key.now) }
{
    let root = control.time_root.as_str();
    let phase = key.grid_phase.as_str();
    let station = key.station.as_str();
    let text = format!(in alloc; "{root}.{phase}.{station}.time.usec")?;
    Name::of_valid(alloc, text.as_bytes())
}
