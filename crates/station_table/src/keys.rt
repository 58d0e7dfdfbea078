//! Which time grid a pick needs, and where the sources of the grids are.
ghost use Rattle.std.specs.Prelude.{◌≡◌, ◌↔◌, IsTrue};
ghost use Rattle.station_table.specs.Keys.{same_key};

use edt_text::Name;

/// The time grid that the picks of a station and a standard phase need.
///
/// The grid is that of the standard phase, but where S times come from the P grids by the ratio of the velocities: then picks of the
/// standard phase `S` need the grid of `P`, whose times are converted.
#[derive(Drop, PartialEq, Eq, Hash)]
pub struct GridKey {
    /// The station, after its other names.
    pub station: Name,
    /// The standard phase.
    pub phase: Name,
    /// The phase of the grid.
    pub grid_phase: Name,
    /// The times of the grid are converted.
    pub converted: bool,
}

/// Whether two keys are the same, by each of their parts: so two keys are equal exactly where their values are.
pub fn are_same_keys(a: &GridKey, b: &GridKey) -> bool
    ensures same { result ≡ same_key a.now b.now }
    ensures equal { IsTrue result ↔ (a.now ≡ b.now) }
{
    a == b
}

/// Where the source of a time grid is, as its header says.
#[derive(Clone, Copy, Debug, PartialEq, Eq)]
pub enum Place {
    /// There is no such grid.
    Absent,
    /// The x and the y of its source, in millimetres.
    At { x: i64, y: i64 },
}
