//! How many bytes the lines of a block before its certificate have.
ghost use Rattle.std.specs.Prelude.{◌≤◌};

use edt_text::Name;
use station_table::{Picks, Skip, UsedPick};

// Room for the lines that aren't of a pick.
const FRAME: usize = 512;

// Room for what the line of a pick has beside its station and its phase.
const PICK: usize = 80;

/// How many bytes to reserve for the lines of a block before its certificate: a few more than they have.
pub(crate) fn room_before(picks: &Picks) -> usize {
    FRAME
        .saturating_add(used_size(&picks.used))
        .saturating_add(skipped_size(&picks.skipped))
}

// How many bytes the lines of the used picks have at most.
fn used_size(picks: &[UsedPick]) -> usize {
    let mut size: usize = 0;
    for pick in picks {
        size = size.saturating_add(pick_size(&pick.station, &pick.phase));
    }
    size
}

// How many bytes the lines of the other picks have at most.
fn skipped_size(picks: &[Skip]) -> usize {
    let mut size: usize = 0;
    for pick in picks {
        size = size.saturating_add(pick_size(&pick.station, &pick.phase));
    }
    size
}

// How many bytes the line of a pick has at most.
fn pick_size(station: &Name, phase: &Name) -> usize {
    PICK.saturating_add(station.as_str().len())
        .saturating_add(phase.as_str().len())
}
