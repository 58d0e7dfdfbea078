//! Why events can't be assembled.
ghost use Rattle.std.specs.Prelude.{◌≡◌};
ghost use Rattle.event_assembly.specs.declared.faults.AssembleFault.TheVariants.{Memory};

use edt_text::Name;
use grid_header::HeaderError;
use std::alloc::{AllocError, AllocFailed};
use std::fmt::{self, Formatter, Write};
use thiserror::Error;
use time_grid::{Axis, GridFault};

/// Why events can't be assembled.
#[derive(Drop, Error)]
pub enum AssembleFault {
    /// There is no file of this name, which is needed.
    #[error("no file {}", .0.as_str())]
    Absent(Name),
    /// A call of the shelf on the file of this name failed.
    #[error("the shelf failed at {}", .0.as_str())]
    Failed(Name),
    /// The header of this name is refused.
    #[error("header {}: {cause}", .name.as_str())]
    Header { name: Name, cause: HeaderError },
    /// The header of this name has more than 65,536 bytes.
    #[error("header {}: more than 65536 bytes", .0.as_str())]
    HeaderLong(Name),
    /// The body of this name is refused: `Short`, `Long`, or `TimeLimit` with the first node of the time grid whose time passes 2,000,000,000
    /// microseconds, or else with the first search node whose converted time does.
    #[error("body {}: {cause}", .name.as_str())]
    Body { name: Name, cause: GridFault },
    /// On this axis, the first such one, some search node is at no node of the time grid of the body of this name.
    #[error("body {}: search nodes that are at none of its nodes on axis {axis:?}", .name.as_str())]
    Align { name: Name, axis: Axis },
    /// The rows have more than 20,000,000 times.
    #[error("more than 20000000 times")]
    Cells,
    /// Memory is wanting.
    #[error("out of memory")]
    Memory,
}

// A name has no `Debug`, so a fault shows itself as its text.
impl fmt::Debug for AssembleFault {
    fn fmt<W: Write>(&self, f: &mut Formatter<W>) -> fmt::Result {
        fmt::Display::fmt(self, f)
    }
}

impl From<AllocError> for AssembleFault {
    ghost from_gives = { λ _ fault. fault ≡ Memory };

    fn from(_error: AllocError) -> AssembleFault {
        AssembleFault::Memory
    }
}

impl<T: Drop> From<AllocFailed<T>> for AssembleFault {
    ghost from_gives = { λ _ fault. fault ≡ Memory };

    fn from(_error: AllocFailed<T>) -> AssembleFault {
        AssembleFault::Memory
    }
}
