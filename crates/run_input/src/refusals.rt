//! Why the input of a run can't be read.
ghost use Rattle.std.specs.Prelude.{◌≡◌};
ghost use Rattle.run_input.specs.declared.refusals.Refusal.TheVariants.{Memory};
ghost use Rattle.run_input.specs.Refusals.{refusal_of_fault};

use control_reader::ControlFault;
use edt_text::Name;
use event_assembly::AssembleFault;
use grid_header::HeaderError;
use phase_reader::PhaseFault;
use std::alloc::{AllocError, AllocFailed};
use std::fmt::{self, Formatter, Write};
use thiserror::Error;
use time_grid::{Axis, GridFault};

/// Why the input of a run can't be read.
#[derive(Drop, Error)]
pub enum Refusal {
    /// The first faulty line of the control file or of one that it includes, or a missing statement.
    #[error("control {0}")]
    Control(ControlFault),
    /// The main control file, 0, or an included one, counted from 1, has more than 1,048,576 bytes.
    #[error("control file {0}: more than 1048576 bytes")]
    ControlTooLong(u32),
    /// The first faulty line of the phase file.
    #[error("phases {0}")]
    Phases(PhaseFault),
    /// The phase file has more than 16,777,216 bytes.
    #[error("phases: more than 16777216 bytes")]
    PhasesTooLong,
    /// The header of this name is refused.
    #[error("header {}: {cause}", .name.as_str())]
    Header { name: Name, cause: HeaderError },
    /// The header of this name has more than 65,536 bytes.
    #[error("header {}: more than 65536 bytes", .0.as_str())]
    HeaderLong(Name),
    /// The body of this name is refused: `Short`, `Long` or `TimeLimit`.
    #[error("body {}: {cause}", .name.as_str())]
    Body { name: Name, cause: GridFault },
    /// On this axis some search node is at no node of the time grid of the body of this name.
    #[error("body {}: search nodes that are at none of its nodes on axis {axis:?}", .name.as_str())]
    Align { name: Name, axis: Axis },
    /// The rows have more than 20,000,000 times.
    #[error("more than 20000000 times")]
    Cells,
    /// Memory is wanting.
    #[error("out of memory")]
    Memory,
    /// A call of the shelf on the file of this name failed.
    #[error("the shelf failed at {}", .0.as_str())]
    Read(Name),
    /// There is no file of this name, which is needed.
    #[error("no file {}", .0.as_str())]
    Absent(Name),
}

// A name has no `Debug`, so a refusal shows itself as its text.
impl fmt::Debug for Refusal {
    fn fmt<W: Write>(&self, f: &mut Formatter<W>) -> fmt::Result {
        fmt::Display::fmt(self, f)
    }
}

impl Refusal {
    ghost use Rattle.std.specs.Prelude.{◌≡◌};
    ghost use Rattle.run_input.specs.Refusals.{status_of};

    /// The status that names it: 3 for a control file, 4 for a phase file, 5 for time grids, 6 when out of memory, 7 for a failed call
    /// and 9 for an absent file.
    pub fn status(&self) -> u8
        ensures { result ≡ status_of self.now }
    {
        match self {
            Refusal::Control(_) | Refusal::ControlTooLong(_) => 3,
            Refusal::Phases(_) | Refusal::PhasesTooLong => 4,
            Refusal::Header { .. }
            | Refusal::HeaderLong(_)
            | Refusal::Body { .. }
            | Refusal::Align { .. }
            | Refusal::Cells => 5,
            Refusal::Memory => 6,
            Refusal::Read(_) => 7,
            Refusal::Absent(_) => 9,
        }
    }
}

impl From<AllocError> for Refusal {
    ghost from_gives = { λ _ refusal. refusal ≡ Memory };

    fn from(_error: AllocError) -> Refusal {
        Refusal::Memory
    }
}

impl<T: Drop> From<AllocFailed<T>> for Refusal {
    ghost from_gives = { λ _ refusal. refusal ≡ Memory };

    fn from(_error: AllocFailed<T>) -> Refusal {
        Refusal::Memory
    }
}

impl From<AssembleFault> for Refusal {
    ghost from_gives = { λ fault refusal. refusal ≡ refusal_of_fault fault };

    fn from(fault: AssembleFault) -> Refusal {
        match fault {
            AssembleFault::Absent(name) => Refusal::Absent(name),
            AssembleFault::Failed(name) => Refusal::Read(name),
            AssembleFault::Header { name, cause } => Refusal::Header { name, cause },
            AssembleFault::HeaderLong(name) => Refusal::HeaderLong(name),
            AssembleFault::Body { name, cause } => Refusal::Body { name, cause },
            AssembleFault::Align { name, axis } => Refusal::Align { name, axis },
            AssembleFault::Cells => Refusal::Cells,
            AssembleFault::Memory => Refusal::Memory,
        }
    }
}
