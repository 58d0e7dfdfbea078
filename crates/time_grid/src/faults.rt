//! Why a body is refused, and the axes.
ghost use Rattle.std.specs.Prelude.{◌≡◌};
ghost use Rattle.time_grid.specs.declared.faults.AlignFault.TheVariants.{Memory as align_memory};
ghost use Rattle.time_grid.specs.declared.faults.GridFault.TheVariants.{Memory as grid_memory};
ghost use Rattle.time_grid.specs.Inside.Judging.{opening};
ghost use Rattle.time_grid.specs.Inside.Streams.{streamed};

use edt_outside::OpenFault;
use std::alloc::AllocError;
use thiserror::Error;

/// An axis of a grid.
#[derive(Clone, Copy, Debug, PartialEq, Eq)]
pub enum Axis {
    X,
    Y,
    Z,
}

/// Why a body was not read.
#[derive(Clone, Copy, Debug, PartialEq, Eq, Error)]
pub enum GridFault {
    /// There is no file of this name.
    #[error("no such file")]
    Absent,
    /// A call of the shelf failed.
    #[error("the shelf failed")]
    Failed,
    /// The file ends before 4 bytes per node.
    #[error("a body that ends early")]
    Short,
    /// A byte follows the 4 bytes per node.
    #[error("a body that goes on too long")]
    Long,
    /// The number of the first node whose time passes 2,000,000,000 microseconds.
    #[error("the time of node {0} is past its limit")]
    TimeLimit(u32),
    /// Memory ran out.
    #[error("out of memory")]
    Memory,
}

/// Why the times of search nodes were not picked out of a time grid.
#[derive(Clone, Copy, Debug, PartialEq, Eq, Error)]
pub enum AlignFault {
    /// The first axis on which some search node is not at a node of the time grid.
    #[error("search nodes that are not at nodes of the time grid")]
    NotAligned(Axis),
    /// Memory ran out.
    #[error("out of memory")]
    Memory,
}

/// Why the times of search nodes were not taken from a body.
#[derive(Clone, Copy, Debug, PartialEq, Eq, Error)]
pub enum StreamFault {
    /// There is no file of this name.
    #[error("no such file")]
    Absent,
    /// A call of the shelf failed.
    #[error("the shelf failed")]
    Failed,
    /// The file ends before 4 bytes per node of the time grid.
    #[error("a body that ends early")]
    Short,
    /// A byte follows the 4 bytes per node of the time grid.
    #[error("a body that goes on too long")]
    Long,
    /// The number of the first node of the time grid whose time passes 2,000,000,000 microseconds.
    #[error("the time of node {0} is past its limit")]
    TimeLimit(u32),
    /// The first axis on which some search node is not at a node of the time grid.
    #[error("search nodes that are not at nodes of the time grid")]
    NotAligned(Axis),
    /// The shelf had no memory to open the file.
    #[error("out of memory")]
    Memory,
}

impl From<AllocError> for GridFault {
    ghost from_gives = { λ _ fault. fault ≡ grid_memory };

    fn from(_error: AllocError) -> GridFault {
        GridFault::Memory
    }
}

impl From<OpenFault> for GridFault {
    ghost from_gives = { λ fault result. result ≡ opening fault };

    fn from(fault: OpenFault) -> GridFault {
        match fault {
            OpenFault::Absent => GridFault::Absent,
            OpenFault::Failed => GridFault::Failed,
            OpenFault::Memory => GridFault::Memory,
        }
    }
}

impl From<AllocError> for AlignFault {
    ghost from_gives = { λ _ fault. fault ≡ align_memory };

    fn from(_error: AllocError) -> AlignFault {
        AlignFault::Memory
    }
}

impl From<GridFault> for StreamFault {
    ghost from_gives = { λ fault result. result ≡ streamed fault };

    fn from(fault: GridFault) -> StreamFault {
        match fault {
            GridFault::Absent => StreamFault::Absent,
            GridFault::Failed => StreamFault::Failed,
            GridFault::Short => StreamFault::Short,
            GridFault::Long => StreamFault::Long,
            GridFault::TimeLimit(node) => StreamFault::TimeLimit(node),
            GridFault::Memory => StreamFault::Memory,
        }
    }
}
