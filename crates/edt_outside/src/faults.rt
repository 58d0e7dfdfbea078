//! The refusals of shelves and sinks.
ghost use Rattle.std.specs.Prelude.{◌≡◌};
ghost use Rattle.edt_outside.specs.declared.faults.ReadFault.TheVariants.{Memory};

use std::alloc::AllocError;
use thiserror::Error;

/// Why `has` gave no answer.
#[derive(Clone, Copy, Debug, PartialEq, Eq, Error)]
pub enum HasFault {
    #[error("the shelf failed")]
    Failed,
    #[error("out of memory")]
    Memory,
}

/// Why a file was not opened.
#[derive(Clone, Copy, Debug, PartialEq, Eq, Error)]
pub enum OpenFault {
    #[error("no such file")]
    Absent,
    #[error("the shelf failed")]
    Failed,
    #[error("out of memory")]
    Memory,
}

/// A read or a write that failed.
#[derive(Clone, Copy, Debug, PartialEq, Eq, Error)]
#[error("a read or a write failed")]
pub struct Failed;

/// Why a file was not read whole.
#[derive(Clone, Copy, Debug, PartialEq, Eq, Error)]
pub enum ReadFault {
    #[error("no such file")]
    Absent,
    #[error("the shelf failed")]
    Failed,
    #[error("the file is too long")]
    TooLong,
    #[error("out of memory")]
    Memory,
}

impl From<AllocError> for ReadFault {
    ghost from_gives = { λ _ fault. fault ≡ Memory };

    fn from(_error: AllocError) -> ReadFault {
        ReadFault::Memory
    }
}

/// A piece that was not written whole: its first `taken` bytes were.
#[derive(Clone, Copy, Debug, PartialEq, Eq, Error)]
#[error("only {taken} bytes were written")]
pub struct PutFailed {
    pub taken: usize,
}
