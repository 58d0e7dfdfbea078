//! The writing of a text in parts.
ghost use Rattle.std.specs.Prelude.{◌≡◌, [], ◌∷◌, IfErr};
ghost use Rattle.edt_outside.specs.Counts.{RisesExactly};
ghost use Rattle.run_input.specs.Told.{Wrote};
ghost use Rattle.edt_top.specs.declared.writing.WriteFault.TheVariants.{Memory};
ghost use Rattle.edt_top.specs.Inside.Writing.{WritingEnds, write_failed};

use edt_outside::{Sink, put_all};
use std::alloc::{AllocError, AllocFailed};
use thiserror::Error;

// Why a text was not written whole.
#[derive(Clone, Copy, Debug, PartialEq, Eq, Error)]
pub enum WriteFault {
    // A write failed or took nothing.
    #[error("a failed write")]
    Failed,
    // Memory is wanting.
    #[error("out of memory")]
    Memory,
}

impl From<AllocError> for WriteFault {
    ghost from_gives = { λ _ fault. fault ≡ Memory };

    fn from(_error: AllocError) -> WriteFault {
        WriteFault::Memory
    }
}

impl<T: Drop> From<AllocFailed<T>> for WriteFault {
    ghost from_gives = { λ _ fault. fault ≡ Memory };

    fn from(_error: AllocFailed<T>) -> WriteFault {
        WriteFault::Memory
    }
}

// Writes a part of the text.
pub fn put_part<O: Sink>(out: &mut O, part: &[u8]) -> Result<(), WriteFault>
    ensures told { WritingEnds (part.now ∷ []) result (Wrote O.taken out.old out.new) }
    ensures writes { RisesExactly (write_failed result) (O.faults out.old) (O.faults out.new) }
    ensures kinds { IfErr result (λ fault. fault ≡ WriteFault.Failed) }
{
    match put_all(out, part) {
        Ok(()) => Ok(()),
        Err(_) => Err(WriteFault::Failed),
    }
}
