//! What every sink is: where bytes are written to.
ghost use Rattle.std.specs.Prelude.{◌≡◌, List, ℕ, ◌^◌, ◌<◌, ◌≤◌, length, take, Option, IfOk, OnErr};
ghost use Rattle.edt_outside.specs.Counts.{Rose};
ghost use Rattle.edt_outside.specs.Sinks.{Appends};

use crate::faults::Failed;

/// An output that takes bytes.
///
/// A clause may name what a sink tells: `taken`, the bytes taken so far, an option, since a sink need
/// not tell. Its count `faults` is from 0 to 2^64 - 1, never falls and stays at that last value. It
/// rises with each write that fails or takes nothing of a nonempty piece, and for nothing else.
pub trait Sink {
    ghost taken: { Self → Option (List ℕ) };

    ghost faults: { Self → ℕ };

    /// Takes some bytes from the front of the piece, and answers how many. A write that fails takes
    /// none.
    fn write(&mut self, piece: &[u8]) -> Result<usize, Failed>
        ensures bound { IfOk result (λ n. n ≤ length piece.now) }
        ensures took { IfOk result (λ n. Appends (taken self.old) (taken self.new) (take n piece.now)) }
        ensures kept { OnErr result (taken self.new ≡ taken self.old) }
        ensures faults_stay { faults self.old ≤ faults self.new }
        ensures failed { OnErr result (Rose (faults self.old) (faults self.new)) }
        ensures took_nothing { IfOk result
            (λ n. n ≡ 0 → 0 < length piece.now → Rose (faults self.old) (faults self.new)) }
        ensures took_some { IfOk result (λ n. 0 < n → faults self.new ≡ faults self.old) }
        ensures empty_piece { IfOk result (λ _. length piece.now ≡ 0 → faults self.new ≡ faults self.old) }
        ensures bounded { faults self.new < 2 ^ 64 };
}
