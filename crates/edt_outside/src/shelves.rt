//! What every shelf is: where files are read from.
ghost use Rattle.std.specs.Prelude.{◌≡◌, List, [], ℕ, ◌+◌, ◌^◌, ◌<◌, ◌≤◌, length, is_err, Option, IfSome, IfOk, OnErr};
ghost use Rattle.edt_outside.specs.Counts.{RisesExactly};
ghost use Rattle.edt_outside.specs.HasFaults.{has_failed, is_lacking, Tells};
ghost use Rattle.edt_outside.specs.OpenFaults.{open_failed, open_absent, Opens};
ghost use Rattle.edt_outside.specs.Shelves.{Files, Gives};

use crate::faults::{Failed, HasFault, OpenFault};

/// Files under names, of which one at a time is read from its first byte to its last.
///
/// A clause may name what a shelf tells: `files`, its files, which no call changes, and `left`, the
/// unread bytes of the file that was opened last. Either is an option, since a shelf need not tell.
/// Its counts are from 0 to 2^64 - 1, never fall, and stay at that last value: `faults` rises with each call
/// that fails, `misses` with each file that is absent at `open_file`, `lacks` with each that `has`
/// does not find, and `calls` with a call. No count rises for anything else. A shelf begins with an
/// empty `left` where it is told.
pub trait Shelf {
    ghost files: { Self → Option Files };

    ghost left: { Self → Option (List ℕ) };

    ghost faults: { Self → ℕ };

    ghost misses: { Self → ℕ };

    ghost lacks: { Self → ℕ };

    ghost calls: { Self → ℕ };

    /// Tells whether there is a file of this name, and opens none.
    fn has(&mut self, name: &str) -> Result<bool, HasFault>
        ensures same_files { files self.new ≡ files self.old }
        ensures same_left { left self.new ≡ left self.old }
        ensures told { IfSome (files self.old) (λ file. Tells (file name.now) result) }
        ensures faults { RisesExactly (has_failed result) (faults self.old) (faults self.new) }
        ensures misses { misses self.new ≡ misses self.old }
        ensures lacks { RisesExactly (is_lacking result) (lacks self.old) (lacks self.new) }
        ensures calls_stay { calls self.old ≤ calls self.new }
        ensures one_call { calls self.new ≤ calls self.old + 1 }
        ensures bounded { (faults self.new < 2 ^ 64) × (misses self.new < 2 ^ 64) × (lacks self.new < 2 ^ 64)
            × (calls self.new < 2 ^ 64) };

    /// Opens the file of this name, in place of the one that was open. After a refusal no file is
    /// open.
    fn open_file(&mut self, name: &str) -> Result<(), OpenFault>
        ensures same_files { files self.new ≡ files self.old }
        ensures told { IfSome (files self.old) (λ file. Opens (file name.now) result (left self.new)) }
        ensures shut { OnErr result (IfSome (left self.new) (λ bytes. bytes ≡ [])) }
        ensures faults { RisesExactly (open_failed result) (faults self.old) (faults self.new) }
        ensures misses { RisesExactly (open_absent result) (misses self.old) (misses self.new) }
        ensures lacks { lacks self.new ≡ lacks self.old }
        ensures calls_stay { calls self.old ≤ calls self.new }
        ensures one_call { calls self.new ≤ calls self.old + 1 }
        ensures bounded { (faults self.new < 2 ^ 64) × (misses self.new < 2 ^ 64) × (lacks self.new < 2 ^ 64)
            × (calls self.new < 2 ^ 64) };

    /// Reads some of the unread bytes of the open file into the front of `into`, and answers how
    /// many. Into a nonempty slice that is 0 only at the file's end, or where no file is open. A
    /// read that fails removes nothing, and may leave anything in `into`.
    fn read(&mut self, into: &mut [u8]) -> Result<usize, Failed>
        ensures same_files { files self.new ≡ files self.old }
        ensures bound { IfOk result (λ n. n ≤ length into.old) }
        ensures told { IfOk result (λ n. IfSome (left self.old) (λ unread. Gives unread n into.new (left self.new))) }
        ensures kept { OnErr result (left self.new ≡ left self.old) }
        ensures faults { RisesExactly (is_err result) (faults self.old) (faults self.new) }
        ensures misses { misses self.new ≡ misses self.old }
        ensures lacks { lacks self.new ≡ lacks self.old }
        ensures calls_stay { calls self.old ≤ calls self.new }
        ensures one_call { calls self.new ≤ calls self.old + 1 }
        ensures bounded { (faults self.new < 2 ^ 64) × (misses self.new < 2 ^ 64) × (lacks self.new < 2 ^ 64)
            × (calls self.new < 2 ^ 64) };
}
