//! A whole file is read, in whatever pieces it comes.
ghost use Rattle.std.specs.Prelude.{◌≡◌, [], ℕ, ◌+◌, ◌<◌, ◌≤◌, length, take, vec_len, Some, IfSome, OnSome, IfOk, OnOk};
ghost use Rattle.edt_outside.specs.Counts.{RisesExactly};
ghost use Rattle.edt_outside.specs.ReadFaults.{read_failed, read_absent, ReadsWhole, ReadsRest};

use crate::faults::{OpenFault, ReadFault};
use crate::shelves::Shelf;
use std::alloc::{AllocError, Global};

/// How many bytes are asked for at once.
const PIECE: usize = 65536;

/// Reads the whole file of this name, of at most `limit` bytes, in whatever pieces the shelf gives
/// it.
///
/// Refuses with `Absent` where there is no such file, with `Failed` where a call of the shelf failed,
/// with `TooLong` where more than `limit` bytes came, and with `Memory` where memory ran out. At most
/// `limit + 3` calls of the shelf are made, also where the file has no end.
pub fn read_all<S: Shelf>(
    alloc: Global,
    shelf: &mut S,
    name: &str,
    limit: usize,
) -> Result<Vec<u8>, ReadFault>
    ensures same_files { S.files shelf.new ≡ S.files shelf.old }
    ensures told { IfSome (S.files shelf.old) (λ file. ReadsWhole (file name.now) limit result) }
    ensures within { IfOk result (λ all. vec_len all ≤ limit) }
    ensures ended { OnSome (S.files shelf.old) (OnOk result (S.left shelf.new ≡ Some [])) }
    ensures faults { RisesExactly (read_failed result) (S.faults shelf.old) (S.faults shelf.new) }
    ensures misses { RisesExactly (read_absent result) (S.misses shelf.old) (S.misses shelf.new) }
    ensures lacks { S.lacks shelf.new ≡ S.lacks shelf.old }
    ensures calls_stay { S.calls shelf.old ≤ S.calls shelf.new }
    ensures calls { S.calls shelf.new ≤ S.calls shelf.old + limit + 3 }
{
    match shelf.open_file(name) {
        Ok(()) => read_rest(alloc, shelf, limit),
        Err(OpenFault::Absent) => Err(ReadFault::Absent),
        Err(OpenFault::Failed) => Err(ReadFault::Failed),
        Err(OpenFault::Memory) => Err(ReadFault::Memory),
    }
}

// What is left of the open file, of at most `limit` bytes. It is read straight into the vector, whose
// first `len` bytes are those that came.
fn read_rest<S: Shelf>(alloc: Global, shelf: &mut S, limit: usize) -> Result<Vec<u8>, ReadFault>
    ensures same_files { S.files shelf.new ≡ S.files shelf.old }
    ensures told { IfSome (S.left shelf.old) (λ bytes. ReadsRest bytes limit result) }
    ensures within { IfOk result (λ all. vec_len all ≤ limit) }
    ensures ended { OnSome (S.left shelf.old) (OnOk result (S.left shelf.new ≡ Some [])) }
    ensures faults { RisesExactly (read_failed result) (S.faults shelf.old) (S.faults shelf.new) }
    ensures misses { RisesExactly (read_absent result) (S.misses shelf.old) (S.misses shelf.new) }
    ensures lacks { S.lacks shelf.new ≡ S.lacks shelf.old }
    ensures calls_stay { S.calls shelf.old ≤ S.calls shelf.new }
    ensures calls { S.calls shelf.new ≤ S.calls shelf.old + limit + 2 }
{
    let mut all = Vec::new(alloc);
    let mut len = 0;
    while len <= limit {
        make_room(&mut all, len, limit)?;
        let Ok(n) = shelf.read(&mut all[len..]) else {
            return Err(ReadFault::Failed);
        };
        if n == 0 {
            all.truncate(len);
            return Ok(all);
        }
        len += n;
    }
    Err(ReadFault::TooLong)
}

// Fills the vector up where it has no room after its first `len` bytes, to at most `limit + 1`.
fn make_room(all: &mut Vec<u8>, len: usize, limit: usize) -> Result<(), AllocError>
    requires within { len ≤ limit }
    requires filled { len ≤ vec_len all.old }
    requires bound { vec_len all.old ≤ limit + 1 }
    ensures room { OnOk result (len < vec_len all.new) }
    ensures front { take len all.new.items ≡ take len all.old.items }
    ensures bound { vec_len all.new ≤ limit + 1 }
{
    if len < all.len() {
        return Ok(());
    }
    let more = (limit - len).min(PIECE - 1) + 1;
    all.resize(len + more, 0)
}
