//! A body that is read piece by piece.
ghost use Rattle.std.specs.Prelude.{◌≡◌, [], ℕ, ◌+◌, ◌-◌, ◌*◌, ◌/◌, ◌^◌, ◌<◌, ◌≤◌, All, length, None, Some, IfSome, OnSome, IfOk, OnOk, is_err, slice_index};
ghost use Rattle.edt_outside.specs.Counts.{RisesExactly};
ghost use Rattle.node_boxes.specs.Grid.{node_count};
ghost use Rattle.time_grid.specs.Inside.Judging.{IsAfter, JudgesBody, IsFirstOver};
ghost use Rattle.time_grid.specs.GridFaults.{ReadsBody, grid_absent, grid_failed};
ghost use Rattle.time_grid.specs.Numbers.{IsTime, number_at};
ghost use Rattle.time_grid.specs.Inside.Selections.{AreTaken, IsSelection, selection_size};

use crate::cursors::Cursor;
use crate::faults::GridFault;
use crate::numbers::{ByteOrder, first_over};
use crate::selections::Selection;
use edt_outside::{Failed, Shelf};

/// Reads the body of this name, of a grid of `nodes` nodes, in whatever pieces the shelf gives it. The times of the selected nodes are
/// put into `into`, in grid order.
pub(crate) fn read_body<S: Shelf>(
    shelf: &mut S,
    name: &str,
    order: ByteOrder,
    nodes: usize,
    selection: Selection,
    buffer: &mut [u8],
    into: &mut [u32],
) -> Result<(), GridFault>
    requires few { nodes ≤ 16000000 }
    requires selection { IsSelection nodes selection }
    requires room { 4 ≤ length buffer.old }
    requires places { length into.old ≡ node_count (selection_size selection) }
    ensures same_files { S.files shelf.new ≡ S.files shelf.old }
    ensures told { IfSome (S.files shelf.old)
        (λ file. ReadsBody order nodes (λ bytes _. AreTaken order selection bytes into.new)
        (file name.now) result) }
    ensures limit { OnOk result (All IsTime into.new) }
    ensures ended { OnSome (S.files shelf.old) (OnOk result (S.left shelf.new ≡ Some [])) }
    ensures faults { RisesExactly (grid_failed result) (S.faults shelf.old) (S.faults shelf.new) }
    ensures misses { RisesExactly (grid_absent result) (S.misses shelf.old) (S.misses shelf.new) }
    ensures lacks { S.lacks shelf.new ≡ S.lacks shelf.old }
    ensures calls_stay { S.calls shelf.old ≤ S.calls shelf.new }
    ensures calls { S.calls shelf.new ≤ S.calls shelf.old + 4 * nodes + 2 }
{
    shelf.open_file(name)?;
    read_open(shelf, order, nodes, selection, buffer, into)
}

// The same of the file that is open. The buffer begins with the `held` bytes, fewer than 4, that the last piece left over: those of a
// number that has begun.
fn read_open<S: Shelf>(
    shelf: &mut S,
    order: ByteOrder,
    nodes: usize,
    selection: Selection,
    buffer: &mut [u8],
    into: &mut [u32],
) -> Result<(), GridFault>
    requires few { nodes ≤ 16000000 }
    requires selection { IsSelection nodes selection }
    requires room { 4 ≤ length buffer.old }
    requires places { length into.old ≡ node_count (selection_size selection) }
    ensures same_files { S.files shelf.new ≡ S.files shelf.old }
    ensures told { IfSome (S.left shelf.old)
        (λ bytes. ReadsBody order nodes (λ bytes _. AreTaken order selection bytes into.new) (Some bytes) result) }
    ensures limit { OnOk result (All IsTime into.new) }
    ensures ended { OnSome (S.left shelf.old) (OnOk result (S.left shelf.new ≡ Some [])) }
    ensures faults { RisesExactly (grid_failed result) (S.faults shelf.old) (S.faults shelf.new) }
    ensures misses { RisesExactly (grid_absent result) (S.misses shelf.old) (S.misses shelf.new) }
    ensures lacks { S.lacks shelf.new ≡ S.lacks shelf.old }
    ensures calls_stay { S.calls shelf.old ≤ S.calls shelf.new }
    ensures calls { S.calls shelf.new ≤ S.calls shelf.old + 4 * nodes + 1 }
{
    let mut cursor = Cursor::new(selection);
    let mut passed = 0;
    let mut held = 0;
    let mut over = None;
    while 4 * passed + held <= 4 * nodes {
        let Ok(n) = fill(shelf, buffer, held) else {
            return Err(GridFault::Failed);
        };
        if n == 0 {
            return judge(nodes, passed, over);
        }
        held += n;
        let piece = &buffer[..held];
        over = later_over(over, order, passed, piece);
        cursor.take(order, passed, piece, into);
        let count = held / 4;
        keep_rest(buffer, 4 * count, held);
        passed += count;
        held -= 4 * count;
    }
    Err(GridFault::Long)
}

// Reads after the first `held` bytes of the buffer, and answers how many bytes came.
fn fill<S: Shelf>(shelf: &mut S, buffer: &mut [u8], held: usize) -> Result<usize, Failed>
    requires { held < length buffer.old }
    ensures same_files { S.files shelf.new ≡ S.files shelf.old }
    ensures bound { IfOk result (λ n. held + n ≤ length buffer.old) }
    ensures kept { (i : ℕ) → i < held → slice_index buffer.new i ≡ slice_index buffer.old i }
    ensures told { IfOk result (λ n. IfSome (S.left shelf.old)
        (λ unread. IsAfter unread n held buffer.new (S.left shelf.new))) }
    ensures faults { RisesExactly (is_err result) (S.faults shelf.old) (S.faults shelf.new) }
    ensures misses { S.misses shelf.new ≡ S.misses shelf.old }
    ensures lacks { S.lacks shelf.new ≡ S.lacks shelf.old }
    ensures calls_stay { S.calls shelf.old ≤ S.calls shelf.new }
    ensures one_call { S.calls shelf.new ≤ S.calls shelf.old + 1 }
{
    shelf.read(&mut buffer[held..])
}

// Moves the bytes from one place to another of the buffer to its front.
fn keep_rest(buffer: &mut [u8], from: usize, to: usize)
    requires order { from ≤ to }
    requires within { to ≤ length buffer.old }
    ensures { (i : ℕ) → i < to - from → slice_index buffer.new i ≡ slice_index buffer.old (from + i) }
{
    buffer.copy_within(from..to, 0);
}

// The first number past the limit of times, where `over` is that of the numbers before the piece.
fn later_over(over: Option<usize>, order: ByteOrder, passed: usize, piece: &[u8]) -> Option<usize>
    requires room { passed + length piece.now / 4 < 2 ^ 64 }
    ensures first { (times : ℕ → ℕ) → ((k : ℕ) → k < length piece.now / 4
        → times (passed + k) ≡ number_at order piece.now k)
        → IsFirstOver times passed over → IsFirstOver times (passed + length piece.now / 4) result }
    ensures before { result ≡ None → over ≡ None }
    ensures piece { result ≡ None → (k : ℕ) → k < length piece.now / 4 → IsTime (number_at order piece.now k) }
    ensures bound { IfSome over (λ k. k < passed) → IfSome result (λ k. k < passed + length piece.now / 4) }
{
    match over {
        Some(first) => Some(first),
        None => Some(passed + first_over(order, piece)?),
    }
}

// The answer where the file ended after `passed` numbers.
fn judge(nodes: usize, passed: usize, over: Option<usize>) -> Result<(), GridFault>
    requires few { nodes ≤ 16000000 }
    requires passed { passed ≤ nodes }
    requires over { IfSome over (λ k. k < passed) }
    ensures { JudgesBody nodes passed over result }
{
    if passed < nodes {
        return Err(GridFault::Short);
    }
    match over {
        Some(node) => Err(GridFault::TimeLimit(node as u32)),
        None => Ok(()),
    }
}
