//! A sink in memory, for tests and proofs: it fails at the writes that it is told, or is full.
ghost use Rattle.std.specs.Prelude.{◌≡◌, ◌↔◌, [], ℕ, ◌+◌, ◌-◌, ◌^◌, ◌<◌, ◌≤◌, ◌++◌, length, min, take, Some, IfOk, OnErr, IsErr, Contains};
ghost use Rattle.std.specs.Result.{result_unwrap_or};
ghost use Rattle.edt_outside.specs.Counts.{Rose, one_more, one_more_if};
ghost use Rattle.edt_outside.specs.MemorySinks.{is_fault};

use crate::counts::count_up;
use crate::faults::Failed;
use crate::sinks::Sink;
use std::alloc::{AllocError, Global};
use std::marker::Model;

/// A sink in memory, which fails where it is told to.
///
/// Its writes are counted from 1, and exactly those whose number is in `failing` fail; the number of
/// a write stays at 2^64 - 1 once it stands there. Each other write takes as many bytes as the least
/// of `piece`, the room left and the length offered. It tells everything.
#[derive(Debug, Drop)]
pub struct MemorySink {
    bytes: Vec<u8>,
    room: usize,
    piece: usize,
    failing: Vec<u64>,
    writes: u64,
    faults: u64,
}

impl Model for MemorySink {
    ghost use Rattle.std.specs.Prelude.{◌≤◌, vec_len, vec_capacity};
    ghost use Rattle.edt_outside.specs.MemorySinks.{MemorySinkState};

    ghost Value = { MemorySinkState };

    ghost view = { λ s. record { taken = s.bytes.items; room = s.room; piece = s.piece; failing = s.failing.items; writes = s.writes; faults = s.faults } };

    ghost invariant = { λ s. (vec_len s.bytes ≤ s.room) × (s.room ≤ vec_capacity s.bytes) };
}

impl MemorySink {
    /// A sink with room for `room` bytes, whose memory is taken here, in pieces of at most `piece`
    /// bytes. `failing` holds the numbers of the writes that fail.
    pub fn new(
        alloc: Global,
        room: usize,
        piece: usize,
        failing: Vec<u64>,
    ) -> Result<MemorySink, AllocError>
        requires { 1 ≤ piece }
        ensures { IfOk result (λ sink. sink
            ≡ record { taken = []; room = room; piece = piece; failing = failing.items; writes = 0; faults = 0 }) }
    {
        Ok(MemorySink {
            bytes: Vec::with_capacity(alloc, room)?,
            room,
            piece,
            failing,
            writes: 0,
            faults: 0,
        })
    }

    /// The bytes taken so far.
    pub fn bytes(&self) -> &[u8]
        ensures { result.now ≡ self.now.taken }
    {
        &self.bytes
    }
}

impl Sink for MemorySink {
    ghost taken = { λ sink. Some sink.taken };

    ghost faults = { λ sink. sink.faults };

    fn write(&mut self, piece: &[u8]) -> Result<usize, Failed>
        ensures bound { IfOk result (λ n. n ≤ length piece.now) }
        ensures took { IfOk result (λ n. Some self.new.taken ≡ Some (self.old.taken ++ take n piece.now)) }
        ensures kept { OnErr result (Some self.new.taken ≡ Some self.old.taken) }
        ensures faults_stay { self.old.faults ≤ self.new.faults }
        ensures failed { OnErr result (Rose self.old.faults self.new.faults) }
        ensures took_nothing { IfOk result (λ n. n ≡ 0 → 0 < length piece.now → Rose self.old.faults self.new.faults) }
        ensures took_some { IfOk result (λ n. 0 < n → self.new.faults ≡ self.old.faults) }
        ensures empty_piece { IfOk result (λ _. length piece.now ≡ 0 → self.new.faults ≡ self.old.faults) }
        ensures bounded { self.new.faults < 2 ^ 64 }

        // Beyond what every sink does.
        ensures fails { IsErr result ↔ Contains self.old.failing self.new.writes }
        ensures count { IfOk result (λ n. n
            ≡ min (min self.old.piece (self.old.room - length self.old.taken)) (length piece.now)) }
        ensures state { self.new ≡ record self.old {
          taken = self.old.taken ++ take (result_unwrap_or result 0) piece.now;
          writes = one_more self.old.writes;
          faults = one_more_if (is_fault piece.now result) self.old.faults;
        } }
    {
        self.writes = count_up(self.writes);
        if self.failing.contains(&self.writes) {
            self.faults = count_up(self.faults);
            return Err(Failed);
        }
        let left = self.room - self.bytes.len();
        let n = self.piece.min(left).min(piece.len());
        if n == 0 {
            if !piece.is_empty() {
                self.faults = count_up(self.faults);
            }
            return Ok(0);
        }
        self.bytes.extend_from_slice(&piece[..n]).unwrap();
        Ok(n)
    }
}
