//! For each key, whether a pick of an event was met that has it.
ghost use Rattle.std.specs.Prelude.{◌≡◌, ◌≤◌, ◌<◌, true, false, replicate, length, get_or, slice_set, All, IfOk};

use std::alloc::{AllocError, Global};
use std::marker::Model;
use std::mem;

/// For each key, whether it was met. Contracts see a list of truth values.
///
/// A key was met where its stamp is that of now, so that all are forgotten at once by another stamp.
#[derive(Drop)]
pub(crate) struct MetKeys {
    stamps: Vec<u32>,
    now: u32,
}

impl Model for MetKeys {
    ghost use Rattle.std.specs.Prelude.{◌≤◌, ◌==◌, Bool, List, map, All};

    ghost Value = { List Bool };

    ghost view = { λ met. map (λ stamp. stamp == met.now) met.stamps.items };

    ghost invariant = { λ met. All (λ stamp. stamp ≤ met.now) met.stamps.items };
}

impl MetKeys {
    /// None of so many keys was met.
    pub fn new(alloc: Global, keys: usize) -> Result<MetKeys, AllocError>
        ensures { IfOk result (λ met. met ≡ replicate keys false) }
    {
        Ok(MetKeys {
            stamps: vec![in alloc; 0; keys]?,
            now: 1,
        })
    }

    /// Forgets all keys, mostly without a pass over them.
    pub fn forget(&mut self)
        ensures { self.new ≡ replicate (length self.old) false }
    {
        self.now = next_stamp(&mut self.stamps, self.now);
    }

    /// Notes the key at this place, and answers whether it was met before.
    pub fn meet(&mut self, place: usize) -> bool
        requires { place < length self.old }
        ensures before { result ≡ get_or self.old place false }
        ensures after { self.new ≡ slice_set self.old place true }
    {
        mem::replace(&mut self.stamps[place], self.now) == self.now
    }
}

// A stamp past all that there are, which are set back where no number is left.
fn next_stamp(stamps: &mut [u32], now: u32) -> u32
    requires { All (λ stamp. stamp ≤ now) stamps.old }
    ensures later { All (λ stamp. stamp < result) stamps.new }
    ensures one_each { length stamps.new ≡ length stamps.old }
{
    if now == u32::MAX {
        stamps.fill(0);
        return 1;
    }
    now + 1
}
