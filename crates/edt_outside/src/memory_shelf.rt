//! A shelf in memory, for tests and proofs: it fails at the calls that it is told.
ghost use Rattle.std.specs.Prelude.{◌≡◌, ◌≢◌, ◌↔◌, List, [], ℕ, ◌+◌, ◌^◌, ◌<◌, ◌≤◌, length, min, take, drop, is_err, is_ok, is_some, Option, Some, IsTrue, IfSome, IfOk, OnOk, OnErr, IsErr, IsErrOf, Contains, None, MatchOption, position};
ghost use Rattle.std.specs.List.{list_any};
ghost use Rattle.std.specs.Result.{result_unwrap_or};
ghost use Rattle.std.specs.Str.{bytes_eq};
ghost use Rattle.edt_outside.specs.Counts.{RisesExactly, one_more, one_more_if};
ghost use Rattle.edt_outside.specs.HasFaults.{has_failed, is_lacking, Tells};
ghost use Rattle.edt_outside.specs.OpenFaults.{open_failed, open_absent, Opens};
ghost use Rattle.edt_outside.specs.Shelves.{Files, Gives};
ghost use Rattle.edt_outside.specs.MemoryShelves.{NamesDiffer, told_entries, files_of, unread_of, opened_of};

use crate::counts::count_up;
use crate::faults::{Failed, HasFault, OpenFault};
use crate::names::Name;
use crate::shelves::Shelf;
use std::marker::Model;

/// A shelf in memory, which fails where it is told to.
///
/// The calls of its three methods are counted together from 1, and exactly those whose number is in
/// `failing` answer `Failed`; the number of a call stays at 2^64 - 1 once it stands there. A read that
/// does not fail gives as many bytes as the least of `piece`, the slice's length and what is left. It
/// tells everything and never answers `Memory`.
#[derive(Debug, Drop)]
pub struct MemoryShelf {
    files: Vec<(Name, Vec<u8>)>,
    piece: usize,
    failing: Vec<u64>,
    opened: Option<usize>,
    at: usize,
    faults: u64,
    misses: u64,
    lacks: u64,
    calls: u64,
}

impl Model for MemoryShelf {
    ghost use Rattle.std.specs.Prelude.{◌≤◌};
    ghost use Rattle.edt_outside.specs.MemoryShelves.{MemoryShelfState, told_entries, unread_of};

    ghost Value = { MemoryShelfState };

    ghost view = { λ s. record {
      entries = told_entries s.files.items;
      piece = s.piece;
      failing = s.failing.items;
      left = unread_of s.files.items s.opened s.at;
      faults = s.faults;
      misses = s.misses;
      lacks = s.lacks;
      calls = s.calls;
    } };

    ghost invariant = { λ s. 1 ≤ s.piece };
}

impl MemoryShelf {
    /// A shelf of these files, whose names differ, in pieces of at most `piece` bytes. No file is
    /// open, and all counts are 0. `failing` holds the numbers of the calls that fail.
    pub fn new(files: Vec<(Name, Vec<u8>)>, piece: usize, failing: Vec<u64>) -> MemoryShelf
        requires differ { NamesDiffer files.items }
        requires some { 1 ≤ piece }
        ensures { result ≡ record {
          entries = told_entries files.items;
          piece = piece;
          failing = failing.items;
          left = [];
          faults = 0;
          misses = 0;
          lacks = 0;
          calls = 0;
        } }
    {
        MemoryShelf {
            files,
            piece,
            failing,
            opened: None,
            at: 0,
            faults: 0,
            misses: 0,
            lacks: 0,
            calls: 0,
        }
    }
}

/// Whether no two of the names are equal.
pub fn names_differ(files: &[(Name, Vec<u8>)]) -> bool
    ensures { IsTrue result ↔ NamesDiffer files.now }
{
    let mut rest = files;
    while let Some((first, others)) = rest.split_first() {
        if is_among(first.0.as_bytes(), others) {
            return false;
        }
        rest = others;
    }
    true
}

// Whether one of the files has this name.
fn is_among(name: &[u8], files: &[(Name, Vec<u8>)]) -> bool
    ensures { result ≡ list_any (λ f. bytes_eq f.0 name.now) files.now }
{
    files.iter().any(|f| f.0.is(name))
}

// The place of the first entry of this name.
fn first_named(files: &[(Name, Vec<u8>)], name: &str) -> Option<usize>
    ensures { result ≡ position (λ f. bytes_eq f.0 name.now) files.now }
{
    let text = name.as_bytes();
    files.iter().position(|f| f.0.is(text))
}

// The place of the file of this name.
fn file_place(files: &[(Name, Vec<u8>)], name: &str) -> Option<usize>
    ensures { MatchOption result (files_of (told_entries files.now) name.now ≡ None)
        (λ place. files_of (told_entries files.now) name.now ≡ Some (unread_of files.now (Some place) 0)) }
{
    first_named(files, name)
}

// The unread bytes of the open file.
fn unread(files: &[(Name, Vec<u8>)], opened: Option<usize>, at: usize) -> &[u8]
    ensures bytes { result.now ≡ unread_of files.now opened at }
    ensures fits { at + length result.now < 2 ^ 64 }
{
    let Some(opened) = opened else {
        return &[];
    };
    match files.get(opened) {
        Some(f) if at < f.1.len() => &f.1[at..],
        _ => &[],
    }
}

impl Shelf for MemoryShelf {
    ghost files = { λ shelf. Some (files_of shelf.entries) };

    ghost left = { λ shelf. Some shelf.left };

    ghost faults = { λ shelf. shelf.faults };

    ghost misses = { λ shelf. shelf.misses };

    ghost lacks = { λ shelf. shelf.lacks };

    ghost calls = { λ shelf. shelf.calls };

    fn has(&mut self, name: &str) -> Result<bool, HasFault>
        ensures same_files { Some (files_of self.new.entries) ≡ Some (files_of self.old.entries) }
        ensures same_left { Some self.new.left ≡ Some self.old.left }
        ensures told { Tells (files_of self.old.entries name.now) result }
        ensures faults { RisesExactly (has_failed result) self.old.faults self.new.faults }
        ensures misses { self.new.misses ≡ self.old.misses }
        ensures lacks { RisesExactly (is_lacking result) self.old.lacks self.new.lacks }
        ensures calls_stay { self.old.calls ≤ self.new.calls }
        ensures one_call { self.new.calls ≤ self.old.calls + 1 }
        ensures bounded { (self.new.faults < 2 ^ 64) × (self.new.misses < 2 ^ 64) × (self.new.lacks < 2 ^ 64)
            × (self.new.calls < 2 ^ 64) }

        // Beyond what every shelf does.
        ensures fails { IsErrOf result HasFault.Failed ↔ Contains self.old.failing self.new.calls }
        ensures never_memory { result ≢ Err HasFault.Memory }
        ensures state { self.new ≡ record self.old {
          faults = one_more_if (has_failed result) self.old.faults;
          lacks = one_more_if (is_lacking result) self.old.lacks;
          calls = one_more self.old.calls;
        } }
    {
        self.calls = count_up(self.calls);
        if self.failing.contains(&self.calls) {
            self.faults = count_up(self.faults);
            return Err(HasFault::Failed);
        }
        if file_place(&self.files, name).is_some() {
            return Ok(true);
        }
        self.lacks = count_up(self.lacks);
        Ok(false)
    }

    fn open_file(&mut self, name: &str) -> Result<(), OpenFault>
        ensures same_files { Some (files_of self.new.entries) ≡ Some (files_of self.old.entries) }
        ensures told { Opens (files_of self.old.entries name.now) result (Some self.new.left) }
        ensures shut { OnErr result (self.new.left ≡ []) }
        ensures faults { RisesExactly (open_failed result) self.old.faults self.new.faults }
        ensures misses { RisesExactly (open_absent result) self.old.misses self.new.misses }
        ensures lacks { self.new.lacks ≡ self.old.lacks }
        ensures calls_stay { self.old.calls ≤ self.new.calls }
        ensures one_call { self.new.calls ≤ self.old.calls + 1 }
        ensures bounded { (self.new.faults < 2 ^ 64) × (self.new.misses < 2 ^ 64) × (self.new.lacks < 2 ^ 64)
            × (self.new.calls < 2 ^ 64) }

        // Beyond what every shelf does.
        ensures fails { IsErrOf result OpenFault.Failed ↔ Contains self.old.failing self.new.calls }
        ensures never_memory { result ≢ Err OpenFault.Memory }
        ensures state { self.new ≡ record self.old {
          left = opened_of result (files_of self.old.entries name.now);
          faults = one_more_if (open_failed result) self.old.faults;
          misses = one_more_if (open_absent result) self.old.misses;
          calls = one_more self.old.calls;
        } }
    {
        self.opened = None;
        self.calls = count_up(self.calls);
        if self.failing.contains(&self.calls) {
            self.faults = count_up(self.faults);
            return Err(OpenFault::Failed);
        }
        let Some(opened) = file_place(&self.files, name) else {
            self.misses = count_up(self.misses);
            return Err(OpenFault::Absent);
        };
        self.opened = Some(opened);
        self.at = 0;
        Ok(())
    }

    fn read(&mut self, into: &mut [u8]) -> Result<usize, Failed>
        ensures same_files { Some (files_of self.new.entries) ≡ Some (files_of self.old.entries) }
        ensures bound { IfOk result (λ n. n ≤ length into.old) }
        ensures told { IfOk result (λ n. Gives self.old.left n into.new (Some self.new.left)) }
        ensures kept { OnErr result (Some self.new.left ≡ Some self.old.left) }
        ensures faults { RisesExactly (is_err result) self.old.faults self.new.faults }
        ensures misses { self.new.misses ≡ self.old.misses }
        ensures lacks { self.new.lacks ≡ self.old.lacks }
        ensures calls_stay { self.old.calls ≤ self.new.calls }
        ensures one_call { self.new.calls ≤ self.old.calls + 1 }
        ensures bounded { (self.new.faults < 2 ^ 64) × (self.new.misses < 2 ^ 64) × (self.new.lacks < 2 ^ 64)
            × (self.new.calls < 2 ^ 64) }

        // Beyond what every shelf does.
        ensures fails { IsErr result ↔ Contains self.old.failing self.new.calls }
        ensures count { IfOk result (λ n. n ≡ min (min self.old.piece (length into.old)) (length self.old.left)) }
        ensures state { self.new ≡ record self.old {
          left = drop (result_unwrap_or result 0) self.old.left;
          faults = one_more_if (is_err result) self.old.faults;
          calls = one_more self.old.calls;
        } }
    {
        self.calls = count_up(self.calls);
        if self.failing.contains(&self.calls) {
            self.faults = count_up(self.faults);
            return Err(Failed);
        }
        let unread = unread(&self.files, self.opened, self.at);
        let n = self.piece.min(into.len()).min(unread.len());
        into[..n].copy_from_slice(&unread[..n]);
        self.at += n;
        Ok(n)
    }
}
