//! The shelf of the system's own files.
ghost use Rattle.std.specs.Prelude.{◌≡◌, ◌^◌, ◌<◌, None};

use crate::counts::count_up;
use crate::faults::{Failed, HasFault, OpenFault};
use crate::shelves::Shelf;
use std::fs::{File, Files, OpenFile};
use std::io::{ErrorKind, Read};

/// The files of the system, each under its path.
///
/// Only a file that does not exist is absent. Whatever else the system may answer, as for a folder in
/// place of a file, is `Failed`, but when out of memory. Its counts begin at 0 and stay at 2^64 - 1
/// once they stand there. It tells nothing of what the files hold.
#[derive(Drop)]
pub struct DirShelf<R: Files + Drop> {
    files: R,
    opened: Option<R::File>,
    faults: u64,
    misses: u64,
    lacks: u64,
    calls: u64,
    ghost bounded: { (faults < 2 ^ 64) × (misses < 2 ^ 64) × (lacks < 2 ^ 64) × (calls < 2 ^ 64) },
}

impl<R: Files + Drop> DirShelf<R> {
    /// The shelf of the files that the runtime gives. No file is open.
    pub fn new(files: R) -> DirShelf<R>
        ensures faults { ⟦<DirShelf<R> as Shelf>⟧.faults result ≡ 0 }
        ensures misses { ⟦<DirShelf<R> as Shelf>⟧.misses result ≡ 0 }
        ensures lacks { ⟦<DirShelf<R> as Shelf>⟧.lacks result ≡ 0 }
        ensures calls { ⟦<DirShelf<R> as Shelf>⟧.calls result ≡ 0 }
    {
        DirShelf {
            files,
            opened: None,
            faults: 0,
            misses: 0,
            lacks: 0,
            calls: 0,
        }
    }
}

// Whether there is a file at this path.
fn find<R: Files>(files: &R, name: &str) -> Result<bool, HasFault> {
    match files.metadata(name) {
        Ok(metadata) if metadata.is_dir() => Err(HasFault::Failed),
        Ok(_) => Ok(true),
        Err(error) => match error.kind() {
            ErrorKind::NotFound => Ok(false),
            ErrorKind::OutOfMemory => Err(HasFault::Memory),
            _ => Err(HasFault::Failed),
        },
    }
}

// The file at this path, opened.
fn open<R: Files>(files: &R, name: &str) -> Result<R::File, OpenFault> {
    match File::open(files, name) {
        Ok(file) => match file.metadata() {
            Ok(metadata) if !metadata.is_dir() => Ok(file),
            Err(error) if error.kind() == ErrorKind::OutOfMemory => Err(OpenFault::Memory),
            _ => Err(OpenFault::Failed),
        },
        Err(error) => match error.kind() {
            ErrorKind::NotFound => Err(OpenFault::Absent),
            ErrorKind::OutOfMemory => Err(OpenFault::Memory),
            _ => Err(OpenFault::Failed),
        },
    }
}

impl<R: Files + Drop> Shelf for DirShelf<R> {
    ghost files = { λ _. None };

    ghost left = { λ _. None };

    ghost faults = { λ shelf. shelf.faults };

    ghost misses = { λ shelf. shelf.misses };

    ghost lacks = { λ shelf. shelf.lacks };

    ghost calls = { λ shelf. shelf.calls };

    fn has(&mut self, name: &str) -> Result<bool, HasFault> {
        self.calls = count_up(self.calls);
        let answer = find(&self.files, name);
        match answer {
            Ok(false) => self.lacks = count_up(self.lacks),
            Err(HasFault::Failed) => self.faults = count_up(self.faults),
            _ => {}
        }
        answer
    }

    fn open_file(&mut self, name: &str) -> Result<(), OpenFault> {
        self.calls = count_up(self.calls);
        self.opened = None;
        match open(&self.files, name) {
            Ok(file) => {
                self.opened = Some(file);
                Ok(())
            }
            Err(fault) => {
                match fault {
                    OpenFault::Absent => self.misses = count_up(self.misses),
                    OpenFault::Failed => self.faults = count_up(self.faults),
                    OpenFault::Memory => {}
                }
                Err(fault)
            }
        }
    }

    fn read(&mut self, into: &mut [u8]) -> Result<usize, Failed> {
        self.calls = count_up(self.calls);
        let Some(file) = &mut self.opened else {
            return Ok(0);
        };
        match file.read(into) {
            Ok(n) => Ok(n),
            Err(_) => {
                self.faults = count_up(self.faults);
                Err(Failed)
            }
        }
    }
}
