//! A shelf that has no memory left from one of its calls on.
ghost use Rattle.std.specs.Prelude.{◌<◌, ◌^◌, None};

use edt_outside::{Failed, HasFault, MemoryShelf, OpenFault, Shelf};

// A shelf in memory that answers `Memory` where a file is asked for or opened, after so many of these calls. It tells nothing.
#[derive(Drop)]
pub struct ScarceShelf {
    pub shelf: MemoryShelf,
    pub left: u64,
    ghost faults_fit: { shelf.faults < 2 ^ 64 },
    ghost misses_fit: { shelf.misses < 2 ^ 64 },
    ghost lacks_fit: { shelf.lacks < 2 ^ 64 },
    ghost calls_fit: { shelf.calls < 2 ^ 64 },
}

impl Shelf for ScarceShelf {
    ghost files = { λ _. None };

    ghost left = { λ _. None };

    ghost faults = { λ scarce. scarce.shelf.faults };

    ghost misses = { λ scarce. scarce.shelf.misses };

    ghost lacks = { λ scarce. scarce.shelf.lacks };

    ghost calls = { λ scarce. scarce.shelf.calls };

    fn has(&mut self, name: &str) -> Result<bool, HasFault> {
        if self.left == 0 {
            return Err(HasFault::Memory);
        }
        self.left -= 1;
        self.shelf.has(name)
    }

    fn open_file(&mut self, name: &str) -> Result<(), OpenFault> {
        if self.left == 0 {
            return Err(OpenFault::Memory);
        }
        self.left -= 1;
        self.shelf.open_file(name)
    }

    fn read(&mut self, into: &mut [u8]) -> Result<usize, Failed> {
        self.shelf.read(into)
    }
}
