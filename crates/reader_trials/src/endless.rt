//! A shelf whose every file goes on without end.
ghost use Rattle.std.specs.Prelude.{None};

use edt_outside::{Failed, HasFault, OpenFault, Shelf};

// Every file is there, and a read of it gives as many bytes as are asked for, up to a most. It tells nothing.
#[derive(Drop)]
pub struct Endless {
    pub most: usize,
}

impl Shelf for Endless {
    ghost files = { λ _. None };

    ghost left = { λ _. None };

    ghost faults = { λ _. 0 };

    ghost misses = { λ _. 0 };

    ghost lacks = { λ _. 0 };

    ghost calls = { λ _. 0 };

    fn has(&mut self, _name: &str) -> Result<bool, HasFault> {
        Ok(true)
    }

    fn open_file(&mut self, _name: &str) -> Result<(), OpenFault> {
        Ok(())
    }

    fn read(&mut self, into: &mut [u8]) -> Result<usize, Failed> {
        Ok(into.len().min(self.most))
    }
}
