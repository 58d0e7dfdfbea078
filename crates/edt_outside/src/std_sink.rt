//! The sinks of the system: standard output and standard error.
ghost use Rattle.std.specs.Prelude.{◌≡◌, ◌^◌, ◌<◌, None};

use crate::counts::count_up;
use crate::faults::Failed;
use crate::sinks::Sink;
use std::io::{Stderr, Stdout, Write};

/// Standard output or standard error.
///
/// Its count begins at 0 and stays at 2^64 - 1 once it stands there. It tells nothing of what was
/// taken.
#[derive(Drop)]
pub struct StdSink<W: Write + Drop> {
    output: W,
    faults: u64,
    ghost bounded: { faults < 2 ^ 64 },
}

impl StdSink<Stdout> {
    /// The sink of standard output.
    pub fn out(output: Stdout) -> StdSink<Stdout>
        ensures { ⟦<StdSink<Stdout> as Sink>⟧.faults result ≡ 0 }
    {
        StdSink { output, faults: 0 }
    }
}

impl StdSink<Stderr> {
    /// The sink of standard error.
    pub fn err(output: Stderr) -> StdSink<Stderr>
        ensures { ⟦<StdSink<Stderr> as Sink>⟧.faults result ≡ 0 }
    {
        StdSink { output, faults: 0 }
    }
}

impl<W: Write + Drop> Sink for StdSink<W> {
    ghost taken = { λ _. None };

    ghost faults = { λ sink. sink.faults };

    fn write(&mut self, piece: &[u8]) -> Result<usize, Failed> {
        match self.output.write(piece) {
            Ok(0) => {
                if !piece.is_empty() {
                    self.faults = count_up(self.faults);
                }
                Ok(0)
            }
            Ok(n) => Ok(n),
            Err(_) => {
                self.faults = count_up(self.faults);
                Err(Failed)
            }
        }
    }
}
