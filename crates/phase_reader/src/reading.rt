//! The reading of a phase file.
ghost use Rattle.std.specs.Prelude.{◌≢◌, ◌≤◌, length, vec_len, All, IfOk, IfErr};
ghost use Rattle.phase_reader.specs.declared.fault.PhaseFault.{PhaseFault};
ghost use Rattle.phase_reader.specs.declared.phases.Phases.{Phases};
ghost use Rattle.phase_reader.specs.Limits.{IsEvent};
ghost use Rattle.phase_reader.specs.PhaseFile.{IsReading, IsPhaseFault};

use crate::draft::PhaseDraft;
use crate::fault::{PhaseCause, PhaseFault};
use crate::phases::Phases;
use edt_text::Lines;
use std::alloc::Global;

/// Reads a phase file of at most 16,777,216 bytes.
///
/// The lines are those between line feeds. The first faulty line decides, and in it the first cause in the order of `PhaseCause`:
/// `LongLine` for a line of any kind; then, for a pick, `Fields` for fewer than 11 words, the words from left to right, and `Limit`.
/// `Memory` comes when out of memory, and for nothing else.
pub fn read_phases(alloc: Global, bytes: &[u8]) -> Result<Phases, PhaseFault>
    requires { length bytes.now ≤ 16777216 }
    ensures value { IfOk result (λ phases. IsReading bytes.now phases) }
    ensures limits { IfOk result (λ phases. All IsEvent phases.events.items) }
    ensures few { IfOk result (λ phases. vec_len phases.events ≤ 10000) }
    ensures fault { IfErr result (λ fault. fault.cause ≢ PhaseCause.Memory → IsPhaseFault bytes.now fault) }
{
    let mut lines = Lines::new(bytes);
    let mut draft = PhaseDraft::new(alloc);
    while let Some(line) = lines.next() {
        match draft.take_line(alloc, line.number, line.bytes) {
            Ok(()) => {}
            Err(cause) => {
                return Err(PhaseFault {
                    line: line.number,
                    cause,
                });
            }
        }
    }
    match draft.finish(alloc) {
        Ok(phases) => Ok(phases),
        Err(cause) => Err(PhaseFault {
            line: lines.passed(),
            cause,
        }),
    }
}
