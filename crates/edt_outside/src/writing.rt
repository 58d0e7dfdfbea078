//! All bytes are written, in as many pieces as the sink needs.
ghost use Rattle.std.specs.Prelude.{◌≡◌, ◌<◌, length, take, is_err, IfErr, OnOk};
ghost use Rattle.edt_outside.specs.Counts.{RisesExactly};
ghost use Rattle.edt_outside.specs.Sinks.{Appends};

use crate::faults::PutFailed;
use crate::sinks::Sink;

/// Writes all the bytes, in order, in as many pieces as the sink needs.
///
/// Refuses where a write fails or takes nothing, and tells how many bytes were taken before. Each
/// write but the last takes at least one byte. It takes no memory.
pub fn put_all<O: Sink>(sink: &mut O, bytes: &[u8]) -> Result<(), PutFailed>
    ensures whole { OnOk result (Appends (O.taken sink.old) (O.taken sink.new) bytes.now) }
    ensures front { IfErr result (λ fault. Appends (O.taken sink.old) (O.taken sink.new) (take fault.taken bytes.now)) }
    ensures bound { IfErr result (λ fault. fault.taken < length bytes.now) }
    ensures faults { RisesExactly (is_err result) (O.faults sink.old) (O.faults sink.new) }
{
    let mut taken = 0;
    while taken < bytes.len() {
        match sink.write(&bytes[taken..]) {
            Ok(n) if n > 0 => taken += n,
            _ => return Err(PutFailed { taken }),
        }
    }
    Ok(())
}
