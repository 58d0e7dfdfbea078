//! The reading of a control file.
ghost use Rattle.std.specs.Prelude.{◌≡◌, ◌≢◌, ◌≤◌, length, map, All, IfOk, IfErr, vec_len, IsTrue};
ghost use Rattle.text_terms.specs.Names.{is_name};
ghost use Rattle.control_reader.specs.ControlFile.{IsReading, IsControlFault};
ghost use Rattle.control_reader.specs.ControlLines.{control_lines};
ghost use Rattle.control_reader.specs.Inside.Said.{said_of};
ghost use Rattle.control_reader.specs.Inside.Follows.{Follows};
ghost use Rattle.control_reader.specs.Inside.SaidLimits.{IsWithin};
ghost use Rattle.control_reader.specs.Includes.{AreIncludes, IsIncludeFault, include_count};
ghost use Rattle.control_reader.specs.Limits.{IsControl};

use crate::control::Control;
use crate::draft::ControlDraft;
use crate::fault::{ControlCause, ControlFault};
use crate::includes::take_name;
use edt_text::{Lines, Name};
use std::alloc::Global;

/// The names of the files that a main control file of at most 1,048,576 bytes includes, in the order of its `INCLUDE` lines.
///
/// No other line is looked at. The first faulty `INCLUDE` line decides, with file 0, and in it the first of `LongLine`, `Fields`, `Name`
/// and `Limit`, which the seventeenth such line has. `Memory` comes when out of memory, and for nothing else.
pub fn include_names(alloc: Global, main: &[u8]) -> Result<Vec<Name>, ControlFault>
    requires { length main.now ≤ 1048576 }
    ensures value { IfOk result (λ names. AreIncludes main.now names.items) }
    ensures count { IfOk result (λ names. vec_len names ≡ include_count main.now) }
    ensures few { IfOk result (λ names. vec_len names ≤ 16) }
    ensures files { IfOk result (λ names. All (λ name. IsTrue (is_name 255 name)) names.items) }
    ensures fault { IfErr result (λ fault. fault.cause ≢ ControlCause.Memory → IsIncludeFault main.now fault) }
{
    let mut names = Vec::new(alloc);
    let mut lines = Lines::new(main);
    while let Some(line) = lines.next() {
        match take_name(alloc, line.bytes, &mut names) {
            Ok(()) => {}
            Err(cause) => {
                return Err(ControlFault {
                    file: 0,
                    line: line.number,
                    cause,
                });
            }
        }
    }
    Ok(names)
}

/// Reads a main control file and the files that it includes, one for each `INCLUDE` line, each of at most 1,048,576 bytes.
///
/// The statements are the lines of the main file with the lines of each included file in place of its `INCLUDE` line. The first faulty
/// line in this order decides, and in it the first cause, as `ControlCause` says. `Missing` comes after all lines, with file 0 and
/// line 0, in the order of `Keyword`. `Memory` comes when out of memory, and for nothing else.
pub fn read_control(
    alloc: Global,
    main: &[u8],
    included: &[Vec<u8>],
) -> Result<Control, ControlFault>
    requires main { length main.now ≤ 1048576 }
    requires files { length included.now ≡ include_count main.now }
    requires sizes { All (λ file. vec_len file ≤ 1048576) included.now }
    ensures value { IfOk result (IsReading main.now (map (λ file. file.items) included.now)) }
    ensures limits { IfOk result IsControl }
    ensures fault { IfErr result (λ fault. fault.cause ≢ ControlCause.Memory
        → IsControlFault main.now (map (λ file. file.items) included.now) fault) }
{
    let draft = read_lines(alloc, main, included)?;
    draft.finish()
}

// What all lines say, those of each included file after its line, or their first fault.
fn read_lines(
    alloc: Global,
    main: &[u8],
    included: &[Vec<u8>],
) -> Result<ControlDraft, ControlFault>
    requires main { length main.now ≤ 1048576 }
    requires files { length included.now ≡ include_count main.now }
    requires sizes { All (λ file. vec_len file ≤ 1048576) included.now }
    ensures follows { IfOk result (λ draft. Follows
        (control_lines main.now (map (λ file. file.items) included.now)) draft) }
    ensures limits { IfOk result (λ draft. IsWithin (said_of draft)) }
    ensures fault { IfErr result (λ fault. fault.cause ≢ ControlCause.Memory
        → IsControlFault main.now (map (λ file. file.items) included.now) fault) }
{
    let mut draft = ControlDraft::new(alloc);
    let mut lines = Lines::new(main);
    while let Some(line) = lines.next() {
        let before = draft.includes;
        draft.take_line(alloc, 0, line)?;
        let file = draft.includes;
        if file > before {
            draft.take_file(alloc, file, &included[before as usize])?;
        }
    }
    Ok(draft)
}
