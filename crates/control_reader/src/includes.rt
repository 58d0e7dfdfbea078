//! The names of included files, read before the statements.
ghost use Rattle.std.specs.Prelude.{◌≡◌, ◌≢◌, ◌≤◌, ◌++◌, ℕ, Some, None, All, IsTrue, IfErr, OnOk, vec_len};
ghost use Rattle.text_terms.specs.Names.{is_name};
ghost use Rattle.control_reader.specs.Inside.IncludeNames.{names_in, name_fault_by};

use crate::fault::ControlCause;
use crate::statement::{Statement, split_line};
use crate::taking::{MOST_FILES, push};
use crate::words::read_include;
use edt_text::{LONGEST_LINE, Name, PlacedWords};
use std::alloc::Global;

/// Puts the name of the file that a line of the main file includes after the others, or answers the first fault in it. No other line is
/// looked at.
#[tactic(auto, unfolding(crate::specs::ControlLines::kind_of, crate::specs::ControlLines::arguments_of))]
pub(crate) fn take_name(
    alloc: Global,
    line: &[u8],
    names: &mut Vec<Name>,
) -> Result<(), ControlCause>
    requires few { vec_len names.old ≤ 16 }
    requires files { All (λ name. IsTrue (is_name 255 name)) names.old.items }
    ensures value { OnOk result ((number : ℕ)
        → names.new.items ≡ names.old.items ++ names_in (record { file = 0; number = number; bytes = line.now })) }
    ensures good { OnOk result ((number : ℕ)
        → name_fault_by (vec_len names.old) (record { file = 0; number = number; bytes = line.now }) ≡ None) }
    ensures few { OnOk result (vec_len names.new ≤ 16) }
    ensures files { OnOk result (All (λ name. IsTrue (is_name 255 name)) names.new.items) }
    ensures fault { IfErr result (λ cause. cause ≢ ControlCause.Memory → (number : ℕ)
        → name_fault_by (vec_len names.old) (record { file = 0; number = number; bytes = line.now }) ≡ Some cause) }
{
    let (kind, words) = split_line(line);
    if !kind.includes_file() {
        return Ok(());
    }
    if line.len() > LONGEST_LINE {
        return Err(ControlCause::LongLine);
    }
    let arguments = PlacedWords::new(words);
    if !arguments.has(Statement::Include.least()) {
        return Err(ControlCause::Fields);
    }
    push(names, read_include(alloc, &arguments))?;
    if names.len() > MOST_FILES as usize {
        return Err(ControlCause::Limit);
    }
    Ok(())
}
