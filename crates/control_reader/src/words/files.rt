//! What the words of `LOCFILES` and `INCLUDE` say.
ghost use Rattle.std.specs.Prelude.{◌≡◌, ◌≢◌, ◌≤◌, false, ◌==◌, ◌&&◌, pos, length, IfOk, IfErr, OnOk, IsTrue, None, Some};
ghost use Rattle.text_terms.specs.Names.{is_name};
ghost use Rattle.edt_text.specs.PlacedWords.{placed_words};
ghost use Rattle.control_reader.specs.Words.{count_at};
ghost use Rattle.control_reader.specs.Values.{has_word, files_of, include_of};
ghost use Rattle.control_reader.specs.WordFaults.{from_to, optional, whole_fault, files_fault, include_fault};

use super::names::{has_wildcard, is_word, name_at};
use super::numbers::whole_from_to;
use crate::fault::ControlCause;
use crate::values::Files;
use edt_text::{Name, PlacedWords};
use std::alloc::Global;

// A limit of this project: bytes of a file's name.
const LONGEST_FILE: usize = 255;

/// What `LOCFILES` says.
#[tactic(auto, unfolding(crate::specs::WordFaults::files_fault, crate::specs::Values::files_of))]
pub(crate) fn read_files(alloc: Global, arguments: &PlacedWords) -> Result<Files, ControlCause>
    requires { 4 ≤ length (placed_words arguments.now) }
    ensures value { IfOk result (λ value. value ≡ files_of (placed_words arguments.now)) }
    ensures good { OnOk result (files_fault (placed_words arguments.now) ≡ None) }
    ensures limits { IfOk result (λ files. IsTrue (is_name 255 files.obs_file) × IsTrue (is_name 255 files.time_root)) }
    ensures fault { IfErr result (λ cause. cause ≢ ControlCause.Memory
        → files_fault (placed_words arguments.now) ≡ Some cause) }
{
    if has_wildcard(arguments.at(0)) {
        return Err(ControlCause::Name);
    }
    let obs_file = name_at(alloc, arguments, 0, LONGEST_FILE)?;
    if !is_word(arguments, 1, b"NLLOC_OBS") {
        return Err(ControlCause::FileType);
    }
    Ok(Files {
        obs_file,
        time_root: name_at(alloc, arguments, 2, LONGEST_FILE)?,
        swap: read_swap(arguments)?,
    })
}

/// What `INCLUDE` says: the name of a file.
#[tactic(auto, unfolding(crate::specs::WordFaults::include_fault, crate::specs::Values::include_of))]
pub(crate) fn read_include(alloc: Global, arguments: &PlacedWords) -> Result<Name, ControlCause>
    requires { 1 ≤ length (placed_words arguments.now) }
    ensures value { IfOk result (λ value. value ≡ include_of (placed_words arguments.now)) }
    ensures good { OnOk result (include_fault (placed_words arguments.now) ≡ None) }
    ensures limits { IfOk result (λ name. IsTrue (is_name 255 name)) }
    ensures fault { IfErr result (λ cause. cause ≢ ControlCause.Memory
        → include_fault (placed_words arguments.now) ≡ Some cause) }
{
    name_at(alloc, arguments, 0, LONGEST_FILE)
}

// iSwapBytes, or `false` where the word is absent.
fn read_swap(arguments: &PlacedWords) -> Result<bool, ControlCause>
    ensures value { IfOk result (λ swap. swap
        ≡ (has_word 4 (placed_words arguments.now) && (count_at 4 (placed_words arguments.now) == 1))) }
    ensures good { OnOk result (optional 4 (placed_words arguments.now) (whole_fault (from_to (pos 0) (pos 1)))
        ≡ None) }
    ensures fault { IfErr result (λ cause. optional 4 (placed_words arguments.now)
        (whole_fault (from_to (pos 0) (pos 1))) ≡ Some cause) }
{
    if !arguments.has(5) {
        return Ok(false);
    }
    let swap = whole_from_to(arguments, 4, 0, 1)?;
    Ok(swap == 1)
}
