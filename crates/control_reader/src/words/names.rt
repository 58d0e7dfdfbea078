//! Names at the places of words, and words of a fixed text.
ghost use Rattle.std.specs.Prelude.{◌≡◌, ◌≢◌, ◌<◌, ◌≤◌, false, IfOk, IfErr, OnOk, IsTrue, None, Some};
ghost use Rattle.std.specs.List.{list_any};
ghost use Rattle.std.specs.Str.{bytes_eq};
ghost use Rattle.text_terms.specs.Names as names;
ghost use Rattle.text_terms.specs.Words.{word_at};
ghost use Rattle.edt_text.specs.PlacedWords.{placed_words};
ghost use Rattle.control_reader.specs.WordFaults.{name_fault, is_wildcard};

use crate::fault::ControlCause;
use edt_text::{Name, PlacedWords, is_name};
use std::alloc::Global;

/// The name of at most so many bytes at a place, or else `Name`.
pub(crate) fn name_at(
    alloc: Global,
    words: &PlacedWords,
    place: usize,
    most: usize,
) -> Result<Name, ControlCause>
    requires place { place < 15 }
    requires most { most ≤ 512 }
    ensures value { IfOk result (λ name. name ≡ word_at place (placed_words words.now)) }
    ensures form { IfOk result (λ name. IsTrue (names.is_name most name)) }
    ensures good { OnOk result (name_fault most (word_at place (placed_words words.now)) ≡ None) }
    ensures fault { IfErr result (λ cause. cause ≢ ControlCause.Memory
        → name_fault most (word_at place (placed_words words.now)) ≡ Some cause) }
{
    read_name(alloc, words.at(place), most)
}

/// Whether the word at a place is this text.
pub(crate) fn is_word(words: &PlacedWords, place: usize, text: &[u8]) -> bool
    requires { place < 15 }
    ensures { result ≡ bytes_eq (word_at place (placed_words words.now)) text.now }
{
    words.at(place) == text
}

/// The word as a name of at most so many bytes, or else `Name`.
pub(crate) fn read_name(alloc: Global, word: &[u8], most: usize) -> Result<Name, ControlCause>
    requires { most ≤ 512 }
    ensures value { IfOk result (λ name. name ≡ word.now) }
    ensures good { OnOk result (IsTrue (names.is_name most word.now)) }
    ensures fault { IfErr result (λ cause. cause ≢ ControlCause.Memory → (cause ≡ ControlCause.Name)
        × (names.is_name most word.now ≡ false)) }
{
    if !is_name(word, most) {
        return Err(ControlCause::Name);
    }
    Name::of_valid(alloc, word).map_err(|_| ControlCause::Memory)
}

/// A name of the same bytes, or else `Memory`.
pub(crate) fn copy_name(alloc: Global, name: &Name) -> Result<Name, ControlCause>
    ensures value { IfOk result (λ copy. copy ≡ name.now) }
    ensures memory { IfErr result (λ cause. cause ≡ ControlCause.Memory) }
{
    name.copy(alloc).map_err(|_| ControlCause::Memory)
}

/// Whether a file's name holds a byte that would make it a pattern: `*`, `?` or `[`.
pub(crate) fn has_wildcard(word: &[u8]) -> bool
    ensures { result ≡ list_any is_wildcard word.now }
{
    word.iter().any(|b| matches!(b, b'*' | b'?' | b'['))
}
