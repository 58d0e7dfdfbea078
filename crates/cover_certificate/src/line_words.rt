//! The words of a line that are parted by single blanks.
ghost use Rattle.std.specs.Prelude.{◌≡◌, [], ◌∷◌, MatchOption, not};
ghost use Rattle.std.specs.List.{list_all};
ghost use Rattle.text_terms.specs.Words as words;
ghost use Rattle.cover_certificate.specs.LineWords.{parts};
ghost use Rattle.cover_certificate.specs.LineWords as line_words;
ghost use Rattle.cover_certificate.specs.Inside.WordsLeft.{words_left};

use memchr::memchr;
use std::marker::Model;

/// A cursor over the parts of a line that its blanks (byte 32) make. It takes no memory.
#[derive(Drop)]
pub struct LineWords<'a> {
    rest: Option<&'a [u8]>,
}

impl<'a> Model for LineWords<'a> {
    ghost use Rattle.std.specs.Prelude.{ℕ, List};
    ghost use Rattle.cover_certificate.specs.Inside.WordsLeft.{words_left};

    ghost Value = { List (List ℕ) };

    ghost view = { λ w. words_left w.rest };
}

impl<'a> LineWords<'a> {
    /// Stands before the first part.
    pub fn new(bytes: &'a [u8]) -> LineWords<'a>
        ensures { result ≡ parts bytes.now }
    {
        LineWords { rest: Some(bytes) }
    }

    /// The next part from left to right, or `None` where none is left.
    pub fn next(&mut self) -> Option<&'a [u8]>
        ensures { MatchOption result ((self.old ≡ []) × (self.new ≡ []))
            (λ word. self.old ≡ word.now ∷ self.new) }
    {
        let Some(bytes) = self.rest else {
            return None;
        };
        let (word, rest) = first_part(bytes);
        self.rest = rest;
        Some(word)
    }
}

// The first part of bytes, and what stands after its blank, if one does.
fn first_part(bytes: &[u8]) -> (&[u8], Option<&[u8]>)
    ensures { parts bytes.now ≡ result.0.now ∷ words_left result.1 }
{
    match memchr(b' ', bytes) {
        Some(end) => {
            let (word, rest) = bytes.split_at(end);
            (word, Some(&rest[1..]))
        }
        None => (bytes, None),
    }
}

/// Whether a part is a word: it has a byte, and none that parts words elsewhere.
pub fn is_plain(word: &[u8]) -> bool
    ensures { result ≡ line_words.is_plain word.now }
{
    !word.is_empty() && has_no_blank(word)
}

// Whether no byte parts words elsewhere.
fn has_no_blank(word: &[u8]) -> bool
    ensures { result ≡ list_all (λ b. not (words.is_blank b)) word.now }
{
    word.iter().all(|b| !is_blank(*b))
}

// Whether a byte parts words elsewhere: tab, vertical tab, form feed, carriage return and blank.
fn is_blank(b: u8) -> bool
    ensures { result ≡ words.is_blank b }
{
    matches!(b, b'\t' | 11..=13 | b' ')
}
