//! The words of a line by their places.
ghost use Rattle.std.specs.Prelude.{◌≡◌, ◌≤◌, ◌<◌, ℕ, min, map, drop, nat_le, length};
ghost use Rattle.text_terms.specs.Words.{word_at};
ghost use Rattle.edt_text.specs.WordCursor.{words_left};

use crate::splitting::Words;

/// The most words of a line that are asked for by their places.
const PLACES: usize = 15;

/// The words of a line, of which the first fifteen are taken once; in the place of a word that is absent stand no bytes. It takes no
/// memory.
#[derive(Clone, Copy)]
pub struct PlacedWords<'a> {
    line: Words<'a>,
    first: [&'a [u8]; PLACES],
    count: usize,
    ghost counted: { count ≡ min 15 (length (words_left line)) },
    ghost taken: { (k : ℕ) → k < 15 → word_at k (map (λ word. word.now) first) ≡ word_at k (words_left line) },
}

impl<'a> PlacedWords<'a> {
    ghost use Rattle.edt_text.specs.PlacedWords.{placed_words};

    /// The words that a cursor still has to give.
    pub fn new(line: Words<'a>) -> PlacedWords<'a>
        ensures { placed_words result ≡ words_left line.entry }
    {
        let mut rest = line;
        let mut first: [&'a [u8]; PLACES] = [&[]; PLACES];
        let mut count = 0;
        while count < PLACES {
            let Some(word) = rest.next() else {
                break;
            };
            first[count] = word;
            count += 1;
        }
        PlacedWords { line, first, count }
    }

    /// Whether there are at least so many words, of 15 at most.
    pub fn has(&self, least: usize) -> bool
        requires { least ≤ 15 }
        ensures { result ≡ nat_le least (length (placed_words self.now)) }
    {
        least <= self.count
    }

    /// The word at a place, counted from 0; no bytes where there is none.
    pub fn at(&self, place: usize) -> &'a [u8]
        requires { place < 15 }
        ensures { result.now ≡ word_at place (placed_words self.now) }
    {
        self.first[place]
    }

    /// A cursor over the words after the first.
    pub fn after_first(&self) -> Words<'a>
        ensures { words_left result ≡ drop 1 (placed_words self.now) }
    {
        let mut words = self.line;
        let _first = words.next();
        words
    }
}
