//! The kinds of lines.
ghost use Rattle.std.specs.Prelude.{◌≡◌};
ghost use Rattle.edt_text.specs.WordCursor.{words_left};
ghost use Rattle.phase_reader.specs.LineKinds as spec;
ghost use Rattle.phase_reader.specs.LineKinds.{kind_of_words};

use edt_text::Words;

/// What kind of line a line is, by its first word.
#[derive(Clone, Copy)]
pub(crate) enum LineKind {
    /// Without words. It parts events.
    Blank,
    /// Of a first word that begins with `#`.
    Comment,
    /// Of the first word `PUBLIC_ID`.
    PublicId,
    /// Every other line.
    PickLine,
}

/// The kind of a line of these words.
pub(crate) fn kind_of(mut words: Words) -> LineKind
    ensures { result ≡ kind_of_words (words_left words.entry) }
{
    match words.next() {
        None => LineKind::Blank,
        Some(word) => kind_of_first(word),
    }
}

// The kind of a line that begins with this word.
fn kind_of_first(word: &[u8]) -> LineKind
    ensures { result ≡ spec.kind_of_first word.now }
{
    if word.first() == Some(&b'#') {
        LineKind::Comment
    } else if word == b"PUBLIC_ID".as_slice() {
        LineKind::PublicId
    } else {
        LineKind::PickLine
    }
}
