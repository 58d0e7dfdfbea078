//! The words of one line, and the words of all lines of a text.
ghost use Rattle.std.specs.Prelude.{◌≡◌, [], ◌∷◌, not, position, IfNone, IfSome};
ghost use Rattle.text_terms.specs.Words.{runs, words_of, file_words};
ghost use Rattle.edt_text.specs.Inside.Parting.{parting};

/// A cursor over the words of one line: the longest runs of bytes other than tab, vertical tab, form feed, carriage return and
/// blank. A line feed parts no words here, so a text of several lines is read line by line. It takes no memory.
#[derive(Clone, Copy)]
pub struct Words<'a> {
    rest: &'a [u8],
}

#[tactic(auto, unfolding(crate::specs::WordCursor::words_left))]
impl<'a> Words<'a> {
    ghost use Rattle.edt_text.specs.WordCursor.{words_left};

    /// Stands before the first word of `line`.
    pub fn new(line: &'a [u8]) -> Words<'a>
        ensures { words_left result ≡ words_of line.now }
    {
        Words { rest: line }
    }

    /// The next word from left to right, or `None` where none is left.
    pub fn next(&mut self) -> Option<&'a [u8]>
        ensures end { IfNone result ((words_left self.old ≡ []) × (self.new ≡ self.old)) }
        ensures word { IfSome result (λ word. words_left self.old ≡ word.now ∷ words_left self.new) }
    {
        let Some((word, rest)) = first_word(self.rest, false) else {
            return None;
        };
        self.rest = rest;
        Some(word)
    }
}

/// A cursor over the words of all lines of a text, one line after another. It takes no memory.
#[derive(Clone, Copy)]
pub struct FileWords<'a> {
    rest: &'a [u8],
}

#[tactic(auto, unfolding(crate::specs::WordCursor::file_words_left))]
impl<'a> FileWords<'a> {
    ghost use Rattle.edt_text.specs.WordCursor.{file_words_left};

    /// Stands before the first word of the first line of `bytes`.
    pub fn new(bytes: &'a [u8]) -> FileWords<'a>
        ensures { file_words_left result ≡ file_words bytes.now }
    {
        FileWords { rest: bytes }
    }

    /// The next word, of the same line or of a later one, or `None` where none is left.
    pub fn next(&mut self) -> Option<&'a [u8]>
        ensures end { IfNone result ((file_words_left self.old ≡ []) × (self.new ≡ self.old)) }
        ensures word { IfSome result (λ word. file_words_left self.old ≡ word.now ∷ file_words_left self.new) }
    {
        let Some((word, rest)) = first_word(self.rest, true) else {
            return None;
        };
        self.rest = rest;
        Some(word)
    }
}

// The first word of bytes, and what stands after it, where line feeds part words as well or not.
fn first_word(bytes: &[u8], over_lines: bool) -> Option<(&[u8], &[u8])>
    ensures none { IfNone result (runs (parting over_lines) bytes.now ≡ []) }
    ensures some { IfSome result (λ cut. runs (parting over_lines) bytes.now
        ≡ cut.0.now ∷ runs (parting over_lines) cut.1.now) }
{
    let Some(start) = word_start(bytes, over_lines) else {
        return None;
    };
    let (_, tail) = bytes.split_at(start);
    let end = word_end(tail, over_lines).unwrap_or(tail.len());
    Some(tail.split_at(end))
}

// Where the first word begins.
fn word_start(bytes: &[u8], over_lines: bool) -> Option<usize>
    ensures { result ≡ position (λ b. not (parting over_lines b)) bytes.now }
{
    bytes.iter().position(|b| !parts_words(*b, over_lines))
}

// Where a word ends that begins in front, if not with the bytes.
fn word_end(bytes: &[u8], over_lines: bool) -> Option<usize>
    ensures { result ≡ position (parting over_lines) bytes.now }
{
    bytes.iter().position(|b| parts_words(*b, over_lines))
}

// Whether a byte parts words.
fn parts_words(b: u8, over_lines: bool) -> bool
    ensures { result ≡ parting over_lines b }
{
    matches!(b, b'\t' | 11..=13 | b' ') || over_lines && b == b'\n'
}
