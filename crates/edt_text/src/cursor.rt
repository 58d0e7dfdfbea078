//! The lines of bytes, one after another.
ghost use Rattle.std.specs.Prelude.{◌≡◌, ◌≢◌, ◌+◌, ◌-◌, ◌^◌, ◌<◌, [], ◌∷◌, ℕ, length, slice_index, EachIndex, IfNone, IfSome};
ghost use Rattle.text_terms.specs.Lines.{lines_of};

use memchr::memchr;

/// One line of a text.
#[derive(Clone, Copy)]
pub struct Line<'a> {
    /// The number of the line, counted from 1.
    pub number: u32,
    /// The bytes of the line, without the line feed.
    pub bytes: &'a [u8],
    /// Whether a line feed ends the line: false exactly for a last line without one.
    pub ended: bool,
}

/// A cursor over the lines of a text. It takes no memory.
#[derive(Clone, Copy)]
pub struct Lines<'a> {
    rest: &'a [u8],
    passed: u32,
    ghost numbered: { passed + length rest.now < 2 ^ 32 - 1 },
}

#[tactic(auto, unfolding(crate::specs::LineCursor::lines_left, crate::specs::LineCursor::lines_passed))]
impl<'a> Lines<'a> {
    ghost use Rattle.edt_text.specs.LineCursor.{line_text, lines_left, lines_passed};

    /// Stands before the first line of `bytes`, which are fewer than 2^32 - 1.
    pub fn new(bytes: &'a [u8]) -> Lines<'a>
        requires { length bytes.now < 2 ^ 32 - 1 }
        ensures lines { lines_left result ≡ lines_of bytes.now }
        ensures start { lines_passed result ≡ 0 }
    {
        Lines {
            rest: bytes,
            passed: 0,
        }
    }

    /// The number of the line that was given last, and 0 before the first.
    pub fn passed(&self) -> u32
        ensures { result ≡ lines_passed self.now }
    {
        self.passed
    }

    /// The next line, or `None` at the end. No bytes are no line, and so is an empty rest after the last line feed.
    pub fn next(&mut self) -> Option<Line<'a>>
        ensures end { IfNone result ((lines_left self.old ≡ []) × (self.new ≡ self.old)) }
        ensures line { IfSome result (λ line. lines_left self.old ≡ line_text line ∷ lines_left self.new) }
        ensures number { IfSome result (λ line. line.number ≡ lines_passed self.old + 1) }
        ensures passed { IfSome result (λ line. lines_passed self.new ≡ line.number) }
        ensures feeds { IfSome result (λ line. EachIndex line.bytes.now (λ k. slice_index line.bytes.now k ≢ 10)) }
    {
        if self.rest.is_empty() {
            return None;
        }
        let (bytes, rest, ended) = first_line(self.rest);
        self.rest = rest;
        self.passed += 1;
        Some(Line {
            number: self.passed,
            bytes,
            ended,
        })
    }
}

// The first line of a text that isn't empty, what stands after it, and whether a line feed ends it.
fn first_line(bytes: &[u8]) -> (&[u8], &[u8], bool)
    requires { 0 < length bytes.now }
    ensures line { lines_of bytes.now ≡ record { bytes = result.0.now; ended = result.2 } ∷ lines_of result.1.now }
    ensures feeds { EachIndex result.0.now (λ k. slice_index result.0.now k ≢ 10) }
    ensures shorter { length result.1.now < length bytes.now }
{
    match memchr(b'\n', bytes) {
        Some(end) => {
            let (line, rest) = bytes.split_at(end);
            (line, &rest[1..], true)
        }
        None => (bytes, &[], false),
    }
}
