//! The words of a header's first two lines.
ghost use Rattle.std.specs.Prelude.{◌≡◌, ◌≤◌, false, length, IfNone, IfSome};
ghost use Rattle.grid_header.specs.Layout.{has_shape};
ghost use Rattle.grid_header.specs.Inside.Parts.{AreHeaderWords};

use edt_text::{LONGEST_LINE, Lines, PlacedWords, Words};

/// The words of a header's first two lines by their places.
#[derive(Clone, Copy)]
pub(crate) struct HeaderWords<'a> {
    pub grid: PlacedWords<'a>,
    pub source: PlacedWords<'a>,
}

/// The words of a header, or `None` where it hasn't its shape.
pub(crate) fn header_words<'a>(bytes: &'a [u8]) -> Option<HeaderWords<'a>>
    requires { length bytes.now ≤ 65536 }
    ensures none { IfNone result (has_shape bytes.now ≡ false) }
    ensures some { IfSome result (AreHeaderWords bytes.now) }
{
    let mut lines = Lines::new(bytes);
    let first = lines.next()?.bytes;
    let second = lines.next()?.bytes;
    if first.len() > LONGEST_LINE || second.len() > LONGEST_LINE {
        return None;
    }
    let grid = PlacedWords::new(Words::new(first));
    let source = PlacedWords::new(Words::new(second));
    if !grid.has(10) {
        return None;
    }
    if !source.has(4) {
        return None;
    }
    Some(HeaderWords { grid, source })
}
