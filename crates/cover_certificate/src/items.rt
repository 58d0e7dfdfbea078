//! Single lines of a certificate, read from a cursor.
ghost use Rattle.std.specs.Prelude.{◌≡◌, ◌≢◌, ◌+◌, [], ◌∷◌, ◌++◌, Some, IsTrue, IfOk, IfErr, IfNone, IfSome, true};
ghost use Rattle.std.specs.Prelude.{codes, length, ◌≤◌};
ghost use Rattle.text_terms.specs.Lines.{LineText};
ghost use Rattle.edt_text.specs.LineCursor.{line_text, lines_left, lines_passed};
ghost use Rattle.cover_certificate.specs.BlockLines.{ended_line, numbers_line, entry_numbers, box_numbers};
ghost use Rattle.cover_certificate.specs.Kinds.{first_bytes};
ghost use Rattle.cover_certificate.specs.LineFaults.{line_fault};
ghost use Rattle.cover_certificate.specs.LineForms.{FirstLine, Numbered, LastLine, are_allowed, slots_of};
ghost use Rattle.cover_certificate.specs.declared.line_form.LineForm.TheVariants.{Best, Near, Entry, Cover, Area};
ghost use Rattle.cover_certificate.specs.Inside.FirstFaults.{first_fault};
ghost use Rattle.cover_certificate.specs.Inside.FirstFaults as first_faults;

use crate::block::{BlockCause, BlockFault};
use crate::kind::Kind;
use crate::line_form::LineForm;
use crate::numbers::{Numbers, line_numbers};
use edt_text::{Line, Lines};
use node_boxes::{BoxBound, NodeBox};

/// The kind of the certificate whose first line is the next one.
pub(crate) fn read_kind(lines: &mut Lines) -> Result<Kind, BlockFault>
    ensures value { IfOk result (λ kind.
        lines_left lines.old ≡ ended_line (first_bytes kind) ∷ lines_left lines.new) }
    ensures passed { IfOk result (λ _. lines_passed lines.new ≡ lines_passed lines.old + 1) }
    ensures fault { IfErr result (λ fault. first_fault (FirstLine ∷ []) (lines_left lines.old)
        (lines_passed lines.old + 1) ≡ Some (fault.line, fault.cause)) }
{
    let line = next_line(lines)?;
    match line_kind(&line) {
        Some(kind) => Ok(kind),
        None => Err(BlockFault {
            line: line.number,
            cause: BlockCause::Form,
        }),
    }
}

/// Passes the last line of a certificate.
pub(crate) fn read_end(lines: &mut Lines) -> Result<(), BlockFault>
    ensures value { IfOk result (λ _.
        lines_left lines.old ≡ ended_line (codes "END") ∷ lines_left lines.new) }
    ensures passed { IfOk result (λ _. lines_passed lines.new ≡ lines_passed lines.old + 1) }
    ensures fault { IfErr result (λ fault. first_fault (LastLine ∷ []) (lines_left lines.old)
        (lines_passed lines.old + 1) ≡ Some (fault.line, fault.cause)) }
{
    let line = next_line(lines)?;
    if is_last(&line) {
        return Ok(());
    }
    Err(BlockFault {
        line: line.number,
        cause: BlockCause::Form,
    })
}

/// The node of the hypocentre and its score.
pub(crate) fn read_best(lines: &mut Lines) -> Result<(u32, u64), BlockFault>
    ensures value { IfOk result (λ best.
        lines_left lines.old ≡ numbers_line Best (entry_numbers best) ∷ lines_left lines.new) }
    ensures passed { IfOk result (λ _. lines_passed lines.new ≡ lines_passed lines.old + 1) }
    ensures limits { IfOk result (λ best. 1 ≤ best.1) }
    ensures typed { IfOk result (λ best. are_allowed (slots_of Best) (entry_numbers best) ≡ true) }
    ensures fault { IfErr result (λ fault. first_fault (Numbered Best ∷ []) (lines_left lines.old)
        (lines_passed lines.old + 1) ≡ Some (fault.line, fault.cause)) }
{
    let numbers = read_numbers(lines, LineForm::Best)?;
    Ok((numbers.small_at(0), numbers.at(1)))
}

/// How many near nodes follow.
pub(crate) fn read_near_count(lines: &mut Lines) -> Result<usize, BlockFault>
    ensures value { IfOk result (λ count.
        lines_left lines.old ≡ numbers_line Near (count ∷ []) ∷ lines_left lines.new) }
    ensures passed { IfOk result (λ _. lines_passed lines.new ≡ lines_passed lines.old + 1) }
    ensures limits { IfOk result (λ count. count ≤ 100000) }
    ensures fault { IfErr result (λ fault. first_fault (Numbered Near ∷ []) (lines_left lines.old)
        (lines_passed lines.old + 1) ≡ Some (fault.line, fault.cause)) }
{
    let numbers = read_numbers(lines, LineForm::Near)?;
    Ok(numbers.small_at(0) as usize)
}

/// How many boxes follow.
pub(crate) fn read_box_count(lines: &mut Lines) -> Result<usize, BlockFault>
    ensures value { IfOk result (λ count.
        lines_left lines.old ≡ numbers_line Cover (count ∷ []) ∷ lines_left lines.new) }
    ensures passed { IfOk result (λ _. lines_passed lines.new ≡ lines_passed lines.old + 1) }
    ensures limits { IfOk result (λ count. count ≤ 2000000) }
    ensures fault { IfErr result (λ fault. first_fault (Numbered Cover ∷ []) (lines_left lines.old)
        (lines_passed lines.old + 1) ≡ Some (fault.line, fault.cause)) }
{
    let numbers = read_numbers(lines, LineForm::Cover)?;
    Ok(numbers.small_at(0) as usize)
}

/// A near node and its score.
pub(crate) fn read_entry(lines: &mut Lines) -> Result<(u32, u64), BlockFault>
    ensures value { IfOk result (λ entry.
        lines_left lines.old ≡ numbers_line Entry (entry_numbers entry) ∷ lines_left lines.new) }
    ensures passed { IfOk result (λ _. lines_passed lines.new ≡ lines_passed lines.old + 1) }
    ensures typed { IfOk result (λ entry. are_allowed (slots_of Entry) (entry_numbers entry) ≡ true) }
    ensures fault { IfErr result (λ fault. first_fault (Numbered Entry ∷ []) (lines_left lines.old)
        (lines_passed lines.old + 1) ≡ Some (fault.line, fault.cause)) }
{
    let numbers = read_numbers(lines, LineForm::Entry)?;
    Ok((numbers.small_at(0), numbers.at(1)))
}

/// A box and its bound.
pub(crate) fn read_box(lines: &mut Lines) -> Result<BoxBound, BlockFault>
    ensures value { IfOk result (λ b.
        lines_left lines.old ≡ numbers_line Area (box_numbers b) ∷ lines_left lines.new) }
    ensures passed { IfOk result (λ _. lines_passed lines.new ≡ lines_passed lines.old + 1) }
    ensures typed { IfOk result (λ b. are_allowed (slots_of Area) (box_numbers b) ≡ true) }
    ensures fault { IfErr result (λ fault. first_fault (Numbered Area ∷ []) (lines_left lines.old)
        (lines_passed lines.old + 1) ≡ Some (fault.line, fault.cause)) }
{
    let numbers = read_numbers(lines, LineForm::Area)?;
    Ok(BoxBound {
        area: NodeBox {
            x0: numbers.small_at(0),
            x1: numbers.small_at(1),
            y0: numbers.small_at(2),
            y1: numbers.small_at(3),
            z0: numbers.small_at(4),
            z1: numbers.small_at(5),
        },
        bound: numbers.at(6),
    })
}

// The numbers of the next line, which has to have this form.
fn read_numbers(lines: &mut Lines, form: LineForm) -> Result<Numbers, BlockFault>
    ensures value { IfOk result (λ numbers.
        lines_left lines.old ≡ numbers_line form numbers ∷ lines_left lines.new) }
    ensures passed { IfOk result (λ _. lines_passed lines.new ≡ lines_passed lines.old + 1) }
    ensures typed { IfOk result (λ numbers. are_allowed (slots_of form) numbers ≡ true) }
    ensures fault { IfErr result (λ fault. first_fault (Numbered form ∷ []) (lines_left lines.old)
        (lines_passed lines.old + 1) ≡ Some (fault.line, fault.cause)) }
{
    let line = next_line(lines)?;
    match line_numbers(&line, form) {
        Ok(numbers) => Ok(numbers),
        Err(cause) => Err(BlockFault {
            line: line.number,
            cause,
        }),
    }
}

// The next line, or the fault that it is missing.
fn next_line<'a>(lines: &mut Lines<'a>) -> Result<Line<'a>, BlockFault>
    ensures value { IfOk result (λ line.
        lines_left lines.old ≡ line_text line ∷ lines_left lines.new) }
    ensures number { IfOk result (λ line. line.number ≡ lines_passed lines.old + 1) }
    ensures passed { IfOk result (λ _. lines_passed lines.new ≡ lines_passed lines.old + 1) }
    ensures none { IfErr result (λ _. lines_left lines.old ≡ []) }
    ensures fault { IfErr result (λ fault. (fault.line ≡ lines_passed lines.old + 1)
        × (fault.cause ≡ BlockCause.Form)) }
{
    let number = lines.passed() + 1;
    lines.next().ok_or(BlockFault {
        line: number,
        cause: BlockCause::Form,
    })
}

// The kind of a certificate that has this first line.
fn line_kind(line: &Line) -> Option<Kind>
    ensures none { IfNone result (line_fault FirstLine (line_text line.now) ≡ Some BlockCause.Form) }
    ensures some { IfSome result (λ kind. line_text line.now ≡ ended_line (first_bytes kind)) }
{
    if line.ended {
        Kind::of_line(line.bytes)
    } else {
        None
    }
}

// Whether a line ends a certificate.
fn is_last(line: &Line) -> bool
    ensures { result ≡ first_faults.is_last (line_text line.now) }
{
    line.ended && line.bytes == b"END".as_slice()
}
