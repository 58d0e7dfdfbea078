//! The first cause of a line that isn't one of a certificate.
ghost use Rattle.std.specs.Prelude.{◌≡◌, ◌==◌, [], get_or, length, map, Some};
ghost use Rattle.edt_text.specs.LineCursor.{line_text};
ghost use Rattle.cover_certificate.specs.LineFaults.{number_of};
ghost use Rattle.cover_certificate.specs.LineWords.{parts};
ghost use Rattle.check_top.specs.ReportLines.{event_form, head_form, is_small};
ghost use Rattle.check_top.specs.ReportLines as lines;

use crate::report::fault::ReportCause;
use cover_certificate::{LineWords, is_plain};
use edt_text::{Line, read_number};

// The words of the first line of a report, and those of the first line of an event, with no bytes in the place of a number.
const HEAD_FORM: [&[u8]; 7] = [b"EDTLOC", b"1", b"EVENTS", b"", b"PASSED", b"", b""];

const EVENT_FORM: [&[u8]; 6] = [b"EVENT", b"", b"PICKS", b"", b"SKIPPED", b""];

// The first cause of the first line of a report on so many events.
#[tactic(auto, unfolding(crate::specs::ReportLines::head_cause))]
pub fn head_cause(events: u32, line: &Line) -> Option<ReportCause>
    ensures { result ≡ lines.head_cause events (Some (line_text line.now)) }
{
    if let Some(cause) = line_cause(&HEAD_FORM, line) {
        return Some(cause);
    }
    if number_at(line, 3) == u64::from(events) {
        None
    } else {
        Some(ReportCause::Events)
    }
}

// The first cause of the first line of the event of a number.
#[tactic(auto, unfolding(crate::specs::ReportLines::event_cause))]
pub fn event_cause(number: u32, line: &Line) -> Option<ReportCause>
    ensures { result ≡ lines.event_cause number (Some (line_text line.now)) }
{
    if let Some(cause) = line_cause(&EVENT_FORM, line) {
        return Some(cause);
    }
    if number_at(line, 1) == u64::from(number) {
        None
    } else {
        Some(ReportCause::Form)
    }
}

// Whether a line begins a certificate.
pub fn begins_certificate(line: &Line) -> bool
    ensures { result ≡ lines.begins_certificate (line_text line.now) }
{
    line.bytes.starts_with(b"CERT ")
}

// The first cause of a line of words.
fn line_cause(forms: &[&[u8]], line: &Line) -> Option<ReportCause>
    ensures { result ≡ lines.line_cause (map (λ form. form.now) forms.now) (Some (line_text line.now)) }
{
    if !line.ended {
        return Some(ReportCause::Form);
    }
    words_cause(forms, LineWords::new(line.bytes))
}

// The first cause of words.
fn words_cause(forms: &[&[u8]], mut words: LineWords) -> Option<ReportCause>
    ensures { result ≡ lines.words_cause (map (λ form. form.now) forms.now) words.entry }
{
    let mut are_numbers = true;
    for form in forms {
        let Some(word) = words.next() else {
            return Some(ReportCause::Form);
        };
        if !has_form(form, word) {
            return Some(ReportCause::Form);
        }
        are_numbers = are_numbers && is_number(form, word);
    }
    if let Some(_extra) = words.next() {
        return Some(ReportCause::Form);
    }
    if are_numbers {
        None
    } else {
        Some(ReportCause::Number)
    }
}

// Whether a word has its form.
fn has_form(form: &[u8], word: &[u8]) -> bool
    ensures { result ≡ lines.has_form form.now word.now }
{
    if form.is_empty() {
        is_plain(word)
    } else {
        word == form
    }
}

// Whether a word in the place of a number is one of 32 bits.
fn is_number(form: &[u8], word: &[u8]) -> bool
    ensures { result ≡ lines.is_number form.now word.now }
{
    !form.is_empty() || is_small(read_number(word))
}

// Whether there is a number, and it has 32 bits.
fn is_small(number: Option<u64>) -> bool
    ensures { result ≡ is_small number }
{
    match number {
        Some(number) => number <= u64::from(u32::MAX),
        None => false,
    }
}

// The number in a place of a line, and 0 where there is none.
fn number_at(line: &Line, place: usize) -> u64
    ensures { result ≡ lines.number_at place (Some (line_text line.now)) }
{
    let mut words = LineWords::new(line.bytes);
    for _ in 0..place {
        let _word = words.next();
    }
    match words.next() {
        Some(word) => read_number(word).unwrap_or(0),
        None => 0,
    }
}
