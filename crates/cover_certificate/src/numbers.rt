//! The numbers of one line.
ghost use Rattle.std.specs.Prelude.{◌≡◌, ◌≤◌, ◌<◌, ◌^◌, ◌&&◌, [], ◌∷◌, ◌++◌, length, map, slice_index, IfOk, IfErr, Some, None};
ghost use Rattle.text_terms.specs.Lines.{LineText};
ghost use Rattle.edt_text.specs.LineCursor.{line_text};
ghost use Rattle.cover_certificate.specs.LineWords.{parts};
ghost use Rattle.cover_certificate.specs.LineForms.{Numbered, slots_of};
ghost use Rattle.cover_certificate.specs.LineFaults.{cause_of, line_fault, number_of, numbers_in, words_fault};
ghost use Rattle.cover_certificate.specs.LineFaults as faults;

use crate::block::BlockCause;
use crate::line_form::{LineForm, Slot};
use crate::line_words::{LineWords, is_plain};
use edt_text::{Line, read_number};
use std::marker::Model;

/// At most seven numbers. They are seen as their list.
#[derive(Drop)]
pub(crate) struct Numbers {
    items: [u64; 7],
    count: usize,
}

impl Model for Numbers {
    ghost use Rattle.std.specs.Prelude.{ℕ, ◌≤◌, List, take};

    ghost Value = { List ℕ };

    ghost view = { λ n. take n.count n.items };

    ghost invariant = { λ n. n.count ≤ 7 };
}

impl Numbers {
    // No numbers.
    fn new() -> Numbers
        ensures { result ≡ [] }
    {
        Numbers {
            items: [0; 7],
            count: 0,
        }
    }

    // Appends a number.
    fn push(&mut self, number: u64)
        requires { length self.old < 7 }
        ensures { self.new ≡ self.old ++ number ∷ [] }
    {
        self.items[self.count] = number;
        self.count += 1;
    }

    /// The number at a place, from 0, and 0 after the last.
    pub(crate) fn at(&self, place: usize) -> u64
        ensures { result ≡ slice_index self.now place }
    {
        if place < self.count {
            self.items[place]
        } else {
            0
        }
    }

    /// The number at a place, where it is a node, an end of a range or a count.
    pub(crate) fn small_at(&self, place: usize) -> u32
        requires { slice_index self.now place < 2 ^ 32 }
        ensures { result ≡ slice_index self.now place }
    {
        self.at(place) as u32
    }
}

/// The numbers of a line of this form, or the first cause why it is none.
pub(crate) fn line_numbers(line: &Line, form: LineForm) -> Result<Numbers, BlockCause>
    ensures good { IfOk result (λ _. line_fault (Numbered form) (line_text line.now) ≡ None) }
    ensures value { IfOk result (λ numbers. numbers ≡ numbers_in form line.now.bytes.now) }
    ensures fault { IfErr result (λ cause. line_fault (Numbered form) (line_text line.now) ≡ Some cause) }
{
    if !line.ended {
        return Err(BlockCause::Form);
    }
    match line.bytes.strip_prefix(form.head()) {
        Some(rest) => word_numbers(LineWords::new(rest), form.slots()),
        None => Err(BlockCause::Form),
    }
}

// The numbers of words that the slots fit, or the first cause why there are none.
fn word_numbers(mut words: LineWords, slots: &[Slot]) -> Result<Numbers, BlockCause>
    requires { length slots.now ≤ 7 }
    ensures good { IfOk result (λ _. words_fault slots.now words.entry ≡ None) }
    ensures value { IfOk result (λ numbers. numbers ≡ map number_of words.entry) }
    ensures fault { IfErr result (λ cause. words_fault slots.now words.entry ≡ Some cause) }
{
    let mut numbers = Numbers::new();
    let mut are_numbers = true;
    let mut are_within = true;
    for slot in slots {
        let Some(word) = words.next() else {
            return Err(BlockCause::Form);
        };
        if !is_plain(word) {
            return Err(BlockCause::Form);
        }
        let number = read_number(word);
        are_numbers = are_numbers && is_between(slot, number);
        are_within = are_within && number.unwrap_or(0) <= slot.limit;
        numbers.push(number.unwrap_or(0));
    }
    if let Some(_extra) = words.next() {
        return Err(BlockCause::Form);
    }
    match number_cause(are_numbers, are_within) {
        None => Ok(numbers),
        Some(cause) => Err(cause),
    }
}

// Whether there is a number from the least to the most of a slot.
fn is_between(slot: &Slot, number: Option<u64>) -> bool
    ensures { result ≡ faults.is_between slot.now number }
{
    match number {
        Some(number) => slot.least <= number && number <= slot.most,
        None => false,
    }
}

// The first cause of words that have their form.
fn number_cause(are_numbers: bool, are_within: bool) -> Option<BlockCause>
    ensures { result ≡ cause_of are_numbers are_within }
{
    if !are_numbers {
        return Some(BlockCause::Number);
    }
    if are_within {
        None
    } else {
        Some(BlockCause::Limit)
    }
}
