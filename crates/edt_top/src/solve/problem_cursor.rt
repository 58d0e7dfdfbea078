//! A cursor over the words of a problem file, which tests each against the form that it has to have.
ghost use Rattle.std.specs.Prelude.{◌≡◌, ◌+◌, ◌<◌, ◌≤◌, ◌^◌, IfOk, OnOk, IfErr, Some, None, ◌==◌, if◌then◌else◌, slice_get};
ghost use Rattle.std.specs.Option.{option_copied};
ghost use Rattle.text_terms.specs.Words.{file_words};
ghost use Rattle.edt_top.specs.Solve.ProblemFile.{number_at, signed_at, form_at, Fixed, Whole, Observed, Nothing, IsProblemFile};
ghost use Rattle.edt_text.specs.WordCursor.{file_words_left};

use crate::solve::problem_word::{ProblemCause, fixed_in, observed_in, whole_in};
use edt_text::FileWords;
use std::marker::Model;
use thiserror::Error;

/// The first faulty word of a problem file, counted from 1, and why it is faulty.
#[derive(Clone, Copy, Debug, PartialEq, Eq, Error)]
#[error("word {word}: {cause}")]
pub struct ProblemFault {
    pub word: u32,
    pub cause: ProblemCause,
}

// The words of a problem file in turn, and the place of the next, from 0.
#[derive(Drop)]
pub struct Cursor<'a> {
    bytes: &'a [u8],
    rest: FileWords<'a>,
    place: u32,
}

impl<'a> Model for Cursor<'a> {
    ghost use Rattle.std.specs.Prelude.{◌≡◌, drop};
    ghost use Rattle.text_terms.specs.Words.{file_words};
    ghost use Rattle.edt_text.specs.WordCursor.{file_words_left};
    ghost use Rattle.edt_top.specs.Inside.ProblemCursor.{Reading};

    ghost Value = { Reading };

    ghost view = { λ c. record { words = file_words c.bytes.now; place = c.place } };

    ghost invariant = { λ c. file_words_left c.rest ≡ drop c.place (file_words c.bytes.now) };
}

impl<'a> Cursor<'a> {
    ghost use Rattle.edt_top.specs.Inside.ProblemCursor.{IsSound, Names};

    pub fn new(bytes: &'a [u8]) -> Cursor<'a>
        ensures { result ≡ record { words = file_words bytes.now; place = 0 } }
    {
        Cursor {
            bytes,
            rest: FileWords::new(bytes),
            place: 0,
        }
    }

    fn next_word(&mut self) -> Option<&'a [u8]>
        requires { self.old.place + 1 < 2 ^ 32 }
        ensures word { option_copied result ≡ slice_get self.old.words self.old.place }
        ensures moved { self.new ≡ record self.old { place = self.old.place + 1 } }
    {
        self.place += 1;
        self.rest.next()
    }

    // The fault of the word that was read last.
    fn fault(&self, cause: ProblemCause) -> ProblemFault
        ensures { result ≡ record { word = self.now.place; cause = cause } }
    {
        ProblemFault {
            word: self.place,
            cause,
        }
    }

    // The next word is this text.
    pub fn fixed(&mut self, text: &[u8]) -> Result<(), ProblemFault>
        requires room { self.old.place + 1 < 2 ^ 32 }
        requires sound { IsSound self.old }
        requires form { form_at self.old.words self.old.place ≡ Fixed text.now }
        ensures sound { OnOk result (IsSound self.new) }
        ensures moved { self.new ≡ record self.old { place = self.old.place + 1 } }
        ensures fault { IfErr result (Names self.old.words) }
    {
        let word = self.next_word();
        match fixed_in(word, text) {
            Ok(()) => Ok(()),
            Err(cause) => Err(self.fault(cause)),
        }
    }

    // The next word is a whole number from `low` to `high`.
    pub fn whole(&mut self, low: u64, high: u64) -> Result<u64, ProblemFault>
        requires room { self.old.place + 1 < 2 ^ 32 }
        requires sound { IsSound self.old }
        requires form { form_at self.old.words self.old.place ≡ Whole low high }
        ensures sound { OnOk result (IsSound self.new) }
        ensures moved { self.new ≡ record self.old { place = self.old.place + 1 } }
        ensures fault { IfErr result (Names self.old.words) }
        ensures value { IfOk result (λ v. v ≡ number_at self.old.words self.old.place) }
        ensures least { IfOk result (λ v. low ≤ v) }
        ensures greatest { IfOk result (λ v. v ≤ high) }
    {
        let word = self.next_word();
        match whole_in(word, low, high) {
            Ok(value) => Ok(value),
            Err(cause) => Err(self.fault(cause)),
        }
    }

    // The next word is an observed time beside the first pick's, which itself has none before it.
    pub fn observed(&mut self, first: Option<i64>) -> Result<i64, ProblemFault>
        requires room { self.old.place + 1 < 2 ^ 32 }
        requires sound { IsSound self.old }
        requires form { form_at self.old.words self.old.place ≡ Observed (signed_at self.old.words 6) }
        requires first { first ≡ (if self.old.place == 6 then None else Some (signed_at self.old.words 6)) }
        ensures sound { OnOk result (IsSound self.new) }
        ensures moved { self.new ≡ record self.old { place = self.old.place + 1 } }
        ensures fault { IfErr result (Names self.old.words) }
        ensures value { IfOk result (λ o. o ≡ signed_at self.old.words self.old.place) }
    {
        let word = self.next_word();
        match observed_in(word, first) {
            Ok(time) => Ok(time),
            Err(cause) => Err(self.fault(cause)),
        }
    }

    // No word is left.
    pub fn end(&mut self) -> Result<(), ProblemFault>
        requires room { self.old.place + 1 < 2 ^ 32 }
        requires sound { IsSound self.old }
        requires form { form_at self.old.words self.old.place ≡ Nothing }
        ensures whole { OnOk result (IsProblemFile self.old.words) }
        ensures fault { IfErr result (Names self.old.words) }
    {
        match self.next_word() {
            None => Ok(()),
            Some(_) => Err(self.fault(ProblemCause::Form)),
        }
    }
}
