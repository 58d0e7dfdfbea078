//! A phase file that is read line by line.
ghost use Rattle.std.specs.Prelude.{◌≡◌, ◌≢◌, ◌+◌, ◌<◌, ◌≤◌, [], ◌∷◌, ◌++◌, List, IsTrue, OnOk, IfOk, IfErr, All, length, vec_len, false, codes};
ghost use Rattle.std.specs.Str.{bytes_eq};
ghost use Rattle.text_terms.specs.Lines.{NumberedLine};
ghost use Rattle.text_terms.specs.Names as names;
ghost use Rattle.edt_text.specs.PlacedWords.{placed_words};
ghost use Rattle.phase_reader.specs.PickFields.{pick_of_words};
ghost use Rattle.phase_reader.specs.PickFaults.{words_fault};
ghost use Rattle.phase_reader.specs.PhaseEvents.{passes_limit};
ghost use Rattle.phase_reader.specs.PhaseFile.{fault_after, picks_of_events};
ghost use Rattle.phase_reader.specs.Inside.Drafts.{as_event, Follows};
ghost use Rattle.phase_reader.specs.Limits.{IsPick, IsEvent};
ghost use Rattle.phase_reader.specs.Inside.DraftLimits.{IsDraft};

use crate::fault::PhaseCause;
use crate::kind::{LineKind, kind_of};
use crate::phases::{Event, Phases, Pick};
use crate::values::{read_decimal, read_time, read_weight};
use edt_text::{LONGEST_LINE, Name, PlacedWords, Words, is_name};
use std::alloc::Global;
use std::mem;

// The limits of this project: events of a file, picks of an event, and microseconds between a pick and its event's first.
const MOST_EVENTS: usize = 10_000;

const MOST_PICKS: usize = 4096;

const FARTHEST: u64 = 1_000_000_000_000;

/// What the lines so far say: the events that a blank line ended, the picks after the last blank line, and how many lines were
/// passed over.
#[derive(Drop)]
pub(crate) struct PhaseDraft {
    events: Vec<Event>,
    picks: Vec<Pick>,
    passed: u32,
}

impl PhaseDraft {
    /// The draft of no lines.
    pub(crate) fn new(alloc: Global) -> PhaseDraft
        ensures follows { Follows [] result }
        ensures limits { IsDraft result }
    {
        PhaseDraft {
            events: Vec::new(alloc),
            picks: Vec::new(alloc),
            passed: 0,
        }
    }

    /// Takes one more line. After an error the draft is of no use.
    pub(crate) fn take_line(
        &mut self,
        alloc: Global,
        number: u32,
        line: &[u8],
    ) -> Result<(), PhaseCause>
        requires { self.old.passed < number }
        ensures room { self.new.passed ≤ number }
        ensures limits { IsDraft self.old → OnOk result (IsDraft self.new) }
        ensures follows { OnOk result ((before : List NumberedLine) → Follows before self.old
            → Follows (before ++ (number, line.now) ∷ []) self.new) }
        ensures good { OnOk result ((before : List NumberedLine) → Follows before self.old
            → fault_after before (number, line.now) ≡ None) }
        ensures fault { IfErr result (λ cause. cause ≢ PhaseCause.Memory → (before : List NumberedLine)
            → Follows before self.old → fault_after before (number, line.now) ≡ Some cause) }
    {
        if line.len() > LONGEST_LINE {
            return Err(PhaseCause::LongLine);
        }
        let words = Words::new(line);
        match kind_of(words) {
            LineKind::Blank => self.end_event(alloc),
            LineKind::Comment => Ok(()),
            LineKind::PublicId => {
                self.passed += 1;
                Ok(())
            }
            LineKind::PickLine => {
                let placed = PlacedWords::new(words);
                if !placed.has(11) {
                    return Err(PhaseCause::Fields);
                }
                let pick = read_pick(alloc, number, &placed)?;
                self.take_pick(pick)
            }
        }
    }

    /// The phase file of the lines that were taken.
    pub(crate) fn finish(mut self, alloc: Global) -> Result<Phases, PhaseCause>
        ensures memory { IfErr result (λ cause. cause ≡ PhaseCause.Memory) }
        ensures events { IfOk result (λ phases. picks_of_events phases.events.items
            ≡ picks_of_events self.events.items ++ as_event self.picks.items) }
        ensures passed { IfOk result (λ phases. phases.passed ≡ self.passed) }
        ensures limits { IsDraft self → IfOk result (λ phases. All IsEvent phases.events.items) }
        ensures few { IsDraft self → IfOk result (λ phases. vec_len phases.events ≤ 10000) }
    {
        self.end_event(alloc)?;
        Ok(Phases {
            events: self.events,
            passed: self.passed,
        })
    }

    // Makes an event of the picks, if there are any.
    fn end_event(&mut self, alloc: Global) -> Result<(), PhaseCause>
        ensures memory { IfErr result (λ cause. cause ≡ PhaseCause.Memory) }
        ensures events { OnOk result (picks_of_events self.new.events.items
            ≡ picks_of_events self.old.events.items ++ as_event self.old.picks.items) }
        ensures picks { OnOk result (self.new.picks.items ≡ []) }
        ensures passed { self.new.passed ≡ self.old.passed }
        ensures limits { IsDraft self.old → OnOk result (IsDraft self.new) }
    {
        if self.picks.is_empty() {
            return Ok(());
        }
        let picks = mem::replace(&mut self.picks, Vec::new(alloc));
        match self.events.push(Event { picks }) {
            Ok(()) => Ok(()),
            Err(_) => Err(PhaseCause::Memory),
        }
    }

    // Takes a pick after the others, unless it passes a limit.
    fn take_pick(&mut self, pick: Pick) -> Result<(), PhaseCause>
        ensures events { self.new.events ≡ self.old.events }
        ensures passed { self.new.passed ≡ self.old.passed }
        ensures picks { OnOk result (self.new.picks.items ≡ self.old.picks.items ++ pick ∷ []) }
        ensures limits { IsDraft self.old → IsPick pick → OnOk result (IsDraft self.new) }
        ensures good { OnOk result (passes_limit (length self.old.events.items) self.old.picks.items pick.time
            ≡ false) }
        ensures fault { IfErr result (λ cause. cause ≢ PhaseCause.Memory → (cause ≡ PhaseCause.Limit)
            × IsTrue (passes_limit (length self.old.events.items) self.old.picks.items pick.time)) }
    {
        if self.is_past_limit(&pick) {
            return Err(PhaseCause::Limit);
        }
        match self.picks.push(pick) {
            Ok(()) => Ok(()),
            Err(_) => Err(PhaseCause::Memory),
        }
    }

    // Whether a pick after the others passes a limit.
    fn is_past_limit(&self, pick: &Pick) -> bool
        ensures { result ≡ passes_limit (length self.now.events.items) self.now.picks.items pick.now.time }
    {
        match self.picks.as_slice() {
            [] => self.events.len() >= MOST_EVENTS,
            [first, ..] => {
                self.picks.len() >= MOST_PICKS || pick.time.abs_diff(first.time) > FARTHEST
            }
        }
    }
}

// The pick that the words of a line mean, or the first fault in them.
fn read_pick(alloc: Global, line: u32, words: &PlacedWords) -> Result<Pick, PhaseCause>
    ensures pick { IfOk result (λ pick. pick ≡ pick_of_words line (placed_words words.now)) }
    ensures limits { IfOk result IsPick }
    ensures good { OnOk result (words_fault (placed_words words.now) ≡ None) }
    ensures fault { IfErr result (λ why. why ≢ PhaseCause.Memory → words_fault (placed_words words.now) ≡ Some why) }
{
    let station = read_name(alloc, words.at(0))?;
    let phase = read_name(alloc, words.at(4))?;
    let moment = read_time(words)?;
    if !is_gau(words.at(9)) {
        return Err(PhaseCause::ErrorType);
    }
    let error = read_decimal(words.at(10))?;
    let weight = read_weight(words)?;
    Ok(Pick {
        line,
        station,
        phase,
        day: moment.day,
        time: moment.time,
        error,
        weight,
    })
}

// A station or a phase: a name of at most 64 bytes.
fn read_name(alloc: Global, word: &[u8]) -> Result<Name, PhaseCause>
    ensures name { IfOk result (λ name. name ≡ word.now) }
    ensures good { OnOk result (IsTrue (names.is_name 64 word.now)) }
    ensures fault { IfErr result (λ cause. cause ≢ PhaseCause.Memory → (cause ≡ PhaseCause.Name)
        × (names.is_name 64 word.now ≡ false)) }
{
    if !is_name(word, 64) {
        return Err(PhaseCause::Name);
    }
    match Name::of_valid(alloc, word) {
        Ok(name) => Ok(name),
        Err(_) => Err(PhaseCause::Memory),
    }
}

// Whether the error type is that of a normal error.
fn is_gau(word: &[u8]) -> bool
    ensures { result ≡ bytes_eq word.now (codes "GAU") }
{
    word == b"GAU".as_slice()
}
