//! What the words of the statements on stations and phases say: `LOCPHASEID`, `LOCEXCLUDE`, `LOCDELAY` and `LOCALIAS`.
ghost use Rattle.std.specs.Prelude.{◌≡◌, ◌≢◌, ◌≤◌, ◌++◌, ◌+◌, false, [], ◌∷◌, length, IfOk, IfErr, OnOk, IsTrue, All, None, Some};
ghost use Rattle.text_terms.specs.Names.{is_name};
ghost use Rattle.edt_text.specs.PlacedWords.{placed_words};
ghost use Rattle.control_reader.specs.Limits.{IsPhaseId, IsExclude, IsDelay, IsAlias};
ghost use Rattle.text_terms.specs.Words.{word_at};
ghost use Rattle.control_reader.specs.Words.{whole_at};
ghost use Rattle.control_reader.specs.Values.{phase_ids_of, exclude_of, delay_of, alias_of};
ghost use Rattle.text_terms.specs.Faults.{first_cause};
ghost use Rattle.control_reader.specs.WordFaults.{any, whole_fault, phase_ids_fault, exclude_fault, delay_fault, alias_fault};

use super::names::{copy_name, name_at, read_name};
use super::numbers::{millionths_in_size, whole};
use crate::control::{Alias, Delay, Exclude, PhaseId};
use crate::fault::ControlCause;
use edt_text::{Name, PlacedWords};
use std::alloc::Global;

// Limits of this project: bytes of a station or a phase, and microseconds of a delay.
const LONGEST_NAME: usize = 64;

const GREATEST_DELAY: u64 = 10_000_000_000;

/// Adds what `LOCPHASEID` says: an entry for each word after the standard phase. After an error the list is of no use.
pub(crate) fn read_phase_ids(
    alloc: Global,
    arguments: &PlacedWords,
    into: &mut Vec<PhaseId>,
) -> Result<(), ControlCause>
    requires { 2 ≤ length (placed_words arguments.now) }
    ensures value { OnOk result (into.new.items ≡ into.old.items ++ phase_ids_of (placed_words arguments.now)) }
    ensures good { OnOk result (phase_ids_fault (placed_words arguments.now) ≡ None) }
    ensures limits { All IsPhaseId into.old.items → OnOk result (All IsPhaseId into.new.items) }
    ensures fault { IfErr result (λ cause. cause ≢ ControlCause.Memory
        → phase_ids_fault (placed_words arguments.now) ≡ Some cause) }
{
    let standard = name_at(alloc, arguments, 0, LONGEST_NAME)?;
    let mut codes = arguments.after_first();
    while let Some(code) = codes.next() {
        let id = read_phase_id(alloc, &standard, code)?;
        into.push(id).map_err(|_| ControlCause::Memory)?;
    }
    Ok(())
}

// The phase word that means a standard phase, or else `Name`.
fn read_phase_id(alloc: Global, standard: &Name, code: &[u8]) -> Result<PhaseId, ControlCause>
    requires { IsTrue (is_name 64 standard.now) }
    ensures value { IfOk result (λ id. id ≡ record { standard = standard.now; code = code.now }) }
    ensures limits { IfOk result IsPhaseId }
    ensures good { OnOk result (IsTrue (is_name 64 code.now)) }
    ensures fault { IfErr result (λ cause. cause ≢ ControlCause.Memory → (cause ≡ ControlCause.Name)
        × (is_name 64 code.now ≡ false)) }
{
    let code = read_name(alloc, code, LONGEST_NAME)?;
    let standard = copy_name(alloc, standard)?;
    Ok(PhaseId { standard, code })
}

/// What `LOCEXCLUDE` says.
#[tactic(auto, unfolding(crate::specs::WordFaults::exclude_fault, crate::specs::Values::exclude_of))]
pub(crate) fn read_exclude(alloc: Global, arguments: &PlacedWords) -> Result<Exclude, ControlCause>
    requires { 2 ≤ length (placed_words arguments.now) }
    ensures value { IfOk result (λ value. value ≡ exclude_of (placed_words arguments.now)) }
    ensures good { OnOk result (exclude_fault (placed_words arguments.now) ≡ None) }
    ensures limits { IfOk result IsExclude }
    ensures fault { IfErr result (λ cause. cause ≢ ControlCause.Memory
        → exclude_fault (placed_words arguments.now) ≡ Some cause) }
{
    Ok(Exclude {
        station: name_at(alloc, arguments, 0, LONGEST_NAME)?,
        phase: name_at(alloc, arguments, 1, LONGEST_NAME)?,
    })
}

/// What `LOCDELAY` says.
#[tactic(auto, unfolding(crate::specs::WordFaults::delay_fault, crate::specs::Values::delay_of))]
pub(crate) fn read_delay(alloc: Global, arguments: &PlacedWords) -> Result<Delay, ControlCause>
    requires { 4 ≤ length (placed_words arguments.now) }
    ensures value { IfOk result (λ value. value ≡ delay_of (placed_words arguments.now)) }
    ensures good { OnOk result (delay_fault (placed_words arguments.now) ≡ None) }
    ensures limits { IfOk result IsDelay }
    ensures fault { IfErr result (λ cause. cause ≢ ControlCause.Memory
        → delay_fault (placed_words arguments.now) ≡ Some cause) }
{
    let station = name_at(alloc, arguments, 0, LONGEST_NAME)?;
    let phase = name_at(alloc, arguments, 1, LONGEST_NAME)?;
    let _readings = whole(arguments, 2)?;
    let delay = millionths_in_size(arguments, 3, GREATEST_DELAY)?;
    Ok(Delay {
        station,
        phase,
        delay,
    })
}

/// What `LOCALIAS` says.
#[tactic(auto, unfolding(crate::specs::WordFaults::alias_fault, crate::specs::Values::alias_of))]
pub(crate) fn read_alias(alloc: Global, arguments: &PlacedWords) -> Result<Alias, ControlCause>
    requires { 8 ≤ length (placed_words arguments.now) }
    ensures value { IfOk result (λ value. value ≡ alias_of (placed_words arguments.now)) }
    ensures good { OnOk result (alias_fault (placed_words arguments.now) ≡ None) }
    ensures limits { IfOk result IsAlias }
    ensures fault { IfErr result (λ cause. cause ≢ ControlCause.Memory
        → alias_fault (placed_words arguments.now) ≡ Some cause) }
{
    Ok(Alias {
        station: name_at(alloc, arguments, 0, LONGEST_NAME)?,
        alias: name_at(alloc, arguments, 1, LONGEST_NAME)?,
        from: read_date(arguments, 2)?,
        to: read_date(arguments, 5)?,
    })
}

// Year, month and day at three places.
fn read_date(arguments: &PlacedWords, place: usize) -> Result<(i64, i64, i64), ControlCause>
    requires { place ≤ 6 }
    ensures value { IfOk result (λ date. date
        ≡ (
          whole_at place (placed_words arguments.now),
          whole_at (place + 1) (placed_words arguments.now),
          whole_at (place + 2) (placed_words arguments.now),
        )) }
    ensures year { OnOk result (whole_fault any (word_at place (placed_words arguments.now)) ≡ None) }
    ensures month { OnOk result (whole_fault any (word_at (place + 1) (placed_words arguments.now)) ≡ None) }
    ensures day { OnOk result (whole_fault any (word_at (place + 2) (placed_words arguments.now)) ≡ None) }
    ensures fault { IfErr result (λ cause. first_cause
        (whole_fault any (word_at place (placed_words arguments.now))
        ∷ whole_fault any (word_at (place + 1) (placed_words arguments.now))
        ∷ whole_fault any (word_at (place + 2) (placed_words arguments.now)) ∷ []) ≡ Some cause) }
{
    let year = whole(arguments, place)?;
    let month = whole(arguments, place + 1)?;
    let day = whole(arguments, place + 2)?;
    Ok((year, month, day))
}
