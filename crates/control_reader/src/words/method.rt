//! What the words of `LOCMETH` say.
ghost use Rattle.std.specs.Prelude.{◌≡◌, ◌≤◌, ◌<◌, ◌^◌, ◌≤ℤ◌, ◌==◌, ◌&&◌, not, if◌then◌else◌, true, pos, negsuc, unsigned_abs, length, IfOk, IfErr, OnOk, None, Some};
ghost use Rattle.edt_text.specs.PlacedWords.{placed_words};
ghost use Rattle.control_reader.specs.Words.{count_at, millionths_at};
ghost use Rattle.control_reader.specs.Values.{has_word, method_of};
ghost use Rattle.control_reader.specs.WordFaults.{any, optional, whole_fault, distance_fault, method_fault};

use super::names::is_word;
use super::numbers::{millionths_at_most, millionths_in_size, whole};
use crate::fault::ControlCause;
use crate::values::Method;
use edt_text::PlacedWords;

// Limits of this project: millimetres of a distance, and millionths of the ratio of P velocity to S velocity.
const FARTHEST_STATION: u64 = 1_000_000_000_000;

const GREATEST_RATIO: i64 = 10_000_000;

// minDistStaGrid in millimetres where the word is absent: below 0, so that no station is too near.
const NO_MIN_DIST: i64 = -1_000_000;

/// What `LOCMETH` says.
#[tactic(auto, unfolding(crate::specs::WordFaults::method_fault, crate::specs::Values::method_of))]
pub(crate) fn read_method(arguments: &PlacedWords) -> Result<Method, ControlCause>
    requires { 6 ≤ length (placed_words arguments.now) }
    ensures value { IfOk result (λ value. value ≡ method_of (placed_words arguments.now)) }
    ensures good { OnOk result (method_fault (placed_words arguments.now) ≡ None) }
    ensures limits { IfOk result (λ method. (unsigned_abs method.max_dist ≤ 10 ^ 12)
        × (unsigned_abs method.min_dist ≤ 10 ^ 12) × (unsigned_abs method.min_phases < 10 ^ 9)
        × (unsigned_abs method.max_phases < 10 ^ 9) × (unsigned_abs method.min_s < 10 ^ 9)
        × (method.vpvs ≤ℤ pos 10000000)) }
    ensures fault { IfErr result (λ cause. method_fault (placed_words arguments.now) ≡ Some cause) }
{
    if !is_word(arguments, 0, b"EDT") {
        return Err(ControlCause::Method);
    }
    Ok(Method {
        max_dist: millionths_in_size(arguments, 1, FARTHEST_STATION)?,
        min_phases: whole(arguments, 2)?,
        max_phases: whole(arguments, 3)?,
        min_s: whole(arguments, 4)?,
        vpvs: millionths_at_most(arguments, 5, GREATEST_RATIO)?,
        min_dist: read_min_dist(arguments)?,
        reject_duplicates: rejects_duplicates(arguments)?,
    })
}

// minDistStaGrid, or its default where the word is absent.
fn read_min_dist(arguments: &PlacedWords) -> Result<i64, ControlCause>
    ensures value { IfOk result (λ least. least
        ≡ (if has_word 7 (placed_words arguments.now)
        then millionths_at 7 (placed_words arguments.now) else negsuc 999999)) }
    ensures limits { IfOk result (λ least. unsigned_abs least ≤ 10 ^ 12) }
    ensures good { OnOk result (optional 7 (placed_words arguments.now) distance_fault ≡ None) }
    ensures fault { IfErr result (λ cause. optional 7 (placed_words arguments.now) distance_fault ≡ Some cause) }
{
    if !arguments.has(8) {
        return Ok(NO_MIN_DIST);
    }
    millionths_in_size(arguments, 7, FARTHEST_STATION)
}

// Whether iRejectDuplicateArrivals rejects: it is absent, or not 0.
fn rejects_duplicates(arguments: &PlacedWords) -> Result<bool, ControlCause>
    ensures value { IfOk result (λ rejects. rejects
        ≡ not (has_word 8 (placed_words arguments.now) && (count_at 8 (placed_words arguments.now) == 0))) }
    ensures good { OnOk result (optional 8 (placed_words arguments.now) (whole_fault any) ≡ None) }
    ensures fault { IfErr result (λ cause. optional 8 (placed_words arguments.now) (whole_fault any) ≡ Some cause) }
{
    if !arguments.has(9) {
        return Ok(true);
    }
    let reject = whole(arguments, 8)?;
    Ok(reject != 0)
}
