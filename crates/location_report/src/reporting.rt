//! The block of an event.
ghost use Rattle.std.specs.Prelude.{◌≡◌, ◌≤◌, IfOk, IfSome, IsTrue, is_some, length};
ghost use Rattle.std.specs.Option.{option_map};
ghost use Rattle.octree_search.specs.Outcomes.{found_value};
ghost use Rattle.location_report.specs.Blocks.{block_of};
ghost use Rattle.location_report.specs.Reports.{IsTellable, IsWhole, event_at, has_problem, lane_values};

use crate::found::{certificate_of, push_findings, push_lane_line};
use crate::lanes::LaneCount;
use crate::lines::push_event;
use crate::room::room_before;
use cover_certificate::{reserve_block, write_view};
use event_assembly::Assembly;
use octree_search::Found;
use std::alloc::{AllocError, Global};

/// The block of an event of an assembly, by its number from 1, with what a search found of it: lines that end with line feeds.
///
/// First comes `EVENT` with the number, the count of used picks and that of the others. Then come a line `PICK` for each used pick with
/// station, phase, time in microseconds, weight in thousandths and residual, and a line `SKIP` for each other one with the number of its
/// line in the phase file, station, phase and reason, both in the order of the phase file. A located event then has `HYPOCENTRE` with the
/// place of its node on the axes and its place in millimetres, `ORIGIN` with date and time of day, `RMS` in microseconds, and `MET` with
/// the number of boxes that were met; one that fits nowhere has `MET` alone. `LANES` follows where lanes are given, whatever was found, so
/// that it also stands where the budget was passed or too many nodes are near. The certificate is the last item.
///
/// The residual of a pick is its time less its travel time to the hypocentre less the origin time; it is `-` unless the event is located.
/// The origin time is that of `origin_time::origin` over the used picks with their weights, `RMS` is `origin_time::rms` of the residuals,
/// and the date is that of jiff's calendar, with four digits of the year. The format is this project's own.
///
/// What was found is given exactly for an event with a problem; its hypocentre is a node of the grid, and its lists are within the limits
/// of a certificate. Lanes are given only where something was found. Running out of memory is the only refusal.
#[tactic(auto, unfolding(crate::specs::Blocks::block_of))]
pub fn report(
    alloc: Global,
    number: u32,
    assembly: &Assembly,
    found: Option<&Found>,
    lanes: Option<LaneCount>,
) -> Result<Vec<u8>, AllocError>
    requires assembly { IsWhole assembly.now }
    requires first { 1 ≤ number }
    requires last { number ≤ length assembly.now.events.items }
    requires found { is_some found ≡ has_problem (event_at assembly.now number).case }
    requires outcome { IfSome found (λ f. IsTellable assembly.now.frame.grid (found_value f.now)) }
    requires lanes { IsTrue (is_some lanes) → IsTrue (is_some found) }
    ensures { IfOk result (λ text. text.items ≡ block_of assembly.now.frame assembly.now.field number
        (event_at assembly.now number) (option_map (λ f. found_value f.now) found.entry)
        (option_map lane_values lanes)) }
{
    let event = &assembly.events[number as usize - 1];
    let certificate = certificate_of(&event.case, found);
    let mut out = Vec::new(alloc);
    reserve_block(&mut out, room_before(&event.picks), &certificate)?;
    push_event(
        &mut out,
        number,
        event.picks.used.len(),
        event.picks.skipped.len(),
    )?;
    push_findings(alloc, &mut out, assembly, event, found)?;
    push_lane_line(&mut out, lanes)?;
    write_view(&mut out, &certificate)?;
    Ok(out)
}
