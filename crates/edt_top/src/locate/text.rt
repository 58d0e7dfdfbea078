//! The text of a run that locates: its head line and the blocks of its events.
ghost use Rattle.std.specs.Prelude.{◌≡◌, ◌+◌, ◌<◌, [], ◌∷◌, IfOk, IfSome, length};
ghost use Rattle.std.specs.Option.{option_map};
ghost use Rattle.edt_outside.specs.Counts.{RisesExactly};
ghost use Rattle.control_reader.specs.ControlValues.{values_of};
ghost use Rattle.kernel_table.specs.Falloff.{AnswersItsShape, shape_of};
ghost use Rattle.octree_search.specs.Outcomes.{found_value};
ghost use Rattle.event_assembly.specs.Assembled.{IsPrepared};
ghost use Rattle.event_assembly.specs.AssemblyValues.{assembly_value, case_value};
ghost use Rattle.location_report.specs.Reports.{IsTellable, event_at, lane_values};
ghost use Rattle.location_report.specs.Texts.{blocks_of, event_block, head_line, lanes_of_case, outcome_of_case};
ghost use Rattle.run_input.specs.Inputs.{IsInput, input_value};
ghost use Rattle.run_input.specs.Told.{Wrote};
ghost use Rattle.edt_top.specs.Locate.Covers.{AreCoversShortest};
ghost use Rattle.edt_top.specs.Locate.Text.{locate_parts};
ghost use Rattle.edt_top.specs.Inside.Writing.{WritingEnds, write_failed};

use crate::finding::find;
use crate::locate::lanes::find_by_lanes;
use crate::writing::{WriteFault, put_part};
use edt_outside::Sink;
use event_assembly::{Case, Prepared};
use kernel_table::{Falloff, Shape, count, gauss, triangle};
use location_report::{LaneCount, report};
use octree_search::Found;
use run_input::RunInput;
use std::alloc::{AllocError, Global};

// Writes the text of an input: the head line, and then each block when it is whole.
pub fn write_text<O: Sink>(alloc: Global, out: &mut O, input: &RunInput) -> Result<(), WriteFault>
    requires input { IsInput input.now }
    ensures told { WritingEnds (locate_parts (input_value input.now)) result (Wrote O.taken out.old out.new) }
    ensures covers { AreCoversShortest (input_value input.now) }
    ensures writes { RisesExactly (write_failed result) (O.faults out.old) (O.faults out.new) }
{
    // These are roots of the field's grid, and so no cover of their octree can be shorter.
    let _roots = input.assembly.field.roots();
    write_head(
        alloc,
        out,
        input.assembly.events.len(),
        input.control.passed,
        input.phases.passed,
    )?;
    write_shaped(alloc, out, input)
}

// Writes the head line: how many events there are, and how many lines of the control file and of the phase file were passed over.
#[tactic(auto, unfolding(location_report::specs::Texts::head_line))]
fn write_head<O: Sink>(
    alloc: Global,
    out: &mut O,
    events: usize,
    control_passed: u32,
    phases_passed: u32,
) -> Result<(), WriteFault>
    ensures told { WritingEnds (head_line events control_passed phases_passed ∷ []) result
        (Wrote O.taken out.old out.new) }
    ensures writes { RisesExactly (write_failed result) (O.faults out.old) (O.faults out.new) }
{
    let line = format!(in alloc;
        "EDTLOC 1 EVENTS {events} PASSED {control_passed} {phases_passed}\n"
    )?;
    put_part(out, line.as_bytes())
}

// Writes the blocks of the events of an input, with the kernel of its shape.
fn write_shaped<O: Sink>(alloc: Global, out: &mut O, input: &RunInput) -> Result<(), WriteFault>
    requires input { IsInput input.now }
    ensures told { WritingEnds (blocks_of (values_of input.now.control) (assembly_value input.now.assembly)) result
        (Wrote O.taken out.old out.new) }
    ensures writes { RisesExactly (write_failed result) (O.faults out.old) (O.faults out.new) }
{
    let shape = input.control.shape;
    match shape {
        Shape::Gauss => {
            let falloff = Falloff::new(shape, |misfit, scale| gauss(misfit, scale));
            write_blocks(alloc, out, input, &falloff)
        }
        Shape::Triangle => {
            let falloff = Falloff::new(shape, |misfit, scale| triangle(misfit, scale));
            write_blocks(alloc, out, input, &falloff)
        }
        Shape::Count(most) => {
            let falloff = Falloff::new(shape, |misfit, _scale| count(most, misfit));
            write_blocks(alloc, out, input, &falloff)
        }
    }
}

// Writes the blocks of the events of an input in turn, each when it is whole.
fn write_blocks<O: Sink, F: Fn(u64, u64) -> u64>(
    alloc: Global,
    out: &mut O,
    input: &RunInput,
    falloff: &Falloff<F>,
) -> Result<(), WriteFault>
    requires input { IsInput input.now }
    requires answers { AnswersItsShape F.Fn falloff.now }
    requires shape { shape_of falloff.now ≡ input.now.control.shape }
    ensures told { WritingEnds (blocks_of (values_of input.now.control) (assembly_value input.now.assembly)) result
        (Wrote O.taken out.old out.new) }
    ensures writes { RisesExactly (write_failed result) (O.faults out.old) (O.faults out.new) }
{
    for place in 0..input.assembly.events.len() {
        let block = event_block(alloc, input, place, falloff)?;
        put_part(out, &block)?;
    }
    Ok(())
}

// The block of the event at a place, whose number is one more, with what the search finds of it and what its lanes do.
fn event_block<F: Fn(u64, u64) -> u64>(
    alloc: Global,
    input: &RunInput,
    place: usize,
    falloff: &Falloff<F>,
) -> Result<Vec<u8>, AllocError>
    requires input { IsInput input.now }
    requires place { place < length input.now.assembly.events.items }
    requires answers { AnswersItsShape F.Fn falloff.now }
    requires shape { shape_of falloff.now ≡ input.now.control.shape }
    ensures { IfOk result (λ block. block.items ≡ event_block (values_of input.now.control)
        (assembly_value input.now.assembly) (place + 1, event_at input.now.assembly (place + 1))) }
{
    let (found, lanes) = find_event(alloc, input, &input.assembly.events[place], falloff)?;
    report(
        alloc,
        place as u32 + 1,
        &input.assembly,
        found.as_ref(),
        lanes,
    )
}

// What the search finds of an event, unless it has few or many used picks, and what its lanes do, where there are several.
fn find_event<F: Fn(u64, u64) -> u64>(
    alloc: Global,
    input: &RunInput,
    event: &Prepared,
    falloff: &Falloff<F>,
) -> Result<(Option<Found>, Option<LaneCount>), AllocError>
    requires input { IsInput input.now }
    requires prepared { IsPrepared (values_of input.now.control) input.now.assembly.field event.now }
    requires answers { AnswersItsShape F.Fn falloff.now }
    requires shape { shape_of falloff.now ≡ input.now.control.shape }
    ensures found { IfOk result (λ pair. option_map found_value pair.0
        ≡ outcome_of_case (values_of input.now.control) input.now.assembly.field (case_value event.now.case)) }
    ensures lanes { IfOk result (λ pair. option_map lane_values pair.1
        ≡ lanes_of_case (values_of input.now.control) input.now.assembly.field (case_value event.now.case)) }
    ensures tellable { IfOk result (λ pair. IfSome pair.0 (λ f.
        IsTellable input.now.assembly.frame.grid (found_value f))) }
{
    let Case::Ready(problem) = &event.case else {
        return Ok((None, None));
    };
    let control = &input.control;
    let field = &input.assembly.field;
    let several = control.lanes > 1;
    if several {
        let (found, count) = find_by_lanes(alloc, field, problem, falloff, control)?;
        return Ok((Some(found), Some(count)));
    }
    let found = find(
        alloc,
        field,
        problem,
        falloff,
        control.margin,
        control.budget,
    )?;
    Ok((Some(found), None))
}
