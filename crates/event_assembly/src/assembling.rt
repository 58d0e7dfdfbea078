//! The assembly of events.
ghost use Rattle.std.specs.Prelude.{◌≡◌, ◌≤◌, IfOk, IfErr, OnOk, IfSome, IsTrue, All, false, length};
ghost use Rattle.edt_outside.specs.Counts.{Rose, RisesExactly};
ghost use Rattle.control_reader.specs.Limits.{IsControl};
ghost use Rattle.control_reader.specs.ControlValues.{values_of};
ghost use Rattle.phase_reader.specs.Limits.{IsEvent};
ghost use Rattle.phase_reader.specs.PhaseFile.{picks_of_events};
ghost use Rattle.event_assembly.specs.Answers.{IsToldBy, HasBodyCause, StaysEnded, assemble_failed, assemble_absent, lacks_a_grid};
ghost use Rattle.event_assembly.specs.Assembled.{IsAssembled};
ghost use Rattle.event_assembly.specs.Assembling.{lacks_a_wanted_header};

use crate::assembly::Assembly;
use crate::bodies::read_rows;
use crate::faults::AssembleFault;
use crate::headers::read_headers;
use crate::planning::Plan;
use crate::rows::is_past_limit;
use control_reader::Control;
use edt_outside::Shelf;
use phase_reader::Event;
use station_table::wanted;
use std::alloc::Global;

/// Decides the picks of events and reads the times that they need.
///
/// First the headers of the keys that `wanted` names are asked for and read, in that order; a grid without a header is absent. Then the
/// picks of each event are decided. Then the bodies of the keys of the used picks of ready events are read, in the same order; each body
/// is streamed to the search nodes, and where its key is converted each time is multiplied by the ratio of the velocities, rounded. The
/// first refusal in this order decides. These steps are this project's own.
///
/// Memory for a row of times is taken before its body is opened, and one buffer of 65,536 bytes serves all bodies. There are at most
/// 10,000 events, as `read_phases` answers them.
pub fn assemble<S: Shelf>(
    alloc: Global,
    shelf: &mut S,
    control: &Control,
    events: &[Event],
) -> Result<Assembly, AssembleFault>
    requires control { IsControl control.now }
    requires events { All IsEvent events.now }
    requires few { length events.now ≤ 10000 }
    // What it answers is what the files make of the events, and an assembly holds together whatever the files are.
    ensures told { IsToldBy (S.files shelf.old) control.now events.now result }
    ensures assembled { IfOk result (IsAssembled (values_of control.now) (length events.now)) }
    ensures cause { IfErr result HasBodyCause }
    // What becomes of the shelf.
    ensures ended { OnOk result (StaysEnded (S.files shelf.old) (S.left shelf.old) (S.left shelf.new)) }
    ensures same_files { S.files shelf.new ≡ S.files shelf.old }
    ensures faults { RisesExactly (assemble_failed result) (S.faults shelf.old) (S.faults shelf.new) }
    ensures misses { RisesExactly (assemble_absent result) (S.misses shelf.old) (S.misses shelf.new) }
    ensures lacks_stay { S.lacks shelf.old ≤ S.lacks shelf.new }
    ensures lacks { IfOk result (λ assembly.
        IsTrue (lacks_a_grid assembly.events.items) → Rose (S.lacks shelf.old) (S.lacks shelf.new)) }
    ensures no_lacks { IfSome (S.files shelf.old) (λ files.
        lacks_a_wanted_header files (values_of control.now) (picks_of_events events.now) ≡ false
        → S.lacks shelf.new ≡ S.lacks shelf.old) }
    ensures calls { S.calls shelf.old ≤ S.calls shelf.new }
{
    let keys = wanted(alloc, control, events)?;
    let headers = read_headers(alloc, shelf, control, &keys)?;
    let plan = Plan::new(alloc, control, events, &keys, &headers)?;
    if is_past_limit(&plan.rows, control.frame.grid.nodes()) {
        return Err(AssembleFault::Cells);
    }
    let field = read_rows(alloc, shelf, control, &keys, &headers, &plan.rows)?;
    Ok(Assembly {
        frame: control.frame,
        field,
        events: plan.events,
    })
}
