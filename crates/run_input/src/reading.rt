//! The control file of a run with the files that it includes, and its phase file.
ghost use Rattle.std.specs.Prelude.{◌≡◌, ◌≢◌, ◌==◌, ◌≤◌, [], length, map, All, IsTrue, IfOk, IfErr, IfSome, OnOk, OnSome, Some, vec_len, false};
ghost use Rattle.text_terms.specs.Names.{is_name};
ghost use Rattle.edt_outside.specs.Counts.{RisesExactly};
ghost use Rattle.control_reader.specs.Limits.{IsControl};
ghost use Rattle.phase_reader.specs.Limits.{IsEvent};
ghost use Rattle.run_input.specs.FilesUnder.{bytes_under};
ghost use Rattle.text_terms.specs.Faults.{first_cause};
ghost use Rattle.run_input.specs.FirstRefusals.{control_refusal, file_refusal, included_refusals, phases_refusal};
ghost use Rattle.run_input.specs.Refusals.{is_cause, status_of, status_of_answer};
ghost use Rattle.run_input.specs.Inside.Stages.{ArePhasesUnder, IsControlUnder, IsFile, Reads};

use crate::refusals::Refusal;
use control_reader::{Control, ControlCause, ControlFault, include_names, read_control};
use edt_outside::{ReadFault, Shelf, read_all};
use edt_text::Name;
use phase_reader::{PhaseCause, PhaseFault, Phases, read_phases};
use std::alloc::{AllocError, Global};

const MOST_CONTROL_BYTES: usize = 1_048_576;

const MOST_PHASE_BYTES: usize = 16_777_216;

// Reads the control file of this name and the files that it includes.
pub fn read_control_file<S: Shelf>(
    alloc: Global,
    shelf: &mut S,
    name: &str,
) -> Result<Control, Refusal>
    requires named { IsTrue (is_name 512 name.now) }
    ensures told { IfSome (S.files shelf.old) (λ files.
        Reads (control_refusal files name.now) (IsControlUnder files name.now) result) }
    ensures limits { IfOk result IsControl }
    ensures causes { IfErr result (λ refusal. IsTrue (is_cause refusal)) }
    ensures same_files { S.files shelf.new ≡ S.files shelf.old }
    ensures faults { RisesExactly (status_of_answer result == 7) (S.faults shelf.old) (S.faults shelf.new) }
    ensures misses { RisesExactly (status_of_answer result == 9) (S.misses shelf.old) (S.misses shelf.new) }
    ensures lacks { S.lacks shelf.new ≡ S.lacks shelf.old }
    ensures calls { S.calls shelf.old ≤ S.calls shelf.new }
{
    let main_name = file_name(alloc, name)?;
    let too_long = Refusal::ControlTooLong(0);
    let main = read_file(alloc, shelf, main_name, MOST_CONTROL_BYTES, too_long)?;
    let names = match include_names(alloc, &main) {
        Ok(names) => names,
        Err(fault) => return Err(refusal_of_control(fault)),
    };
    let included = read_included(alloc, shelf, &names)?;
    match read_control(alloc, &main, &included) {
        Ok(control) => Ok(control),
        Err(fault) => Err(refusal_of_control(fault)),
    }
}

// Reads included files in turn.
fn read_included<S: Shelf>(
    alloc: Global,
    shelf: &mut S,
    names: &[Name],
) -> Result<Vec<Vec<u8>>, Refusal>
    requires { length names.now ≤ 16 }
    ensures told { IfSome (S.files shelf.old) (λ files.
        Reads (first_cause (included_refusals files names.now))
        (λ included. map (λ bytes. bytes.items) included.items ≡ map (bytes_under files) names.now) result) }
    ensures one_each { IfOk result (λ included. vec_len included ≡ length names.now) }
    ensures sizes { IfOk result (λ included. All (λ bytes. vec_len bytes ≤ 1048576) included.items) }
    ensures causes { IfErr result (λ refusal. IsTrue (is_cause refusal)) }
    ensures same_files { S.files shelf.new ≡ S.files shelf.old }
    ensures faults { RisesExactly (status_of_answer result == 7) (S.faults shelf.old) (S.faults shelf.new) }
    ensures misses { RisesExactly (status_of_answer result == 9) (S.misses shelf.old) (S.misses shelf.new) }
    ensures lacks { S.lacks shelf.new ≡ S.lacks shelf.old }
    ensures calls { S.calls shelf.old ≤ S.calls shelf.new }
{
    let mut included = Vec::new(alloc);
    let mut number = 0;
    for name in names {
        number += 1;
        let name = name.copy(alloc)?;
        let too_long = Refusal::ControlTooLong(number);
        let bytes = read_file(alloc, shelf, name, MOST_CONTROL_BYTES, too_long)?;
        included.push(bytes)?;
    }
    Ok(included)
}

// Reads the phase file of this name.
pub fn read_phase_file<S: Shelf>(
    alloc: Global,
    shelf: &mut S,
    name: &Name,
) -> Result<Phases, Refusal>
    ensures told { IfSome (S.files shelf.old) (λ files.
        Reads (phases_refusal files name.now) (ArePhasesUnder files name.now) result) }
    ensures events { IfOk result (λ phases. All IsEvent phases.events.items) }
    ensures few { IfOk result (λ phases. vec_len phases.events ≤ 10000) }
    ensures causes { IfErr result (λ refusal. IsTrue (is_cause refusal)) }
    ensures ended { OnOk result (OnSome (S.files shelf.old) (S.left shelf.new ≡ Some [])) }
    ensures same_files { S.files shelf.new ≡ S.files shelf.old }
    ensures faults { RisesExactly (status_of_answer result == 7) (S.faults shelf.old) (S.faults shelf.new) }
    ensures misses { RisesExactly (status_of_answer result == 9) (S.misses shelf.old) (S.misses shelf.new) }
    ensures lacks { S.lacks shelf.new ≡ S.lacks shelf.old }
    ensures calls { S.calls shelf.old ≤ S.calls shelf.new }
{
    let name = name.copy(alloc)?;
    let too_long = Refusal::PhasesTooLong;
    let bytes = read_file(alloc, shelf, name, MOST_PHASE_BYTES, too_long)?;
    match read_phases(alloc, &bytes) {
        Ok(phases) => Ok(phases),
        Err(fault) => Err(refusal_of_phases(fault)),
    }
}

// The whole file of this name, or the given refusal where it has more bytes than the limit.
fn read_file<S: Shelf>(
    alloc: Global,
    shelf: &mut S,
    name: Name,
    limit: usize,
    too_long: Refusal,
) -> Result<Vec<u8>, Refusal>
    requires no_read { (status_of too_long == 7) ≡ false }
    requires no_miss { (status_of too_long == 9) ≡ false }
    requires cause { IsTrue (is_cause too_long) }
    ensures told { IfSome (S.files shelf.old) (λ files.
        Reads (file_refusal name limit too_long (files name)) (IsFile (files name) limit) result) }
    ensures within { IfOk result (λ bytes. vec_len bytes ≤ limit) }
    ensures causes { IfErr result (λ refusal. IsTrue (is_cause refusal)) }
    ensures ended { OnOk result (OnSome (S.files shelf.old) (S.left shelf.new ≡ Some [])) }
    ensures same_files { S.files shelf.new ≡ S.files shelf.old }
    ensures faults { RisesExactly (status_of_answer result == 7) (S.faults shelf.old) (S.faults shelf.new) }
    ensures misses { RisesExactly (status_of_answer result == 9) (S.misses shelf.old) (S.misses shelf.new) }
    ensures lacks { S.lacks shelf.new ≡ S.lacks shelf.old }
    ensures calls { S.calls shelf.old ≤ S.calls shelf.new }
{
    match read_all(alloc, shelf, name.as_str(), limit) {
        Ok(bytes) => Ok(bytes),
        Err(ReadFault::Absent) => Err(Refusal::Absent(name)),
        Err(ReadFault::Failed) => Err(Refusal::Read(name)),
        Err(ReadFault::TooLong) => Err(too_long),
        Err(ReadFault::Memory) => Err(Refusal::Memory),
    }
}

/// The name of a word that may name a file. It is refused when out of memory, and for nothing else.
pub fn file_name(alloc: Global, word: &str) -> Result<Name, AllocError>
    requires named { IsTrue (is_name 512 word.now) }
    ensures { IfOk result (λ name. name ≡ word.now) }
{
    Name::of_valid(alloc, word.as_bytes())
}

// A fault of a control file as a refusal.
fn refusal_of_control(fault: ControlFault) -> Refusal
    ensures cause { IsTrue (is_cause result) }
    ensures told { fault.cause ≢ ControlCause.Memory → result ≡ Refusal.Control fault }
    ensures memory { fault.cause ≡ ControlCause.Memory → result ≡ Refusal.Memory }
    ensures no_read { (status_of result == 7) ≡ false }
    ensures no_miss { (status_of result == 9) ≡ false }
{
    match fault.cause {
        ControlCause::Memory => Refusal::Memory,
        _ => Refusal::Control(fault),
    }
}

// A fault of a phase file as a refusal.
fn refusal_of_phases(fault: PhaseFault) -> Refusal
    ensures cause { IsTrue (is_cause result) }
    ensures told { fault.cause ≢ PhaseCause.Memory → result ≡ Refusal.Phases fault }
    ensures memory { fault.cause ≡ PhaseCause.Memory → result ≡ Refusal.Memory }
    ensures no_read { (status_of result == 7) ≡ false }
    ensures no_miss { (status_of result == 9) ≡ false }
{
    match fault.cause {
        PhaseCause::Memory => Refusal::Memory,
        _ => Refusal::Phases(fault),
    }
}
