//! The headers of the time grids that are wanted.
ghost use Rattle.std.specs.Prelude.{◌≡◌, ◌≤◌, [], IfOk, IfErr, OnOk, OnSome, IfSome, IsTrue, All, Some, is_none, false, length};
ghost use Rattle.std.specs.List.{list_any};
ghost use Rattle.text_terms.specs.Names.{is_name};
ghost use Rattle.edt_outside.specs.Counts.{RisesExactly};
ghost use Rattle.grid_header.specs.Reading.{IsValidHeader};
ghost use Rattle.control_reader.specs.ControlValues.{values_of};
ghost use Rattle.station_table.specs.Limits.{IsKey};
ghost use Rattle.event_assembly.specs.Answers.{HasBodyCause, StaysEnded, assemble_failed, assemble_absent};
ghost use Rattle.event_assembly.specs.Headers.{has_no_header, lacks_a_header};
ghost use Rattle.event_assembly.specs.Inside.Reads.{ReadsPresent, ReadsHeader, ReadsHeaders};

use crate::faults::AssembleFault;
use crate::names::header_name;
use control_reader::Control;
use edt_outside::{HasFault, ReadFault, Shelf, read_all};
use edt_text::Name;
use grid_header::{Header, read_header};
use station_table::GridKey;
use std::alloc::Global;

/// The most bytes of a header.
const LONGEST_HEADER: usize = 65_536;

/// The headers of keys, in their order, with `None` for a key that has none. The first refusal decides.
pub(crate) fn read_headers<S: Shelf>(
    alloc: Global,
    shelf: &mut S,
    control: &Control,
    keys: &[GridKey],
) -> Result<Vec<Option<Header>>, AssembleFault>
    requires root { IsTrue (is_name 255 control.now.time_root) }
    requires keys { All IsKey keys.now }
    ensures told { IfSome (S.files shelf.old) (λ files. ReadsHeaders files (values_of control.now) keys.now result) }
    ensures one_each { IfOk result (λ headers. length headers.items ≡ length keys.now) }
    ensures valid { IfOk result (λ headers. All (λ header. IfSome header IsValidHeader) headers.items) }
    ensures cause { IfErr result HasBodyCause }
    ensures ended { OnOk result (StaysEnded (S.files shelf.old) (S.left shelf.old) (S.left shelf.new)) }
    ensures same_files { S.files shelf.new ≡ S.files shelf.old }
    ensures faults { RisesExactly (assemble_failed result) (S.faults shelf.old) (S.faults shelf.new) }
    ensures misses { RisesExactly (assemble_absent result) (S.misses shelf.old) (S.misses shelf.new) }
    ensures lacks_stay { S.lacks shelf.old ≤ S.lacks shelf.new }
    ensures lacks { IfOk result (λ headers.
        RisesExactly (list_any is_none headers.items) (S.lacks shelf.old) (S.lacks shelf.new)) }
    ensures no_lacks { IfSome (S.files shelf.old)
        (λ files. lacks_a_header files (values_of control.now) keys.now ≡ false
        → S.lacks shelf.new ≡ S.lacks shelf.old) }
    ensures calls { S.calls shelf.old ≤ S.calls shelf.new }
{
    let mut headers = Vec::with_capacity(alloc, keys.len())?;
    for key in keys {
        let header = read_key_header(alloc, shelf, control, key)?;
        headers.push(header)?;
    }
    Ok(headers)
}

// The header of a key, or `None` where the shelf has none.
fn read_key_header<S: Shelf>(
    alloc: Global,
    shelf: &mut S,
    control: &Control,
    key: &GridKey,
) -> Result<Option<Header>, AssembleFault>
    requires root { IsTrue (is_name 255 control.now.time_root) }
    requires key { IsKey key.now }
    ensures told { IfSome (S.files shelf.old) (λ files. ReadsHeader files (values_of control.now) key.now result) }
    ensures valid { IfOk result (λ header. IfSome header IsValidHeader) }
    ensures cause { IfErr result HasBodyCause }
    ensures ended { OnOk result (StaysEnded (S.files shelf.old) (S.left shelf.old) (S.left shelf.new)) }
    ensures same_files { S.files shelf.new ≡ S.files shelf.old }
    ensures faults { RisesExactly (assemble_failed result) (S.faults shelf.old) (S.faults shelf.new) }
    ensures misses { RisesExactly (assemble_absent result) (S.misses shelf.old) (S.misses shelf.new) }
    ensures lacks_stay { S.lacks shelf.old ≤ S.lacks shelf.new }
    ensures lacks { IfOk result (λ header. RisesExactly (is_none header) (S.lacks shelf.old) (S.lacks shelf.new)) }
    ensures no_lacks { IfSome (S.files shelf.old) (λ files. has_no_header files (values_of control.now) key.now ≡ false
        → S.lacks shelf.new ≡ S.lacks shelf.old) }
    ensures calls { S.calls shelf.old ≤ S.calls shelf.new }
{
    let name = header_name(alloc, control, key)?;
    match shelf.has(name.as_str()) {
        Ok(true) => Ok(Some(read_present(alloc, shelf, name)?)),
        Ok(false) => Ok(None),
        Err(HasFault::Failed) => Err(AssembleFault::Failed(name)),
        Err(HasFault::Memory) => Err(AssembleFault::Memory),
    }
}

// The header of this name, which the shelf has.
fn read_present<S: Shelf>(alloc: Global, shelf: &mut S, name: Name) -> Result<Header, AssembleFault>
    ensures told { IfSome (S.files shelf.old) (λ files. IfSome (files name) (λ bytes. ReadsPresent name bytes result)) }
    ensures valid { IfOk result IsValidHeader }
    ensures cause { IfErr result HasBodyCause }
    ensures ended { OnOk result (OnSome (S.files shelf.old) (S.left shelf.new ≡ Some [])) }
    ensures same_files { S.files shelf.new ≡ S.files shelf.old }
    ensures faults { RisesExactly (assemble_failed result) (S.faults shelf.old) (S.faults shelf.new) }
    ensures misses { RisesExactly (assemble_absent result) (S.misses shelf.old) (S.misses shelf.new) }
    ensures lacks { S.lacks shelf.new ≡ S.lacks shelf.old }
    ensures calls { S.calls shelf.old ≤ S.calls shelf.new }
{
    match read_all(alloc, shelf, name.as_str(), LONGEST_HEADER) {
        Ok(bytes) => match read_header(&bytes) {
            Ok(header) => Ok(header),
            Err(cause) => Err(AssembleFault::Header { name, cause }),
        },
        Err(ReadFault::Absent) => Err(AssembleFault::Absent(name)),
        Err(ReadFault::Failed) => Err(AssembleFault::Failed(name)),
        Err(ReadFault::TooLong) => Err(AssembleFault::HeaderLong(name)),
        Err(ReadFault::Memory) => Err(AssembleFault::Memory),
    }
}
