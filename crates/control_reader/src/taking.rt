//! A draft that takes a line, its statement and the words of it.
ghost use Rattle.std.specs.Prelude.{◌≡◌, ◌≢◌, ◌^◌, ◌-◌, ◌<◌, ◌≤◌, ℕ, Some, None, length, OnOk, IfErr};
ghost use Rattle.edt_text.specs.PlacedWords.{placed_words};
ghost use Rattle.control_reader.specs.Keywords.{least_of};
ghost use Rattle.control_reader.specs.WordFaults.{fault_in_words};
ghost use Rattle.control_reader.specs.Inside.Said.{said_of};
ghost use Rattle.control_reader.specs.Inside.NextStatement.{with_statement, with_line};
ghost use Rattle.control_reader.specs.Inside.NextFault.{was_said, statement_fault_by, fault_by};
ghost use Rattle.control_reader.specs.Inside.SaidLimits.{IsWithin};
ghost use Rattle.control_reader.specs.Inside.ReadValues.{Puts, Pushes};

use crate::draft::ControlDraft;
use crate::fault::ControlCause;
use crate::statement::{LineKind, Statement, split_line};
use crate::words::{
    read_alias, read_budget, read_cells, read_delay, read_exclude, read_files, read_frame,
    read_include, read_lanes, read_margin, read_method, read_phase_ids, read_seed, read_shape,
    read_sigma,
};
use edt_text::{LONGEST_LINE, PlacedWords};
use std::alloc::Global;

// The most included files; this project's own limit.
pub(crate) const MOST_FILES: u32 = 16;

impl ControlDraft {
    /// Takes the bytes of a line, or answers the first fault in it.
    #[tactic(auto, unfolding(crate::specs::ControlLines::kind_of, crate::specs::ControlLines::arguments_of))]
    pub(crate) fn take_bytes(
        &mut self,
        alloc: Global,
        file: u32,
        line: &[u8],
    ) -> Result<(), ControlCause>
        requires within { IsWithin (said_of self.old) }
        requires room { self.old.passed < 2 ^ 32 - 1 }
        ensures value { OnOk result ((number : ℕ)
            → said_of self.new ≡ with_line (record { file = file; number = number; bytes = line.now })
            (said_of self.old)) }
        ensures good { OnOk result ((number : ℕ)
            → fault_by (said_of self.old) (record { file = file; number = number; bytes = line.now }) ≡ None) }
        ensures limits { OnOk result (IsWithin (said_of self.new)) }
        ensures fault { IfErr result (λ cause. cause ≢ ControlCause.Memory → (number : ℕ)
            → fault_by (said_of self.old) (record { file = file; number = number; bytes = line.now })
            ≡ Some cause) }
    {
        if line.len() > LONGEST_LINE {
            return Err(ControlCause::LongLine);
        }
        let (kind, words) = split_line(line);
        match kind {
            LineKind::Blank => Ok(()),
            LineKind::Comment => Ok(()),
            LineKind::Passed => {
                self.passed += 1;
                Ok(())
            }
            LineKind::Of(statement) => {
                self.take_statement(alloc, file, statement, &PlacedWords::new(words))
            }
        }
    }

    // Takes a statement, or answers its first fault.
    fn take_statement(
        &mut self,
        alloc: Global,
        file: u32,
        statement: Statement,
        arguments: &PlacedWords,
    ) -> Result<(), ControlCause>
        requires { IsWithin (said_of self.old) }
        ensures value { OnOk result (said_of self.new
            ≡ with_statement statement (placed_words arguments.now) (said_of self.old)) }
        ensures good { OnOk result (statement_fault_by (said_of self.old) file statement
            (placed_words arguments.now) ≡ None) }
        ensures limits { OnOk result (IsWithin (said_of self.new)) }
        ensures fault { IfErr result (λ cause. cause ≢ ControlCause.Memory
            → statement_fault_by (said_of self.old) file statement (placed_words arguments.now) ≡ Some cause) }
    {
        if statement.is_nested(file) {
            return Err(ControlCause::NestedInclude);
        }
        if statement.is_not_yet() {
            return Err(ControlCause::NotYet);
        }
        if self.was_said(statement) {
            return Err(ControlCause::Repeated);
        }
        if !arguments.has(statement.least()) {
            return Err(ControlCause::Fields);
        }
        self.take_words(alloc, statement, arguments)?;
        if self.includes > MOST_FILES {
            return Err(ControlCause::Limit);
        }
        Ok(())
    }

    // Whether a statement with the same keyword was taken, of those that may stand once.
    fn was_said(&self, statement: Statement) -> bool
        ensures { result ≡ was_said statement (said_of self.now) }
    {
        match statement {
            Statement::Locfiles => self.files.is_some(),
            Statement::Locgrid => self.frame.is_some(),
            Statement::Locmeth => self.method.is_some(),
            Statement::Locgau => self.sigma.is_some(),
            Statement::Locsearch => self.cells.is_some(),
            Statement::Control => self.seed.is_some(),
            Statement::Edtnear => self.margin.is_some(),
            Statement::Edtbudget => self.budget.is_some(),
            Statement::Edtkernel => self.shape.is_some(),
            Statement::Edtlanes => self.lanes.is_some(),
            _ => false,
        }
    }

    // Takes the words of a statement, of which there are enough, or answers the first fault in them. An error changes the draft.
    fn take_words(
        &mut self,
        alloc: Global,
        statement: Statement,
        arguments: &PlacedWords,
    ) -> Result<(), ControlCause>
        requires enough { least_of statement ≤ length (placed_words arguments.now) }
        requires within { IsWithin (said_of self.old) }
        ensures value { OnOk result (said_of self.new
            ≡ with_statement statement (placed_words arguments.now) (said_of self.old)) }
        ensures good { OnOk result (fault_in_words statement (placed_words arguments.now) ≡ None) }
        ensures limits { OnOk result (self.new.includes ≤ 16 → IsWithin (said_of self.new)) }
        ensures fault { IfErr result (λ cause. cause ≢ ControlCause.Memory
            → fault_in_words statement (placed_words arguments.now) ≡ Some cause) }
    {
        match statement {
            Statement::Locfiles => put(&mut self.files, read_files(alloc, arguments)),
            Statement::Locgrid => put(&mut self.frame, read_frame(arguments)),
            Statement::Locmeth => put(&mut self.method, read_method(arguments)),
            Statement::Locgau => put(&mut self.sigma, read_sigma(arguments)),
            Statement::Locsearch => put(&mut self.cells, read_cells(arguments)),
            Statement::Locphaseid => read_phase_ids(alloc, arguments, &mut self.phase_ids),
            Statement::Locexclude => push(&mut self.excludes, read_exclude(alloc, arguments)),
            Statement::Locdelay => push(&mut self.delays, read_delay(alloc, arguments)),
            Statement::Localias => push(&mut self.aliases, read_alias(alloc, arguments)),
            Statement::Control => put(&mut self.seed, read_seed(arguments)),
            Statement::Include => {
                read_include(alloc, arguments)?;
                self.includes += 1;
                Ok(())
            }
            Statement::Edtnear => put(&mut self.margin, read_margin(arguments)),
            Statement::Edtbudget => put(&mut self.budget, read_budget(arguments)),
            Statement::Edtkernel => put(&mut self.shape, read_shape(arguments)),
            Statement::Edtlanes => put(&mut self.lanes, read_lanes(arguments)),
            Statement::Locgau2 => Ok(()),
        }
    }
}

// Puts a value that was read in its place, or hands its cause on.
fn put<T: Drop>(place: &mut Option<T>, read: Result<T, ControlCause>) -> Result<(), ControlCause>
    ensures { Puts read place.new result }
{
    *place = Some(read?);
    Ok(())
}

/// Puts a value that was read after the others, or hands its cause on.
pub(crate) fn push<T: Drop>(
    list: &mut Vec<T>,
    read: Result<T, ControlCause>,
) -> Result<(), ControlCause>
    ensures { Pushes read list.old.items list.new.items result }
{
    list.push(read?).map_err(|_| ControlCause::Memory)
}
