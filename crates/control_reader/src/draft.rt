//! A control file that is read line by line.
ghost use Rattle.std.specs.Prelude.{◌≡◌, ◌≢◌, ◌+◌, ◌^◌, ◌-◌, ◌<◌, ◌≤◌, [], ◌∷◌, ◌++◌, List, Some, None, if◌then◌else◌, false, length, OnOk, IfOk, IfErr};
ghost use Rattle.control_reader.specs.ControlLines.{ControlLine, file_lines, is_include};
ghost use Rattle.control_reader.specs.ControlFile.{fault_after, IsFaultOf};
ghost use Rattle.control_reader.specs.Inside.Said.{said_of, control_line};
ghost use Rattle.control_reader.specs.Inside.Follows.{Follows};
ghost use Rattle.control_reader.specs.Inside.SaidLimits.{IsWithin};
ghost use Rattle.control_reader.specs.Inside.Completion.{missing_in, Completes};

use crate::control::{Alias, Control, Delay, Exclude, PhaseId};
use crate::fault::{ControlCause, ControlFault, Keyword};
use crate::values::{Files, Method};
use edt_text::{Line, Lines};
use kernel_table::Shape;
use node_boxes::Frame;
use std::alloc::Global;

/// What the lines so far say: the values of the statements that may stand once, the entries of all others in order, how many files
/// were included, and how many lines have a keyword that isn't read.
#[derive(Drop)]
pub(crate) struct ControlDraft {
    pub(crate) files: Option<Files>,
    pub(crate) frame: Option<Frame>,
    pub(crate) method: Option<Method>,
    pub(crate) sigma: Option<u64>,
    pub(crate) cells: Option<(u32, u32, u32)>,
    pub(crate) seed: Option<i64>,
    pub(crate) margin: Option<u32>,
    pub(crate) budget: Option<u32>,
    pub(crate) shape: Option<Shape>,
    pub(crate) lanes: Option<u32>,
    pub(crate) phase_ids: Vec<PhaseId>,
    pub(crate) excludes: Vec<Exclude>,
    pub(crate) delays: Vec<Delay>,
    pub(crate) aliases: Vec<Alias>,
    pub(crate) includes: u32,
    pub(crate) passed: u32,
}

impl ControlDraft {
    /// The draft of no lines.
    pub(crate) fn new(alloc: Global) -> ControlDraft
        ensures follows { Follows [] result }
        ensures within { IsWithin (said_of result) }
        ensures none { result.includes + result.passed ≡ 0 }
    {
        ControlDraft {
            files: None,
            frame: None,
            method: None,
            sigma: None,
            cells: None,
            seed: None,
            margin: None,
            budget: None,
            shape: None,
            lanes: None,
            phase_ids: Vec::new(alloc),
            excludes: Vec::new(alloc),
            delays: Vec::new(alloc),
            aliases: Vec::new(alloc),
            includes: 0,
            passed: 0,
        }
    }

    /// Takes one more line of a file, or answers its fault. After a fault the draft is of no use.
    pub(crate) fn take_line(
        &mut self,
        alloc: Global,
        file: u32,
        line: Line,
    ) -> Result<(), ControlFault>
        requires within { IsWithin (said_of self.old) }
        requires room { self.old.passed < 2 ^ 32 - 1 }
        ensures follows { OnOk result ((before : List ControlLine) → Follows before self.old
            → Follows (before ++ control_line file line.entry ∷ []) self.new) }
        ensures limits { OnOk result (IsWithin (said_of self.new)) }
        ensures includes { OnOk result (self.new.includes
            ≡ (if is_include (control_line file line.entry) then self.old.includes + 1 else self.old.includes)) }
        ensures nested { OnOk result (0 < file → is_include (control_line file line.entry) ≡ false) }
        ensures room { OnOk result (self.new.passed ≤ self.old.passed + 1) }
        ensures place { IfErr result (λ fault. (fault.file ≡ file) × (fault.line ≡ line.entry.number)) }
        ensures fault { IfErr result (λ fault. fault.cause ≢ ControlCause.Memory → (before : List ControlLine)
            → Follows before self.old → fault_after before (control_line file line.entry) ≡ Some fault.cause) }
    {
        match self.take_bytes(alloc, file, line.bytes) {
            Ok(()) => Ok(()),
            Err(cause) => Err(ControlFault {
                file,
                line: line.number,
                cause,
            }),
        }
    }

    /// Takes all lines of an included file, or answers the first fault in them.
    pub(crate) fn take_file(
        &mut self,
        alloc: Global,
        file: u32,
        bytes: &[u8],
    ) -> Result<(), ControlFault>
        requires within { IsWithin (said_of self.old) }
        requires included { 0 < file }
        requires size { length bytes.now ≤ 1048576 }
        requires room { self.old.passed ≤ 2 ^ 31 }
        ensures follows { OnOk result ((before : List ControlLine) → Follows before self.old
            → Follows (before ++ file_lines file bytes.now) self.new) }
        ensures limits { OnOk result (IsWithin (said_of self.new)) }
        ensures includes { OnOk result (self.new.includes ≡ self.old.includes) }
        ensures room { OnOk result (self.new.passed ≤ self.old.passed + 1048577) }
        ensures fault { IfErr result (λ fault. fault.cause ≢ ControlCause.Memory → (before rest : List ControlLine)
            → Follows before self.old → IsFaultOf (before ++ file_lines file bytes.now ++ rest) fault) }
    {
        let mut lines = Lines::new(bytes);
        while let Some(line) = lines.next() {
            self.take_line(alloc, file, line)?;
        }
        Ok(())
    }

    /// The control file of the lines that were taken, or the first statement that it lacks.
    pub(crate) fn finish(self) -> Result<Control, ControlFault>
        ensures value { IfOk result (Completes (said_of self)) }
        ensures good { OnOk result (missing_in (said_of self) ≡ None) }
        ensures place { IfErr result (λ fault. (fault.file ≡ 0) × (fault.line ≡ 0)) }
        ensures fault { IfErr result (λ fault. missing_in (said_of self) ≡ Some fault.cause) }
    {
        let files = self.files.ok_or(missing(Keyword::Locfiles))?;
        let frame = self.frame.ok_or(missing(Keyword::Locgrid))?;
        let method = self.method.ok_or(missing(Keyword::Locmeth))?;
        let sigma = self.sigma.ok_or(missing(Keyword::Locgau))?;
        Ok(Control {
            obs_file: files.obs_file,
            time_root: files.time_root,
            swap: files.swap,
            frame,
            max_dist: method.max_dist,
            min_dist: method.min_dist,
            min_phases: method.min_phases,
            max_phases: method.max_phases,
            min_s: method.min_s,
            vpvs: method.vpvs,
            reject_duplicates: method.reject_duplicates,
            sigma,
            cells: self.cells.unwrap_or((1, 1, 1)),
            phase_ids: self.phase_ids,
            excludes: self.excludes,
            delays: self.delays,
            aliases: self.aliases,
            seed: self.seed.unwrap_or(0),
            margin: self.margin.unwrap_or(0),
            budget: self.budget.unwrap_or(2 * frame.grid.nodes()),
            shape: self.shape.unwrap_or(Shape::Gauss),
            lanes: self.lanes.unwrap_or(1),
            passed: self.passed,
        })
    }
}

// The fault of a control file that lacks a statement.
fn missing(keyword: Keyword) -> ControlFault
    ensures { result ≡ record { file = 0; line = 0; cause = ControlCause.Missing keyword } }
{
    ControlFault {
        file: 0,
        line: 0,
        cause: ControlCause::Missing(keyword),
    }
}
