//! What holds of every report that `edtloc locate` writes.
ghost use Rattle.std.specs.Prelude.{◌≡◌, ◌<◌, ◌^◌, ℕ, List, length, Ok, false};
ghost use Rattle.text_terms.specs.Lines.{lines_of};
ghost use Rattle.edt_outside.specs.Shelves.{Files};
ghost use Rattle.node_boxes.specs.Roots.{AreRoots};
ghost use Rattle.run_input.specs.declared.input.RunInput.{RunInput};
ghost use Rattle.run_input.specs.Inputs.{InputValues, IsInput, input_of, input_value};
ghost use Rattle.check_top.specs.CheckEndings.{some_refused, values_of};
ghost use Rattle.check_top.specs.OwnReports.{IsPlainInput, own_blocks, own_text};
ghost use Rattle.check_top.specs.Reports.{report_of};

/// The text that a run that locates writes is a report without a faulty line, and its certificates are those of the events. None of
/// them is refused, with any roots of the grid. An input that was read is plain and has such roots.
pub fn own_law()
    ensures reads { (input : InputValues) → IsPlainInput input
        → report_of (length input.assembly.events) (lines_of (own_text input)) ≡ Ok (own_blocks input) }
    ensures accepted { (input : InputValues) → AreRoots input.assembly.field.grid input.assembly.field.roots
        → some_refused (values_of input (own_blocks input)) ≡ false }
    ensures plain { (files : Files) (name : List ℕ) (input : RunInput) → IsInput input
        → input_of files name ≡ Ok (input_value input) → input.control.passed < 2 ^ 32 → input.phases.passed < 2 ^ 32
        → IsPlainInput (input_value input) }
    ensures roots { (input : RunInput) → IsInput input
        → AreRoots input.assembly.field.grid input.assembly.field.roots }
{}
