//! What the lines of a block are, for whoever reads a report.
ghost use Rattle.std.specs.Prelude.{◌≡◌, ℕ, ◌++◌, ◌∷◌, List, Option};
ghost use Rattle.std.specs.List.{AllByRecursion};
ghost use Rattle.text_terms.specs.Lines.{lines_of};
ghost use Rattle.cover_certificate.specs.BlockLines.{block_lines};
ghost use Rattle.node_boxes.specs.declared.frame.Frame.{Frame};
ghost use Rattle.edt_score.specs.Field.{FieldTimes};
ghost use Rattle.octree_search.specs.Outcomes.{Outcome};
ghost use Rattle.event_assembly.specs.AssemblyValues.{EventValues};
ghost use Rattle.location_report.specs.BlockForms.{IsBefore, IsPlainEvent};
ghost use Rattle.location_report.specs.Blocks.{block_of, certificate_value, first_line, lines_between};
ghost use Rattle.location_report.specs.Lines.{LaneValues};

/// The lines of a block are its `EVENT` line, then lines of which none begins a certificate, and then those of its certificate,
/// whatever follows it.
pub fn report_law()
    ensures lines { (frame : Frame) (field : FieldTimes) (number : ℕ) (event : EventValues) (outcome : Option Outcome)
        (lanes : Option LaneValues) (rest : List ℕ) → IsPlainEvent event outcome
        → lines_of (block_of frame field number event outcome lanes ++ rest)
        ≡ first_line number event ∷ (lines_between frame field event outcome lanes
        ++ (block_lines (certificate_value event.case outcome) ++ lines_of rest)) }
    ensures first { (number : ℕ) (event : EventValues) → IsBefore (first_line number event) }
    ensures between { (frame : Frame) (field : FieldTimes) (event : EventValues) (outcome : Option Outcome)
        (lanes : Option LaneValues) → AllByRecursion IsBefore (lines_between frame field event outcome lanes) }
{}
