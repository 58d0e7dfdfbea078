//! What the verdicts mean.

ghost use Rattle.std.specs.Prelude.{◌≡◌, ◌↔◌, ℕ, List};
ghost use Rattle.kernel_table.specs.declared.kernels.Shape.{Shape};
ghost use Rattle.node_boxes.specs.declared.node_box.NodeBox.{NodeBox};
ghost use Rattle.node_boxes.specs.Grid.{GridSize, node_count};
ghost use Rattle.node_boxes.specs.Roots.{AreRoots};
ghost use Rattle.edt_score.specs.declared.problem.ProblemPick.{ProblemPick};
ghost use Rattle.edt_score.specs.BoxBound.{box_bound};
ghost use Rattle.edt_score.specs.Field.{FieldTimes};
ghost use Rattle.edt_score.specs.Judging.{judged_score};
ghost use Rattle.octree_search.specs.Near.{near_list};
ghost use Rattle.octree_search.specs.Outcomes.{outcome_of};
ghost use Rattle.cover_certificate.specs.Blocks.{BlockValue, IsValidBlock};
ghost use Rattle.cover_checker.specs.declared.verdict.Verdict.TheVariants.{Proved};
ghost use Rattle.cover_checker.specs.Bounding.{AreBounds};
ghost use Rattle.cover_checker.specs.Locations.{IsTrueOf, near_nodes};
ghost use Rattle.cover_checker.specs.Proving.{Proves};
ghost use Rattle.cover_checker.specs.Scorings.{Scoring, field_scoring, scoring_of};
ghost use Rattle.cover_checker.specs.Searching.{ProvesOutcome};
ghost use Rattle.cover_checker.specs.Verdicts.{verdict_of};

/// A verdict is `Proved` exactly where the certificate proves its event. The bounds of boxes by picks and
/// travel times are at least the scores of their nodes, whatever the boxes.
pub fn verdict_law()
    ensures exactly { (s : Scoring) (margin : ℕ) (block : BlockValue)
        → (verdict_of s margin block ≡ Proved) ↔ Proves s margin block }
    ensures bounds { (shape : Shape) (g : GridSize) (times : ℕ → ℕ → ℕ) (picks : List ProblemPick)
        → AreBounds (scoring_of shape g times picks) }
{}

/// A certificate that proves its event is true of all nodes.
pub fn proof_law()
    ensures { (s : Scoring) (margin : ℕ) (block : BlockValue) → AreBounds s → IsValidBlock block
        → Proves s margin block → IsTrueOf (node_count s.grid) s.score margin block }
{}

/// The near nodes are those that a search lists.
pub fn near_law()
    ensures { (g : GridSize) (bound : NodeBox → ℕ) (least : ℕ)
        → near_nodes (node_count g) (judged_score g bound) least ≡ near_list g bound least }
{}

/// The certificate of what a search finds proves it, whatever the roots of the grid, the margin and the budget,
/// where no bound is below the score of a node of its box and that of a single box is the score; so are the bounds
/// by picks and the travel times of a field.
pub fn search_law()
    ensures found { (s : Scoring) (roots : List NodeBox) (margin budget : ℕ) → AreBounds s → AreRoots s.grid roots
        → ProvesOutcome s margin (outcome_of s.grid roots s.bound margin budget) }
    ensures field { (shape : Shape) (field : FieldTimes) (picks : List ProblemPick) (roots : List NodeBox)
        (margin budget : ℕ) → AreRoots field.grid roots → ProvesOutcome (field_scoring shape field picks) margin
        (outcome_of field.grid roots (box_bound shape field picks) margin budget) }
{}
