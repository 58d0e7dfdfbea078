//! What holds of every cover and of every outcome.
ghost use Rattle.std.specs.Prelude.{◌≡◌, ℕ, ◌*◌, ◌<◌, ◌≤◌, List, length, All};
ghost use Rattle.node_boxes.specs.declared.node_box.NodeBox.{NodeBox};
ghost use Rattle.node_boxes.specs.Grid.{GridSize, node_count};
ghost use Rattle.node_boxes.specs.Roots.{AreRoots};
ghost use Rattle.kernel_table.specs.declared.kernels.Shape.{Shape};
ghost use Rattle.edt_score.specs.declared.problem.ProblemPick.{ProblemPick};
ghost use Rattle.edt_score.specs.Best.{IsFirstBest};
ghost use Rattle.edt_score.specs.BoxBound.{box_bound};
ghost use Rattle.edt_score.specs.Field.{FieldTimes, time_at};
ghost use Rattle.edt_score.specs.Judging.{judged_score};
ghost use Rattle.edt_score.specs.Score.{score_of};
ghost use Rattle.octree_search.specs.Cover.{boxes_met, cover_of};
ghost use Rattle.octree_search.specs.Fewest.{HasShortestCover, IsShortest};
ghost use Rattle.octree_search.specs.Meanings.{Says};
ghost use Rattle.octree_search.specs.Near.{best_of, near_list};
ghost use Rattle.octree_search.specs.Outcomes.{event_cover, outcome_of};

/// At every threshold no octree cover whose boxes are single or have a bound below the threshold has fewer boxes than the cover, and each
/// of its boxes lies in one of the cover's. The boxes met are fewer than twice the nodes, and a cover has at most as many boxes as there
/// are nodes.
pub fn cover_law()
    ensures shortest { (g : GridSize) (roots : List NodeBox) (bound : NodeBox → ℕ) (t : ℕ) → AreRoots g roots
        → IsShortest roots bound t (cover_of bound t roots) }
    ensures met { (g : GridSize) (roots : List NodeBox) (bound : NodeBox → ℕ) (t : ℕ) → AreRoots g roots
        → 1 ≤ node_count g → boxes_met bound t roots < 2 * node_count g }
    ensures length { (g : GridSize) (roots : List NodeBox) (bound : NodeBox → ℕ) (t : ℕ) → AreRoots g roots
        → length (cover_of bound t roots) ≤ node_count g }
{}

/// What an outcome says. A located event is at the first node that no node exceeds in score, and this score is its own, above 0; it has at
/// most 100,000 near nodes, and no more boxes than there are nodes. Without fit every node scores 0, and every bound of the cover is 0. The other two say that the boxes met
/// pass the budget, or that more than 100,000 nodes are near, which are never more than all. The cover is that of the rule at the
/// threshold of the score, or at 1 where no node scores, and no octree cover of its kind has fewer boxes. By the bounds of a field's boxes
/// the first best node is that of the field's scores.
pub fn outcome_law()
    ensures says { (g : GridSize) (roots : List NodeBox) (bound : NodeBox → ℕ) (margin budget : ℕ) → AreRoots g roots
        → 1 ≤ node_count g → Says g roots bound margin budget (outcome_of g roots bound margin budget) }
    ensures scores { (shape : Shape) (field : FieldTimes) (picks : List ProblemPick) (node : ℕ)
        → IsFirstBest (node_count field.grid) (judged_score field.grid (box_bound shape field picks)) node
        → IsFirstBest (node_count field.grid) (score_of shape (time_at field) picks) node }
    ensures near { (g : GridSize) (bound : NodeBox → ℕ) (t : ℕ) → length (near_list g bound t) ≤ node_count g }
    ensures cover { (g : GridSize) (roots : List NodeBox) (bound : NodeBox → ℕ) (margin budget : ℕ) → AreRoots g roots
        → HasShortestCover roots bound margin (outcome_of g roots bound margin budget) }
    ensures zero { (g : GridSize) (roots : List NodeBox) (bound : NodeBox → ℕ) (margin : ℕ) → AreRoots g roots
        → best_of g bound ≡ 0 → All (λ b. b.bound ≡ 0) (event_cover g roots bound margin) }
{}
