//! What holds of every score, every bound and every made problem.
ghost use Rattle.std.specs.Prelude.{◌≡◌, ℕ, ℤ, List, [], ◌∷◌, Some, Contains, ◌*◌, ◌^◌, ◌<◌, ◌≤◌, ◌-ℤ◌, unsigned_abs};
ghost use Rattle.node_boxes.specs.declared.limits.TheConstants.{GREATEST_TIME};
ghost use Rattle.node_boxes.specs.declared.node_box.NodeBox.{NodeBox};
ghost use Rattle.node_boxes.specs.Grid.{node_count};
ghost use Rattle.kernel_table.specs.declared.kernels.Shape.{Shape};
ghost use Rattle.pair_weights.specs.LeastRoot.{IsLeastRoot};
ghost use Rattle.pair_weights.specs.Scale.{IsScale};
ghost use Rattle.edt_score.specs.declared.problem.Problem.{Problem};
ghost use Rattle.edt_score.specs.declared.problem.ProblemPick.{ProblemPick};
ghost use Rattle.edt_score.specs.BoxBound.{box_bound};
ghost use Rattle.edt_score.specs.Demo.{least_root};
ghost use Rattle.edt_score.specs.Field.{FieldTimes, time_at};
ghost use Rattle.edt_score.specs.Judging.{BoundsFall, node_box};
ghost use Rattle.edt_score.specs.Look.{numbered, pick_time};
ghost use Rattle.edt_score.specs.Problem.{IsValidProblem};
ghost use Rattle.edt_score.specs.Score.{misfit_of, pair_scale, score_of, variance_at};
ghost use Rattle.edt_score.specs.Bound.{IsPart, bound_over};
ghost use Rattle.edt_score.specs.Best.{IsFirstBest, best_score, first_best};

/// The scale of a pair is the least from 1000 on that the variances at the node allow, a misfit of
/// near picks fits 64 bits with room, and every score of a valid problem is below 9*10^18.
pub fn score_law()
    ensures scale { (a b : ProblemPick) (ta tb : ℕ)
        → IsScale (variance_at a ta) (variance_at b tb) (pair_scale a b ta tb) }
    ensures misfit { (oa ob : ℤ) (ta tb : ℕ) → unsigned_abs (oa -ℤ ob) ≤ 2200000000000
        → ta ≤ GREATEST_TIME → tb ≤ GREATEST_TIME → misfit_of oa ob ta tb ≤ 2202000000000 }
    ensures bound { (shape : Shape) (times : ℕ → ℕ → ℕ) (field : FieldTimes) (problem : Problem)
        (node : ℕ) → IsValidProblem field problem
        → score_of shape times problem.picks.items node < 9 * 10 ^ 18 }
{}

/// A node is the first best exactly where it is the first of all nodes that has the greatest score;
/// among any nodes there is one, and that score is the best.
pub fn best_law()
    ensures first { (n node : ℕ) (score : ℕ → ℕ) → IsFirstBest n score node
        → first_best n score ≡ Some node }
    ensures back { (n node : ℕ) (score : ℕ → ℕ) → first_best n score ≡ Some node
        → IsFirstBest n score node }
    ensures score { (n node : ℕ) (score : ℕ → ℕ) → IsFirstBest n score node
        → best_score n score ≡ score node }
    ensures exists { (n : ℕ) (score : ℕ → ℕ) → 0 < n → (node : ℕ) × IsFirstBest n score node }
{}

/// The bound of a list of nodes is at least the score of each of them, at least the bound of any
/// part of them, and the score itself where the list is one node; and it is below 9*10^18.
pub fn bound_law()
    ensures above { (shape : Shape) (times : ℕ → ℕ → ℕ) (picks : List ProblemPick)
        (nodes : List ℕ) (node : ℕ) → Contains nodes node
        → score_of shape times picks node ≤ bound_over shape times picks nodes }
    ensures part { (shape : Shape) (times : ℕ → ℕ → ℕ) (picks : List ProblemPick)
        (part nodes : List ℕ) → IsPart part nodes
        → bound_over shape times picks part ≤ bound_over shape times picks nodes }
    ensures single { (shape : Shape) (times : ℕ → ℕ → ℕ) (picks : List ProblemPick) (node : ℕ)
        → bound_over shape times picks (node ∷ []) ≡ score_of shape times picks node }
    ensures limit { (shape : Shape) (times : ℕ → ℕ → ℕ) (field : FieldTimes) (problem : Problem)
        (nodes : List ℕ) → IsValidProblem field problem
        → bound_over shape times problem.picks.items nodes < 9 * 10 ^ 18 }
{}

/// The bound of a box is no less than those of its children, and that of the box of a node alone is
/// the score of the node.
pub fn box_bound_law()
    ensures falls { (shape : Shape) (field : FieldTimes) (picks : List ProblemPick)
        (roots : List NodeBox) → BoundsFall field.grid roots (box_bound shape field picks) }
    ensures node { (shape : Shape) (field : FieldTimes) (picks : List ProblemPick) (node : ℕ)
        → node < node_count field.grid
        → box_bound shape field picks (node_box field.grid node)
        ≡ score_of shape (time_at field) picks node }
{}

/// The bound and the score of picks by the times that a look-up tells for each pick are those by the
/// times of the picks' rows.
pub fn numbered_law()
    ensures bound { (shape : Shape) (field : FieldTimes) (picks : List ProblemPick)
        (nodes : List ℕ) → bound_over shape (pick_time field picks) (numbered picks) nodes
        ≡ bound_over shape (time_at field) picks nodes }
    ensures score { (shape : Shape) (field : FieldTimes) (picks : List ProblemPick) (node : ℕ)
        → score_of shape (pick_time field picks) (numbered picks) node
        ≡ score_of shape (time_at field) picks node }
{}

/// The travel time over a distance is the least number of microseconds whose square is large enough.
pub fn demo_law()
    ensures root { (n : ℕ) → IsLeastRoot n (least_root n) }
{}
