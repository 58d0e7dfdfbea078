//! What holds of every run of lanes, and of every schedule.
ghost use Rattle.std.specs.Prelude.{◌≡◌, ℕ, ℤ, ◌+◌, ◌*◌, ◌≤◌, true, false, List, length};
ghost use Rattle.std.specs.List.{AllByRecursion};
ghost use Rattle.node_boxes.specs.declared.node_box.BoxBound.{BoxBound};
ghost use Rattle.node_boxes.specs.declared.node_box.NodeBox.{NodeBox};
ghost use Rattle.node_boxes.specs.Grid.{GridSize};
ghost use Rattle.node_boxes.specs.Roots.{AreRoots};
ghost use Rattle.edt_score.specs.Judging.{BoundsFall};
ghost use Rattle.octree_search.specs.Cover.{stops};
ghost use Rattle.octree_search.specs.Near.{best_of};
ghost use Rattle.octree_search.specs.Outcomes.{event_threshold};
ghost use Rattle.search_lanes.specs.declared.lane_events.LaneEvent.{LaneEvent};
ghost use Rattle.search_lanes.specs.LaneCuts.{IsDivided};
ghost use Rattle.search_lanes.specs.LaneRuns.{IsEndOf, IsFinishedRun, Run};
ghost use Rattle.search_lanes.specs.Lanes.{LaneState, held, start, upper_of};
ghost use Rattle.search_lanes.specs.Schedule.{schedule};

/// Whatever the number of lanes, the order of events and the lanes that are lost: a finished run has passed the budget exactly where one
/// search would, and else its open boxes are those of the cover of the event, as many were met, and the greatest bound is the best score. In
/// the course of a run that isn't over the open and held boxes are the leaves of one cut per root, each once, and as many boxes were met as
/// the cuts have, at most as many as the budget allows. The rule of the cover opens each box that these cuts split and each one that a lane
/// holds, and no node scores more than the greatest bound.
pub fn any_order_law()
    ensures end { (g : GridSize) (roots : List NodeBox) (bound : NodeBox → ℕ) (margin budget lanes : ℕ)
        (events : List LaneEvent) → AreRoots g roots → BoundsFall g roots bound
        → (run : IsFinishedRun bound margin budget lanes roots events) → IsEndOf g roots bound margin budget run.end }
    ensures cut { (g : GridSize) (roots : List NodeBox) (bound : NodeBox → ℕ) (margin budget lanes : ℕ)
        (events : List LaneEvent) (s : LaneState) → AreRoots g roots → BoundsFall g roots bound
        → Run bound margin budget (start bound budget lanes roots) events s → s.over ≡ false
        → IsDivided g roots bound margin s }
    ensures held { (g : GridSize) (roots : List NodeBox) (bound : NodeBox → ℕ) (margin budget lanes : ℕ)
        (events : List LaneEvent) (s : LaneState) → AreRoots g roots → BoundsFall g roots bound
        → Run bound margin budget (start bound budget lanes roots) events s → s.over ≡ false
        → AllByRecursion (λ (b : BoxBound). stops bound (event_threshold g bound margin) b.area ≡ false) (held s.lanes) }
    ensures upper { (g : GridSize) (roots : List NodeBox) (bound : NodeBox → ℕ) (margin budget lanes : ℕ)
        (events : List LaneEvent) (s : LaneState) → AreRoots g roots → BoundsFall g roots bound
        → Run bound margin budget (start bound budget lanes roots) events s → s.over ≡ false
        → best_of g bound ≤ upper_of s }
    ensures met { (g : GridSize) (roots : List NodeBox) (bound : NodeBox → ℕ) (margin budget lanes : ℕ)
        (events : List LaneEvent) (s : LaneState) → AreRoots g roots → BoundsFall g roots bound
        → Run bound margin budget (start bound budget lanes roots) events s → s.over ≡ false
        → s.met ≤ budget }
{}

/// The schedule of a seed is a finished run, as long as there is a lane, and has at most as many events as the budget and three for each
/// lane.
pub fn schedule_law()
    ensures finished { (g : GridSize) (roots : List NodeBox) (bound : NodeBox → ℕ) (margin budget lanes : ℕ)
        (seed : ℤ) → AreRoots g roots → BoundsFall g roots bound → 1 ≤ lanes
        → IsFinishedRun bound margin budget lanes roots (schedule bound margin budget lanes seed roots) }
    ensures length { (roots : List NodeBox) (bound : NodeBox → ℕ) (margin budget lanes : ℕ) (seed : ℤ)
        → length (schedule bound margin budget lanes seed roots) ≤ budget + 3 * lanes }
{}
