//! What holds of every span and every family.
ghost use Rattle.std.specs.Prelude.{◌≡◌, ℕ, ◌<◌, ◌≤◌, List, IsTrue};
ghost use Rattle.node_boxes.specs.declared.node_box.NodeBox.{NodeBox};
ghost use Rattle.node_boxes.specs.Grid.{GridSize, node_count};
ghost use Rattle.node_boxes.specs.GridOrder.{node_number};
ghost use Rattle.node_boxes.specs.Boxes.{IsIn, IsPartOf, holds, is_single};
ghost use Rattle.node_boxes.specs.Octree.{IsOctreeBox};
ghost use Rattle.minmax_pyramid.specs.Spans.{span_of};
ghost use Rattle.minmax_pyramid.specs.Families.{FamilyWay, IsFamilyOf};

/// A span encloses the time of each node of its box and the span of each part of the box; on a single
/// box both its ends are the time of the node.
pub fn span_law()
    ensures node { (g : GridSize) (time : ℕ → ℕ) (a : NodeBox) (node : ℕ) → node < node_count g
        → IsTrue (holds g a node)
        → ((span_of g time a).0 ≤ time node) × (time node ≤ (span_of g time a).1) }
    ensures part { (g : GridSize) (time : ℕ → ℕ) (a c : NodeBox) → IsIn g a → IsPartOf a c
        → ((span_of g time a).0 ≤ (span_of g time c).0) × ((span_of g time c).1 ≤ (span_of g time a).1) }
    ensures single { (g : GridSize) (time : ℕ → ℕ) (a : NodeBox) → IsIn g a → IsTrue (is_single a)
        → let node = node_number g a.x0 a.y0 a.z0 in span_of g time a ≡ (time node, time node) }
{}

/// The parent of a family of an octree is one of its boxes.
pub fn family_law()
    ensures { (roots : List NodeBox) (family : FamilyWay) → IsFamilyOf roots family
        → IsOctreeBox roots family.parent }
{}
