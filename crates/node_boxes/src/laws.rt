//! What holds of grid order, children, roots, the octree and walks over boxes.
ghost use Rattle.std.specs.Prelude.{◌≡◌, ℕ, ◌*◌, ◌<◌, ◌≤◌, List, length, slice_get, All, AllPairs, Contains, IsTrue, Some, cond};
ghost use Rattle.node_boxes.specs.declared.node_box.NodeBox.{NodeBox};
ghost use Rattle.node_boxes.specs.Grid.{GridSize, IsGrid, node_count};
ghost use Rattle.node_boxes.specs.GridOrder.{IsInside, all_nodes, node_number, place_of};
ghost use Rattle.node_boxes.specs.Boxes.{IsIn, IsNonempty, IsPartOf, IsSplittable, contains, holds, node_count_of};
ghost use Rattle.node_boxes.specs.Children.{children_of};
ghost use Rattle.node_boxes.specs.Roots.{AreRoots, count_within, holders, roots_of};
ghost use Rattle.node_boxes.specs.Octree.{IsOctreeBox, IsOctreeCover};
ghost use Rattle.node_boxes.specs.BoxNodes.{box_nodes};

/// Number and place of a node undo each other, and the list of all nodes is the list of their
/// numbers.
pub fn grid_order_law()
    ensures number { (g : GridSize) (ix iy iz : ℕ) → IsInside g ix iy iz
        → (node_number g ix iy iz < node_count g) × (place_of g (node_number g ix iy iz) ≡ (ix, iy, iz)) }
    ensures place { (g : GridSize) (node : ℕ) → node < node_count g
        → let place = place_of g node in
        IsInside g place.0 place.1 place.2 × (node_number g place.0 place.1 place.2 ≡ node) }
    ensures nodes { (n k : ℕ) → (length (all_nodes n) ≡ n) × (k < n → slice_get (all_nodes n) k ≡ Some k) }
{}

/// The children of a box are 2 to 8; each has a node, lies in the box and has fewer nodes than it.
/// A place in the box lies in exactly one child, and another place in none.
pub fn children_law()
    ensures count { (a : NodeBox) → IsSplittable a
        → (2 ≤ length (children_of a)) × (length (children_of a) ≤ 8) }
    ensures parts { (a : NodeBox) → IsNonempty a → All (IsPartOf a) (children_of a) }
    ensures smaller { (a : NodeBox) → IsSplittable a
        → All (λ c. node_count_of c < node_count_of a) (children_of a) }
    ensures once { (a : NodeBox) (ix iy iz : ℕ) → IsNonempty a
        → holders ix iy iz (children_of a) ≡ cond (contains a ix iy iz) 1 0 }
{}

/// The roots lie in the grid, exactly one of them holds each node, and there are as many as the
/// product of the counts that were brought into range.
pub fn roots_law()
    ensures roots { (g : GridSize) (nx ny nz : ℕ) → IsGrid g → AreRoots g (roots_of g nx ny nz) }
    ensures count { (g : GridSize) (nx ny nz : ℕ) → length (roots_of g nx ny nz)
        ≡ count_within nx g.x * (count_within ny g.y * count_within nz g.z) }
{}

/// Octree boxes lie in the grid. The boxes of an octree cover hold each node exactly once, and are at
/// most as many as the nodes.
pub fn octree_law()
    ensures inside { (g : GridSize) (roots : List NodeBox) (a : NodeBox) → AreRoots g roots
        → IsOctreeBox roots a → IsIn g a }
    ensures once { (g : GridSize) (roots leaves : List NodeBox) (ix iy iz : ℕ) → AreRoots g roots
        → IsOctreeCover roots leaves → IsInside g ix iy iz → holders ix iy iz leaves ≡ 1 }
    ensures few { (g : GridSize) (roots leaves : List NodeBox) → AreRoots g roots
        → IsOctreeCover roots leaves → length leaves ≤ node_count g }
{}

/// The nodes of a box are those whose places it holds, in grid order, each once; a box in the grid has
/// as many as the product of its ranges.
pub fn box_nodes_law()
    ensures below { (g : GridSize) (a : NodeBox) → All (λ node. node < node_count g) (box_nodes g a) }
    ensures order { (g : GridSize) (a : NodeBox) → AllPairs ◌<◌ (box_nodes g a) }
    ensures held { (g : GridSize) (a : NodeBox) → All (λ node. IsTrue (holds g a node)) (box_nodes g a) }
    ensures all { (g : GridSize) (a : NodeBox) (node : ℕ) → node < node_count g
        → IsTrue (holds g a node) → Contains (box_nodes g a) node }
    ensures count { (g : GridSize) (a : NodeBox) → IsIn g a → length (box_nodes g a) ≡ node_count_of a }
{}
