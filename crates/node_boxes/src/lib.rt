//! Grids of nodes, where they lie, and the boxes of an octree over them.
//!
//! A grid has nodes on three axes. Its nodes are numbered from 0 in grid order: z runs fastest,
//! then y, then x. Boxes of nodes are split into children; an octree begins with roots that hold
//! each node once. Only `roots` takes memory.
#![tactic(auto)]

mod box_nodes;
mod children;
mod frame;
mod grid;
mod laws;
mod limits;
mod node_box;
mod octree_roots;

pub use box_nodes::BoxNodes;
pub use children::Children;
pub use frame::Frame;
pub use grid::Grid;
pub use laws::{box_nodes_law, children_law, grid_order_law, octree_law, roots_law};
pub use limits::{FARTHEST_ORIGIN, GREATEST_TIME, MOST_NODES, MOST_ON_AXIS, WIDEST_SPACING};
pub use node_box::{BoxBound, NodeBox};
pub use octree_roots::roots;
