//! Where a grid lies.
use crate::grid::Grid;

/// Where a grid lies: its first node is at `(ox, oy, oz)`, and `dx`, `dy` and `dz` part its nodes
/// along the axes. All are in millimetres.
///
/// A frame is valid where each origin is at most 10^10 in size and each spacing is 1 to 10^9. The
/// spacing of an axis with one node has its limits and is used nowhere.
#[derive(Clone, Copy, Debug)]
pub struct Frame {
    pub grid: Grid,
    pub ox: i64,
    pub oy: i64,
    pub oz: i64,
    pub dx: i64,
    pub dy: i64,
    pub dz: i64,
}
