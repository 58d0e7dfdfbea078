//! One axis of a time grid and of a search grid.
ghost use Rattle.std.specs.Prelude.{◌≡◌, ◌≢◌, ◌+◌, ◌*◌, ◌<◌, ◌≤◌, ◌^◌, ℕ, false, IfNone, IfSome, MatchOption};
ghost use Rattle.grid_header.specs.Reading.{IsValidHeader};
ghost use Rattle.node_boxes.specs.Frame.{IsValidFrame};
ghost use Rattle.time_grid.specs.Alignment.{axis_of};
ghost use Rattle.time_grid.specs.Axes.{is_aligned};
ghost use Rattle.time_grid.specs.Inside.Steps.{IsAxisPair, ArePlaces, AreSteps};

use crate::faults::Axis;
use grid_header::Header;
use node_boxes::Frame;

/// One axis of a time grid and of a search grid: the origin and the spacing of each, in millimetres, and its nodes.
#[derive(Clone, Copy)]
pub(crate) struct AxisPair {
    pub time_origin: i64,
    pub time_spacing: i64,
    pub time_nodes: u32,
    pub origin: i64,
    pub spacing: i64,
    pub nodes: u32,
}

/// Where the search nodes of an axis are among the nodes of the time grid: the first at node `first`, each other `stride` nodes after
/// the one before it.
#[derive(Clone, Copy)]
pub(crate) struct Places {
    pub first: usize,
    pub stride: usize,
}

impl AxisPair {
    /// An axis of the time grid of a header and of the search grid of a frame.
    pub fn new(header: &Header, frame: &Frame, axis: Axis) -> AxisPair
        requires header { IsValidHeader header.now }
        requires frame { IsValidFrame frame.now }
        ensures value { result ≡ axis_of header.now frame.now axis }
        ensures limits { IsAxisPair result }
    {
        match axis {
            Axis::X => AxisPair {
                time_origin: header.ox,
                time_spacing: header.dx,
                time_nodes: header.x,
                origin: frame.ox,
                spacing: frame.dx,
                nodes: frame.grid.x(),
            },
            Axis::Y => AxisPair {
                time_origin: header.oy,
                time_spacing: header.dy,
                time_nodes: header.y,
                origin: frame.oy,
                spacing: frame.dy,
                nodes: frame.grid.y(),
            },
            Axis::Z => AxisPair {
                time_origin: header.oz,
                time_spacing: header.dz,
                time_nodes: header.z,
                origin: frame.oz,
                spacing: frame.dz,
                nodes: frame.grid.z(),
            },
        }
    }

    /// The places of the search nodes, or `None` where one of them is at no node of the time grid.
    pub fn places(&self) -> Option<Places>
        requires { IsAxisPair self.now }
        ensures { MatchOption result (is_aligned self.now ≡ false) (ArePlaces self.now) }
    {
        if self.origin < self.time_origin {
            return None;
        }
        Steps {
            offset: self.origin.abs_diff(self.time_origin),
            time_spacing: self.time_spacing.unsigned_abs(),
            time_nodes: self.time_nodes as u64,
            spacing: self.spacing.unsigned_abs(),
            nodes: self.nodes as u64,
        }
        .places()
    }
}

/// An axis whose first search node lies `offset` millimetres after the first node of the time grid.
#[derive(Clone, Copy)]
struct Steps {
    offset: u64,
    time_spacing: u64,
    time_nodes: u64,
    spacing: u64,
    nodes: u64,
}

impl Steps {
    fn places(&self) -> Option<Places>
        requires { AreSteps self.now }
        ensures none { IfNone result ((i : ℕ) × (i < self.now.nodes)
            × ((j : ℕ) → j < self.now.time_nodes → j * self.now.time_spacing ≢ self.now.offset + i * self.now.spacing)) }
        ensures within { IfSome result (λ p. (i : ℕ) → i < self.now.nodes
            → p.first + i * p.stride < self.now.time_nodes) }
        ensures meets { IfSome result (λ p. (i : ℕ) → i < self.now.nodes
            → (p.first + i * p.stride) * self.now.time_spacing ≡ self.now.offset + i * self.now.spacing) }
        ensures rises { IfSome result (λ p. 1 < self.now.nodes → 1 ≤ p.stride) }
        ensures stays { IfSome result (λ p. self.now.nodes ≡ 1 → p.stride ≡ 0) }
    {
        if self.offset % self.time_spacing != 0 {
            return None;
        }
        let first = self.offset / self.time_spacing;
        let stride = self.stride()?;
        if first + (self.nodes - 1) * stride >= self.time_nodes {
            return None;
        }
        Some(Places {
            first: first as usize,
            stride: stride as usize,
        })
    }

    // How many nodes of the time grid lie from one search node to the next: none where there is one alone.
    fn stride(&self) -> Option<u64>
        requires { AreSteps self.now }
        ensures none { IfNone result ((1 < self.now.nodes) × ((m : ℕ) → m * self.now.time_spacing ≢ self.now.spacing)) }
        ensures one { IfSome result (λ stride. self.now.nodes ≡ 1 → stride ≡ 0) }
        ensures many { IfSome result (λ stride. 1 < self.now.nodes
            → stride * self.now.time_spacing ≡ self.now.spacing) }
        ensures bound { IfSome result (λ stride. stride ≤ 10 ^ 9) }
    {
        if self.nodes == 1 {
            return Some(0);
        }
        if self.spacing % self.time_spacing != 0 {
            return None;
        }
        Some(self.spacing / self.time_spacing)
    }
}
