//! What a checker asks: the travel time of a pick at a node.

ghost use Rattle.std.specs.Prelude.{◌≡◌, ◌<◌, All, length};
ghost use Rattle.node_boxes.specs.Boxes.{IsIn};
ghost use Rattle.node_boxes.specs.BoxNodes.{box_nodes};
ghost use Rattle.edt_score.specs.Field.{IsRow};
ghost use Rattle.edt_score.specs.Problem.{IsValidProblem};

use crate::field::Field;
use crate::problem::Problem;
use node_boxes::{Grid, NodeBox};

/// Travel times of picks at nodes, by the node or over a box.
///
/// A look-up means a number of picks, a number of nodes, a time of at most 2,000,000,000 microseconds
/// for each pick and each node, and how often it was asked. No call changes the numbers or the times.
pub trait Look {
    ghost use Rattle.std.specs.Prelude.{◌≡◌, ℕ, ◌+◌, ◌^◌, ◌<◌, ◌≤◌, length};
    ghost use Rattle.node_boxes.specs.declared.limits.TheConstants.{GREATEST_TIME};
    ghost use Rattle.node_boxes.specs.Boxes.{IsIn};
    ghost use Rattle.node_boxes.specs.BoxNodes.{box_nodes};
    ghost use Rattle.node_boxes.specs.Grid.{node_count};
    ghost use Rattle.minmax_pyramid.specs.Spans.{span_over};

    /// How many picks it has times of.
    ghost picks: { Self → ℕ };
    /// How many nodes it has times at.
    ghost nodes: { Self → ℕ };
    /// The time of a pick at a node.
    ghost times: { Self → ℕ → ℕ → ℕ };
    /// How often it was asked for a time.
    ghost count: { Self → ℕ };

    /// The travel time of a pick, by its place from 0, at a node. Takes no memory.
    fn time(&mut self, pick: u32, node: u32) -> u32
        requires pick { pick < picks self.old }
        requires node { node < nodes self.old }
        requires room { count self.old + 1 < 2 ^ 64 }
        ensures value { result ≡ times self.old pick node }
        // nothing changes but the count
        ensures same_picks { picks self.new ≡ picks self.old }
        ensures same_nodes { nodes self.new ≡ nodes self.old }
        ensures same_times { times self.new ≡ times self.old }
        ensures looked { count self.new ≡ count self.old + 1 };

    /// The least and the greatest travel time of a pick at the nodes of a box, each of which counts as one
    /// look-up. The grid is any with the number of nodes. Takes no memory.
    fn span(&mut self, pick: u32, grid: &Grid, area: &NodeBox) -> (u32, u32)
        requires pick { pick < picks self.old }
        requires nodes { nodes self.old ≡ node_count grid.now }
        requires inside { IsIn grid.now area.now }
        requires room { count self.old + length (box_nodes grid.now area.now) < 2 ^ 64 }
        ensures value { result ≡ span_over (times self.old pick) (box_nodes grid.now area.now) }
        // nothing changes but the count
        ensures same_picks { picks self.new ≡ picks self.old }
        ensures same_nodes { nodes self.new ≡ nodes self.old }
        ensures same_times { times self.new ≡ times self.old }
        ensures looked { count self.new ≡ count self.old + length (box_nodes grid.now area.now) };

    /// How often it was asked for a time.
    fn looked(&self) -> u64
        ensures { result ≡ count self.now };

    ghost limit: { (look : Self) (pick node : ℕ) → pick < picks look → node < nodes look
        → times look pick node ≤ GREATEST_TIME };
}

/// The travel times of a problem's picks by a field, each from the row of its pick.
#[derive(Drop)]
pub struct FieldLook<'a> {
    field: &'a Field,
    problem: &'a Problem,
    looked: u64,
    ghost valid: { IsValidProblem field.now problem.now },
    ghost rows: { All (IsRow field.now.grid) field.now.rows },
}

impl<'a> FieldLook<'a> {
    ghost use Rattle.edt_score.specs.Look.{look_count, look_field, look_problem};

    /// A look-up of this problem's picks in this field, not asked yet. Takes no memory.
    pub fn new(field: &'a Field, problem: &'a Problem) -> FieldLook<'a>
        requires { IsValidProblem field.now problem.now }
        ensures field { look_field result ≡ field.now }
        ensures problem { look_problem result ≡ problem.now }
        ensures looked { look_count result ≡ 0 }
    {
        let _rows = field.rows();
        FieldLook {
            field,
            problem,
            looked: 0,
        }
    }
}

impl<'a> Look for FieldLook<'a> {
    ghost use Rattle.std.specs.Prelude.{length};
    ghost use Rattle.node_boxes.specs.Grid.{node_count};
    ghost use Rattle.edt_score.specs.Look.{look_count, look_field, look_problem, pick_time};
    ghost use Rattle.edt_score.specs.Inside.LookLimit.{look_limit};

    ghost picks = { λ look. length (look_problem look).picks.items };

    ghost nodes = { λ look. node_count (look_field look).grid };

    ghost times = { λ look. pick_time (look_field look) (look_problem look).picks.items };

    ghost count = { look_count };

    fn time(&mut self, pick: u32, node: u32) -> u32 {
        self.looked += 1;
        self.field.time(self.problem.picks[pick as usize].row, node)
    }

    fn span(&mut self, pick: u32, grid: &Grid, area: &NodeBox) -> (u32, u32) {
        self.looked += box_count(grid, area);
        let row = self.problem.picks[pick as usize].row;
        self.field.span_in(row, grid, area)
    }

    fn looked(&self) -> u64 {
        self.looked
    }

    ghost limit = { look_limit };
}

/// How many nodes a box in a grid has.
fn box_count(grid: &Grid, area: &NodeBox) -> u64
    requires { IsIn grid.now area.now }
    ensures { result ≡ length (box_nodes grid.now area.now) }
{
    // what the grid says of its nodes bounds each range
    let _nodes = grid.nodes();
    u64::from(area.x1 - area.x0) * (u64::from(area.y1 - area.y0) * u64::from(area.z1 - area.z0))
}
