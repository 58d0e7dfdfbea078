//! A judge by look-ups in a table.

ghost use Rattle.std.specs.Prelude.{◌≡◌, ◌<◌, All, length, map};
ghost use Rattle.node_boxes.specs.Grid.{node_count};
ghost use Rattle.minmax_pyramid.specs.Spans.{greatest, time_in};

use edt_score::Judge;
use node_boxes::{BoxNodes, Grid, NodeBox};

/// Bounds of boxes by a table of the scores of all nodes, in grid order: the bound of a box is the greatest score of its nodes. A search
/// over it is as exact as over any other judge, and needs no picks.
#[derive(Drop)]
pub struct TableJudge {
    grid: Grid,
    roots: Vec<NodeBox>,
    scores: Vec<u64>,
    asked: u64,
    ghost one_a_node: { length scores.items ≡ node_count grid },
}

impl TableJudge {
    ghost use Rattle.edt_trials.specs.Judges.{judge_grid, judge_roots, judge_table, judge_asked};

    /// A judge by this table, with one score for each node of the grid, that was not asked yet.
    pub fn new(grid: Grid, roots: Vec<NodeBox>, scores: Vec<u64>) -> TableJudge
        requires scores { length scores.items ≡ node_count grid }
        ensures grid { judge_grid result ≡ grid }
        ensures roots { judge_roots result ≡ roots.items }
        ensures table { judge_table result ≡ scores.items }
        ensures asked { judge_asked result ≡ 0 }
    {
        TableJudge {
            grid,
            roots,
            scores,
            asked: 0,
        }
    }
}

impl Judge for TableJudge {
    ghost use Rattle.edt_trials.specs.Judges.{judge_grid, judge_roots, judge_table, judge_asked};
    ghost use Rattle.node_boxes.specs.Roots.{AreRoots};
    ghost use Rattle.edt_trials.specs.Table.{greatest_in};
    ghost use Rattle.edt_trials.specs.TableLaw.{greatest_falls};

    ghost grid = { judge_grid };

    ghost roots = { judge_roots };

    ghost bound_of = { λ judge. greatest_in (judge_grid judge) (judge_table judge) };

    ghost count = { judge_asked };

    ghost ready = { λ judge. AreRoots (judge_grid judge) (judge_roots judge) };

    fn bound(&mut self, area: &NodeBox) -> u64 {
        self.asked += 1;
        greatest_of(BoxNodes::new(&self.grid, area), &self.scores)
    }

    fn asked(&self) -> u64 {
        self.asked
    }

    ghost falls = { λ judge. greatest_falls (judge_grid judge) (judge_table judge) (judge_roots judge) };
}

/// The greatest score of some nodes.
fn greatest_of(mut nodes: BoxNodes, scores: &[u64]) -> u64
    requires inside { All (λ node. node < length scores.now) nodes }
    ensures { result ≡ greatest (map (time_in scores.now) nodes) }
{
    let mut greatest = 0;
    while let Some(node) = nodes.next() {
        greatest = scores[node as usize].max(greatest);
    }
    greatest
}
