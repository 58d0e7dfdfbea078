//! Two rows over four nodes, two picks for two rows, and boxes of covers.
ghost use Rattle.std.specs.Prelude.{◌≡◌, ◌≤◌, ◌-ℤ◌, [], ◌∷◌, IfOk, length, unsigned_abs};
ghost use Rattle.node_boxes.specs.Grid.{grid_size};

use edt_score::{Field, Problem, ProblemPick};
use node_boxes::{BoxBound, Grid, NodeBox, roots};
use std::alloc::{AllocError, Global};
use std::test::Fail;

/// What a full pair of two picks is worth.
pub const WHOLE: u64 = 343_597_383_680;

/// Two rows over four nodes in a line, a second apart and the same everywhere.
pub fn sample(alloc: Global) -> Result<Field, Fail>
    ensures { IfOk result (λ field. (field.grid ≡ grid_size 4 1 1) × (length field.rows ≡ 2)) }
{
    let grid = Grid::new(4, 1, 1).ok_or("four nodes")?;
    let roots = roots(alloc, &grid, 1, 1, 1)?;
    let mut field = Field::new(alloc, grid, roots)?;
    field.push_row(vec![in alloc; 1_000_000, 2_000_000, 3_000_000, 4_000_000]?)?;
    field.push_row(vec![in alloc; 2_000_000; 4]?)?;
    Ok(field)
}

/// Two picks of weight 1 and a standard error of 0.141 s each, one for each row.
pub fn two_picks(alloc: Global, first: i64, second: i64) -> Result<Problem, AllocError>
    requires { unsigned_abs (first -ℤ second) ≤ 2200000000000 }
    ensures { IfOk result (λ problem. problem.picks.items
        ≡ record { time = first; weight = 1000; variance = 20000000000; row = 0 }
        ∷ record { time = second; weight = 1000; variance = 20000000000; row = 1 } ∷ []) }
{
    let pick = |time, row| ProblemPick {
        time,
        weight: 1000,
        variance: 20_000_000_000,
        row,
    };
    let picks = vec![in alloc; pick(first, 0), pick(second, 1)]?;
    Ok(Problem { picks })
}

/// A box of a cover along the x axis.
pub fn along_x(x0: u32, x1: u32, bound: u64) -> BoxBound {
    let area = NodeBox {
        x0,
        x1,
        y0: 0,
        y1: 1,
        z0: 0,
        z1: 1,
    };
    BoxBound { area, bound }
}

/// The first node on the x and the y axis of each box of a cover.
pub fn corners(alloc: Global, cover: &[BoxBound]) -> Result<Vec<(u32, u32)>, AllocError> {
    let mut corners = Vec::new(alloc);
    for b in cover {
        corners.push((b.area.x0, b.area.y0))?;
    }
    Ok(corners)
}
