//! The answer to a problem file: its first best node.
ghost use Rattle.std.specs.Prelude.{◌≡◌, ◌≤◌, IfOk, IfErr};
ghost use Rattle.std.specs.String.{string_bytes};
ghost use Rattle.node_boxes.specs.Grid.{node_count};
ghost use Rattle.edt_score.specs.Problem.{IsValidProblem};
ghost use Rattle.text_terms.specs.Words.{file_words};
ghost use Rattle.edt_top.specs.Solve.ProblemFile.{IsProblemFile};
ghost use Rattle.edt_top.specs.Inside.ProblemParts.{NamesFault};
ghost use Rattle.edt_top.specs.Solve.Text.{answer_line, place_line, solve_text};

use crate::finding::find;
use crate::solve::problem_file::{ReadRefusal, read_problem};
use edt_score::{Field, Problem};
use kernel_table::{Falloff, Shape, gauss};
use octree_search::Found;
use std::alloc::{AllocError, Global};

// The text of the answer to the problem of a file's bytes.
pub fn solve_text(alloc: Global, bytes: &[u8]) -> Result<String, ReadRefusal>
    ensures whole { IfOk result (λ _. IsProblemFile (file_words bytes.now)) }
    ensures text { IfOk result (λ text. string_bytes text ≡ solve_text (file_words bytes.now)) }
    ensures fault { IfErr result (NamesFault (file_words bytes.now)) }
{
    let file = read_problem(alloc, bytes)?;
    let text = answer_text(alloc, &file.field, &file.problem)?;
    Ok(text)
}

// The line of the first best node of a field for a problem, with the Gaussian kernel. The search meets fewer boxes than twice the nodes.
fn answer_text(alloc: Global, field: &Field, problem: &Problem) -> Result<String, AllocError>
    requires valid { IsValidProblem field.now problem.now }
    requires few { node_count field.now.grid ≤ 65536 }
    ensures { IfOk result (λ text. string_bytes text ≡ answer_line field.now problem.now.picks.items) }
{
    let falloff = Falloff::new(Shape::Gauss, |misfit, scale| gauss(misfit, scale));
    let grid = field.grid();
    match find(alloc, field, problem, &falloff, 0, 2 * grid.nodes())? {
        Found::Located(event) => {
            let (ix, iy, iz) = grid.place(event.hyp);
            place_text(alloc, event.hyp, ix, iy, iz, event.score)
        }
        Found::NoFit { .. } => String::from_str(alloc, "NOFIT\n"),
        Found::Budget | Found::NearLimit => unreachable!(),
    }
}

// The line of a node at the place `(ix, iy, iz)`.
fn place_text(
    alloc: Global,
    node: u32,
    ix: u32,
    iy: u32,
    iz: u32,
    score: u64,
) -> Result<String, AllocError>
    ensures { IfOk result (λ text. string_bytes text ≡ place_line node (ix, iy, iz) score) }
{
    format!(in alloc; "BEST {node} {ix} {iy} {iz} {score}\n")
}
