//! What the words of `LOCGRID` say.
ghost use Rattle.std.specs.Prelude.{◌≡◌, ◌≤◌, ◌*◌, nat_le, true, length, IfOk, IfErr, OnOk, None, Some};
ghost use Rattle.node_boxes.specs.Frame.{IsValidFrame};
ghost use Rattle.node_boxes.specs.Grid.{IsGrid, grid_size};
ghost use Rattle.edt_text.specs.PlacedWords.{placed_words};
ghost use Rattle.text_terms.specs.Words.{word_at};
ghost use Rattle.node_boxes.specs.declared.limits.TheConstants.{MOST_NODES};
ghost use Rattle.control_reader.specs.Words.{count_at};
ghost use Rattle.control_reader.specs.Values.{frame_of};
ghost use Rattle.control_reader.specs.WordFaults.{axis_fault, frame_fault};

use super::numbers::{millionths_from_to, millionths_in_size, whole_from_to};
use crate::fault::ControlCause;
use edt_text::PlacedWords;
use node_boxes::{FARTHEST_ORIGIN, Frame, Grid};

// The limits of grids, as the numbers that are read.
const MOST_ON_AXIS: i64 = node_boxes::MOST_ON_AXIS as i64;

const WIDEST_SPACING: i64 = node_boxes::WIDEST_SPACING as i64;

/// What `LOCGRID` says: the search grid and where it lies.
#[tactic(auto, unfolding(crate::specs::WordFaults::frame_fault, crate::specs::Values::frame_of))]
pub(crate) fn read_frame(arguments: &PlacedWords) -> Result<Frame, ControlCause>
    requires { 9 ≤ length (placed_words arguments.now) }
    ensures value { IfOk result (λ value. value ≡ frame_of (placed_words arguments.now)) }
    ensures good { OnOk result (frame_fault (placed_words arguments.now) ≡ None) }
    ensures limits { IfOk result (λ frame. IsGrid frame.grid × IsValidFrame frame) }
    ensures fault { IfErr result (λ cause. frame_fault (placed_words arguments.now) ≡ Some cause) }
{
    Ok(Frame {
        grid: read_grid(arguments)?,
        ox: millionths_in_size(arguments, 3, FARTHEST_ORIGIN)?,
        oy: millionths_in_size(arguments, 4, FARTHEST_ORIGIN)?,
        oz: millionths_in_size(arguments, 5, FARTHEST_ORIGIN)?,
        dx: millionths_from_to(arguments, 6, 1, WIDEST_SPACING)?,
        dy: millionths_from_to(arguments, 7, 1, WIDEST_SPACING)?,
        dz: millionths_from_to(arguments, 8, 1, WIDEST_SPACING)?,
    })
}

// The search grid of the first three words of `LOCGRID`.
#[tactic(auto, unfolding(crate::specs::WordFaults::frame_fault))]
fn read_grid(arguments: &PlacedWords) -> Result<Grid, ControlCause>
    ensures value { IfOk result (λ grid. grid
        ≡ grid_size (count_at 0 (placed_words arguments.now)) (count_at 1 (placed_words arguments.now))
        (count_at 2 (placed_words arguments.now))) }
    ensures x { OnOk result (axis_fault (word_at 0 (placed_words arguments.now)) ≡ None) }
    ensures y { OnOk result (axis_fault (word_at 1 (placed_words arguments.now)) ≡ None) }
    ensures z { OnOk result (axis_fault (word_at 2 (placed_words arguments.now)) ≡ None) }
    ensures nodes { OnOk result (nat_le
        (count_at 0 (placed_words arguments.now) * count_at 1 (placed_words arguments.now)
        * count_at 2 (placed_words arguments.now)) MOST_NODES ≡ true) }
    ensures limits { IfOk result IsGrid }
    ensures fault { IfErr result (λ cause. frame_fault (placed_words arguments.now) ≡ Some cause) }
{
    let x = whole_from_to(arguments, 0, 1, MOST_ON_AXIS)?;
    let y = whole_from_to(arguments, 1, 1, MOST_ON_AXIS)?;
    let z = whole_from_to(arguments, 2, 1, MOST_ON_AXIS)?;
    match Grid::new(x as u32, y as u32, z as u32) {
        Some(grid) => Ok(grid),
        None => Err(ControlCause::Limit),
    }
}
