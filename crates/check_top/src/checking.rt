//! The check of all events of an input, each with its block.
ghost use Rattle.std.specs.Prelude.{◌≡◌, ◌≤◌, All, IfOk, length, map};
ghost use Rattle.kernel_table.specs.Falloff.{AnswersItsShape, shape_of};
ghost use Rattle.cover_certificate.specs.Blocks.{IsValidBlock, block_value};
ghost use Rattle.run_input.specs.Inputs.{IsInput, input_value};
ghost use Rattle.check_top.specs.CheckEndings.{AreTrue, check_text, some_refused, values_of};
ghost use Rattle.check_top.specs.Inside.Checks.{IsCheckOf};

use crate::answer::{Measure, answer_for};
use crate::lines::push_line;
use cover_certificate::Block;
use cover_checker::Marks;
use kernel_table::{Falloff, Shape, count, gauss, triangle};
use run_input::RunInput;
use std::alloc::{AllocError, Global};

// Room for a line of the text.
const LINE: usize = 160;

// The lines of all events, and whether some certificate is refused.
#[derive(Drop)]
pub struct Checked {
    pub text: Vec<u8>,
    pub refused: bool,
}

// Checks the events of an input, each with its block, with the kernel of its shape.
pub fn check_events(
    alloc: Global,
    input: &RunInput,
    blocks: &[Block],
) -> Result<Checked, AllocError>
    requires input { IsInput input.now }
    requires one_each { length blocks.now ≡ length input.now.assembly.events.items }
    requires valid { All (λ block. IsValidBlock (block_value block)) blocks.now }
    ensures { IfOk result (IsCheckOf input.now.control.shape (input_value input.now) (map block_value blocks.now)) }
{
    let shape = input.control.shape;
    match shape {
        Shape::Gauss => {
            let falloff = Falloff::new(shape, |misfit, scale| gauss(misfit, scale));
            check_all(alloc, input, blocks, &falloff)
        }
        Shape::Triangle => {
            let falloff = Falloff::new(shape, |misfit, scale| triangle(misfit, scale));
            check_all(alloc, input, blocks, &falloff)
        }
        Shape::Count(most) => {
            let falloff = Falloff::new(shape, |misfit, _scale| count(most, misfit));
            check_all(alloc, input, blocks, &falloff)
        }
    }
}

// Checks the events of an input in turn.
fn check_all<F: Fn(u64, u64) -> u64>(
    alloc: Global,
    input: &RunInput,
    blocks: &[Block],
    falloff: &Falloff<F>,
) -> Result<Checked, AllocError>
    requires input { IsInput input.now }
    requires answers { AnswersItsShape F.Fn falloff.now }
    requires one_each { length blocks.now ≡ length input.now.assembly.events.items }
    requires valid { All (λ block. IsValidBlock (block_value block)) blocks.now }
    ensures { IfOk result (IsCheckOf (shape_of falloff.now) (input_value input.now) (map block_value blocks.now)) }
{
    let measure = Measure {
        field: &input.assembly.field,
        falloff,
        margin: input.control.margin,
    };
    let mut marks = Marks::new(alloc, input.assembly.field.grid())?;
    let mut text = Vec::with_capacity(alloc, blocks.len() * LINE)?;
    let mut refused = false;
    let mut number: u32 = 0;
    for event in &input.assembly.events {
        let block = &blocks[number as usize];
        let found = answer_for(alloc, &measure, &event.case, block, &mut marks)?;
        number += 1;
        push_line(&mut text, &input.control.frame, number, &found)?;
        refused = refused || found.is_refused();
    }
    Ok(Checked { text, refused })
}
