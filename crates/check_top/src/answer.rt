//! What a check finds of one event.
ghost use Rattle.std.specs.Prelude.{◌≡◌, ◌≤◌, IfOk};
ghost use Rattle.control_reader.specs.ControlValues.{values_of};
ghost use Rattle.kernel_table.specs.Falloff.{AnswersItsShape, shape_of};
ghost use Rattle.node_boxes.specs.Grid.{node_count};
ghost use Rattle.edt_score.specs.Problem.{IsValidProblem};
ghost use Rattle.event_assembly.specs.Assembled.{IsPrepared};
ghost use Rattle.event_assembly.specs.AssemblyValues.{Ready, case_value};
ghost use Rattle.cover_certificate.specs.Blocks.{IsValidBlock, block_value};
ghost use Rattle.cover_checker.specs.Scorings.{field_scoring};
ghost use Rattle.cover_checker.specs.Verdicts.{verdict_of};
ghost use Rattle.check_top.specs.Inside.Cases.{IsSoundCase};
ghost use Rattle.check_top.specs.EventAnswers.{IsTrueAnswer, IsTrueOfPicks, answer_of, answer_value, few_answer, is_refused, many_answer, ready_answer, unless_refused};

use cover_certificate::{Block, LocatedBlock};
use cover_checker::{Marks, Verdict, check};
use edt_score::{Field, Problem, Scorer};
use event_assembly::Case;
use kernel_table::Falloff;
use std::alloc::{AllocError, Global};

// What a check finds of an event.
#[derive(Clone, Copy)]
pub enum Answer<'a> {
    // The certificate proves this located event.
    Event(&'a LocatedBlock),
    // It proves that every node scores 0.
    NoFit,
    // It agrees that few picks are used.
    Few,
    // It agrees that many are.
    Many,
    // It says that the budget was passed, which nothing proves.
    Budget,
    // It says that too many nodes are near, which nothing proves.
    NearLimit,
    // It is refused by this verdict.
    Refused(Verdict),
    // It is none of such an event.
    Kind,
}

impl Answer<'_> {
    ghost use Rattle.std.specs.Prelude.{◌≡◌};
    ghost use Rattle.check_top.specs.EventAnswers.{answer_value, is_refused};

    // Whether the certificate is refused.
    pub fn is_refused(&self) -> bool
        ensures { result ≡ is_refused (answer_value self.now) }
    {
        matches!(self, Answer::Refused(_) | Answer::Kind)
    }
}

// What all certificates of a run are held against: the travel times, the kernel and the margin in thousandths.
#[derive(Drop)]
pub struct Measure<'a, F> {
    pub field: &'a Field,
    pub falloff: &'a Falloff<F>,
    pub margin: u32,
}

// The answer for an event, given its block.
#[tactic(auto, unfolding(crate::specs::EventAnswers::answer_of))]
pub fn answer_for<'a, F: Fn(u64, u64) -> u64>(
    alloc: Global,
    measure: &Measure<F>,
    case: &Case,
    block: &'a Block,
    marks: &mut Marks,
) -> Result<Answer<'a>, AllocError>
    requires answers { AnswersItsShape F.Fn measure.now.falloff.now }
    requires margin { measure.now.margin ≤ 999 }
    requires case { IsSoundCase measure.now.field.now case.now }
    requires block { IsValidBlock (block_value block.now) }
    requires marks { marks.old ≡ node_count measure.now.field.now.grid }
    ensures value { IfOk result (λ answer. answer_value answer ≡ answer_of (shape_of measure.now.falloff.now)
        measure.now.field.now measure.now.margin (case_value case.now) (block_value block.now)) }
    ensures truth { IfOk result (λ answer. IsTrueAnswer (shape_of measure.now.falloff.now)
        measure.now.field.now measure.now.margin (case_value case.now) (answer_value answer)) }
    ensures marks { marks.new ≡ marks.old }
{
    match case {
        Case::Ready(problem) => ready_answer(alloc, measure, problem, block, marks),
        Case::Few => Ok(few_answer(block)),
        Case::Many => Ok(many_answer(block)),
    }
}

// The answer for an event that has a problem.
fn ready_answer<'a, F: Fn(u64, u64) -> u64>(
    alloc: Global,
    measure: &Measure<F>,
    problem: &Problem,
    block: &'a Block,
    marks: &mut Marks,
) -> Result<Answer<'a>, AllocError>
    requires answers { AnswersItsShape F.Fn measure.now.falloff.now }
    requires margin { measure.now.margin ≤ 999 }
    requires problem { IsValidProblem measure.now.field.now problem.now }
    requires block { IsValidBlock (block_value block.now) }
    requires marks { marks.old ≡ node_count measure.now.field.now.grid }
    ensures value { let shape = shape_of measure.now.falloff.now in
        let scoring = field_scoring shape measure.now.field.now problem.now.picks.items in
        IfOk result (λ answer. answer_value answer
        ≡ ready_answer (block_value block.now) (verdict_of scoring measure.now.margin (block_value block.now))) }
    ensures truth { IfOk result (λ answer. IsTrueOfPicks (shape_of measure.now.falloff.now)
        measure.now.field.now measure.now.margin problem.now.picks.items (answer_value answer)) }
    ensures marks { marks.new ≡ marks.old }
{
    let claim = match block {
        Block::Located(event) => Answer::Event(event),
        Block::NoFit(_) => Answer::NoFit,
        Block::Few | Block::Many => return Ok(Answer::Kind),
        Block::Budget => return Ok(Answer::Budget),
        Block::NearLimit => return Ok(Answer::NearLimit),
    };
    let scorer = Scorer::new(alloc, measure.field, problem, measure.falloff)?;
    match check(&scorer, measure.margin, block, marks) {
        Verdict::Proved => Ok(claim),
        verdict => Ok(Answer::Refused(verdict)),
    }
}

// The answer for an event of few used picks.
fn few_answer(block: &Block) -> Answer<'_>
    ensures value { answer_value result ≡ few_answer (block_value block.now) }
{
    match block {
        Block::Few => Answer::Few,
        _ => Answer::Kind,
    }
}

// The answer for an event of many used picks.
fn many_answer(block: &Block) -> Answer<'_>
    ensures value { answer_value result ≡ many_answer (block_value block.now) }
{
    match block {
        Block::Many => Answer::Many,
        _ => Answer::Kind,
    }
}
