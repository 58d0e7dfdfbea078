//! The line of an event, appended to the text of a check.
ghost use Rattle.std.specs.Prelude.{◌≡◌, ◌++◌, ◌<◌, ◌∷◌, [], OnOk, flat_map, codes, decimal, length};
ghost use Rattle.std.specs.Fmt.{signed_decimal};
ghost use Rattle.node_boxes.specs.Frame.{IsOrigin, IsSpacing, IsValidFrame};
ghost use Rattle.node_boxes.specs.Grid.{node_count};
ghost use Rattle.cover_certificate.specs.Blocks.{located_value};
ghost use Rattle.location_report.specs.Lines.{coordinate};
ghost use Rattle.check_top.specs.CheckLines.{answer_words, check_line, event_words, node_words, number_words, verdict_name, verdict_number};
ghost use Rattle.check_top.specs.EventAnswers.{answer_value};
ghost use Rattle.check_top.specs.Inside.Lines.{IsPlaced, spaced};

use crate::answer::Answer;
use cover_certificate::LocatedBlock;
use cover_checker::Verdict;
use edt_text::{push_number, push_signed};
use node_boxes::Frame;
use std::alloc::AllocError;

// Appends the line of an event, by its number and the answer for it.
#[tactic(auto, unfolding(crate::specs::CheckLines::check_line))]
pub fn push_line(
    out: &mut Vec<u8>,
    frame: &Frame,
    number: u32,
    answer: &Answer,
) -> Result<(), AllocError>
    requires frame { IsValidFrame frame.now }
    requires placed { IsPlaced frame.now.grid (answer_value answer.now) }
    ensures { OnOk result (out.new.items ≡ out.old.items ++ check_line frame.now (number, answer_value answer.now)) }
{
    out.extend_from_slice(b"CHECK")?;
    push_count(out, u64::from(number))?;
    push_answer(out, frame, answer)?;
    out.push(b'\n')?;
    Ok(())
}

// Appends the words of an answer, each after a blank.
fn push_answer(out: &mut Vec<u8>, frame: &Frame, answer: &Answer) -> Result<(), AllocError>
    requires frame { IsValidFrame frame.now }
    requires placed { IsPlaced frame.now.grid (answer_value answer.now) }
    ensures { OnOk result (out.new.items
        ≡ out.old.items ++ spaced (answer_words frame.now (answer_value answer.now))) }
{
    match answer {
        Answer::Event(event) => {
            out.extend_from_slice(b" PROVED")?;
            push_event(out, frame, event)
        }
        Answer::NoFit => out.extend_from_slice(b" PROVED NOFIT"),
        Answer::Few => out.extend_from_slice(b" AGREED FEW"),
        Answer::Many => out.extend_from_slice(b" AGREED MANY"),
        Answer::Budget => out.extend_from_slice(b" UNPROVED BUDGET"),
        Answer::NearLimit => out.extend_from_slice(b" UNPROVED NEARLIMIT"),
        Answer::Refused(verdict) => push_verdict(out, verdict),
        Answer::Kind => out.extend_from_slice(b" REFUSED KIND"),
    }
}

// Appends the words of a refused certificate.
fn push_verdict(out: &mut Vec<u8>, verdict: &Verdict) -> Result<(), AllocError>
    ensures { OnOk result (out.new.items ≡ out.old.items
        ++ spaced (codes "REFUSED" ∷ verdict_name verdict.now ∷ number_words (verdict_number verdict.now))) }
{
    out.extend_from_slice(b" REFUSED ")?;
    out.extend_from_slice(verdict_name(verdict))?;
    match verdict_number(verdict) {
        Some(number) => push_count(out, u64::from(number)),
        None => Ok(()),
    }
}

// Appends the words of a located event.
fn push_event(out: &mut Vec<u8>, frame: &Frame, event: &LocatedBlock) -> Result<(), AllocError>
    requires frame { IsValidFrame frame.now }
    requires node { event.now.hyp < node_count frame.now.grid }
    ensures { OnOk result (out.new.items ≡ out.old.items ++ spaced (event_words frame.now (located_value event.now))) }
{
    push_node(out, frame, event.hyp)?;
    push_count(out, event.score)?;
    push_count(out, event.near.len() as u64)
}

// Appends the words of a node.
#[tactic(auto, unfolding(crate::specs::CheckLines::node_words))]
fn push_node(out: &mut Vec<u8>, frame: &Frame, node: u32) -> Result<(), AllocError>
    requires frame { IsValidFrame frame.now }
    requires node { node < node_count frame.now.grid }
    ensures { OnOk result (out.new.items ≡ out.old.items ++ spaced (node_words frame.now node)) }
{
    let (ix, iy, iz) = frame.grid.place(node);
    push_count(out, u64::from(node))?;
    push_count(out, u64::from(ix))?;
    push_count(out, u64::from(iy))?;
    push_count(out, u64::from(iz))?;
    push_length(out, coordinate(frame.ox, frame.dx, ix))?;
    push_length(out, coordinate(frame.oy, frame.dy, iy))?;
    push_length(out, coordinate(frame.oz, frame.dz, iz))
}

// Appends a number after a blank.
fn push_count(out: &mut Vec<u8>, number: u64) -> Result<(), AllocError>
    ensures { OnOk result (out.new.items ≡ out.old.items ++ 32 ∷ decimal number) }
{
    out.push(b' ')?;
    push_number(out, number)
}

// Appends a length after a blank.
fn push_length(out: &mut Vec<u8>, length: i64) -> Result<(), AllocError>
    ensures { OnOk result (out.new.items ≡ out.old.items ++ 32 ∷ signed_decimal length) }
{
    out.push(b' ')?;
    push_signed(out, length)
}

// Where a place on an axis lies, in millimetres.
fn coordinate(origin: i64, spacing: i64, place: u32) -> i64
    requires origin { IsOrigin origin }
    requires spacing { IsSpacing spacing }
    ensures { result ≡ coordinate origin spacing place }
{
    origin + i64::from(place) * spacing
}

// The name of a verdict.
fn verdict_name(verdict: &Verdict) -> &[u8]
    ensures { result.now ≡ verdict_name verdict.now }
{
    match verdict {
        Verdict::NoClaim => b"NOCLAIM",
        Verdict::Outside(_) => b"OUTSIDE",
        Verdict::Twice(_) => b"TWICE",
        Verdict::Uncovered(_) => b"UNCOVERED",
        Verdict::WrongBound(_) => b"WRONGBOUND",
        Verdict::NotClosed(_) => b"NOTCLOSED",
        Verdict::WrongScore(_) => b"WRONGSCORE",
        Verdict::NotFirst(_) => b"NOTFIRST",
        Verdict::NearWrong(_) => b"NEARWRONG",
        Verdict::Proved => b"PROVED",
    }
}

// The number that a verdict shows.
fn verdict_number(verdict: &Verdict) -> Option<u32>
    ensures { result ≡ verdict_number verdict.now }
{
    match verdict {
        Verdict::NoClaim | Verdict::Proved => None,
        Verdict::Outside(number)
        | Verdict::Twice(number)
        | Verdict::Uncovered(number)
        | Verdict::WrongBound(number)
        | Verdict::NotClosed(number)
        | Verdict::WrongScore(number)
        | Verdict::NotFirst(number)
        | Verdict::NearWrong(number) => Some(*number),
    }
}
