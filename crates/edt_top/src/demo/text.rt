//! The line of a problem that a number makes.
ghost use Rattle.std.specs.Prelude.{◌≡◌, ◌≢◌, ◌≤◌, IfOk, OnOk};
ghost use Rattle.std.specs.String.{string_bytes};
ghost use Rattle.octree_search.specs.Outcomes.{PassesBudget, found_value};
ghost use Rattle.edt_top.specs.Demo.Text.{counts_words, demo_head, demo_line, demo_text, event_line};
ghost use Rattle.edt_top.specs.Runs.{HasShortestDemo};
ghost use Rattle.edt_top.specs.Inside.DemoParts.{event_value};

use crate::finding::find;
use edt_score::demo_problem;
use kernel_table::{Falloff, Shape, gauss};
use octree_search::{Found, Located};
use std::alloc::{AllocError, Global};

const MARGIN: u32 = 100;

// The line of the problem of a seed in a cube. The search meets fewer boxes than twice the nodes.
pub fn demo_text(alloc: Global, seed: u64, side: u32) -> Result<String, AllocError>
    requires some { 1 ≤ side }
    requires few { side ≤ 64 }
    ensures text { IfOk result (λ text. string_bytes text ≡ demo_text seed side) }
    ensures covers { OnOk result (HasShortestDemo seed side) }
{
    let demo = demo_problem(alloc, seed, side)?;
    let falloff = Falloff::new(Shape::Gauss, |misfit, scale| gauss(misfit, scale));
    let nodes = demo.field.grid().nodes();
    let head = head_text(alloc, seed, side, nodes)?;
    let found = find(
        alloc,
        &demo.field,
        &demo.problem,
        &falloff,
        MARGIN,
        2 * nodes,
    )?;
    outcome_text(alloc, head.as_str(), &found, demo.source)
}

// The line of what was found.
fn outcome_text(alloc: Global, head: &str, found: &Found, source: u32) -> Result<String, AllocError>
    requires within { found_value found.now ≢ PassesBudget }
    ensures { IfOk result (λ text. string_bytes text ≡ demo_line head.now source (found_value found.now)) }
{
    match found {
        Found::Located(event) => event_text(alloc, head, event, source),
        Found::NoFit { .. } => format!(in alloc; "{head} NOFIT\n"),
        Found::NearLimit => format!(in alloc; "{head} NEARLIMIT\n"),
        Found::Budget => unreachable!(),
    }
}

// What each line begins with.
fn head_text(alloc: Global, seed: u64, side: u32, nodes: u32) -> Result<String, AllocError>
    ensures { IfOk result (λ text. string_bytes text ≡ demo_head seed side nodes) }
{
    format!(in alloc; "DEMO {seed} {side} NODES {nodes}")
}

// The line of a located event.
fn event_text(alloc: Global, head: &str, event: &Located, source: u32) -> Result<String, AllocError>
    ensures { IfOk result (λ text. string_bytes text ≡ event_line head.now source (event_value event.now)) }
{
    let counts = counts_text(alloc, head, event.met, event.cover.len(), event.near.len())?;
    let node = event.hyp;
    let score = event.score;
    format!(in alloc; "{counts} BEST {node} {score} SOURCE {source}\n")
}

// What the line begins with, and the counts of boxes met, of boxes of the cover and of near nodes.
fn counts_text(
    alloc: Global,
    head: &str,
    met: u32,
    cover: usize,
    near: usize,
) -> Result<String, AllocError>
    ensures { IfOk result (λ text. string_bytes text ≡ counts_words head.now met cover near) }
{
    format!(in alloc; "{head} MET {met} COVER {cover} NEAR {near}")
}
