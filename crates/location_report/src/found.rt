//! The lines of a block between its first and its certificate.
ghost use Rattle.std.specs.Prelude.{◌≡◌, ◌++◌, ◌<◌, [], ◌∷◌, OnOk, IfSome, length, map, zip, is_some, Some, true};
ghost use Rattle.std.specs.Option.{option_map};
ghost use Rattle.cover_certificate.specs.Blocks.{view_value};
ghost use Rattle.cover_certificate.specs.BlockLines.{text_of_lines};
ghost use Rattle.node_boxes.specs.Frame.{IsValidFrame};
ghost use Rattle.node_boxes.specs.Grid.{node_count};
ghost use Rattle.edt_score.specs.Problem.{IsValidProblem};
ghost use Rattle.octree_search.specs.Outcomes.{IsLocated, found_value};
ghost use Rattle.octree_search.specs.Outcomes as outcomes;
ghost use Rattle.event_assembly.specs.AssemblyValues.{case_value, event_value};
ghost use Rattle.location_report.specs.Blocks.{certificate_of, certificate_value, lane_lines, report_lines, residual_word, unplaced_line};
ghost use Rattle.location_report.specs.Lines.{hypocentre_line, origin_line, pick_line, rms_line, skip_line};
ghost use Rattle.location_report.specs.Reports.{HasNode, has_problem, lane_values};
ghost use Rattle.location_report.specs.Inside.Locating.{IsPreparedOne};

use crate::lanes::LaneCount;
use crate::lines::{
    push_hypocentre, push_lanes, push_met, push_origin, push_pick, push_rms, push_skip,
};
use crate::locating::Origin;
use cover_certificate::{BlockView, LocatedView};
use event_assembly::{Assembly, Case, Prepared};
use itoa::Buffer;
use node_boxes::Frame;
use octree_search::{Found, Located};
use station_table::{Picks, Skip, UsedPick};
use std::alloc::{AllocError, Global};

/// What the certificate of an event says, with the lists of what was found.
pub(crate) fn certificate_of<'a>(case: &Case, found: Option<&'a Found>) -> BlockView<'a>
    ensures { view_value result
        ≡ certificate_value (case_value case.now) (option_map (λ f. found_value f.now) found.entry) }
{
    match found {
        Some(found) => certificate_of_found(found),
        None => match case {
            Case::Many => BlockView::Many,
            Case::Ready(_) | Case::Few => BlockView::Few,
        },
    }
}

// What the certificate says of what was found.
fn certificate_of_found(found: &Found) -> BlockView<'_>
    ensures { view_value result ≡ certificate_of (found_value found.now) }
{
    match found {
        Found::Located(event) => BlockView::Located(LocatedView {
            hyp: event.hyp,
            score: event.score,
            near: &event.near,
            cover: &event.cover,
        }),
        Found::NoFit { cover, .. } => BlockView::NoFit(cover),
        Found::Budget => BlockView::Budget,
        Found::NearLimit => BlockView::NearLimit,
    }
}

/// Appends the lines of the picks, and of what was found.
pub(crate) fn push_findings(
    alloc: Global,
    out: &mut Vec<u8>,
    assembly: &Assembly,
    event: &Prepared,
    found: Option<&Found>,
) -> Result<(), AllocError>
    requires frame { IsValidFrame assembly.now.frame }
    requires grid { assembly.now.field.grid ≡ assembly.now.frame.grid }
    requires event { IsPreparedOne assembly.now.field event.now }
    requires found { is_some found ≡ has_problem (case_value event.now.case) }
    requires node { IfSome found (λ f. HasNode assembly.now.frame.grid (found_value f.now)) }
    ensures { OnOk result (out.new.items ≡ out.old.items ++ text_of_lines
        (report_lines assembly.now.frame assembly.now.field (event_value event.now)
        (option_map (λ f. found_value f.now) found.entry))) }
{
    match found {
        Some(Found::Located(located)) => { push_located(alloc, out, assembly, event, located) }
        Some(Found::NoFit { met, .. }) => {
            push_all_unplaced(out, &event.picks)?;
            push_met(out, *met)
        }
        Some(Found::Budget) | Some(Found::NearLimit) | None => {
            push_all_unplaced(out, &event.picks)
        }
    }
}

// Appends the lines of a located event.
fn push_located(
    alloc: Global,
    out: &mut Vec<u8>,
    assembly: &Assembly,
    event: &Prepared,
    located: &Located,
) -> Result<(), AllocError>
    requires frame { IsValidFrame assembly.now.frame }
    requires grid { assembly.now.field.grid ≡ assembly.now.frame.grid }
    requires event { IsPreparedOne assembly.now.field event.now }
    requires problem { has_problem (case_value event.now.case) ≡ true }
    requires node { located.now.hyp < node_count assembly.now.frame.grid }
    ensures { OnOk result (out.new.items ≡ out.old.items ++ text_of_lines
        (report_lines assembly.now.frame assembly.now.field
        (event_value event.now) (Some (found_value (Found.Located located.now))))) }
{
    let Case::Ready(problem) = &event.case else {
        unreachable!();
    };
    let origin = Origin::of(alloc, &assembly.field, problem, located.hyp)?;
    push_placed(out, &event.picks.used, &origin.residuals)?;
    push_skips(out, &event.picks.skipped)?;
    push_place_and_time(out, &assembly.frame, located.hyp, &origin)?;
    push_met(out, located.met)?;
    Ok(())
}

// Appends the lines of the hypocentre, of the origin time and of the root mean square.
fn push_place_and_time(
    out: &mut Vec<u8>,
    frame: &Frame,
    node: u32,
    origin: &Origin,
) -> Result<(), AllocError>
    requires frame { IsValidFrame frame.now }
    requires node { node < node_count frame.now.grid }
    ensures { OnOk result (out.new.items ≡ out.old.items ++ text_of_lines
        (hypocentre_line frame.now node ∷ origin_line origin.now.time ∷ rms_line origin.now.rms ∷ [])) }
{
    push_hypocentre(out, frame, node)?;
    push_origin(out, origin.time)?;
    push_rms(out, origin.rms)
}

// Appends the lines of used picks with their residuals.
fn push_placed(
    out: &mut Vec<u8>,
    picks: &[UsedPick],
    residuals: &[(i64, u32)],
) -> Result<(), AllocError>
    requires { length residuals.now ≡ length picks.now }
    ensures { OnOk result (out.new.items ≡ out.old.items
        ++ text_of_lines (map pick_line (zip picks.now (map residual_word residuals.now)))) }
{
    for i in 0..picks.len() {
        push_placed_pick(out, &picks[i], residuals[i])?;
    }
    Ok(())
}

// Appends the line of a used pick with its residual.
fn push_placed_pick(
    out: &mut Vec<u8>,
    pick: &UsedPick,
    residual: (i64, u32),
) -> Result<(), AllocError>
    ensures { OnOk result (out.new.items
        ≡ out.old.items ++ text_of_lines (pick_line (pick.now, residual_word residual) ∷ [])) }
{
    let mut word = Buffer::new();
    push_pick(out, pick, word.format(residual.0).as_bytes())
}

// Appends the lines of the picks of an event that isn't located.
fn push_all_unplaced(out: &mut Vec<u8>, picks: &Picks) -> Result<(), AllocError>
    ensures { OnOk result (out.new.items ≡ out.old.items
        ++ text_of_lines (map unplaced_line picks.now.used.items ++ map skip_line picks.now.skipped.items)) }
{
    push_unplaced(out, &picks.used)?;
    push_skips(out, &picks.skipped)
}

// Appends the lines of used picks without residuals.
fn push_unplaced(out: &mut Vec<u8>, picks: &[UsedPick]) -> Result<(), AllocError>
    ensures { OnOk result (out.new.items ≡ out.old.items ++ text_of_lines (map unplaced_line picks.now)) }
{
    for pick in picks {
        push_pick(out, pick, b"-")?;
    }
    Ok(())
}

// Appends the lines of picks that aren't used.
fn push_skips(out: &mut Vec<u8>, skips: &[Skip]) -> Result<(), AllocError>
    ensures { OnOk result (out.new.items ≡ out.old.items ++ text_of_lines (map skip_line skips.now)) }
{
    for skip in skips {
        push_skip(out, skip)?;
    }
    Ok(())
}

/// Appends the line of the lanes, where there are any.
pub(crate) fn push_lane_line(out: &mut Vec<u8>, lanes: Option<LaneCount>) -> Result<(), AllocError>
    ensures { OnOk result (out.new.items ≡ out.old.items ++ text_of_lines (lane_lines (option_map lane_values lanes))) }
{
    match lanes {
        Some(count) => push_lanes(out, count),
        None => Ok(()),
    }
}
