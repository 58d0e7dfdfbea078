//! The check of a certificate against a field.

ghost use Rattle.std.specs.Prelude.{◌≡◌, ◌≤◌};
ghost use Rattle.kernel_table.specs.Falloff.{AnswersItsShape, shape_of};
ghost use Rattle.node_boxes.specs.Grid.{node_count};
ghost use Rattle.edt_score.specs.Scorer.{falloff_of, field_of, node_score, problem_of};
ghost use Rattle.cover_certificate.specs.Blocks.{IsValidBlock, block_value};
ghost use Rattle.cover_checker.specs.declared.verdict.Verdict.TheVariants.{Proved};
ghost use Rattle.cover_checker.specs.Locations.{IsTrueOf};
ghost use Rattle.cover_checker.specs.Scorings.{field_scoring};
ghost use Rattle.cover_checker.specs.Verdicts.{verdict_of};

use crate::look_check::check_look;
use crate::marks::Marks;
use crate::verdict::Verdict;
use cover_certificate::Block;
use edt_score::{FieldLook, Scorer};

/// Checks a certificate of the event of a scorer. The margin is in thousandths, at most 999.
///
/// `Proved` means that the certificate is true, whoever wrote it: the hypocentre of a located event is
/// the first of all nodes with the best score, and its near list is that of all nodes; and where the
/// event fits nowhere every node scores 0. Takes no memory; what the marks held doesn't matter. The
/// rules are this project's own.
pub fn check<F: Fn(u64, u64) -> u64>(
    scorer: &Scorer<F>,
    margin: u32,
    block: &Block,
    marks: &mut Marks,
) -> Verdict
    requires answers { AnswersItsShape F.Fn (falloff_of scorer.now) }
    requires margin { margin ≤ 999 }
    requires block { IsValidBlock (block_value block.now) }
    requires marks { marks.old ≡ node_count (field_of scorer.now).grid }
    ensures value { let picks = (problem_of scorer.now).picks.items in
        let scoring = field_scoring (shape_of (falloff_of scorer.now)) (field_of scorer.now) picks in
        result ≡ verdict_of scoring margin (block_value block.now) }
    ensures proved { let nodes = node_count (field_of scorer.now).grid in
        result ≡ Proved → IsTrueOf nodes (node_score scorer.now) margin (block_value block.now) }
    ensures marks { marks.new ≡ marks.old }
{
    let mut look = FieldLook::new(scorer.field(), scorer.problem());
    let grid = scorer.field().grid();
    let _nodes = grid.nodes();
    check_look(
        scorer.problem(),
        scorer.falloff(),
        grid,
        &mut look,
        margin,
        block,
        marks,
    )
}
