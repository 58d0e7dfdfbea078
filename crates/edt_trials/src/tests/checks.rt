//! Certificates of the sample and of events like it, and what a check finds in them.

ghost use Rattle.std.specs.Prelude.{◌≡◌};
ghost use Rattle.node_boxes.specs.Grid.{grid_size};
ghost use Rattle.kernel_table.specs.Falloff.{AnswersItsShape};
ghost use Rattle.edt_score.specs.Scorer.{falloff_of, field_of};

use super::samples::{sample, two_picks};
use cover_certificate::read_block;
use cover_checker::{Marks, Verdict, check, check_look};
use edt_score::{FieldLook, Look, Scorer};
use edt_text::Lines;
use kernel_table::{Falloff, Shape, count, gauss};
use std::alloc::Global;
use std::process::Abort;
use std::test::Fail;

/// The certificate of the sample.
const SAMPLE: &str = "\
CERT LOCATED
BEST 0 343597383680
NEAR 1
0 343597383680
COVER 3
0 1 0 1 0 1 343597383680
1 2 0 1 0 1 0
2 4 0 1 0 1 0
END
";

/// Certificates of the sample with other covers, one after another.
const COVERS: &str = "\
CERT LOCATED
BEST 0 343597383680
NEAR 1
0 343597383680
COVER 3
0 1 0 1 0 1 343597383680
1 2 0 1 0 1 0
2 4 0 1 0 1 0
END
CERT LOCATED
BEST 0 343597383680
NEAR 1
0 343597383680
COVER 4
0 1 0 1 0 1 343597383680
1 2 0 1 0 1 0
2 3 0 1 0 1 0
3 4 0 1 0 1 0
END
CERT LOCATED
BEST 0 343597383680
NEAR 1
0 343597383680
COVER 3
0 5 0 1 0 1 343597383680
1 2 0 1 0 1 0
2 4 0 1 0 1 0
END
CERT LOCATED
BEST 0 343597383680
NEAR 1
0 343597383680
COVER 3
0 1 0 1 0 1 343597383680
2 2 0 1 0 1 0
2 4 0 1 0 1 0
END
CERT LOCATED
BEST 0 343597383680
NEAR 1
0 343597383680
COVER 3
0 1 0 1 0 1 343597383680
1 2 0 1 0 1 0
4 2 0 1 0 1 0
END
CERT LOCATED
BEST 0 343597383680
NEAR 1
0 343597383680
COVER 4
0 1 0 1 0 1 343597383680
0 1 0 1 0 1 343597383680
1 2 0 1 0 1 0
2 4 0 1 0 1 0
END
CERT LOCATED
BEST 0 343597383680
NEAR 1
0 343597383680
COVER 3
0 1 0 1 0 1 343597383680
1 2 0 1 0 1 0
1 3 0 1 0 1 0
END
CERT LOCATED
BEST 0 343597383680
NEAR 1
0 343597383680
COVER 3
2 4 0 1 0 1 0
0 4 0 1 0 1 343597383680
0 5 0 1 0 1 0
END
CERT LOCATED
BEST 0 343597383680
NEAR 1
0 343597383680
COVER 2
0 1 0 1 0 1 343597383680
2 4 0 1 0 1 0
END
CERT LOCATED
BEST 0 343597383680
NEAR 1
0 343597383680
COVER 0
END
CERT LOCATED
BEST 0 343597383680
NEAR 1
0 343597383680
COVER 3
0 1 0 1 0 1 343597383679
1 2 0 1 0 1 0
2 4 0 1 0 1 0
END
CERT LOCATED
BEST 0 343597383680
NEAR 1
0 343597383680
COVER 3
0 1 0 1 0 1 343597383680
1 2 0 1 0 1 0
2 4 0 1 0 1 1
END
CERT LOCATED
BEST 0 343597383680
NEAR 1
0 343597383680
COVER 1
0 4 0 1 0 1 343597383680
END
";

/// Certificates of the sample with other hypocentres and near lists.
const HYPOCENTRES: &str = "\
CERT LOCATED
BEST 1 343597383680
NEAR 1
0 343597383680
COVER 3
0 1 0 1 0 1 343597383680
1 2 0 1 0 1 0
2 4 0 1 0 1 0
END
CERT LOCATED
BEST 4 343597383680
NEAR 1
0 343597383680
COVER 3
0 1 0 1 0 1 343597383680
1 2 0 1 0 1 0
2 4 0 1 0 1 0
END
CERT LOCATED
BEST 0 18446744073709551615
NEAR 1
0 343597383680
COVER 3
0 1 0 1 0 1 343597383680
1 2 0 1 0 1 0
2 4 0 1 0 1 0
END
CERT LOCATED
BEST 0 343597383680
NEAR 0
COVER 3
0 1 0 1 0 1 343597383680
1 2 0 1 0 1 0
2 4 0 1 0 1 0
END
CERT LOCATED
BEST 0 343597383680
NEAR 1
1 343597383680
COVER 3
0 1 0 1 0 1 343597383680
1 2 0 1 0 1 0
2 4 0 1 0 1 0
END
CERT LOCATED
BEST 0 343597383680
NEAR 1
0 343597383679
COVER 3
0 1 0 1 0 1 343597383680
1 2 0 1 0 1 0
2 4 0 1 0 1 0
END
CERT LOCATED
BEST 0 343597383680
NEAR 2
0 343597383680
0 343597383680
COVER 3
0 1 0 1 0 1 343597383680
1 2 0 1 0 1 0
2 4 0 1 0 1 0
END
CERT LOCATED
BEST 0 343597383680
NEAR 1
0 343597383680
COVER 3
0 1 0 1 0 1 343597383680
1 2 0 1 0 1 0
2 4 0 1 0 1 0
END
";

/// Certificates of an event of two nodes that tie, with either as the hypocentre.
const TIES: &str = "\
CERT LOCATED
BEST 1 343597383680
NEAR 2
0 343597383680
1 343597383680
COVER 3
0 1 0 1 0 1 343597383680
1 2 0 1 0 1 343597383680
2 4 0 1 0 1 0
END
CERT LOCATED
BEST 0 343597383680
NEAR 2
0 343597383680
1 343597383680
COVER 3
0 1 0 1 0 1 343597383680
1 2 0 1 0 1 343597383680
2 4 0 1 0 1 0
END
";

/// Certificates of the sample that say that it fits nowhere, or that claim nothing.
const CLAIMS: &str = "\
CERT NOFIT
COVER 1
0 4 0 1 0 1 343597383680
END
CERT NOFIT
COVER 1
0 4 0 1 0 1 0
END
CERT FEW
END
CERT BUDGET
END
";

/// The lines of a text of at most 10,000 bytes.
fn lines_in(text: &str) -> Result<Lines<'_>, Fail> {
    if text.len() > 10_000 {
        return Err(Fail::new("a long text"));
    }
    Ok(Lines::new(text.as_bytes()))
}

/// Checks the certificates of a text, one after another, against what is wanted of each.
fn assert_verdicts<F: Fn(u64, u64) -> u64>(
    rt: &impl Abort,
    alloc: Global,
    scorer: &Scorer<F>,
    text: &str,
    wants: &[Verdict],
) -> Result<(), Fail>
    requires answers { AnswersItsShape F.Fn (falloff_of scorer.now) }
    requires grid { (field_of scorer.now).grid ≡ grid_size 4 1 1 }
{
    let mut marks = Marks::new(alloc, scorer.field().grid())?;
    let mut lines = lines_in(text)?;
    for (place, want) in wants.iter().enumerate() {
        let block = read_block(alloc, &mut lines)?;
        let found = check(scorer, 100, &block, &mut marks);
        assert_eq!(rt; found, *want, "certificate {place}");
    }
    Ok(())
}

/// The same for the sample.
fn assert_of_sample(
    rt: &impl Abort,
    alloc: Global,
    text: &str,
    wants: &[Verdict],
) -> Result<(), Fail> {
    let field = sample(alloc)?;
    let problem = two_picks(alloc, 0, 1_000_000)?;
    let gaussian = Falloff::new(Shape::Gauss, |misfit, scale| gauss(misfit, scale));
    let scorer = Scorer::new(alloc, &field, &problem, &gaussian)?;
    assert_verdicts(rt, alloc, &scorer, text, wants)
}

#[test]
fn the_first_fault_of_a_certificate_of_the_sample_is_found(rt: HostRuntime) -> Result<(), Fail> {
    let wants = [
        // proved by the cover of the octree, and by the single boxes
        Verdict::Proved,
        Verdict::Proved,
        // boxes past the grid, without a node, or turned
        Verdict::Outside(0),
        Verdict::Outside(1),
        Verdict::Outside(2),
        // nodes that are held twice, though the volumes add up, or never
        Verdict::Twice(0),
        Verdict::Twice(1),
        Verdict::Twice(2),
        Verdict::Uncovered(1),
        Verdict::Uncovered(0),
        // bounds
        Verdict::WrongBound(0),
        Verdict::WrongBound(2),
        Verdict::NotClosed(0),
    ];
    assert_of_sample(&rt, rt.alloc(), COVERS, &wants)
}

#[test]
fn a_wrong_hypocentre_or_near_list_is_found(rt: HostRuntime) -> Result<(), Fail> {
    let wants = [
        Verdict::WrongScore(1),
        Verdict::WrongScore(4),
        Verdict::WrongScore(0),
        Verdict::NearWrong(0),
        Verdict::NearWrong(0),
        Verdict::NearWrong(0),
        Verdict::NearWrong(1),
        Verdict::Proved,
    ];
    assert_of_sample(&rt, rt.alloc(), HYPOCENTRES, &wants)
}

#[test]
fn of_two_nodes_that_tie_the_first_is_the_hypocentre(rt: HostRuntime) -> Result<(), Fail> {
    let alloc = rt.alloc();
    let field = sample(alloc)?;
    let problem = two_picks(alloc, 0, 1_000_000)?;
    let counting = Falloff::new(
        Shape::Count(1_000_000),
        |misfit, _scale| count(1_000_000, misfit),
    );
    let scorer = Scorer::new(alloc, &field, &problem, &counting)?;
    assert_verdicts(
        &rt,
        alloc,
        &scorer,
        TIES,
        &[Verdict::NotFirst(0), Verdict::Proved],
    )
}

#[test]
fn only_an_event_that_fits_nowhere_is_proved_to(rt: HostRuntime) -> Result<(), Fail> {
    let wants = [
        Verdict::NotClosed(0),
        Verdict::WrongBound(0),
        Verdict::NoClaim,
        Verdict::NoClaim,
    ];
    assert_of_sample(&rt, rt.alloc(), CLAIMS, &wants)
}

#[test]
fn an_event_whose_picks_no_node_explains_is_proved_to_fit_nowhere(
    rt: HostRuntime,
) -> Result<(), Fail> {
    let alloc = rt.alloc();
    let field = sample(alloc)?;
    // no travel times explain that the second pick comes ten seconds later
    let apart = two_picks(alloc, 0, 10_000_000)?;
    let gaussian = Falloff::new(Shape::Gauss, |misfit, scale| gauss(misfit, scale));
    let scorer = Scorer::new(alloc, &field, &apart, &gaussian)?;
    let text = "CERT NOFIT\nCOVER 1\n0 4 0 1 0 1 0\nEND\n";
    assert_verdicts(&rt, alloc, &scorer, text, &[Verdict::Proved])
}

/// What a check finds and how often it looks.
fn looks(alloc: Global, text: &str) -> Result<(Verdict, u64), Fail> {
    let field = sample(alloc)?;
    let problem = two_picks(alloc, 0, 1_000_000)?;
    let gaussian = Falloff::new(Shape::Gauss, |misfit, scale| gauss(misfit, scale));
    let mut marks = Marks::new(alloc, field.grid())?;
    let block = read_block(alloc, &mut lines_in(text)?)?;
    let mut look = FieldLook::new(&field, &problem);
    let verdict = check_look(
        &problem,
        &gaussian,
        field.grid(),
        &mut look,
        100,
        &block,
        &mut marks,
    );
    Ok((verdict, look.looked()))
}

#[test]
fn each_time_is_looked_up_once_and_those_of_the_hypocentre_again(
    rt: HostRuntime,
) -> Result<(), Fail> {
    let alloc = rt.alloc();
    assert_eq!(rt; looks(alloc, SAMPLE)?, (Verdict::Proved, 10));
    let text = "CERT NOFIT\nCOVER 2\n0 4 0 1 0 1 0\n3 4 0 1 0 1 0\nEND\n";
    assert_eq!(rt; looks(alloc, text)?, (Verdict::Twice(3), 0));
    let text = "CERT NOFIT\nCOVER 2\n0 2 0 1 0 1 0\n2 4 0 1 0 1 0\nEND\n";
    assert_eq!(rt; looks(alloc, text)?, (Verdict::WrongBound(0), 4));
    Ok(())
}
