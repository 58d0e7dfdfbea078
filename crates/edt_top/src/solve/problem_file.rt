//! The reading of a problem file: a grid, the picks, and a row of travel times for each pick.
ghost use Rattle.std.specs.Prelude.{◌≡◌, ◌+◌, ◌*◌, ◌<◌, ◌≤◌, ◌^◌, IfOk, OnOk, IfErr, All, [], None, Some, ◌==◌, if◌then◌else◌, slice_get};
ghost use Rattle.std.specs.Option.{option_map};
ghost use Rattle.node_boxes.specs.declared.limits.TheConstants.{GREATEST_TIME};
ghost use Rattle.text_terms.specs.Words.{file_words};
ghost use Rattle.edt_top.specs.Solve.ProblemFile.{signed_at, nodes_in, picks_in, first_time, words_wanted, IsProblemFile};
ghost use Rattle.edt_top.specs.Inside.ProblemCursor.{IsSound, Names};
ghost use Rattle.edt_top.specs.Solve.ProblemValues.{row_in, rows_in, field_in, pick_in, picks_of};
ghost use Rattle.std.specs.List.{range_with_len};
ghost use Rattle.edt_score.specs.Problem.{IsValidProblem};
ghost use Rattle.node_boxes.specs.Grid.{node_count};
ghost use Rattle.edt_top.specs.Inside.ProblemParts.{IsHead, NamesFault, IsReadFrom};

use crate::solve::problem_cursor::{Cursor, ProblemFault};
use edt_score::{Field, Problem, ProblemPick};
use node_boxes::{GREATEST_TIME, Grid, roots};
use std::alloc::{AllocError, AllocFailed, Global};
use thiserror::Error;

const MOST_ON_AXIS: u64 = node_boxes::MOST_ON_AXIS as u64;

const MOST_NODES: u64 = 65_536;

const MOST_PICKS: u64 = 256;

const MOST_TIMES: u64 = 1_000_000;

const MOST_WEIGHT: u64 = 2000;

const MOST_VARIANCE: u64 = 20_000_000_000_000_000;

/// A problem file, read.
#[derive(Drop)]
pub struct ProblemFile {
    /// The travel times of the picks at the nodes of the grid, a row a pick.
    pub field: Field,
    /// The picks, in their order.
    pub problem: Problem,
}

// Why a problem file has no reading, or that memory was wanting.
#[derive(Clone, Copy, Debug, PartialEq, Eq, Error)]
pub enum ReadRefusal {
    // The first faulty word.
    #[error("{0}")]
    Faulty(ProblemFault),
    // Memory is wanting.
    #[error("out of memory")]
    Memory,
}

impl From<AllocError> for ReadRefusal {
    ghost use Rattle.std.specs.Prelude.{◌≡◌};
    ghost use Rattle.edt_top.specs.declared.solve.problem_file.ReadRefusal.TheVariants.{Memory};

    ghost from_gives = { λ _ e. e ≡ Memory };

    fn from(_: AllocError) -> Self {
        ReadRefusal::Memory
    }
}

impl<T: Drop> From<AllocFailed<T>> for ReadRefusal {
    ghost use Rattle.std.specs.Prelude.{◌≡◌};
    ghost use Rattle.edt_top.specs.declared.solve.problem_file.ReadRefusal.TheVariants.{Memory};

    ghost from_gives = { λ _ e. e ≡ Memory };

    fn from(_: AllocFailed<T>) -> Self {
        ReadRefusal::Memory
    }
}

impl From<ProblemFault> for ReadRefusal {
    ghost use Rattle.std.specs.Prelude.{◌≡◌};
    ghost use Rattle.edt_top.specs.declared.solve.problem_file.ReadRefusal.TheVariants.{Faulty};

    ghost from_gives = { λ fault e. e ≡ Faulty fault };

    fn from(fault: ProblemFault) -> Self {
        ReadRefusal::Faulty(fault)
    }
}

// The numbers before the picks: the grid, and how many picks there are.
#[derive(Clone, Copy)]
pub struct Head {
    pub grid: Grid,
    pub picks: u32,
}

fn read_head(cursor: &mut Cursor) -> Result<Head, ProblemFault>
    requires start { cursor.old.place ≡ 0 }
    requires sound { IsSound cursor.old }
    ensures head { IfOk result (IsHead cursor.old.words) }
    ensures sound { OnOk result (IsSound cursor.new) }
    ensures moved { OnOk result (cursor.new ≡ record cursor.old { place = 6 }) }
    ensures fault { IfErr result (Names cursor.old.words) }
{
    cursor.fixed(b"EDTPROBLEM")?;
    cursor.fixed(b"1")?;
    let x = cursor.whole(1, MOST_ON_AXIS)?;
    let y = cursor.whole(1, MOST_ON_AXIS)?;
    let z = cursor.whole(1, MOST_ON_AXIS.min(MOST_NODES / (x * y)))?;
    let picks = cursor.whole(2, MOST_PICKS.min(MOST_TIMES / (x * y * z)))?;
    let grid = Grid::new(x as u32, y as u32, z as u32).unwrap();
    Ok(Head {
        grid,
        picks: picks as u32,
    })
}

// The next pick, whose travel times stand in the row of its number.
fn read_pick(cursor: &mut Cursor, row: u32, first: Option<i64>) -> Result<ProblemPick, ProblemFault>
    requires within { row < picks_in cursor.old.words }
    requires few { picks_in cursor.old.words ≤ 256 }
    requires at { cursor.old.place ≡ 6 + 3 * row }
    requires sound { IsSound cursor.old }
    requires first { first ≡ (if row == 0 then None else Some (signed_at cursor.old.words 6)) }
    ensures pick { IfOk result (λ pick. pick ≡ pick_in cursor.old.words row) }
    ensures sound { OnOk result (IsSound cursor.new) }
    ensures moved { OnOk result (cursor.new ≡ record cursor.old { place = 6 + 3 * (row + 1) }) }
    ensures fault { IfErr result (Names cursor.old.words) }
{
    let time = cursor.observed(first)?;
    let weight = cursor.whole(1, MOST_WEIGHT)? as u32;
    let variance = cursor.whole(0, MOST_VARIANCE)?;
    Ok(ProblemPick {
        time,
        weight,
        variance,
        row,
    })
}

// The observed time of the first pick, where there is one.
fn first_time(picks: &[ProblemPick]) -> Option<i64>
    ensures { result ≡ option_map (λ pick. pick.time) (slice_get picks.now 0) }
{
    match picks.first() {
        Some(pick) => Some(pick.time),
        None => None,
    }
}

// The picks, in their order.
fn read_picks(
    alloc: Global,
    cursor: &mut Cursor,
    picks: u32,
) -> Result<Vec<ProblemPick>, ReadRefusal>
    requires all { picks ≡ picks_in cursor.old.words }
    requires few { picks ≤ 256 }
    requires at { cursor.old.place ≡ 6 }
    requires sound { IsSound cursor.old }
    ensures picks { IfOk result (λ list. list.items ≡ picks_of cursor.old.words) }
    ensures sound { OnOk result (IsSound cursor.new) }
    ensures moved { OnOk result (cursor.new ≡ record cursor.old { place = first_time cursor.old.words }) }
    ensures fault { IfErr result (NamesFault cursor.old.words) }
{
    let mut list = Vec::with_capacity(alloc, picks as usize)?;
    for row in 0..picks {
        let first = first_time(&list);
        let pick = read_pick(cursor, row, first)?;
        list.push(pick)?;
    }
    Ok(list)
}

// The travel times of one pick at all nodes.
fn row_times(
    alloc: Global,
    cursor: &mut Cursor,
    row: u32,
    nodes: u32,
) -> Result<Vec<u32>, ReadRefusal>
    requires all { nodes ≡ nodes_in cursor.old.words }
    requires within { row < picks_in cursor.old.words }
    requires few { words_wanted cursor.old.words + 1 < 2 ^ 32 }
    requires at { cursor.old.place ≡ first_time cursor.old.words + row * nodes }
    requires sound { IsSound cursor.old }
    ensures times { IfOk result (λ times. times.items ≡ row_in cursor.old.words row) }
    ensures limit { IfOk result (λ times. All (λ time. time ≤ GREATEST_TIME) times.items) }
    ensures sound { OnOk result (IsSound cursor.new) }
    ensures moved { OnOk result (cursor.new
        ≡ record cursor.old { place = first_time cursor.old.words + (row + 1) * nodes }) }
    ensures fault { IfErr result (NamesFault cursor.old.words) }
{
    let mut times = Vec::with_capacity(alloc, nodes as usize)?;
    for _node in 0..nodes {
        let time = cursor.whole(0, GREATEST_TIME)?;
        times.push(time as u32)?;
    }
    Ok(times)
}

// The travel times of all picks, a row a pick.
fn push_rows(
    alloc: Global,
    cursor: &mut Cursor,
    picks: u32,
    field: &mut Field,
) -> Result<(), ReadRefusal>
    requires all { picks ≡ picks_in cursor.old.words }
    requires few { words_wanted cursor.old.words + 1 < 2 ^ 32 }
    requires nodes { node_count field.old.grid ≡ nodes_in cursor.old.words }
    requires empty { field.old.rows ≡ [] }
    requires at { cursor.old.place ≡ first_time cursor.old.words }
    requires sound { IsSound cursor.old }
    ensures rows { OnOk result (field.new ≡ record field.old { rows = rows_in cursor.old.words }) }
    ensures sound { OnOk result (IsSound cursor.new) }
    ensures moved { OnOk result (cursor.new ≡ record cursor.old { place = words_wanted cursor.old.words }) }
    ensures fault { IfErr result (NamesFault cursor.old.words) }
{
    let nodes = field.grid().nodes();
    for row in 0..picks {
        let times = row_times(alloc, cursor, row, nodes)?;
        field.push_row(times)?;
    }
    Ok(())
}

// The problem of a file's bytes.
pub fn read_problem(alloc: Global, bytes: &[u8]) -> Result<ProblemFile, ReadRefusal>
    ensures value { IfOk result (IsReadFrom (file_words bytes.now)) }
    ensures fault { IfErr result (NamesFault (file_words bytes.now)) }
{
    let mut cursor = Cursor::new(bytes);
    let head = read_head(&mut cursor)?;
    let picks = read_picks(alloc, &mut cursor, head.picks)?;
    let roots = roots(alloc, &head.grid, 1, 1, 1)?;
    let mut field = Field::new(alloc, head.grid, roots)?;
    push_rows(alloc, &mut cursor, head.picks, &mut field)?;
    cursor.end()?;
    Ok(ProblemFile {
        field,
        problem: Problem { picks },
    })
}
