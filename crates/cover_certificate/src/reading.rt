//! A block, read from the lines of its certificate.
ghost use Rattle.std.specs.Prelude.{◌≡◌, ◌≢◌, ◌≤◌, ◌+◌, ◌++◌, length, map, replicate, Some, IfOk, IfErr, true};
ghost use Rattle.std.specs.List.{list_all};
ghost use Rattle.edt_text.specs.LineCursor.{lines_left, lines_passed};
ghost use Rattle.cover_certificate.specs.declared.line_form.LineForm.TheVariants.{Entry, Area};
ghost use Rattle.cover_certificate.specs.LineForms.{Numbered};
ghost use Rattle.cover_certificate.specs.Blocks.{IsValidBlock, IsValidLocated, block_value, located_value};
ghost use Rattle.cover_certificate.specs.BlockLines.{AreTypedBoxes, AreTypedNear, IsTypedBlock, IsTypedLocated, body_lines, kind_of_block};
ghost use Rattle.cover_certificate.specs.BlockLines.{block_lines, box_numbers, cover_lines, entry_numbers};
ghost use Rattle.cover_certificate.specs.BlockLines.{located_lines, near_lines, numbers_line};
ghost use Rattle.cover_certificate.specs.BlockFaults.{IsBlockFault, body_wanted, cover_wanted, located_wanted, near_wanted};
ghost use Rattle.cover_certificate.specs.Inside.FirstFaults.{first_fault};

use crate::block::{Block, BlockCause, BlockFault, LocatedBlock};
use crate::items::{
    read_best, read_box, read_box_count, read_end, read_entry, read_kind, read_near_count,
};
use crate::kind::Kind;
use edt_text::Lines;
use node_boxes::BoxBound;
use std::alloc::Global;

/// Reads a block from its first line, which is the next one, to its `END`.
///
/// The lines that were passed are then exactly those of the block that is answered, whatever follows
/// them. Else the fault names the first faulty line and its first cause, or running out of memory; nothing is
/// said then of the place in `lines`. The format is this project's own.
pub fn read_block(alloc: Global, lines: &mut Lines) -> Result<Block, BlockFault>
    ensures value { IfOk result (λ block.
        lines_left lines.old ≡ block_lines (block_value block) ++ lines_left lines.new) }
    ensures limits { IfOk result (λ block. IsValidBlock (block_value block)) }
    ensures typed { IfOk result (λ block. IsTypedBlock (block_value block)) }
    ensures passed { IfOk result (λ block. lines_passed lines.new
        ≡ lines_passed lines.old + length (block_lines (block_value block))) }
    ensures fault { IfErr result (λ fault. fault.cause ≢ BlockCause.Memory
        → IsBlockFault (lines_left lines.old) (lines_passed lines.old) fault.line fault.cause) }
{
    let kind = read_kind(lines)?;
    let block = read_body(alloc, lines, kind)?;
    read_end(lines)?;
    Ok(block)
}

// What stands between the first line and the last.
fn read_body(alloc: Global, lines: &mut Lines, kind: Kind) -> Result<Block, BlockFault>
    ensures kind { IfOk result (λ block. kind_of_block (block_value block) ≡ kind) }
    ensures value { IfOk result (λ block.
        lines_left lines.old ≡ body_lines (block_value block) ++ lines_left lines.new) }
    ensures limits { IfOk result (λ block. IsValidBlock (block_value block)) }
    ensures typed { IfOk result (λ block. IsTypedBlock (block_value block)) }
    ensures passed { IfOk result (λ block. lines_passed lines.new
        ≡ lines_passed lines.old + length (body_lines (block_value block))) }
    ensures fault { IfErr result (λ fault. fault.cause ≢ BlockCause.Memory
        → first_fault (body_wanted (Some kind) (lines_left lines.old)) (lines_left lines.old)
        (lines_passed lines.old + 1) ≡ Some (fault.line, fault.cause)) }
{
    match kind {
        Kind::Located => Ok(Block::Located(read_located(alloc, lines)?)),
        Kind::NoFit => Ok(Block::NoFit(read_cover(alloc, lines)?)),
        Kind::Few => Ok(Block::Few),
        Kind::Many => Ok(Block::Many),
        Kind::Budget => Ok(Block::Budget),
        Kind::NearLimit => Ok(Block::NearLimit),
    }
}

// What a certificate says of a located event.
fn read_located(alloc: Global, lines: &mut Lines) -> Result<LocatedBlock, BlockFault>
    ensures value { IfOk result (λ event.
        lines_left lines.old ≡ located_lines (located_value event) ++ lines_left lines.new) }
    ensures limits { IfOk result (λ event. IsValidLocated (located_value event)) }
    ensures typed { IfOk result (λ event. IsTypedLocated (located_value event)) }
    ensures passed { IfOk result (λ event. lines_passed lines.new
        ≡ lines_passed lines.old + length (located_lines (located_value event))) }
    ensures fault { IfErr result (λ fault. fault.cause ≢ BlockCause.Memory
        → first_fault (located_wanted (lines_left lines.old)) (lines_left lines.old)
        (lines_passed lines.old + 1) ≡ Some (fault.line, fault.cause)) }
{
    let (hyp, score) = read_best(lines)?;
    let near = read_near(alloc, lines)?;
    let cover = read_cover(alloc, lines)?;
    Ok(LocatedBlock {
        hyp,
        score,
        near,
        cover,
    })
}

// The near nodes, after their count.
fn read_near(alloc: Global, lines: &mut Lines) -> Result<Vec<(u32, u64)>, BlockFault>
    ensures value { IfOk result (λ near.
        lines_left lines.old ≡ near_lines near.items ++ lines_left lines.new) }
    ensures limits { IfOk result (λ near. length near.items ≤ 100000) }
    ensures typed { IfOk result (λ near. AreTypedNear near.items) }
    ensures passed { IfOk result (λ near. lines_passed lines.new
        ≡ lines_passed lines.old + (length near.items + 1)) }
    ensures fault { IfErr result (λ fault. fault.cause ≢ BlockCause.Memory
        → first_fault (near_wanted (lines_left lines.old)) (lines_left lines.old)
        (lines_passed lines.old + 1) ≡ Some (fault.line, fault.cause)) }
{
    let count = read_near_count(lines)?;
    read_entries(alloc, lines, count)
}

// The boxes of a cover, after their count.
fn read_cover(alloc: Global, lines: &mut Lines) -> Result<Vec<BoxBound>, BlockFault>
    ensures value { IfOk result (λ boxes.
        lines_left lines.old ≡ cover_lines boxes.items ++ lines_left lines.new) }
    ensures limits { IfOk result (λ boxes. length boxes.items ≤ 2000000) }
    ensures typed { IfOk result (λ boxes. AreTypedBoxes boxes.items) }
    ensures passed { IfOk result (λ boxes. lines_passed lines.new
        ≡ lines_passed lines.old + (length boxes.items + 1)) }
    ensures fault { IfErr result (λ fault. fault.cause ≢ BlockCause.Memory
        → first_fault (cover_wanted (lines_left lines.old)) (lines_left lines.old)
        (lines_passed lines.old + 1) ≡ Some (fault.line, fault.cause)) }
{
    let count = read_box_count(lines)?;
    read_boxes(alloc, lines, count)
}

// So many near nodes.
fn read_entries(
    alloc: Global,
    lines: &mut Lines,
    count: usize,
) -> Result<Vec<(u32, u64)>, BlockFault>
    ensures value { IfOk result (λ near. lines_left lines.old
        ≡ map (numbers_line Entry) (map entry_numbers near.items) ++ lines_left lines.new) }
    ensures count { IfOk result (λ near. length near.items ≡ count) }
    ensures typed { IfOk result (λ near. AreTypedNear near.items) }
    ensures passed { IfOk result (λ near. lines_passed lines.new
        ≡ lines_passed lines.old + length near.items) }
    ensures fault { IfErr result (λ fault. fault.cause ≢ BlockCause.Memory
        → first_fault (replicate count (Numbered Entry)) (lines_left lines.old)
        (lines_passed lines.old + 1) ≡ Some (fault.line, fault.cause)) }
{
    let Ok(mut near) = Vec::with_capacity(alloc, count) else {
        return Err(out_of_memory(lines));
    };
    for i in 0..count {
        let entry = read_entry(lines)?;
        match near.push(entry) {
            Ok(()) => {}
            Err(_) => return Err(out_of_memory(lines)),
        }
    }
    Ok(near)
}

// So many boxes.
fn read_boxes(alloc: Global, lines: &mut Lines, count: usize) -> Result<Vec<BoxBound>, BlockFault>
    ensures value { IfOk result (λ boxes. lines_left lines.old
        ≡ map (numbers_line Area) (map box_numbers boxes.items) ++ lines_left lines.new) }
    ensures count { IfOk result (λ boxes. length boxes.items ≡ count) }
    ensures typed { IfOk result (λ boxes. AreTypedBoxes boxes.items) }
    ensures passed { IfOk result (λ boxes. lines_passed lines.new
        ≡ lines_passed lines.old + length boxes.items) }
    ensures fault { IfErr result (λ fault. fault.cause ≢ BlockCause.Memory
        → first_fault (replicate count (Numbered Area)) (lines_left lines.old)
        (lines_passed lines.old + 1) ≡ Some (fault.line, fault.cause)) }
{
    let Ok(mut boxes) = Vec::with_capacity(alloc, count) else {
        return Err(out_of_memory(lines));
    };
    for i in 0..count {
        let item = read_box(lines)?;
        match boxes.push(item) {
            Ok(()) => {}
            Err(_) => return Err(out_of_memory(lines)),
        }
    }
    Ok(boxes)
}

// Running out of memory, at the last line that was read.
fn out_of_memory(lines: &Lines) -> BlockFault
    ensures { result.cause ≡ BlockCause.Memory }
{
    BlockFault {
        line: lines.passed(),
        cause: BlockCause::Memory,
    }
}
