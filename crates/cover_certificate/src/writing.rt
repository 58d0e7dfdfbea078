//! A block, written as the text of its certificate.
ghost use Rattle.std.specs.Prelude.{◌≡◌, ◌++◌, [], ◌∷◌, map, OnOk, OnErr};
ghost use Rattle.std.specs.List.{flat_map};
ghost use Rattle.cover_certificate.specs.declared.line_form.LineForm.TheVariants.{Entry, Area};
ghost use Rattle.cover_certificate.specs.Blocks.{block_value, located_view_value, view_value};
ghost use Rattle.cover_certificate.specs.BlockLines.{block_text, body_lines, box_numbers, cover_lines, ended_line};
ghost use Rattle.cover_certificate.specs.BlockLines.{entry_numbers, located_lines, near_lines, numbers_line};
ghost use Rattle.cover_certificate.specs.BlockLines.{kind_of_block, spaced, text_of_lines};
ghost use Rattle.cover_certificate.specs.Inside.Keeping.{Keeps};

use crate::block::{Block, BlockView, LocatedView};
use crate::kind::Kind;
use crate::line_form::LineForm;
use crate::text_size::block_size;
use edt_text::push_number;
use node_boxes::BoxBound;
use std::alloc::AllocError;

/// Appends the text of a block to `out`. When out of memory `out` stays unchanged.
///
/// Numbers are shortest decimals, words are parted by one blank, and each line ends with one line
/// feed. The text of a valid block is read again by `read_block`. The format is this project's own.
pub fn write_block(out: &mut Vec<u8>, block: &Block) -> Result<(), AllocError>
    ensures ok { OnOk result (out.new.items ≡ out.old.items ++ block_text (block_value block.now)) }
    ensures err { OnErr result (out.new.items ≡ out.old.items) }
{
    let view = block.view();
    reserve_block(out, 0, &view)?;
    write_view(out, &view)
}

/// Makes room in `out` for so many bytes and then the text of a block, and changes nothing else. Want
/// of memory is the only refusal.
pub fn reserve_block(out: &mut Vec<u8>, before: usize, block: &BlockView) -> Result<(), AllocError>
    ensures { out.new.items ≡ out.old.items }
{
    out.reserve(block_size(block).saturating_add(before))
}

/// Appends the text of a block whose lists are borrowed, as `write_block` does, and makes no room
/// before: `reserve_block` does. When out of memory `out` stays unchanged.
pub fn write_view(out: &mut Vec<u8>, block: &BlockView) -> Result<(), AllocError>
    ensures ok { OnOk result (out.new.items ≡ out.old.items ++ block_text (view_value block.now)) }
    ensures err { OnErr result (out.new.items ≡ out.old.items) }
{
    let start = out.len();
    let written = push_block(out, block);
    if written.is_err() {
        out.truncate(start);
    }
    written
}

// Appends the text of a block.
#[tactic(auto, unfolding(crate::specs::BlockLines::block_text))]
fn push_block(out: &mut Vec<u8>, block: &BlockView) -> Result<(), AllocError>
    ensures ok { OnOk result (out.new.items ≡ out.old.items ++ block_text (view_value block.now)) }
    ensures kept { Keeps out.old.items out.new.items }
{
    push_line(out, kind_of(block).first_line())?;
    push_body(out, block)?;
    push_line(out, b"END")
}

// The kind of a block.
fn kind_of(block: &BlockView) -> Kind
    ensures { result ≡ kind_of_block (view_value block.now) }
{
    match block {
        BlockView::Located(_) => Kind::Located,
        BlockView::NoFit(_) => Kind::NoFit,
        BlockView::Few => Kind::Few,
        BlockView::Many => Kind::Many,
        BlockView::Budget => Kind::Budget,
        BlockView::NearLimit => Kind::NearLimit,
    }
}

// Appends what stands between the first line and the last.
fn push_body(out: &mut Vec<u8>, block: &BlockView) -> Result<(), AllocError>
    ensures ok { OnOk result (out.new.items ≡ out.old.items
        ++ text_of_lines (body_lines (view_value block.now))) }
    ensures kept { Keeps out.old.items out.new.items }
{
    match block {
        BlockView::Located(event) => push_located(out, event),
        BlockView::NoFit(cover) => push_cover(out, cover),
        BlockView::Few | BlockView::Many | BlockView::Budget | BlockView::NearLimit => Ok(()),
    }
}

// Appends what a certificate says of a located event.
fn push_located(out: &mut Vec<u8>, event: &LocatedView) -> Result<(), AllocError>
    ensures ok { OnOk result (out.new.items ≡ out.old.items
        ++ text_of_lines (located_lines (located_view_value event.now))) }
    ensures kept { Keeps out.old.items out.new.items }
{
    push_numbers(out, LineForm::Best, &[u64::from(event.hyp), event.score])?;
    push_near(out, event.near)?;
    push_cover(out, event.cover)
}

// Appends the near nodes, after their count.
fn push_near(out: &mut Vec<u8>, near: &[(u32, u64)]) -> Result<(), AllocError>
    ensures ok { OnOk result (out.new.items ≡ out.old.items
        ++ text_of_lines (near_lines near.now)) }
    ensures kept { Keeps out.old.items out.new.items }
{
    push_numbers(out, LineForm::Near, &[near.len() as u64])?;
    push_entries(out, near)
}

// Appends the boxes of a cover, after their count.
fn push_cover(out: &mut Vec<u8>, cover: &[BoxBound]) -> Result<(), AllocError>
    ensures ok { OnOk result (out.new.items ≡ out.old.items
        ++ text_of_lines (cover_lines cover.now)) }
    ensures kept { Keeps out.old.items out.new.items }
{
    push_numbers(out, LineForm::Cover, &[cover.len() as u64])?;
    push_boxes(out, cover)
}

// Appends a line for each near node.
fn push_entries(out: &mut Vec<u8>, near: &[(u32, u64)]) -> Result<(), AllocError>
    ensures ok { OnOk result (out.new.items ≡ out.old.items
        ++ text_of_lines (map (numbers_line Entry) (map entry_numbers near.now))) }
    ensures kept { Keeps out.old.items out.new.items }
{
    for entry in near {
        push_numbers(out, LineForm::Entry, &[u64::from(entry.0), entry.1])?;
    }
    Ok(())
}

// Appends a line for each box.
fn push_boxes(out: &mut Vec<u8>, cover: &[BoxBound]) -> Result<(), AllocError>
    ensures ok { OnOk result (out.new.items ≡ out.old.items
        ++ text_of_lines (map (numbers_line Area) (map box_numbers cover.now))) }
    ensures kept { Keeps out.old.items out.new.items }
{
    for item in cover {
        push_box(out, item)?;
    }
    Ok(())
}

// Appends the line of a box.
fn push_box(out: &mut Vec<u8>, item: &BoxBound) -> Result<(), AllocError>
    ensures ok { OnOk result (out.new.items ≡ out.old.items
        ++ text_of_lines (numbers_line Area (box_numbers item.now) ∷ [])) }
    ensures kept { Keeps out.old.items out.new.items }
{
    let area = &item.area;
    let numbers = [
        u64::from(area.x0),
        u64::from(area.x1),
        u64::from(area.y0),
        u64::from(area.y1),
        u64::from(area.z0),
        u64::from(area.z1),
        item.bound,
    ];
    push_numbers(out, LineForm::Area, &numbers)
}

// Appends a line of numbers.
fn push_numbers(out: &mut Vec<u8>, form: LineForm, numbers: &[u64]) -> Result<(), AllocError>
    ensures ok { OnOk result (out.new.items ≡ out.old.items
        ++ text_of_lines (numbers_line form numbers.now ∷ [])) }
    ensures kept { Keeps out.old.items out.new.items }
{
    out.extend_from_slice(form.head())?;
    push_spaced(out, numbers)?;
    out.push(b'\n')?;
    Ok(())
}

// Appends numbers with one blank between each two.
fn push_spaced(out: &mut Vec<u8>, numbers: &[u64]) -> Result<(), AllocError>
    ensures ok { OnOk result (out.new.items ≡ out.old.items ++ spaced numbers.now) }
    ensures kept { Keeps out.old.items out.new.items }
{
    let [first, rest @ ..] = numbers else {
        return Ok(());
    };
    push_number(out, *first)?;
    for number in rest {
        out.push(b' ')?;
        push_number(out, *number)?;
    }
    Ok(())
}

// Appends a line of these bytes.
fn push_line(out: &mut Vec<u8>, bytes: &[u8]) -> Result<(), AllocError>
    ensures ok { OnOk result (out.new.items ≡ out.old.items
        ++ text_of_lines (ended_line bytes.now ∷ [])) }
    ensures kept { Keeps out.old.items out.new.items }
{
    out.extend_from_slice(bytes)?;
    out.push(b'\n')?;
    Ok(())
}
