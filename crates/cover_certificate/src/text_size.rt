//! How many bytes the text of a block has, so that its buffer is made once.
ghost use Rattle.std.specs.Prelude.{◌≤◌};

use crate::block::BlockView;
use node_boxes::BoxBound;

// Room for the lines that are neither of a near node nor of a box.
const FRAME: usize = 128;

/// How many bytes to reserve for the text of a block: a few more than it has.
pub(crate) fn block_size(block: &BlockView) -> usize {
    match block {
        BlockView::Located(event) => FRAME
            .saturating_add(near_size(event.near))
            .saturating_add(cover_size(event.cover)),
        BlockView::NoFit(cover) => FRAME.saturating_add(cover_size(cover)),
        BlockView::Few | BlockView::Many | BlockView::Budget | BlockView::NearLimit => FRAME,
    }
}

// How many bytes the lines of near nodes have.
fn near_size(near: &[(u32, u64)]) -> usize {
    let mut size: usize = 0;
    for entry in near {
        size = size.saturating_add(number_size(u64::from(entry.0)) + number_size(entry.1));
    }
    size
}

// How many bytes the lines of boxes have.
fn cover_size(cover: &[BoxBound]) -> usize {
    let mut size: usize = 0;
    for item in cover {
        size = size.saturating_add(box_size(item));
    }
    size
}

// How many bytes the line of a box has.
fn box_size(item: &BoxBound) -> usize
    ensures { result ≤ 147 }
{
    let area = &item.area;
    let x = number_size(u64::from(area.x0)) + number_size(u64::from(area.x1));
    let y = number_size(u64::from(area.y0)) + number_size(u64::from(area.y1));
    let z = number_size(u64::from(area.z0)) + number_size(u64::from(area.z1));
    x + y + z + number_size(item.bound)
}

// How many bytes a number has, with the blank or the line feed after it.
fn number_size(number: u64) -> usize
    ensures { result ≤ 21 }
{
    match number.checked_ilog10() {
        Some(power) => power as usize + 2,
        None => 2,
    }
}
