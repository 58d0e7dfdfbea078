//! The numbers of a header, and their limits.
ghost use Rattle.std.specs.Prelude.{◌≡◌, ◌+◌, ◌*◌, ◌≤◌, nat_le, true, false, Some, None, IfNone, IfSome, map, is_some, unsigned_abs};
ghost use Rattle.std.specs.List.{list_all};
ghost use Rattle.fixed_decimal.specs.Value.{millionths_of, whole_of};
ghost use Rattle.edt_text.specs.PlacedWords.{placed_words};
ghost use Rattle.node_boxes.specs.declared.limits.TheConstants.{MOST_ON_AXIS};
ghost use Rattle.grid_header.specs.Layout.{three_from};
ghost use Rattle.grid_header.specs.Numbers.{has_numbers, is_count, are_counts, is_spacing, is_coordinate};
ghost use Rattle.grid_header.specs.Inside.Fields.{three_numbers, AreNumbersOf, are_all_within, header_with};
ghost use Rattle.grid_header.specs.Reading.{IsValidHeader};

use crate::header::Header;
use crate::words::HeaderWords;
use edt_text::PlacedWords;
use fixed_decimal::{read_millionths, read_whole};
use node_boxes::{FARTHEST_ORIGIN, MOST_ON_AXIS, WIDEST_SPACING};

// The most nodes of a time grid, which has more of them than a search grid.
const MOST_TIME_NODES: u64 = 16_000_000;

// A number for each axis.
#[derive(Clone, Copy)]
struct Triple {
    x: i64,
    y: i64,
    z: i64,
}

/// The numbers of a header, within limits or not.
#[derive(Clone, Copy)]
pub(crate) struct Numbers {
    counts: Triple,
    origin: Triple,
    spacing: Triple,
    source: Triple,
}

impl Numbers {
    /// The numbers of the words, or `None` where one has no reading.
    pub fn read(two: &HeaderWords) -> Option<Numbers>
        ensures none { IfNone result (has_numbers (placed_words two.now.grid) (placed_words two.now.source) ≡ false) }
        ensures some { IfSome result (AreNumbersOf (placed_words two.now.grid) (placed_words two.now.source)) }
    {
        Some(Numbers {
            counts: wholes(&two.grid, 0)?,
            origin: lengths(&two.grid, 3)?,
            spacing: lengths(&two.grid, 6)?,
            source: lengths(&two.source, 1)?,
        })
    }

    /// The header of the numbers, or `None` where one isn't within its limits.
    pub fn header(&self) -> Option<Header>
        ensures none { IfNone result (are_all_within self.now ≡ false) }
        ensures within { IfSome result (λ _. are_all_within self.now ≡ true) }
        ensures some { IfSome result (λ header. (header ≡ header_with self.now) × IsValidHeader header) }
    {
        if !are_counts(&self.counts) || !are_coordinates(&self.origin) {
            return None;
        }
        if !are_spacings(&self.spacing) || !are_coordinates(&self.source) {
            return None;
        }
        Some(Header {
            x: self.counts.x as u32,
            y: self.counts.y as u32,
            z: self.counts.z as u32,
            ox: self.origin.x,
            oy: self.origin.y,
            oz: self.origin.z,
            dx: self.spacing.x,
            dy: self.spacing.y,
            dz: self.spacing.z,
            sx: self.source.x,
            sy: self.source.y,
            sz: self.source.z,
        })
    }
}

// The three whole numbers from place `k` on, or `None` where one has no reading.
fn wholes(line: &PlacedWords, k: usize) -> Option<Triple>
    requires { k ≤ 12 }
    ensures none { IfNone result (list_all is_some (map whole_of (three_from k (placed_words line.now))) ≡ false) }
    ensures some { IfSome result (λ n. map whole_of (three_from k (placed_words line.now)) ≡ three_numbers n) }
{
    Some(Triple {
        x: read_whole(line.at(k)).ok()?,
        y: read_whole(line.at(k + 1)).ok()?,
        z: read_whole(line.at(k + 2)).ok()?,
    })
}

// The three lengths from place `k` on, or `None` where one has no reading.
fn lengths(line: &PlacedWords, k: usize) -> Option<Triple>
    requires { k ≤ 12 }
    ensures none { IfNone result (list_all is_some (map millionths_of (three_from k (placed_words line.now))) ≡ false) }
    ensures some { IfSome result (λ n. map millionths_of (three_from k (placed_words line.now)) ≡ three_numbers n) }
{
    Some(Triple {
        x: read_millionths(line.at(k)).ok()?,
        y: read_millionths(line.at(k + 1)).ok()?,
        z: read_millionths(line.at(k + 2)).ok()?,
    })
}

fn are_counts(n: &Triple) -> bool
    ensures { result ≡ are_counts (three_numbers n.now) }
{
    are_axis_counts(n) && are_few(n.x.unsigned_abs(), n.y.unsigned_abs(), n.z.unsigned_abs())
}

fn are_axis_counts(n: &Triple) -> bool
    ensures { result ≡ list_all is_count (three_numbers n.now) }
{
    is_count(n.x) && is_count(n.y) && is_count(n.z)
}

// Whether so many nodes on the axes make no more than a header may have.
fn are_few(x: u64, y: u64, z: u64) -> bool
    requires x_few { x ≤ MOST_ON_AXIS }
    requires y_few { y ≤ MOST_ON_AXIS }
    requires z_few { z ≤ MOST_ON_AXIS }
    ensures { result ≡ nat_le (x * y * z) 16000000 }
{
    x * y * z <= MOST_TIME_NODES
}

fn are_spacings(n: &Triple) -> bool
    ensures { result ≡ list_all is_spacing (three_numbers n.now) }
{
    is_spacing(n.x) && is_spacing(n.y) && is_spacing(n.z)
}

fn are_coordinates(n: &Triple) -> bool
    ensures { result ≡ list_all is_coordinate (three_numbers n.now) }
{
    is_coordinate(n.x) && is_coordinate(n.y) && is_coordinate(n.z)
}

fn is_count(n: i64) -> bool
    ensures { result ≡ is_count (Some n) }
{
    (1..=MOST_ON_AXIS as i64).contains(&n)
}

fn is_spacing(n: i64) -> bool
    ensures { result ≡ is_spacing (Some n) }
{
    (1..=WIDEST_SPACING as i64).contains(&n)
}

fn is_coordinate(n: i64) -> bool
    ensures { result ≡ is_coordinate (Some n) }
{
    n.unsigned_abs() <= FARTHEST_ORIGIN
}
