//! A header and its reading.
ghost use Rattle.std.specs.Prelude.{◌≡◌, ◌≤◌, Some, None, length, IfOk, IfErr};
ghost use Rattle.grid_header.specs.Causes.{cause_of};
ghost use Rattle.grid_header.specs.Reading.{header_of, IsReading, IsValidHeader};

use crate::numbers::Numbers;
use crate::words::header_words;
use thiserror::Error;

/// Where a time grid lies, and the place of its source.
///
/// The grid has `x`, `y` and `z` nodes on its axes, of which the first lies at `ox`, `oy` and `oz`, and `dx`, `dy` and `dz` part its
/// nodes. The source lies at `sx`, `sy` and `sz`. Lengths are in millimetres. The spacing of an axis with one node has its limits and
/// is used nowhere.
#[derive(Clone, Copy, Debug, PartialEq, Eq)]
pub struct Header {
    pub x: u32,
    pub y: u32,
    pub z: u32,
    pub ox: i64,
    pub oy: i64,
    pub oz: i64,
    pub dx: i64,
    pub dy: i64,
    pub dz: i64,
    pub sx: i64,
    pub sy: i64,
    pub sz: i64,
}

/// Why a header is refused, in the order in which the causes are tested.
#[derive(Clone, Copy, Debug, PartialEq, Eq, Error)]
pub enum HeaderError {
    /// There are fewer than two lines, or one of the first two passes 4096 bytes, or the first has fewer than 10 words or the second
    /// fewer than 4.
    #[error("not the lines of a header")]
    Shape,
    /// The grid isn't of times: word 10 of the first line isn't `TIME`.
    #[error("not a grid of times")]
    Kind,
    /// The body isn't of whole microseconds: word 11 of the first line is absent or isn't `USEC32`.
    #[error("not a body of whole microseconds")]
    FloatBody,
    /// A number word has no reading. The three counts are whole numbers, the others decimals.
    #[error("a word that is no number")]
    Number,
    /// A count isn't 1 to 4096, or the nodes pass 16,000,000, or a spacing isn't 1 to 10^9 mm, or a coordinate passes 10^10 mm in
    /// size.
    #[error("a number past its limit")]
    Limit,
}

/// Reads a header of at most 65,536 bytes. A refusal names the first cause that holds of the whole header.
///
/// An answer has 1 to 4096 nodes on each axis and at most 16,000,000 in all, spacings of 1 to 10^9 mm, and coordinates of at most
/// 10^10 mm in size. These limits are this project's own.
pub fn read_header(bytes: &[u8]) -> Result<Header, HeaderError>
    requires { length bytes.now ≤ 65536 }
    ensures value { IfOk result (IsReading bytes.now) }
    ensures limits { IfOk result IsValidHeader }
    ensures fault { IfErr result (λ cause. cause_of bytes.now ≡ Some cause) }
{
    read_fields(bytes)
}

// The fields of a header without a fault, or its first cause.
#[tactic(auto, unfolding(crate::specs::Causes::cause_of))]
fn read_fields(bytes: &[u8]) -> Result<Header, HeaderError>
    requires { length bytes.now ≤ 65536 }
    ensures good { IfOk result (λ _. cause_of bytes.now ≡ None) }
    ensures fields { IfOk result (λ header. header ≡ header_of bytes.now) }
    ensures limits { IfOk result IsValidHeader }
    ensures fault { IfErr result (λ cause. cause_of bytes.now ≡ Some cause) }
{
    let words = header_words(bytes).ok_or(HeaderError::Shape)?;
    if words.grid.at(9) != b"TIME".as_slice() {
        return Err(HeaderError::Kind);
    }
    if words.grid.at(10) != b"USEC32".as_slice() {
        return Err(HeaderError::FloatBody);
    }
    let numbers = Numbers::read(&words).ok_or(HeaderError::Number)?;
    numbers.header().ok_or(HeaderError::Limit)
}
