//! What a certificate says, and why one isn't read.
ghost use Rattle.std.specs.Prelude.{◌≡◌};
ghost use Rattle.cover_certificate.specs.Blocks.{block_value, view_value};

use node_boxes::BoxBound;
use thiserror::Error;

/// How many near nodes a certificate may have.
pub const MOST_NEAR: usize = 100_000;

/// How many boxes a certificate may have.
pub const MOST_BOXES: usize = 2_000_000;

/// What a certificate says of an event.
#[derive(Drop)]
pub enum Block {
    /// The event is located.
    Located(LocatedBlock),
    /// No node scores: the boxes of a cover, each with a bound on its scores.
    NoFit(Vec<BoxBound>),
    /// Too few picks are used.
    Few,
    /// Too many picks are used.
    Many,
    /// More boxes would be met than the budget allows.
    Budget,
    /// Too many nodes score near the best.
    NearLimit,
}

impl Block {
    /// The block with its lists borrowed.
    pub fn view(&self) -> BlockView<'_>
        ensures { view_value result ≡ block_value self.now }
    {
        match self {
            Block::Located(event) => BlockView::Located(LocatedView {
                hyp: event.hyp,
                score: event.score,
                near: &event.near,
                cover: &event.cover,
            }),
            Block::NoFit(cover) => BlockView::NoFit(cover),
            Block::Few => BlockView::Few,
            Block::Many => BlockView::Many,
            Block::Budget => BlockView::Budget,
            Block::NearLimit => BlockView::NearLimit,
        }
    }
}

/// What a certificate says of a located event.
#[derive(Drop)]
pub struct LocatedBlock {
    /// The node of the hypocentre.
    pub hyp: u32,
    /// Its score, at least 1 in a valid block.
    pub score: u64,
    /// The near nodes, each with its score: at most `MOST_NEAR` in a valid block.
    pub near: Vec<(u32, u64)>,
    /// The boxes of the cover, each with a bound on its scores: at most `MOST_BOXES` in a valid block.
    pub cover: Vec<BoxBound>,
}

/// A block whose lists are borrowed, for writing one without copying them.
#[derive(Clone, Copy)]
pub enum BlockView<'a> {
    /// The event is located.
    Located(LocatedView<'a>),
    /// No node scores: the boxes of a cover, each with a bound on its scores.
    NoFit(&'a [BoxBound]),
    /// Too few picks are used.
    Few,
    /// Too many picks are used.
    Many,
    /// More boxes would be met than the budget allows.
    Budget,
    /// Too many nodes score near the best.
    NearLimit,
}

/// What a certificate says of a located event, with borrowed lists.
#[derive(Clone, Copy)]
pub struct LocatedView<'a> {
    /// The node of the hypocentre.
    pub hyp: u32,
    /// Its score.
    pub score: u64,
    /// The near nodes, each with its score.
    pub near: &'a [(u32, u64)],
    /// The boxes of the cover, each with a bound on its scores.
    pub cover: &'a [BoxBound],
}

/// What is wrong with a line of a certificate, in the order in which the causes of one line come.
#[derive(Clone, Copy, Debug, PartialEq, Eq, Error)]
pub enum BlockCause {
    /// The line is missing, or no line feed ends it, or its words aren't parted by single blanks, or
    /// their number or a fixed word is wrong.
    #[error("not a line of a certificate")]
    Form,
    /// A number isn't a shortest decimal, or passes its type, or the score of `BEST` is 0.
    #[error("not a number of a certificate")]
    Number,
    /// There are more near nodes than `MOST_NEAR`, or more boxes than `MOST_BOXES`.
    #[error("a count past its limit")]
    Limit,
    /// Memory is wanting.
    #[error("out of memory")]
    Memory,
}

/// The first faulty line of a certificate and its first cause, or running out of memory.
#[derive(Clone, Copy, Debug, PartialEq, Eq, Error)]
#[error("line {line}: {cause}")]
pub struct BlockFault {
    /// The number of the line, counted from 1. That of a missing line is the number of the last line
    /// plus 1.
    pub line: u32,
    /// What is wrong with it.
    pub cause: BlockCause,
}
