//! Room for the numbers that bounds are made of.

ghost use Rattle.std.specs.Prelude.{◌≡◌};
ghost use Rattle.edt_score.specs.PairTerms.{pairs_of};
ghost use Rattle.edt_score.specs.Problem.{AreSoundPicks};

use edt_score::{KeptPairs, ProblemPick};
use std::alloc::{AllocError, Global};
use std::marker::Model;

/// The most picks of a problem.
const MOST_PICKS: usize = 256;

/// A span for each pick of any valid problem, and its pairs. It is seen as the pairs that are kept.
#[derive(Drop)]
pub(crate) struct BoundRoom {
    pub(crate) spans: Vec<(u32, u32)>,
    pub(crate) pairs: KeptPairs,
}

impl Model for BoundRoom {
    ghost use Rattle.std.specs.Prelude.{◌≡◌, List, length};
    ghost use Rattle.edt_score.specs.PairTerms.{PairTerms};

    ghost Value = { List PairTerms };

    ghost view = { λ room. room.pairs };

    ghost invariant = { λ room. length room.spans.items ≡ 256 };
}

impl BoundRoom {
    /// Room for any valid problem. Running out of memory is the only refusal.
    pub(crate) fn new(alloc: Global) -> Result<BoundRoom, AllocError> {
        Ok(BoundRoom {
            spans: vec![in alloc; (0, 0); MOST_PICKS]?,
            pairs: KeptPairs::new(alloc)?,
        })
    }

    /// Keeps the pairs of these picks.
    pub(crate) fn keep(&mut self, picks: &[ProblemPick])
        requires { AreSoundPicks picks.now }
        ensures { self.new ≡ pairs_of picks.now }
    {
        self.pairs.keep(picks);
    }
}
