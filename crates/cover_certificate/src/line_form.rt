//! The lines of a certificate that hold numbers.
ghost use Rattle.std.specs.Prelude.{◌≡◌};
ghost use Rattle.cover_certificate.specs.LineForms.{head_of, slots_of};

/// A line that holds numbers.
#[derive(Clone, Copy)]
pub(crate) enum LineForm {
    /// The node of the hypocentre and its score.
    Best,
    /// How many near nodes follow.
    Near,
    /// A near node and its score.
    Entry,
    /// How many boxes follow.
    Cover,
    /// The ends of a box on its three axes, and its bound.
    Area,
}

/// What a number of a line may be: from `least` to `most`, else it is no number of the line, and at
/// most `limit`.
#[derive(Clone, Copy)]
pub(crate) struct Slot {
    pub least: u64,
    pub most: u64,
    pub limit: u64,
}

// A node or an end of a range.
const NODE: Slot = Slot {
    least: 0,
    most: 4_294_967_295,
    limit: 4_294_967_295,
};

// A score or a bound.
const SCORE: Slot = Slot {
    least: 0,
    most: 18_446_744_073_709_551_615,
    limit: 18_446_744_073_709_551_615,
};

// The score of the hypocentre.
const BEST_SCORE: Slot = Slot {
    least: 1,
    most: 18_446_744_073_709_551_615,
    limit: 18_446_744_073_709_551_615,
};

// How many near nodes there are.
const NEAR_COUNT: Slot = Slot {
    least: 0,
    most: 4_294_967_295,
    limit: 100_000,
};

// How many boxes there are.
const BOX_COUNT: Slot = Slot {
    least: 0,
    most: 4_294_967_295,
    limit: 2_000_000,
};

impl LineForm {
    /// What stands before the numbers.
    pub(crate) fn head(self) -> &'static [u8]
        ensures { result.now ≡ head_of self }
    {
        match self {
            LineForm::Best => b"BEST ",
            LineForm::Near => b"NEAR ",
            LineForm::Cover => b"COVER ",
            LineForm::Entry | LineForm::Area => b"",
        }
    }

    /// What the numbers may be.
    pub(crate) fn slots(self) -> &'static [Slot]
        ensures { result.now ≡ slots_of self }
    {
        match self {
            LineForm::Best => &[NODE, BEST_SCORE],
            LineForm::Near => &[NEAR_COUNT],
            LineForm::Entry => &[NODE, SCORE],
            LineForm::Cover => &[BOX_COUNT],
            LineForm::Area => &[NODE, NODE, NODE, NODE, NODE, NODE, SCORE],
        }
    }
}
