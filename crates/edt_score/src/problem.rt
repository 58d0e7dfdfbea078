//! The picks of an event, as the score needs them.
/// A used pick of an event.
#[derive(Clone, Copy, Debug)]
pub struct ProblemPick {
    /// The observed time, in microseconds.
    pub time: i64,
    /// The prior weight in thousandths, 1 to 2000.
    pub weight: u32,
    /// The variance in square microseconds, at most 2*10^16.
    pub variance: u64,
    /// The row of the field with the travel times of the pick's station and phase.
    pub row: u32,
}

/// The used picks of an event, in the order of its file.
///
/// A problem is valid for a field where it has 2 to 256 picks, any two of their times differ by at
/// most 2,200,000,000,000 microseconds, weights and variances are within their limits, and the rows
/// are rows of the field.
#[derive(Drop)]
pub struct Problem {
    pub picks: Vec<ProblemPick>,
}
