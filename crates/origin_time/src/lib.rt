//! The origin time of an event, and how far its residuals are from it.
//!
//! At a hypocentre each pick gives a time of origin: its observed time less its travel time, with the pick's weight. The origin time is
//! their least weighted median: it makes the weighted sum of distances least, and no smaller whole number does. What the residuals then
//! amount to is their root mean square, rounded up. Both rules are this project's own.
#![tactic(auto)]

mod laws;
mod mean_square;
mod median;
#[cfg(test)]
mod tests;

pub use laws::origin_law;
pub use mean_square::rms;
pub use median::{OriginError, origin};
