//! The reading of a report: the certificates of its events.
pub mod fault;
pub mod line_causes;
pub mod reading;
