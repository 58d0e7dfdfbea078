//! The limits that several readers share.

/// The most bytes of a line of a control file, of a phase file, and of the first two lines of a header.
pub const LONGEST_LINE: usize = 4096;
