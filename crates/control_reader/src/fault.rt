//! Why a control file has no reading.
use thiserror::Error;

/// A statement that every control file needs.
#[derive(Clone, Copy, Debug, PartialEq, Eq)]
pub enum Keyword {
    /// `LOCFILES`
    Locfiles,
    /// `LOCGRID`
    Locgrid,
    /// `LOCMETH`
    Locmeth,
    /// `LOCGAU`
    Locgau,
}

/// What is wrong with a line, or with the whole control file.
///
/// In one line `LongLine` is tested first, then `NestedInclude` or `NotYet`, then `Repeated`, then `Fields`, then the words from left
/// to right, and for an `INCLUDE` line `Limit` last. `Missing` is tested after all lines.
#[derive(Clone, Copy, Debug, PartialEq, Eq, Error)]
pub enum ControlCause {
    /// The line has more than 4096 bytes, whatever kind of line it is.
    #[error("a line of more than 4096 bytes")]
    LongLine,
    /// An earlier statement has the keyword, which may stand once.
    #[error("a repeated statement")]
    Repeated,
    /// Fewer words follow than the statement needs.
    #[error("too few words")]
    Fields,
    /// A station or phase is no name of 1 to 64 bytes from 33 to 126, or a file no name of 1 to 255 of them, or the name of the phase file
    /// holds `*`, `?` or `[`.
    #[error("no name")]
    Name,
    /// A decimal or a whole number has no reading.
    #[error("no number")]
    Number,
    /// The method isn't `EDT`.
    #[error("a method other than EDT")]
    Method,
    /// The file type isn't `NLLOC_OBS`, or the search type isn't `OCT`, `GRID` or `MET`, or the kernel isn't `GAUSS`, `TRIANGLE` or `COUNT`.
    #[error("an unknown type")]
    FileType,
    /// A number is out of its range, or the nodes of the search grid pass 2,000,000, or it is the seventeenth `INCLUDE` line.
    #[error("past a limit")]
    Limit,
    /// The statement isn't read yet, whatever its words are.
    #[error("not read yet")]
    NotYet,
    /// An included file has an `INCLUDE` line.
    #[error("an INCLUDE line in an included file")]
    NestedInclude,
    /// No line has this keyword, and every control file needs it.
    #[error("a missing statement")]
    Missing(Keyword),
    /// Memory is wanting.
    #[error("out of memory")]
    Memory,
}

/// A fault of a control file: that of its first faulty line in reading order, or a missing statement, or running out of memory.
#[derive(Clone, Copy, Debug, PartialEq, Eq, Error)]
#[error("file {file}, line {line}: {cause}")]
pub struct ControlFault {
    /// 0 for the main file, and k for the file of the k-th `INCLUDE` line.
    pub file: u32,
    /// The number of the line in its file, counted from 1; 0 for a missing statement.
    pub line: u32,
    /// What is wrong with it.
    pub cause: ControlCause,
}
