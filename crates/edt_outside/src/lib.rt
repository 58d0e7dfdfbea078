//! What lies outside: files that are read and outputs that are written.
//!
//! A [`Shelf`] holds files under names, and a [`Sink`] takes bytes. [`read_all`] reads a whole file
//! and [`put_all`] writes a whole piece, over any of them. [`MemoryShelf`] and [`MemorySink`] keep
//! everything in memory and fail where they are told to; [`DirShelf`] and [`StdSink`] adapt real
//! files, standard output and standard error.
#![tactic(auto)]

mod counts;
mod dir_shelf;
mod faults;
mod laws;
mod memory_shelf;
mod memory_sink;
mod names;
mod reading;
mod shelves;
mod sinks;
mod std_sink;
mod writing;

pub use dir_shelf::DirShelf;
pub use faults::{Failed, HasFault, OpenFault, PutFailed, ReadFault};
pub use laws::rises_exactly;
pub use memory_shelf::{MemoryShelf, names_differ};
pub use memory_sink::MemorySink;
pub use names::Name;
pub use reading::read_all;
pub use shelves::Shelf;
pub use sinks::Sink;
pub use std_sink::StdSink;
pub use writing::put_all;
