//! Whole runs of the locator over shelves and sinks in memory: texts, refusals, and calls and writes that fail.

mod demo;
mod expecting;
mod locate_calls;
mod locate_refusals;
mod locate_texts;
mod many_nodes;
mod network;
mod scarce;
mod solve;
mod words;
