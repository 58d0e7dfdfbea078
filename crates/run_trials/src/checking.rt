//! Whole runs of the checker over shelves and sinks in memory: the lines of a check, refusals, and calls and writes that fail.

mod calls;
mod expecting;
mod refusals;
mod scarce;
mod verdicts;
