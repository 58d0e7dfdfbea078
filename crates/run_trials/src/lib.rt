//! Trials of whole runs of both programs over a shelf and sinks in memory.
#![tactic(auto)]

#[cfg(test)]
mod checking;
#[cfg(test)]
mod locating;
#[cfg(test)]
mod running;
#[cfg(test)]
mod sample;
#[cfg(test)]
mod scarce_shelf;
