//! Trials of picks, events and blocks over files in memory.
#![tactic(auto)]

#[cfg(test)]
mod assemblies;
#[cfg(test)]
mod blocks;
#[cfg(test)]
mod sample;
#[cfg(test)]
mod used_picks;
