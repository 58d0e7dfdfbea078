//! Trials of the readers of control files, phase files, grid headers and time grids, and of the adapters to the outside.
#![tactic(auto)]

#[cfg(test)]
mod control_files;
#[cfg(test)]
mod endless;
#[cfg(test)]
mod files_and_outputs;
#[cfg(test)]
mod grid_headers;
#[cfg(test)]
mod phase_files;
#[cfg(test)]
mod time_grids;
