//! Scores, searches, lanes, certificates and their checks, at worked values and against scans of all nodes.
mod certificates;
mod checks;
mod demos;
mod lane_steps;
mod lanes;
mod made_problems;
mod samples;
mod scores;
mod searches;
mod tables;
