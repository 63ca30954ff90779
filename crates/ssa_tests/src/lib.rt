//! Tests of benches by their calls, of the files that benches are taken from and saved in and their lines, and the
//! examples on the first pages of the crates below: of what no contract says.
#![tactic(auto)]

#[cfg(test)]
mod bench_tests;
#[cfg(test)]
mod bodies;
#[cfg(test)]
mod commands;
#[cfg(test)]
mod front_tests;
#[cfg(test)]
mod line_tests;
#[cfg(test)]
mod loading_tests;
#[cfg(test)]
mod over_steps_tests;
#[cfg(test)]
mod record_size_tests;
#[cfg(test)]
mod saving_tests;
#[cfg(test)]
mod state_file_tests;
