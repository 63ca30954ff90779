//! Tests of the first pages of the program's crates, and of its calls on a disk in memory. What the program does on the machine's
//! files is told by the stories of `tools/story_data`.
#![tactic(auto)]

#[cfg(test)]
mod front_tests;
#[cfg(test)]
mod memory;
#[cfg(test)]
mod perform_tests;
