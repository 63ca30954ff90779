//! Tests of sessions over devices that falter, of when a reply is flushed, and of the calls that the program does not make.
//! Plain sessions, and those at limits, are stories of `examples` and `tools/story_data`.
#![tactic(auto)]

#[cfg(test)]
mod falters;
#[cfg(test)]
mod file_tests;
#[cfg(test)]
mod front_tests;
#[cfg(test)]
mod session_tests;
