//! Tests of values, schemas, sets of paths, bodies and journals of records.
#![tactic(auto)]

#[cfg(test)]
mod body_fault_tests;
#[cfg(test)]
mod body_tests;
#[cfg(test)]
mod device_tests;
#[cfg(test)]
mod element_tests;
#[cfg(test)]
mod fields_tests;
#[cfg(test)]
mod front_tests;
#[cfg(test)]
mod given_up_tests;
#[cfg(test)]
mod journal_tests;
#[cfg(test)]
mod json_tests;
#[cfg(test)]
mod kind_tests;
#[cfg(test)]
mod merge_tests;
#[cfg(test)]
mod name_tests;
#[cfg(test)]
mod part_tests;
#[cfg(test)]
mod questions;
#[cfg(test)]
mod samples;
#[cfg(test)]
mod schema_tests;
#[cfg(test)]
mod set_tests;
#[cfg(test)]
mod sorted_set_tests;
#[cfg(test)]
mod support;
#[cfg(test)]
mod text_tests;
