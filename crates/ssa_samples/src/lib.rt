//! What the tests of benches and those of sessions both need: an object of a sample schema, its bench and a file of it, a
//! source that fails, and a sink that tells when it is flushed.
#![tactic(auto)]

pub mod bench_files;
pub mod breaks;
pub mod marks;
pub mod sample;
pub mod sample_schema;
