//! The library's own calls on a sample state, each printed as a line.
//!
//! Run with a growth of memory refused, a call that wants it answers so, and what was lent to it stays.
#![tactic(auto)]

mod call;
mod clones;
mod plans;
mod program;
mod records;
mod sample;
mod shown;
mod stop;

use std::process::ExitCode;

/// Ends with status 0 however the calls answer, and with 3 where printing fails.
fn main(rt: HostRuntime) -> ExitCode {
    match program::run(&rt) {
        Ok(()) => ExitCode::from(0),
        Err(_) => ExitCode::from(3),
    }
}
