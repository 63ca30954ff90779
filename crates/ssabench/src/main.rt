//! The program: benches in files, one subcommand a call, or a session over standard input and output.
#![tactic(auto)]

mod program;

use program::run;
use std::process::ExitCode;

fn main(rt: HostRuntime) -> ExitCode {
    ExitCode::from(run(&rt))
}
