//! The run of the program, and what it prints.
ghost use Rattle.ssa_calls.specs.Samples.{IsSample};

use crate::call::{CALLS, Call};
use crate::sample::{Sample, read_sample};
use crate::shown::{refusal_text, state_text};
use crate::stop::Stop;
use std::alloc::Global;
use std::io;
use std::io::Write;

// What stands on the line of a call that wants memory.
const NO_MEMORY: &str = "no memory";

// What stands on a line where a text of the sample is wrong.
const NOT_AS_MEANT: &str = "not as meant";

fn print_line<R: Print>(rt: &R, name: &str, text: &str) -> io::Result<()> {
    let mut out = io::writer(rt);
    out.write_all(name.as_bytes())?;
    out.write_all(b": ")?;
    out.write_all(text.as_bytes())?;
    out.write_all(b"\n")?;
    out.flush()
}

// What a call gives, or its refusal, as a text.
fn told(alloc: Global, sample: &Sample, call: Call) -> Result<String, Stop>
    requires { IsSample sample.now }
{
    match call.answer(alloc, sample) {
        Err(Stop::Refused(refusal)) => refusal_text(alloc, &refusal),
        answer => answer,
    }
}

// The state as it is after a call that wanted memory.
fn print_state<R: AllocGlobal + Print>(rt: &R, sample: &Sample) -> io::Result<()> {
    let name = Call::State.name();
    match state_text(rt.alloc(), &sample.state) {
        Ok(text) => print_line(rt, name, text.as_str()),
        Err(_) => print_line(rt, name, NO_MEMORY),
    }
}

// Prints the line of a call, and where it wants memory the state once more.
fn run_call<R: AllocGlobal + Print>(rt: &R, sample: &Sample, call: Call) -> io::Result<()>
    requires { IsSample sample.now }
{
    match told(rt.alloc(), sample, call) {
        Ok(text) => print_line(rt, call.name(), text.as_str()),
        Err(Stop::NoMemory) => {
            print_line(rt, call.name(), NO_MEMORY)?;
            print_state(rt, sample)
        }
        Err(_) => print_line(rt, call.name(), NOT_AS_MEANT),
    }
}

fn run_calls<R: AllocGlobal + Print>(rt: &R, sample: &Sample) -> io::Result<()>
    requires { IsSample sample.now }
{
    for call in CALLS {
        run_call(rt, sample, call)?;
    }
    Ok(())
}

/// Makes the sample, calls each call on it, and prints a line for each.
pub fn run<R: AllocGlobal + Print>(rt: &R) -> io::Result<()> {
    match read_sample(rt.alloc()) {
        Ok(sample) => run_calls(rt, &sample),
        Err(Stop::NoMemory) => print_line(rt, "set-up", NO_MEMORY),
        Err(_) => print_line(rt, "set-up", NOT_AS_MEANT),
    }
}
