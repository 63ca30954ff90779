//! What a bench answers to a subcommand.
ghost use Rattle.std.specs.Prelude.{◌≡◌, IfOk, OnErr, false};
ghost use Rattle.ssa_model.specs.definitions.Subcommands.{asked_answer};
ghost use Rattle.ssa_json.specs.Readings.{readings};
ghost use Rattle.ssa_answers.specs.Asked.{asked_view};
ghost use Rattle.ssa_program.specs.Asked.{is_asked_accepted, is_asked_change};

use ssa_answers::asked::{Asked, AskedFault, command_of};
use ssa_answers::read_command::LineFault;
use ssa_bench::bench::Bench;
use ssa_lines::fault_line::code_text;
use ssa_session::bench_machine::answer_command;
use std::alloc::{AllocError, Global};

/// The reply to a subcommand, and what it means.
#[derive(Drop)]
pub struct Reply {
    /// The line, without its line feed.
    pub text: Vec<u8>,
    /// Whether it is that of an accepted command.
    pub is_accepted: bool,
    /// Whether the command was accepted and the bench's file has to be written for it.
    pub is_change: bool,
}

/// Answers a subcommand. The reply is made before the bench changes, so want of memory changes nothing.
pub fn answer(alloc: Global, bench: &mut Bench, asked: Asked<'_>) -> Result<Reply, AllocError>
    ensures reply { IfOk result (λ a. a.text.items ≡ (asked_answer readings bench.old (asked_view asked.entry)).0) }
    ensures accepted { IfOk result (λ a. a.is_accepted ≡ is_asked_accepted bench.old (asked_view asked.entry)) }
    ensures change { IfOk result (λ a. a.is_change ≡ is_asked_change bench.old (asked_view asked.entry)) }
    ensures after { IfOk result (λ _. bench.new ≡ (asked_answer readings bench.old (asked_view asked.entry)).1) }

    // A bench whose file has not to be written is as it was.
    ensures unchanged { IfOk result (λ a. a.is_change ≡ false → bench.new ≡ bench.old) }
    ensures err { OnErr result (bench.new ≡ bench.old) }
{
    match command_of(alloc, asked) {
        Ok(command) => {
            let is_change = command.is_change();
            let answered = answer_command(bench, alloc, command)?;
            Ok(Reply {
                text: answered.text,
                is_accepted: answered.is_accepted,
                is_change: answered.is_accepted && is_change,
            })
        }
        Err(AskedFault::Line(LineFault::OutOfMemory)) => Err(AllocError),
        Err(fault) => {
            let text = code_text(alloc, fault.code())?;
            Ok(Reply {
                text,
                is_accepted: false,
                is_change: false,
            })
        }
    }
}
