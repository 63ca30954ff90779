//! The texts of the faults of managers' entries.
ghost use Rattle.std.specs.Prelude.{◌≡◌, ◌++◌, OnOk};
ghost use Rattle.ssa_model.specs.definitions.Json.{compact};
ghost use Rattle.ssa_model.specs.definitions.GivenEntries.{absent_path};
ghost use Rattle.ssa_model.specs.definitions.Replies.{entry_fault_json};
ghost use Rattle.ssa_answers.specs.Replies.{entry_json};

use ssa_json::fault_code::FaultCode;
use ssa_lines::fault_line::{push_code, push_members};
use ssa_merge::entry_fault::EntryFault;
use ssa_path::path::Path;
use ssa_path::path_text::push_path;
use std::alloc::{AllocError, Global};

// Appends the fault of an entry that owns the path, which nobody can own.
fn push_absent_path(alloc: Global, text: &mut Vec<u8>, path: &Path) -> Result<(), AllocError>
    ensures { OnOk result (text.new.items ≡ text.old.items ++ compact (entry_fault_json (absent_path path.now))) }
{
    text.push(b'{')?;
    push_members(text, FaultCode::AbsentPath)?;
    text.extend_from_slice(b",\"path\":")?;
    push_path(alloc, text, path)?;
    text.push(b'}')?;
    Ok(())
}

/// Appends the reply to an object file with entries that are no table of managers.
pub fn push_entry_fault(
    alloc: Global,
    text: &mut Vec<u8>,
    fault: &EntryFault,
) -> Result<(), AllocError>
    ensures { OnOk result (text.new.items ≡ text.old.items ++ compact (entry_json fault.now)) }
{
    match fault {
        EntryFault::AbsentPath(path) => push_absent_path(alloc, text, path),
        _ => push_code(text, fault.code()),
    }
}
