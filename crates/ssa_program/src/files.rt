//! The files that the words name, read.
ghost use Rattle.std.specs.Prelude.{◌≡◌, true, IfErr, IfOk};
ghost use Rattle.ssa_disk.specs.Files.{under};
ghost use Rattle.ssa_program.specs.Outcome.{IsBenchAt, IsInput};
ghost use Rattle.ssa_program.specs.Stops.{IsUnloaded};
ghost use Rattle.ssa_program.specs.Trouble.{IsLoadTrouble, IsReadTrouble};

use crate::notes::Notes;
use crate::trouble::Trouble;
use ssa_answers::asked::MOST_INPUT_BYTES;
use ssa_bench::bench::Bench;
use ssa_disk::disk::{Disk, ReadFault};
use ssa_lines::saving::MOST_FILE_BYTES;
use std::alloc::Global;

// The trouble of a file that is not read.
fn unread(name: &str, fault: ReadFault) -> Trouble<'_>
    ensures { IsReadTrouble name.now result }
{
    match fault {
        ReadFault::CannotRead => Trouble::CannotRead(name),
        ReadFault::OutOfMemory => Trouble::OutOfMemory,
    }
}

/// The bytes of a file: at most one more than the limit, by which a file that is too long is told.
pub fn read_file<'a, D: Disk>(
    disk: &D,
    alloc: Global,
    name: &'a str,
) -> Result<Vec<u8>, Trouble<'a>>
    ensures read { IfOk result (λ bytes. D.tells ≡ true → IsInput (under (D.view disk.now) name.now) bytes.items) }
    ensures trouble { IfErr result (IsReadTrouble name.now) }
{
    match disk.read(alloc, name, MOST_INPUT_BYTES + 1) {
        Ok(bytes) => Ok(bytes),
        Err(fault) => Err(unread(name, fault)),
    }
}

/// The bench of a bench file, of which no more is read than the longest one has, and one byte. Which line is refused goes to
/// the notes.
pub fn load_bench<'a, D: Disk>(
    disk: &D,
    alloc: Global,
    notes: &mut Notes,
    name: &'a str,
) -> Result<Bench, Trouble<'a>>
    ensures loaded { IfOk result (λ bench. D.tells ≡ true → IsBenchAt (under (D.view disk.now) name.now) bench) }
    ensures unloaded { IfErr result (λ t. D.tells ≡ true → IsUnloaded (under (D.view disk.now) name.now) t) }
    ensures trouble { IfErr result (IsLoadTrouble name.now) }
{
    let mut source = match disk.open(alloc, name, MOST_FILE_BYTES + 1) {
        Ok(source) => source,
        Err(fault) => return Err(unread(name, fault)),
    };
    let mut line = 0;
    match Bench::load_telling(alloc, &mut source, &mut line) {
        Ok(bench) => Ok(bench),
        Err(fault) => {
            notes.about_bench(alloc, name, line, &fault);
            Err(Trouble::Load(fault))
        }
    }
}
