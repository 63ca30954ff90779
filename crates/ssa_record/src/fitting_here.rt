//! Whether the entries that are here fit the body.
ghost use Rattle.std.specs.Prelude.{map, Decides, IfOk};
ghost use Rattle.ssa_model.specs.definitions.Valid.{AllEntries};
ghost use Rattle.ssa_model.specs.laws.FittingRecords.{HereFits};
ghost use Rattle.ssa_merge.specs.Managers.{entry_view};
ghost use Rattle.ssa_told.specs.Told.{told_here};

use crate::fitting_changes::is_ownable;
use ssa_merge::managers::Entry;
use ssa_merge::names::is_manager_name;
use ssa_told::told::ToldHere;
use ssa_typed::body::Body;
use std::alloc::{AllocError, Global};

// Whether the entry is one of a manager, with some path, each of which can be owned in the body.
fn does_here_fit(alloc: Global, after: &Body, entry: &Entry) -> Result<bool, AllocError>
    ensures { IfOk result (λ b. Decides b (HereFits after.now (entry_view entry.now))) }
{
    if !is_manager_name(entry.key.name.as_str()) {
        return Ok(false);
    }
    if entry.set.is_empty() {
        return Ok(false);
    }
    is_ownable(alloc, after, &entry.set)
}

// Whether each of those here fits the body.
pub(crate) fn do_heres_fit(
    alloc: Global,
    after: &Body,
    here: &[ToldHere],
) -> Result<bool, AllocError>
    ensures { IfOk result (λ b. Decides b (AllEntries (HereFits after.now) (map (λ e. e.1) (map told_here here.now)))) }
{
    let [first, rest @ ..] = here else {
        return Ok(true);
    };
    if !does_here_fit(alloc, after, &first.entry)? {
        return Ok(false);
    }
    do_heres_fit(alloc, after, rest)
}
