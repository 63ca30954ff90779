//! Which paths of a set nobody can own in a body.
ghost use Rattle.std.specs.Prelude.{◌≡◌, [], not, IfOk};
ghost use Rattle.ssa_model.specs.definitions.Body.{is_ownable};
ghost use Rattle.ssa_model.specs.definitions.GivenEntries.{not_ownable};
ghost use Rattle.ssa_model.specs.definitions.PathMap.{empty, insert, paths, set_of};
ghost use Rattle.ssa_model.specs.definitions.Valid.{metadata_path};
ghost use Rattle.ssa_merge.specs.EntryReading.{first_of};

use ssa_members::SmallText;
use ssa_path::element::Elem;
use ssa_path::field_set::FieldSet;
use ssa_path::path::Path;
use ssa_typed::body::Body;
use std::alloc::{AllocError, Global};

// The paths that nobody can own in any body: the root and `metadata`.
fn never_owned(alloc: Global) -> Result<FieldSet, AllocError>
    ensures { IfOk result (λ s. s ≡ insert metadata_path tt (insert [] tt empty)) }
{
    let mut never = FieldSet::new(alloc);
    never.insert(alloc, &Path::new(Vec::new(alloc)))?;
    let mut elements = Vec::new(alloc);
    elements.push(Elem::Field(SmallText::from_str(alloc, "metadata")?))?;
    never.insert(alloc, &Path::new(elements))?;
    Ok(never)
}

// The paths of the set that nobody can own in the body.
fn not_ownable(alloc: Global, body: &Body, set: &FieldSet) -> Result<FieldSet, AllocError>
    ensures { IfOk result (λ s. s ≡ set_of (paths set.now) (λ p. not (is_ownable body.now p))) }
{
    let lacking = body.lacking(alloc, set)?;
    let never = never_owned(alloc)?;
    let refused = set.meet(alloc, &never)?;
    let all = lacking.union(alloc, &refused)?;
    Ok(all)
}

/// The first path of the set, in path order, that nobody can own in the body.
///
/// The paths are listed only where there is one.
pub fn first_not_ownable(
    alloc: Global,
    body: &Body,
    set: &FieldSet,
) -> Result<Option<Path>, AllocError>
    ensures { IfOk result (λ p. p ≡ first_of (not_ownable body.now set.now)) }
{
    let refused = not_ownable(alloc, body, set)?;
    if refused.is_empty() {
        return Ok(None);
    }
    let listed = refused.paths(alloc)?;
    match listed.as_slice() {
        [] => Ok(None),
        [first, ..] => Ok(Some(first.copy(alloc)?)),
    }
}
