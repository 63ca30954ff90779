//! The names of a map list's keys, in order.
ghost use Rattle.std.specs.Prelude.{◌≡◌, IfOk};
ghost use Rattle.ssa_json.specs.View.{members_view, items_view};
ghost use Rattle.ssa_model.specs.definitions.Schema.{key_names, sorted_texts};
ghost use Rattle.ssa_schema.specs.Kinds.{names_view};
ghost use Rattle.ssa_schema.specs.Builds.{sorted_items};

use crate::read::keys::key_items;
use ssa_json::value::Json;
use ssa_members::Members;
use std::alloc::{AllocError, Global};
use std::collections::{BTreeMap, BTreeSet};

// The texts among the items, in the order of their bytes, each once.
fn sorted_items(alloc: Global, items: &[Json]) -> Result<BTreeSet<String>, AllocError>
    ensures { IfOk result (λ s. names_view s.keys ≡ sorted_items (items_view items.now)) }
{
    let mut found = BTreeSet::new(alloc);
    let mut left = items.len();
    while left > 0 {
        left -= 1;
        if let Some(text) = items[left].as_text() {
            let name = String::from_str(alloc, text)?;
            found.insert(name)?;
        }
    }
    Ok(found)
}

// The names, in their order.
fn list_of_names(alloc: Global, names: BTreeSet<String>) -> Result<Vec<String>, AllocError>
    ensures { IfOk result (λ v. names_view v.items ≡ names_view names.keys) }
{
    let mut found = Vec::new(alloc);
    for name in names {
        found.push(name)?;
    }
    Ok(found)
}

/// The names of a map list's keys, in the order of their bytes.
pub fn sorted_keys(alloc: Global, members: &Members<Json>) -> Result<Vec<String>, AllocError>
    ensures { IfOk result (λ v. names_view v.items ≡ sorted_texts (key_names (members_view members.now.entries))) }
{
    let sorted = sorted_items(alloc, key_items(members))?;
    list_of_names(alloc, sorted)
}
