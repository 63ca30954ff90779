//! Sets of paths written as FieldsV1.
ghost use Rattle.std.specs.Prelude.{◌≡◌, true, IfOk, OnOk};
ghost use Rattle.ssa_model.specs.definitions.FieldsV1.{fields_json, AreCanonical, IsWritten};
ghost use Rattle.ssa_model.specs.definitions.Json.{object};
ghost use Rattle.ssa_model.specs.definitions.PathMap.{listed};
ghost use Rattle.ssa_json.specs.View.{view, members_view};
ghost use Rattle.ssa_path.specs.FieldsBack.{AreReadBack, IsReadBack};
ghost use Rattle.ssa_path.specs.FieldsWriting.{dot_members, paths_json, IsWrittenBelow};
ghost use Rattle.ssa_path.specs.Trie.{is_filled, is_trie, paths};

use crate::field_set::FieldSet;
use crate::trie::Trie;
use ssa_json::value::Json;
use ssa_members::{Members, Name};
use std::alloc::{AllocError, Global};

impl FieldSet {
    /// The set as FieldsV1 of the Kubernetes API: an object with a member for each first element of
    /// the paths, under the element's text, and in it what goes on from there.
    ///
    /// A member `.` with `{}` says that the place itself is in the set. Where nothing below a place
    /// is, the place is written as `{}` alone.
    pub fn to_fields_v1(&self, alloc: Global) -> Result<Json, AllocError>
        ensures json { IfOk result (λ v. view v ≡ fields_json self.now) }
        ensures written { IfOk result (λ v. IsWritten self.now (view v)) }
        ensures is_read { OnOk result (IsReadBack self.now) }
    {
        let members = place_members(alloc, self.root())?;
        Ok(Json::Object(members))
    }
}

impl Trie {
    /// The set of the trie's paths as FieldsV1 of the Kubernetes API, as [`FieldSet::to_fields_v1`]
    /// gives it.
    pub fn to_fields_v1(&self, alloc: Global) -> Result<Json, AllocError>
        requires { is_trie self.now ≡ true }
        ensures { IfOk result (λ v. view v ≡ fields_json (listed (paths self.now))) }
    {
        let members = place_members(alloc, self)?;
        Ok(Json::Object(members))
    }
}

// The member that says that the place itself is in the set, where it is.
fn own_member(alloc: Global, here: bool) -> Result<Members<Json>, AllocError>
    ensures { IfOk result (λ ms. members_view ms.entries ≡ dot_members here) }
{
    let mut members = Members::new(alloc);
    if here {
        let name = Name::from_str(alloc, ".")?;
        drop(members.insert(name, Json::Object(Members::new(alloc)))?);
    }
    Ok(members)
}

// The members of a place, with `.` where the place itself is in the set.
#[cycle(place)]
fn place_members(alloc: Global, place: &Trie) -> Result<Members<Json>, AllocError>
    requires { is_trie place.now ≡ true }
    ensures json { IfOk result (λ ms. object (members_view ms.entries) ≡ paths_json (paths place.now)) }
    ensures canonical { IfOk result (λ ms. AreCanonical (members_view ms.entries)) }
    ensures back { OnOk result (AreReadBack (paths place.now)) }
{
    let mut members = own_member(alloc, place.here)?;
    for child in &place.below {
        let text = child.0.name(alloc)?;
        let name = Name::from_string(alloc, text)?;
        let value = below_value(alloc, &child.1)?;
        drop(members.insert(name, value)?);
    }
    Ok(members)
}

// What stands under an element: `{}` where nothing below its place is in the set.
#[cycle(place)]
fn below_value(alloc: Global, place: &Trie) -> Result<Json, AllocError>
    requires trie { is_trie place.now ≡ true }
    requires filled { is_filled place.now ≡ true }
    ensures written { IfOk result (λ v. IsWrittenBelow (paths place.now) (view v)) }
    ensures back { OnOk result (AreReadBack (paths place.now)) }
{
    let is_alone = place.below.is_empty();
    if is_alone {
        return Ok(Json::Object(Members::new(alloc)));
    }
    let members = place_members(alloc, place)?;
    Ok(Json::Object(members))
}
