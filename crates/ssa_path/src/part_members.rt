//! The member `subresource` of entries, conflicts, labels and records, where a part is reached through one.
ghost use Rattle.std.specs.Prelude.{◌≡◌, ◌++◌, OnOk, codes, option_map};
ghost use Rattle.ssa_model.specs.definitions.Json.{member_of};
ghost use Rattle.ssa_json.specs.View.{members_view, view};
ghost use Rattle.ssa_path.specs.PartMembers.{part_in, part_text, told_part, with_part};
ghost use Rattle.ssa_path.specs.Subresources.{part_view};

use crate::part::Part;
use ssa_json::members::{find_member, put_text};
use ssa_json::text::is_same_text;
use ssa_json::value::Json;
use ssa_json::write::push_text_member;
use ssa_members::Members;
use std::alloc::{AllocError, Global};

/// Puts the member in its place among members whose names rise, where the part is that of a subresource.
pub fn put_part(alloc: Global, members: &mut Members<Json>, part: Part) -> Result<(), AllocError>
    ensures { OnOk result (members_view members.new.entries ≡ with_part (part_view part) (members_view members.old.entries)) }
{
    match part.subresource() {
        Some(subresource) => put_text(alloc, members, "subresource", subresource),
        None => Ok(()),
    }
}

/// Appends the member, with the comma before it, where the part is that of a subresource.
pub fn push_part(text: &mut Vec<u8>, part: Part) -> Result<(), AllocError>
    ensures { OnOk result (text.new.items ≡ text.old.items ++ part_text (part_view part)) }
{
    match part.subresource() {
        Some(subresource) => push_text_member(text, true, "subresource", subresource),
        None => Ok(()),
    }
}

/// The part that a subresource's name tells.
pub fn part_of_name(value: &Json) -> Option<Part>
    ensures { option_map part_view result ≡ told_part (view value.now) }
{
    if is_same_text(value.as_text()?, "status") {
        return Some(Part::Status);
    }
    None
}

/// The part that members tell, none where their `subresource` is no name of one.
pub fn part_of_members(members: &Members<Json>) -> Option<Part>
    ensures { option_map part_view result ≡ part_in (member_of (codes "subresource") (members_view members.now.entries)) }
{
    match find_member(members, "subresource") {
        Some(value) => part_of_name(value),
        None => Some(Part::Main),
    }
}
