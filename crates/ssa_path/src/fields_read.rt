//! Sets of paths read from FieldsV1.
ghost use Rattle.std.specs.Prelude.{◌≡◌, IfOk, codes};
ghost use Rattle.ssa_model.specs.definitions.FieldsV1.{fields_json, is_nothing_inside, member_faults, said_set, IsWritten};
ghost use Rattle.ssa_model.specs.definitions.Json.{object, same_text};
ghost use Rattle.ssa_json.specs.Reading.{json_reading};
ghost use Rattle.ssa_json.specs.View.{view, members_view};
ghost use Rattle.ssa_path.specs.FieldsReading.{below_faults, child_faults, IsChildOf, IsPlaceBelow, IsPlaceOf, ReadsFields, TellsFirst};

use crate::element::Elem;
use crate::element_fault::ElemFault;
use crate::field_set::FieldSet;
use crate::trie::Trie;
use ssa_json::reading_room::ReadingRoom;
use ssa_json::value::Json;
use ssa_members::Members;
use std::alloc::Global;

impl FieldSet {
    /// The set that a value says as FieldsV1 of the Kubernetes API, as `FieldSet::to_fields_v1`
    /// writes it. A set has one writing, and no other is read.
    ///
    /// The fault is the first of them all, members in the order of their names and what is inside
    /// each before the next.
    pub fn from_fields_v1(alloc: Global, value: &Json) -> Result<FieldSet, ElemFault>
        ensures answers { ReadsFields result (view value.now) }
        ensures written { IfOk result (λ s. IsWritten s (view value.now)) }
        ensures back { IfOk result (λ s. fields_json s ≡ view value.now) }
        ensures said { IfOk result (λ s. s ≡ said_set json_reading (view value.now)) }
    {
        let mut room = ReadingRoom::new(alloc);
        FieldSet::from_fields_v1_in(alloc, &mut room, value)
    }

    /// Reads a value as [`from_fields_v1`](FieldSet::from_fields_v1) does, in room that is kept from one set to the next.
    pub fn from_fields_v1_in(
        alloc: Global,
        room: &mut ReadingRoom,
        value: &Json,
    ) -> Result<FieldSet, ElemFault>
        ensures answers { ReadsFields result (view value.now) }
        ensures written { IfOk result (λ s. IsWritten s (view value.now)) }
        ensures back { IfOk result (λ s. fields_json s ≡ view value.now) }
        ensures said { IfOk result (λ s. s ≡ said_set json_reading (view value.now)) }
    {
        let root = read_place(alloc, room, value)?;
        Ok(FieldSet::from_root(root))
    }
}

// Whether the text is the one that stands for the place itself.
fn is_dot(name: &str) -> bool
    ensures { result ≡ same_text name.now (codes ".") }
{
    name.as_bytes() == b".".as_slice()
}

// Whether the value is `{}`.
fn is_nothing_inside(value: &Json) -> bool
    ensures { result ≡ is_nothing_inside (view value.now) }
{
    match value {
        Json::Object(members) => members.is_empty(),
        Json::List(_) | Json::Scalar(_) => false,
    }
}

// The place that a value says.
#[cycle(read)]
fn read_place(alloc: Global, room: &mut ReadingRoom, value: &Json) -> Result<Trie, ElemFault>
    ensures answers { ReadsFields result (view value.now) }
    ensures place { IfOk result (λ t. IsPlaceOf (view value.now) t) }
{
    match value {
        Json::Object(members) => read_members(alloc, room, members),
        Json::List(_) | Json::Scalar(_) => Err(ElemFault::BadElement),
    }
}

// The place that the members of an object say.
#[cycle(read)]
fn read_members(
    alloc: Global,
    room: &mut ReadingRoom,
    members: &Members<Json>,
) -> Result<Trie, ElemFault>
    ensures answers { TellsFirst result (member_faults json_reading (members_view members.now.entries)) }
    ensures place { IfOk result (λ t. IsPlaceOf (object (members_view members.now.entries)) t) }
{
    let mut here = false;
    let mut below = Vec::new(alloc);
    for (name, member) in members.entries() {
        if !is_dot(name.as_str()) {
            let child = read_child(alloc, room, name.as_str(), member)?;
            let Ok(()) = below.push(child) else {
                return Err(ElemFault::OutOfMemory);
            };
            continue;
        }
        if !is_nothing_inside(member) {
            return Err(ElemFault::BadElement);
        }
        here = true;
    }
    Ok(Trie { here, below })
}

// The child that a member says, where the member is not `.`.
#[cycle(read)]
fn read_child(
    alloc: Global,
    room: &mut ReadingRoom,
    name: &str,
    value: &Json,
) -> Result<(Elem, Trie), ElemFault>
    ensures answers { TellsFirst result (child_faults name.now (view value.now)) }
    ensures child { IfOk result (λ c. IsChildOf name.now (view value.now) c) }
{
    let element = Elem::read_in(alloc, room, name)?;
    let place = read_below(alloc, room, value)?;
    Ok((element, place))
}

// The place that a value says under an element, where `{}` says the place alone.
#[cycle(read)]
fn read_below(alloc: Global, room: &mut ReadingRoom, value: &Json) -> Result<Trie, ElemFault>
    ensures answers { TellsFirst result (below_faults (view value.now)) }
    ensures place { IfOk result (λ t. IsPlaceBelow (view value.now) t) }
{
    let place = read_place(alloc, room, value)?;
    if !place.below.is_empty() {
        return Ok(place);
    }
    if place.here {
        return Err(ElemFault::NotCanonical);
    }
    Ok(Trie {
        here: true,
        below: Vec::new(alloc),
    })
}
