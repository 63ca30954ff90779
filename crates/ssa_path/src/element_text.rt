//! The text of an element.
ghost use Rattle.std.specs.Prelude.{◌≡◌, ◌∷◌, ◌++◌, Ok, IfOk, OnOk, true, false, string_bytes};
ghost use Rattle.ssa_model.specs.definitions.Json.{comma_if, compact_members, quoted, scalar_text};
ghost use Rattle.ssa_model.specs.definitions.Path.{element_text, key, key_members};
ghost use Rattle.ssa_model.specs.definitions.ElementTexts.{element_of};
ghost use Rattle.ssa_json.specs.Reading.{json_reading};
ghost use Rattle.ssa_json.specs.View.{scalar_view};
ghost use Rattle.ssa_json.specs.Written.{is_narrow_scalar, members_narrow};
ghost use Rattle.ssa_path.specs.Keys.{members_view};
ghost use Rattle.ssa_path.specs.OwnText.{IsElementOfProgram};
ghost use Rattle.ssa_path.specs.View.{element_view};

use crate::element::Elem;
use ssa_json::value::{Json, Scalar};
use ssa_json::write::push_quoted;
use ssa_members::SmallText;
use std::alloc::{AllocError, Global};

// The bytes that the text of an item has room for from the start.
const ITEM_ROOM: usize = 32;

impl Elem {
    // So many bytes the text is given room for: those of a field, and enough for most items.
    fn text_room(&self) -> usize {
        match self {
            Elem::Field(name) => name.as_str().len().saturating_add(2),
            Elem::Key(_) => ITEM_ROOM,
            Elem::Value(_) => ITEM_ROOM,
        }
    }

    /// The text that names the element in FieldsV1 of the Kubernetes API: `f:` and the name, `k:` and
    /// the key fields as a compact JSON object, or `v:` and the value as compact JSON. `Elem::read`
    /// gives the element back.
    pub fn text(&self, alloc: Global) -> Result<Vec<u8>, AllocError>
        ensures text { IfOk result (λ text. text.items ≡ element_text (element_view self.now)) }
        ensures of_program { OnOk result (IsElementOfProgram (element_view self.now)) }
        ensures is_read { IfOk result (λ text. element_of json_reading text.items ≡ Ok (element_view self.now)) }
    {
        let mut text = Vec::with_capacity(alloc, self.text_room())?;
        match self {
            Elem::Field(name) => {
                text.extend_from_slice(b"f:")?;
                text.extend_from_slice(name.as_bytes())?;
            }
            Elem::Key(keys) => {
                text.extend_from_slice(b"k:{")?;
                push_members(alloc, &mut text, keys.members())?;
            }
            Elem::Value(scalar) => {
                text.extend_from_slice(b"v:")?;
                push_scalar(alloc, &mut text, scalar)?;
            }
        }
        Ok(text)
    }

    /// The element's text, as a string.
    pub fn name(&self, alloc: Global) -> Result<String, AllocError>
        ensures text { IfOk result (λ name. string_bytes name ≡ element_text (element_view self.now)) }
        ensures of_program { OnOk result (IsElementOfProgram (element_view self.now)) }
    {
        let text = self.text(alloc)?;
        match String::from_utf8(text) {
            Ok(name) => Ok(name),
            Err(_) => unreachable!("the text of an element is UTF-8"),
        }
    }
}

/// The text of an element with these key fields, as [`Elem::name`] gives it, whether or not their
/// names rise.
pub fn key_name(alloc: Global, members: &[(SmallText, Scalar)]) -> Result<String, AllocError>
    ensures { IfOk result (λ name. string_bytes name ≡ element_text (key (members_view members.now))) }
{
    let mut text = Vec::new(alloc);
    text.extend_from_slice(b"k:{")?;
    push_members(alloc, &mut text, members)?;
    match String::from_utf8(text) {
        Ok(name) => Ok(name),
        Err(_) => unreachable!("names and scalars are UTF-8"),
    }
}

// Appends a scalar's text.
pub(crate) fn push_scalar(
    alloc: Global,
    text: &mut Vec<u8>,
    scalar: &Scalar,
) -> Result<(), AllocError>
    ensures text { OnOk result (text.new.items ≡ text.old.items ++ scalar_text (scalar_view scalar.now)) }
    ensures narrow { OnOk result (is_narrow_scalar (scalar_view scalar.now) ≡ true) }
{
    if let Scalar::Text(string) = scalar {
        return push_quoted(text, string.as_str());
    }
    let value = Json::Scalar(scalar.copy(alloc)?);
    value.push_text(text)
}

// Appends a member, behind a comma where it is not the first.
fn push_member(
    alloc: Global,
    text: &mut Vec<u8>,
    is_later: bool,
    name: &str,
    scalar: &Scalar,
) -> Result<(), AllocError>
    ensures text { OnOk result (text.new.items ≡ text.old.items ++ (comma_if is_later ++ (quoted name.now ++ 58 ∷ scalar_text (scalar_view scalar.now)))) }
    ensures narrow { OnOk result (is_narrow_scalar (scalar_view scalar.now) ≡ true) }
{
    if is_later {
        text.push(b',')?;
    }
    push_quoted(text, name)?;
    text.push(b':')?;
    push_scalar(alloc, text, scalar)
}

// Appends the members of an object and its closing bracket.
fn push_members(
    alloc: Global,
    text: &mut Vec<u8>,
    members: &[(SmallText, Scalar)],
) -> Result<(), AllocError>
    ensures text { OnOk result (text.new.items ≡ text.old.items ++ compact_members false (key_members (members_view members.now))) }
    ensures narrow { OnOk result (members_narrow (key_members (members_view members.now)) ≡ true) }
{
    let mut is_later = false;
    for member in members {
        push_member(alloc, text, is_later, member.0.as_str(), &member.1)?;
        is_later = true;
    }
    text.push(b'}')?;
    Ok(())
}
