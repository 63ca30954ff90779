//! Texts in quotes that stand within a text in quotes.
ghost use Rattle.std.specs.Prelude.{◌≡◌, [], ◌∷◌, ◌++◌, OnOk, true, false};
ghost use Rattle.ssa_model.specs.definitions.Json.{comma_if, compact_members, escaped, quoted, scalar_text};
ghost use Rattle.ssa_model.specs.definitions.Path.{key_members};
ghost use Rattle.ssa_json.specs.View.{scalar_view};
ghost use Rattle.ssa_json.specs.Written.{is_narrow_scalar, members_narrow};
ghost use Rattle.ssa_path.specs.Keys.{members_view};

use crate::element_text::push_scalar;
use ssa_json::quotes::{escape, has_no_escapes};
use ssa_json::value::Scalar;
use ssa_json::write::{push_comma, push_quoted};
use ssa_members::SmallText;
use std::alloc::{AllocError, Global};

// Appends a text as it stands between quotes.
fn push_escapes(text: &mut Vec<u8>, bytes: &[u8]) -> Result<(), AllocError>
    ensures { OnOk result (text.new.items ≡ text.old.items ++ escaped bytes.now) }
{
    for byte in bytes {
        let (escaped, len) = escape(*byte);
        text.extend_from_slice(&escaped[..len])?;
    }
    Ok(())
}

// Appends a string in quotes that needs escapes of its own: they are escaped once more.
fn push_escaped_twice(alloc: Global, text: &mut Vec<u8>, string: &str) -> Result<(), AllocError>
    ensures { OnOk result (text.new.items ≡ text.old.items ++ escaped (quoted string.now)) }
{
    let mut once = Vec::new(alloc);
    push_quoted(&mut once, string)?;
    push_escapes(text, &once)
}

// Appends a string that needs no escapes, in quotes that are escaped.
fn push_plain_nested(text: &mut Vec<u8>, string: &str) -> Result<(), AllocError>
    ensures { OnOk result (text.new.items ≡ text.old.items ++ 92 ∷ 34 ∷ (string.now ++ 92 ∷ 34 ∷ [])) }
{
    text.extend_from_slice(b"\\\"")?;
    text.extend_from_slice(string.as_bytes())?;
    text.extend_from_slice(b"\\\"")
}

// Appends a string in quotes, as it stands within a text in quotes: `\"web\"`. Most strings need no escapes of their own,
// and take no memory but the text's.
fn push_nested(alloc: Global, text: &mut Vec<u8>, string: &str) -> Result<(), AllocError>
    ensures { OnOk result (text.new.items ≡ text.old.items ++ escaped (quoted string.now)) }
{
    if has_no_escapes(string.as_bytes()) {
        push_plain_nested(text, string)
    } else {
        push_escaped_twice(alloc, text, string)
    }
}

/// Appends a scalar's text, as it stands within a text in quotes.
pub fn push_nested_scalar(
    alloc: Global,
    text: &mut Vec<u8>,
    scalar: &Scalar,
) -> Result<(), AllocError>
    ensures text { OnOk result (text.new.items ≡ text.old.items ++ escaped (scalar_text (scalar_view scalar.now))) }
    ensures narrow { OnOk result (is_narrow_scalar (scalar_view scalar.now) ≡ true) }
{
    match scalar {
        Scalar::Text(string) => push_nested(alloc, text, string.as_str()),
        Scalar::Int(_) => push_scalar(alloc, text, scalar),
        Scalar::Bool(_) => push_scalar(alloc, text, scalar),
    }
}

// Appends a member, as it stands within a text in quotes, behind a comma where it is not the first.
fn push_nested_member(
    alloc: Global,
    text: &mut Vec<u8>,
    is_later: bool,
    name: &str,
    scalar: &Scalar,
) -> Result<(), AllocError>
    ensures text { OnOk result (text.new.items ≡ text.old.items ++ escaped (comma_if is_later ++ (quoted name.now ++ 58 ∷ scalar_text (scalar_view scalar.now)))) }
    ensures narrow { OnOk result (is_narrow_scalar (scalar_view scalar.now) ≡ true) }
{
    push_comma(text, is_later)?;
    push_nested(alloc, text, name)?;
    text.push(b':')?;
    push_nested_scalar(alloc, text, scalar)
}

/// Appends the members of an object and its closing bracket, as they stand within a text in quotes.
pub fn push_nested_members(
    alloc: Global,
    text: &mut Vec<u8>,
    members: &[(SmallText, Scalar)],
) -> Result<(), AllocError>
    ensures text { OnOk result (text.new.items ≡ text.old.items ++ escaped (compact_members false (key_members (members_view members.now)))) }
    ensures narrow { OnOk result (members_narrow (key_members (members_view members.now)) ≡ true) }
{
    let mut is_later = false;
    for member in members {
        push_nested_member(alloc, text, is_later, member.0.as_str(), &member.1)?;
        is_later = true;
    }
    text.push(b'}')?;
    Ok(())
}
