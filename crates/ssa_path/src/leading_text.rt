//! The text that stands first in an element's own text.
ghost use Rattle.std.specs.Prelude.{◌≡◌};
ghost use Rattle.std.specs.Option.{option_copied};
ghost use Rattle.ssa_json.specs.View.{scalar_view};
ghost use Rattle.ssa_path.specs.Keys.{members_view};
ghost use Rattle.ssa_path.specs.SortKeys.{leading_key, leading_text, text_in};
ghost use Rattle.ssa_path.specs.View.{element_view};

use crate::element::Elem;
use ssa_json::text::is_same_text;
use ssa_json::value::Scalar;
use ssa_members::SmallText;

// The text of a scalar that is one.
fn text_in(scalar: &Scalar) -> Option<&[u8]>
    ensures { option_copied result ≡ text_in (scalar_view scalar.now) }
{
    match scalar {
        Scalar::Text(text) => Some(text.as_bytes()),
        Scalar::Int(_) => None,
        Scalar::Bool(_) => None,
    }
}

// The text of the first key field, where it has the same name in both.
fn leading_key<'a>(
    keys: &[(SmallText, Scalar)],
    others: &'a [(SmallText, Scalar)],
) -> Option<&'a [u8]>
    ensures { option_copied result ≡ leading_key (members_view keys.now) (members_view others.now) }
{
    let [key, ..] = keys else {
        return None;
    };
    let [other, ..] = others else {
        return None;
    };
    if is_same_text(key.0.as_str(), other.0.as_str()) {
        text_in(&other.1)
    } else {
        None
    }
}

// The text that stands first in an element's text, where the first element's text begins with the
// same bytes.
//
// Elements with a value share their mark, elements with key fields their first name.
#[inline(always)]
pub(crate) fn leading_text<'a>(first: &Elem, element: &'a Elem) -> Option<&'a [u8]>
    ensures { option_copied result ≡ leading_text (element_view first.now) (element_view element.now) }
{
    match (first, element) {
        (Elem::Value(_), Elem::Value(scalar)) => text_in(scalar),
        (Elem::Key(keys), Elem::Key(others)) => leading_key(keys.members(), others.members()),
        (Elem::Field(_), Elem::Field(_)) => None,
        (Elem::Field(_), Elem::Key(_)) => None,
        (Elem::Field(_), Elem::Value(_)) => None,
        (Elem::Key(_), Elem::Field(_)) => None,
        (Elem::Key(_), Elem::Value(_)) => None,
        (Elem::Value(_), Elem::Field(_)) => None,
        (Elem::Value(_), Elem::Key(_)) => None,
    }
}
