//! The key fields of items, taken out of a trie where they stand.
ghost use Rattle.std.specs.Prelude.{◌≡◌, [], ◌&&◌, true, not};
ghost use Rattle.ssa_model.specs.definitions.Path.{field, key, names_key};
ghost use Rattle.ssa_path.specs.KeyFields.{keys_in, IsWithoutKeyFields};
ghost use Rattle.ssa_path.specs.Keys.{members_view};
ghost use Rattle.ssa_path.specs.Trie.{is_filled, is_one_of, is_trie, paths};
ghost use Rattle.ssa_path.specs.View.{element_view};

use crate::element::Elem;
use crate::trie::{Trie, take_out_bare};
use ssa_json::text::is_same_text;
use ssa_json::value::Scalar;
use ssa_members::SmallText;

// Whether one of the key fields has the name.
#[inline(always)]
fn have_name(keys: &[(SmallText, Scalar)], name: &str) -> bool
    ensures { result ≡ names_key (key (members_view keys.now)) (field name.now) }
{
    for member in keys {
        if is_same_text(name, member.0.as_str()) {
            return true;
        }
    }
    false
}

// Whether the element is that of one of the key fields.
#[inline(always)]
fn have_field(keys: &[(SmallText, Scalar)], element: &Elem) -> bool
    ensures { result ≡ names_key (key (members_view keys.now)) (element_view element.now) }
{
    match element {
        Elem::Field(name) => have_name(keys, name.as_str()),
        Elem::Key(_) => false,
        Elem::Value(_) => false,
    }
}

// The key fields that the element names an item by.
fn keys_in(element: &Elem) -> &[(SmallText, Scalar)]
    ensures { members_view result.now ≡ keys_in (element_view element.now) }
{
    match element {
        Elem::Field(_) => &[],
        Elem::Key(keys) => keys.members(),
        Elem::Value(_) => &[],
    }
}

// Whether the child's own place is in the set and is no key field.
#[inline(always)]
fn stays(keys: &[(SmallText, Scalar)], child: &(Elem, Trie)) -> bool
    ensures { result ≡ (is_one_of (paths child.now.1) [] && not (names_key (key (members_view keys.now)) (element_view child.now.0))) }
{
    child.1.here && !have_field(keys, &child.0)
}

// Takes the key fields out of a child, and tells whether it has no path left. Most children have none below them: those
// are looked at here, with no call.
#[cycle(take_out_key_fields)]
#[inline(always)]
fn take_out_of_child(keys: &[(SmallText, Scalar)], child: &mut (Elem, Trie)) -> bool
    requires { is_trie child.old.1 ≡ true }
    ensures left { IsWithoutKeyFields (keys_in (element_view child.old.0)) child.old.1
        (is_one_of (paths child.old.1) [] && not (names_key (key (members_view keys.now)) (element_view child.old.0))) child.new.1 }
    ensures element { child.new.0 ≡ child.old.0 }
    ensures bare { result ≡ not (is_filled child.new.1) }
{
    let child_stays = stays(keys, child);
    let (element, own) = child;
    if own.below.is_empty() {
        own.here = child_stays;
        return !child_stays;
    }
    take_out_key_fields(own, keys_in(element), child_stays);
    !own.has_paths()
}

/// Takes out the paths of a trie that are key fields of items. Takes no memory.
///
/// The keys are those of the item that the trie stands at, none elsewhere. Whether its own place
/// stays is told, since that hangs on the element above.
#[cycle(take_out_key_fields)]
pub(crate) fn take_out_key_fields(own: &mut Trie, keys: &[(SmallText, Scalar)], here: bool)
    requires { is_trie own.old ≡ true }
    ensures { IsWithoutKeyFields (members_view keys.now) own.old here own.new }
{
    let Trie { here: place, below } = own;
    *place = here;
    let mut any_bare = false;
    for i in 0..below.len() {
        any_bare |= take_out_of_child(keys, &mut below[i]);
    }
    take_out_bare(below, any_bare);
}
