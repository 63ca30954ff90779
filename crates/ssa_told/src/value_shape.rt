//! Texts and lists among JSON values, found by their members' names.
ghost use Rattle.std.specs.Prelude.{◌≡◌, MatchOption, is_some, option_map, option_and_then};
ghost use Rattle.ssa_json.specs.View.{view, items_view, members_view};
ghost use Rattle.ssa_model.specs.definitions.Json.{as_text, member_of};
ghost use Rattle.ssa_model.specs.definitions.Values.{is_text, texts_of};
ghost use Rattle.ssa_told.specs.PathTexts.{as_list};
ghost use Rattle.ssa_told.specs.Telling.{IsNoPair, IsNoTriple, pair, triple};

use ssa_json::members::find_member;
use ssa_json::value::Json;
use ssa_members::Members;

/// The text of the member of a name, where it is one.
#[inline(always)]
pub fn text_of<'a>(members: &'a Members<Json>, name: &str) -> Option<&'a str>
    ensures { option_map (λ text. text.now) result ≡ option_and_then as_text (member_of name.now (members_view members.now.entries)) }
{
    find_member(members, name)?.as_text()
}

/// The items, where the value is a list.
pub fn as_list(value: &Json) -> Option<&[Json]>
    ensures { option_map (λ items. items_view items.now) result ≡ as_list (view value.now) }
{
    match value {
        Json::List(items) => Some(items.as_slice()),
        _ => None,
    }
}

/// The items of the member of a name, where it is a list.
pub fn list_of<'a>(members: &'a Members<Json>, name: &str) -> Option<&'a [Json]>
    ensures { option_map (λ items. items_view items.now) result ≡ option_and_then as_list (member_of name.now (members_view members.now.entries)) }
{
    as_list(find_member(members, name)?)
}

/// Whether the value is a text.
pub fn is_text(value: &Json) -> bool
    ensures { result ≡ is_text (view value.now) }
{
    value.as_text().is_some()
}

/// Whether all items are texts.
pub fn are_texts(items: &[Json]) -> bool
    ensures { result ≡ is_some (texts_of (items_view items.now)) }
{
    for item in items {
        if !is_text(item) {
            return false;
        }
    }
    true
}

/// The items of a list of two.
pub fn pair_in(value: &Json) -> Option<(&Json, &Json)>
    ensures { MatchOption result (IsNoPair (view value.now)) (λ p. view value.now ≡ pair (view p.0.now) (view p.1.now)) }
{
    let Json::List(items) = value else {
        return None;
    };
    if items.len() != 2 {
        return None;
    }
    Some((&items[0], &items[1]))
}

/// The items of a list of three.
pub fn triple_in(value: &Json) -> Option<(&Json, &Json, &Json)>
    ensures { MatchOption result (IsNoTriple (view value.now)) (λ p. view value.now ≡ triple (view p.0.now) (view p.1.now) (view p.2.now)) }
{
    let Json::List(items) = value else {
        return None;
    };
    if items.len() != 3 {
        return None;
    }
    Some((&items[0], &items[1], &items[2]))
}
