//! A place of a body and what a record touches there.
ghost use Rattle.std.specs.Prelude.{IfSome};
ghost use Rattle.ssa_record.specs.Spots.{IsOnlyChild};

use ssa_json::value::Scalar;
use ssa_members::{Members, SmallText};
use ssa_path::element::Elem;
use ssa_path::trie::Trie;
use ssa_schema::kind::Kind;
use ssa_typed::node::Node;

/// A place of a body at which the schema has a kind, with what is touched at and below it.
#[derive(Drop)]
pub struct Spot<'a> {
    pub touched: &'a Trie,
    pub node: &'a Node,
    pub kind: &'a Kind,
}

/// An item of a map list, with what is touched below it.
#[derive(Drop)]
pub struct Item<'a> {
    pub touched: &'a Trie,
    pub node: &'a Node,
    pub keys: &'a [(SmallText, Scalar)],
    pub fields: &'a Members<Kind>,
}

/// The only child of a place that isn't touched itself.
pub fn only_child(touched: &Trie) -> Option<&(Elem, Trie)>
    ensures { IfSome result (λ c. IsOnlyChild touched.now c.now) }
{
    if touched.here {
        return None;
    }
    match touched.below.as_slice() {
        [child] => Some(child),
        _ => None,
    }
}
