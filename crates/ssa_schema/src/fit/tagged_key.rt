//! A key with its tag and its place, which are quick to put in order.
ghost use Rattle.std.specs.Prelude.{◌≡◌};
ghost use Rattle.ssa_schema.specs.Repeats.{row_view, tagged, tagged_cmp, tagged_view};

use crate::fit::item_key::ItemKey;
use std::cmp::Ordering;

/// An item's key behind its tag, with the item's place.
#[derive(Drop)]
pub struct TaggedKey<'a> {
    tag: u64,
    pub place: usize,
    key: &'a ItemKey<'a>,
}

impl<'a> TaggedKey<'a> {
    /// The key at a place, with its tag.
    pub fn new(place: usize, key: &'a ItemKey<'a>) -> TaggedKey<'a>
        ensures place { result.place ≡ place }
        ensures key { tagged_view result ≡ tagged (row_view key.now) }
    {
        TaggedKey {
            tag: key.tag(),
            place,
            key,
        }
    }

    /// The order of the tags, and of the keys where the tags are one. Most keys differ in their tags.
    pub fn order(&self, other: &TaggedKey) -> Ordering
        ensures { result ≡ tagged_cmp (tagged_view self.now) (tagged_view other.now) }
    {
        match self.tag.cmp(&other.tag) {
            Ordering::Equal => self.key.order(other.key),
            found => found,
        }
    }
}
