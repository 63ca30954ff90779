//! What a part that is put over a body has otherwise than it.

use ssa_path::field_set::FieldSet;

/// How a part differs from the body that it is put over.
///
/// `added` and `modified` are as in a [`Comparison`](crate::compare::Comparison); what the part lacks
/// stays, so that nothing is removed.
#[derive(Drop)]
pub struct PartComparison {
    /// The points of the part at whose paths nothing stood.
    pub added: FieldSet,
    /// The paths at which both have leaves of one sort with other contents.
    pub modified: FieldSet,
    /// How many places the part has at which nothing stood, or `usize::MAX` where there are more.
    pub new_places: usize,
    /// Whether the part, put over the body, leaves it as it is, where the items that both have stand in one order in each list
    /// ([`keeps_order`](crate::body::Body::keeps_order)). Of `false` nothing is promised.
    pub repeats: bool,
}
