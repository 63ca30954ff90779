//! Why a schema is refused, but for want of memory.

/// What a schema breaks.
#[derive(Clone, Copy, Debug, PartialEq, Eq)]
pub enum Refusal {
    Keyword,
    Shape,
    Keys,
    Depth,
}
