//! Texts whose bytes stand in the value itself.
ghost use Rattle.std.specs.Prelude.{IsUtf8, ◌≤◌, take};

use crate::words::{are_eight_same, held};
use std::cmp::Ordering;
use std::str::from_utf8_unchecked;

/// A text of up to 22 bytes, which is as many as make a `SmallText` no larger than a `String`.
#[derive(Clone, Copy, Drop)]
pub struct ShortText {
    len: u8,
    bytes: [u8; 22],
    ghost within: { len ≤ 22 },
    ghost utf8: { ∥ IsUtf8 (take len bytes) ∥₁ },
}

impl ShortText {
    ghost use Rattle.std.specs.Prelude.{◌≡◌, ◌<◌, [], IfNone, IfSome, bytes_eq, length};
    ghost use Rattle.std.specs.Cmp.Lexicographic.{slice_cmp};
    ghost use Rattle.std.specs.Ordering.{nat_cmp};
    ghost use Rattle.ssa_members.specs.ShortTexts.{short_bytes};

    /// The text without a byte.
    pub fn new() -> ShortText
        ensures { short_bytes result ≡ [] }
    {
        ShortText {
            len: 0,
            bytes: [0; 22],
        }
    }

    /// The text with these bytes, where it is so short.
    #[inline(always)]
    pub fn from_str(text: &str) -> Option<ShortText>
        ensures some { IfSome result (λ s. short_bytes s ≡ text.now) }
        ensures none { IfNone result (22 < length text.now) }
    {
        let len = text.len();
        if len > 22 {
            return None;
        }
        Some(ShortText {
            len: len as u8,
            bytes: held(text.as_bytes()),
        })
    }

    /// The text.
    #[inline(always)]
    pub fn as_str(&self) -> &str
        ensures { result.now ≡ short_bytes self.now }
    {
        unsafe { from_utf8_unchecked(&self.bytes[..self.len as usize]) }
    }

    // Whether both texts have the same bytes, of which both have fewer than eight. Behind them mostly zeros stand, so
    // one comparison mostly tells.
    #[inline(always)]
    fn are_few_same(&self, other: &ShortText) -> bool
        requires lengths { self.now.len ≡ other.now.len }
        requires few { self.now.len < 8 }
        ensures { result ≡ bytes_eq (short_bytes self.now) (short_bytes other.now) }
    {
        if are_eight_same(&self.bytes, &other.bytes, 0) {
            return true;
        }
        if self.bytes[0] != other.bytes[0] {
            return self.len == 0;
        }
        self.as_str() == other.as_str()
    }

    // Whether both texts have the same bytes, of which both have as many, eight at least. The first eight, the last
    // eight and those between are all of them.
    #[inline(always)]
    fn are_many_same(&self, other: &ShortText) -> bool
        requires lengths { self.now.len ≡ other.now.len }
        requires many { 8 ≤ self.now.len }
        ensures { result ≡ bytes_eq (short_bytes self.now) (short_bytes other.now) }
    {
        let len = self.len as usize;
        if !are_eight_same(&self.bytes, &other.bytes, 0) {
            return false;
        }
        if !are_eight_same(&self.bytes, &other.bytes, len - 8) {
            return false;
        }
        len <= 16 || are_eight_same(&self.bytes, &other.bytes, 8)
    }

    /// Whether both texts have the same bytes.
    #[inline(always)]
    pub fn is_same(&self, other: &ShortText) -> bool
        ensures { result ≡ bytes_eq (short_bytes self.now) (short_bytes other.now) }
    {
        if self.len != other.len {
            return false;
        }
        if self.len < 8 {
            self.are_few_same(other)
        } else {
            self.are_many_same(other)
        }
    }

    /// The order of the texts' bytes. Most texts differ in the first one, or not at all.
    #[inline(always)]
    pub fn order(&self, other: &ShortText) -> Ordering
        ensures { result ≡ slice_cmp nat_cmp (short_bytes self.now) (short_bytes other.now) }
    {
        if self.len > 0 && other.len > 0 && self.bytes[0] != other.bytes[0] {
            return self.bytes[0].cmp(&other.bytes[0]);
        }
        if self.is_same(other) {
            return Ordering::Equal;
        }
        self.as_str().cmp(other.as_str())
    }
}
