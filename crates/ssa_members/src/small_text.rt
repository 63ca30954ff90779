//! Texts that take no memory of their own where they are short.
ghost use Rattle.std.specs.Prelude.{IsUtf8};
ghost use Rattle.ssa_members.specs.SmallTexts.{place_bytes};

use crate::short_text::ShortText;
use std::alloc::{AllocError, Global};
use std::cmp::Ordering;
use std::fmt;

// Where the bytes stand.
#[derive(Drop)]
enum Place {
    Within(ShortText),
    Beyond(Box<String>),
}

/// A text of which up to 22 bytes stand in the value itself, and more in memory of their own.
///
/// The names of fields are mostly so short: to copy or to drop one of them takes no call of the allocator, and to compare
/// two of them reads no other memory.
#[derive(Drop)]
pub struct SmallText {
    place: Place,
    ghost utf8: { ∥ IsUtf8 (place_bytes place) ∥₁ },
}

impl SmallText {
    ghost use Rattle.std.specs.Prelude.{◌≡◌, ◌<◌, [], true, IfNone, IfOk, IfSome, bytes_eq, length, string_bytes};
    ghost use Rattle.std.specs.Cmp.Lexicographic.{slice_cmp};
    ghost use Rattle.std.specs.Ordering.{nat_cmp};
    ghost use Rattle.ssa_members.specs.Texts.{is_short, text_bytes};

    /// The text without a byte. Takes no memory.
    pub fn new() -> SmallText
        ensures { text_bytes result ≡ [] }
    {
        SmallText {
            place: Place::Within(ShortText::new()),
        }
    }

    /// The text with these bytes, where they are so few that it takes no memory.
    #[inline(always)]
    pub fn short(text: &str) -> Option<SmallText>
        ensures some { IfSome result (λ t. text_bytes t ≡ text.now) }
        ensures short { IfSome result (λ t. is_short t ≡ true) }
        ensures none { IfNone result (22 < length text.now) }
    {
        match ShortText::from_str(text) {
            Some(short) => Some(SmallText {
                place: Place::Within(short),
            }),
            None => None,
        }
    }

    /// The text with these bytes.
    #[inline(always)]
    pub fn from_str(alloc: Global, text: &str) -> Result<SmallText, AllocError>
        ensures ok { IfOk result (λ t. text_bytes t ≡ text.now) }
    {
        if let Some(short) = ShortText::from_str(text) {
            return Ok(SmallText {
                place: Place::Within(short),
            });
        }
        SmallText::from_long(alloc, text)
    }

    // These bytes in memory of their own. It gives a pointer alone, so that no text that is mostly short need stand in
    // memory for a call.
    #[inline(never)]
    fn boxed(alloc: Global, text: &str) -> Result<Box<String>, AllocError>
        ensures ok { IfOk result (λ b. string_bytes b.value ≡ text.now) }
    {
        Ok(Box::new(alloc, String::from_str(alloc, text)?)?)
    }

    // The text with these bytes, in memory of its own.
    #[inline(always)]
    fn from_long(alloc: Global, text: &str) -> Result<SmallText, AllocError>
        ensures ok { IfOk result (λ t. text_bytes t ≡ text.now) }
    {
        Ok(SmallText {
            place: Place::Beyond(SmallText::boxed(alloc, text)?),
        })
    }

    /// The same text. A long one keeps its memory, and that of a short one is given back.
    pub fn from_string(alloc: Global, text: String) -> Result<SmallText, AllocError>
        ensures ok { IfOk result (λ t. text_bytes t ≡ string_bytes text) }
    {
        if let Some(short) = ShortText::from_str(text.as_str()) {
            return Ok(SmallText {
                place: Place::Within(short),
            });
        }
        let long = Box::new(alloc, text)?;
        Ok(SmallText {
            place: Place::Beyond(long),
        })
    }

    /// The text.
    #[inline(always)]
    pub fn as_str(&self) -> &str
        ensures value { result.now ≡ text_bytes self.now }
    {
        match &self.place {
            Place::Within(short) => short.as_str(),
            Place::Beyond(long) => long.as_str(),
        }
    }

    /// The text's bytes.
    #[inline(always)]
    pub fn as_bytes(&self) -> &[u8]
        ensures value { result.now ≡ text_bytes self.now }
    {
        self.as_str().as_bytes()
    }

    /// Whether both texts have the same bytes. Two short ones are compared with no call.
    #[inline(always)]
    pub fn is_same(&self, other: &SmallText) -> bool
        ensures { result ≡ bytes_eq (text_bytes self.now) (text_bytes other.now) }
    {
        match (&self.place, &other.place) {
            (Place::Within(own), Place::Within(others)) => own.is_same(others),
            _ => self.as_str() == other.as_str(),
        }
    }

    /// The order of the texts' bytes. Two short ones that are the same, or whose first bytes differ, are compared
    /// with no call.
    #[inline(always)]
    pub fn order(&self, other: &SmallText) -> Ordering
        ensures { result ≡ slice_cmp nat_cmp (text_bytes self.now) (text_bytes other.now) }
    {
        match (&self.place, &other.place) {
            (Place::Within(own), Place::Within(others)) => own.order(others),
            _ => self.as_str().cmp(other.as_str()),
        }
    }

    /// The same text. A short one takes no memory.
    #[inline(always)]
    pub fn copy(&self, alloc: Global) -> Result<SmallText, AllocError>
        ensures { IfOk result (λ t. text_bytes t ≡ text_bytes self.now) }
    {
        match &self.place {
            Place::Within(short) => Ok(SmallText {
                place: Place::Within(*short),
            }),
            Place::Beyond(long) => SmallText::from_long(alloc, long.as_str()),
        }
    }

    /// Whether the text is so short that it stands in the value itself.
    #[inline(always)]
    pub fn is_short(&self) -> bool
        ensures { result ≡ is_short self.now }
    {
        match &self.place {
            Place::Within(_) => true,
            Place::Beyond(_) => false,
        }
    }

    /// The same text, which is short. Takes no memory and cannot fail.
    #[inline(always)]
    pub fn copy_short(&self) -> SmallText
        requires { is_short self.now ≡ true }
        ensures { text_bytes result ≡ text_bytes self.now }
    {
        match &self.place {
            Place::Within(short) => SmallText {
                place: Place::Within(*short),
            },
            Place::Beyond(_) => unreachable!(),
        }
    }
}

impl fmt::Debug for SmallText {
    fn fmt<W: fmt::Write>(&self, f: &mut fmt::Formatter<W>) -> fmt::Result {
        fmt::Debug::fmt(self.as_str(), f)
    }
}
