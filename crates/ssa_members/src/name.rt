//! Names of members.
ghost use Rattle.std.specs.Prelude.{◌≡◌, ◌<◌, [], IfNone, IfOk, IfSome, Some, length, refl, string_bytes, string_cmp, string_eq};
ghost use Rattle.std.specs.Cmp.{on_equiv, on_total, on_po, on_per, partial_equiv_from_equiv};
ghost use Rattle.std.specs.Cmp.Lexicographic.{nat_list_eq_equiv, nat_list_cmp_total, texts_po, texts_ties};
ghost use Rattle.ssa_members.specs.Texts.{text_bytes};

use crate::small_text::SmallText;
use std::alloc::{AllocError, Global};
use std::cmp::Ordering;
use std::fmt;
use std::marker::Model;

/// The name of a member. A short one takes no memory of its own, as in a [`SmallText`]; in contracts it is the
/// string of its bytes.
#[derive(Drop)]
pub struct Name {
    text: SmallText,
}

impl Model for Name {
    ghost use Rattle.std.specs.Prelude.{String};
    ghost use Rattle.std.specs.declared.alloc.Global.{Global};
    ghost use Rattle.ssa_members.specs.Names.{string_at, string_code};

    ghost Value = { String Global };

    ghost coded = { string_code };

    ghost view = { λ n. string_at n.text.place n.text.utf8 };
}

impl Name {
    /// The name without a byte. Takes no memory.
    pub fn new() -> Name
        ensures { string_bytes result ≡ [] }
    {
        Name {
            text: SmallText::new(),
        }
    }

    /// The name with these bytes, where they are so few that it takes no memory.
    #[inline(always)]
    pub fn short(text: &str) -> Option<Name>
        ensures some { IfSome result (λ n. string_bytes n ≡ text.now) }
        ensures none { IfNone result (22 < length text.now) }
    {
        match SmallText::short(text) {
            Some(text) => Some(Name { text }),
            None => None,
        }
    }

    /// The name with these bytes.
    #[inline(always)]
    pub fn from_str(alloc: Global, text: &str) -> Result<Name, AllocError>
        ensures ok { IfOk result (λ n. string_bytes n ≡ text.now) }
    {
        Ok(Name {
            text: SmallText::from_str(alloc, text)?,
        })
    }

    /// The name that is this text.
    pub fn from_string(alloc: Global, text: String) -> Result<Name, AllocError>
        ensures ok { IfOk result (λ n. string_bytes n ≡ string_bytes text) }
    {
        Ok(Name {
            text: SmallText::from_string(alloc, text)?,
        })
    }

    /// The name's text.
    #[inline(always)]
    pub fn as_str(&self) -> &str
        ensures value { result.now ≡ string_bytes self.now }
    {
        self.text.as_str()
    }

    /// The same name. A short one takes no memory.
    #[inline(always)]
    pub fn copy(&self, alloc: Global) -> Result<Name, AllocError>
        ensures { IfOk result (λ n. string_bytes n ≡ string_bytes self.now) }
    {
        Ok(Name {
            text: self.text.copy(alloc)?,
        })
    }

    /// The name as a text. Takes no memory.
    #[inline(always)]
    pub fn into_text(self) -> SmallText
        ensures { text_bytes result ≡ string_bytes self }
    {
        let Name { text } = self;
        text
    }
}

impl PartialEq for Name {
    ghost eq = { string_eq };

    ghost laws = { on_per (λ x. string_bytes x) (partial_equiv_from_equiv nat_list_eq_equiv) };

    fn eq(&self, other: &Name) -> bool {
        self.text.is_same(&other.text)
    }
}

impl Eq for Name {
    ghost laws = { on_equiv (λ x. string_bytes x) nat_list_eq_equiv };
}

impl PartialOrd for Name {
    ghost partial_cmp = { λ x y. Some (string_cmp x y) };

    ghost laws = { on_po (λ x. string_bytes x) texts_po };

    fn partial_cmp(&self, other: &Name) -> Option<Ordering> {
        Some(self.cmp(other))
    }
}

impl Ord for Name {
    ghost cmp = { string_cmp };

    ghost total = { on_total (λ x. string_bytes x) nat_list_cmp_total };

    ghost matches_partial_cmp = { λ x y. refl };

    ghost matches_eq = { λ x y. texts_ties (string_bytes x) (string_bytes y) };

    #[inline(always)]
    fn cmp(&self, other: &Name) -> Ordering {
        self.text.order(&other.text)
    }
}

impl fmt::Debug for Name {
    fn fmt<W: fmt::Write>(&self, f: &mut fmt::Formatter<W>) -> fmt::Result {
        fmt::Debug::fmt(self.as_str(), f)
    }
}
