//! Numbers that mostly tell how the elements of one list stand.
//!
//! Elements of one list have texts that begin alike. A number of the bytes behind what they share is
//! quick to compare; only where two numbers are equal the texts are to be looked at.
ghost use Rattle.std.specs.Prelude.{◌≡◌, drop, IfSome};
ghost use Rattle.std.specs.List.{All};
ghost use Rattle.ssa_path.specs.Order.{BeginAlike};
ghost use Rattle.ssa_path.specs.SortKeys.{AreBytes, BeginsWith, IsShared, element_key, is_plain, next_byte, next_rest, sort_key};
ghost use Rattle.ssa_path.specs.View.{element_view};

use crate::element::Elem;
use crate::leading_text::leading_text;
use crate::order::{alike_in_eights, past_four};

// How many bytes both texts begin with alike.
fn alike_bytes(text: &[u8], other: &[u8]) -> usize
    ensures alike { BeginAlike text.now other.now result }
    ensures bytes { AreBytes other.now }
{
    let eights = alike_in_eights(text, other);
    let mut i = past_four(text, other, eights);
    while i < text.len() && i < other.len() && text[i] == other[i] {
        i += 1;
    }
    i
}

// What the bytes share with the text that stands first in the element, where that text is like the
// first element's.
fn shared_with<'a>(start: &'a [u8], first: &Elem, element: &Elem) -> Option<&'a [u8]>
    ensures { IfSome result (λ shared. IsShared start.now (element_view first.now) (element_view element.now) shared.now) }
{
    let text = leading_text(first, element)?;
    Some(&start[..alike_bytes(start, text)])
}

/// What the texts that stand first in the elements of a list begin with, as far as it is the same in
/// all of them. The first element tells what is to stand in front of them.
pub fn shared_start<'a, T>(first: &'a Elem, children: &[(Elem, T)]) -> Option<&'a [u8]>
    ensures { IfSome result (λ start. All (λ c. BeginsWith start.now (element_view first.now) (element_view c.0)) children.now) }
{
    let mut start = leading_text(first, first)?;
    for child in children {
        start = shared_with(start, first, &child.0)?;
    }
    Some(start)
}

// Whether the byte stands for itself in a text in quotes.
#[inline(always)]
fn is_plain(byte: u8) -> bool
    ensures { result ≡ is_plain byte }
{
    byte != b'"' && byte != b'\\' && byte >= 0x20
}

// The byte that comes next in quotes, and the text behind it: an escape tells only its slash.
#[inline(always)]
fn next_byte(text: &[u8]) -> (u8, &[u8])
    ensures byte { result.0 ≡ next_byte text.now }
    ensures rest { result.1.now ≡ next_rest text.now }
{
    match text {
        [] => (b'"', text),
        [byte, rest @ ..] => {
            if is_plain(*byte) {
                (*byte, rest)
            } else {
                (b'\\', &[])
            }
        }
    }
}

// The bytes of the text behind so many.
fn behind(text: &[u8], skip: usize) -> &[u8]
    ensures { result.now ≡ drop skip text.now }
{
    if skip <= text.len() {
        &text[skip..]
    } else {
        &[]
    }
}

// The number of the eight bytes behind so many, as the text has them in quotes.
fn sort_key(text: &[u8], skip: usize) -> u64
    ensures { result ≡ sort_key skip text.now }
{
    let mut rest = behind(text, skip);
    let mut key: u64 = 0;
    for i in 0..8_usize {
        let (byte, left) = next_byte(rest);
        key = key * 256 + u64::from(byte);
        rest = left;
    }
    key
}

/// The number of an element of a list, behind so many bytes of the text that stands first in it.
///
/// Of two elements whose texts share these bytes the one with the lesser number stands first.
pub fn element_key(first: &Elem, skip: usize, element: &Elem) -> u64
    ensures { result ≡ element_key (element_view first.now) skip (element_view element.now) }
{
    match leading_text(first, element) {
        Some(text) => sort_key(text, skip),
        None => 0,
    }
}
