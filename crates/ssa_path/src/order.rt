//! The order of elements' texts by their bytes. The texts themselves are never made.
ghost use Rattle.std.specs.Prelude.{◌≡◌, ◌≤◌, ◌<◌, ◌+◌, ◌++◌, [], ◌∷◌, false, length, take, drop, IfSome, Some};
ghost use Rattle.std.specs.Ordering.{nat_cmp};
ghost use Rattle.std.specs.Cmp.Lexicographic.{slice_cmp};
ghost use Rattle.ssa_members.specs.Texts.{text_bytes};
ghost use Rattle.ssa_model.specs.definitions.Json.{compact_members, quoted, scalar_text, whole_text};
ghost use Rattle.ssa_model.specs.definitions.Path.{key_members};
ghost use Rattle.ssa_json.specs.View.{scalar_view};
ghost use Rattle.ssa_path.specs.Keys.{members_view};
ghost use Rattle.ssa_path.specs.Order.{mark, member_text, key_end, BeginAlike};

use itoa::Buffer;
use ssa_json::quotes::escape;
use ssa_json::value::Scalar;
use ssa_members::SmallText;
use ssa_members::words::{eight_at, four_at};
use std::cmp::Ordering;

// A byte of a text as JSON has it in quotes, or the closing quote; and how many bytes that takes.
fn mark(byte: Option<u8>) -> ([u8; 6], usize)
    ensures within { result.1 ≤ 6 }
    ensures bytes { take result.1 result.0 ≡ mark byte }
{
    match byte {
        None => ([b'"', 0, 0, 0, 0, 0], 1),
        Some(byte) => escape(byte),
    }
}

// The mark where it is a single byte.
#[inline(always)]
fn single_mark(byte: Option<u8>) -> Option<u8>
    ensures { IfSome result (λ only. mark byte ≡ only ∷ []) }
{
    match byte {
        None => Some(b'"'),
        Some(b'"') => None,
        Some(b'\\') => None,
        Some(byte) => { if byte < 0x20 { None } else { Some(byte) } }
    }
}

fn order_escapes(byte: Option<u8>, other: Option<u8>) -> Ordering
    ensures { result ≡ slice_cmp nat_cmp (mark byte) (mark other) }
{
    let (bytes, len) = mark(byte);
    let (other_bytes, other_len) = mark(other);
    bytes[..len].cmp(&other_bytes[..other_len])
}

// Most marks are single bytes, which are compared with no arrays.
#[inline(always)]
fn order_marks(byte: Option<u8>, other: Option<u8>) -> Ordering
    ensures { result ≡ slice_cmp nat_cmp (mark byte) (mark other) }
{
    match (single_mark(byte), single_mark(other)) {
        (Some(own), Some(others)) => own.cmp(&others),
        _ => order_escapes(byte, other),
    }
}

// The order of two bytes as texts have them in quotes. Letters and digits, among others, stand for themselves.
#[inline(always)]
fn order_bytes(byte: u8, other: u8) -> Ordering
    ensures { result ≡ slice_cmp nat_cmp (mark (Some byte)) (mark (Some other)) }
{
    if byte > b'"' && byte != b'\\' && other > b'"' && other != b'\\' {
        byte.cmp(&other)
    } else {
        order_escapes(Some(byte), Some(other))
    }
}

/// How many bytes both texts begin with alike, in whole eights: eight are one comparison.
#[inline(always)]
pub fn alike_in_eights(text: &[u8], other: &[u8]) -> usize
    ensures { BeginAlike text.now other.now result }
{
    let mut i = 0;
    while text.len() - i >= 8 && other.len() - i >= 8 && eight_at(text, i) == eight_at(other, i) {
        i += 8;
    }
    i
}

/// Passes four bytes that both texts have alike at the place.
#[inline(always)]
pub fn past_four(text: &[u8], other: &[u8], i: usize) -> usize
    requires { BeginAlike text.now other.now i }
    ensures { BeginAlike text.now other.now result }
{
    if text.len() - i >= 4 && other.len() - i >= 4 && four_at(text, i) == four_at(other, i) {
        i + 4
    } else {
        i
    }
}

// The order of two texts in quotes.
#[inline(always)]
pub fn order_quoted(text: &[u8], other: &[u8]) -> Ordering
    ensures { result ≡ slice_cmp nat_cmp (quoted text.now) (quoted other.now) }
{
    let eights = alike_in_eights(text, other);
    let mut i = past_four(text, other, eights);
    let both = text.len().min(other.len());
    while i < both {
        if text[i] != other[i] {
            return order_bytes(text[i], other[i]);
        }
        i += 1;
    }
    order_marks(text.get(i).copied(), other.get(i).copied())
}

// The order of two texts in quotes. Most texts of a list differ in their first byte, or are the same. Those that begin
// alike mostly differ in their last byte.
#[inline(always)]
fn order_texts(text: &SmallText, other: &SmallText) -> Ordering
    ensures { result ≡ slice_cmp nat_cmp (quoted (text_bytes text.now)) (quoted (text_bytes other.now)) }
{
    let bytes = text.as_bytes();
    let others = other.as_bytes();
    if bytes.len() > 0 && others.len() > 0 {
        if bytes[0] != others[0] {
            return order_bytes(bytes[0], others[0]);
        }
        if bytes[bytes.len() - 1] == others[others.len() - 1] && text.is_same(other) {
            return Ordering::Equal;
        }
    }
    order_quoted(bytes, others)
}

// The order of two names in quotes. Those at one place of two objects are mostly the same.
#[inline(always)]
fn order_names(name: &SmallText, other: &SmallText) -> Ordering
    ensures { result ≡ slice_cmp nat_cmp (quoted (text_bytes name.now)) (quoted (text_bytes other.now)) }
{
    if name.is_same(other) {
        Ordering::Equal
    } else {
        order_quoted(name.as_bytes(), other.as_bytes())
    }
}

// The order of what stands behind two scalars, where it is not one byte and not none.
#[inline(never)]
fn order_long_ends(end: &[u8], other: &[u8]) -> Ordering
    ensures { result ≡ slice_cmp nat_cmp end.now other.now }
{
    end.cmp(other)
}

// The order of what stands behind two scalars. It is one byte or none.
#[inline(always)]
fn order_ends(end: &[u8], other: &[u8]) -> Ordering
    ensures { result ≡ slice_cmp nat_cmp end.now other.now }
{
    match (end, other) {
        ([], []) => Ordering::Equal,
        ([byte], [other_byte]) => byte.cmp(other_byte),
        _ => order_long_ends(end, other),
    }
}

// The order of the numbers' digits, each with an end behind it.
#[inline(never)]
fn order_numbers(number: i64, end: &[u8], other: i64, other_end: &[u8]) -> Ordering
    ensures { result ≡ slice_cmp nat_cmp (whole_text number ++ end.now) (whole_text other ++ other_end.now) }
{
    let mut digits = Buffer::new();
    let mut other_digits = Buffer::new();
    let text = digits.format(number).as_bytes();
    let other_text = other_digits.format(other).as_bytes();
    text.iter()
        .chain(end)
        .cmp(other_text.iter().chain(other_end))
}

// The order of the scalars' texts, each with an end behind it.
#[inline(always)]
pub fn order_scalars(scalar: &Scalar, end: &[u8], other: &Scalar, other_end: &[u8]) -> Ordering
    ensures { result ≡ slice_cmp nat_cmp (scalar_text (scalar_view scalar.now) ++ end.now) (scalar_text (scalar_view other.now) ++ other_end.now) }
{
    match (scalar, other) {
        (Scalar::Text(text), Scalar::Text(other_text)) => {
            match order_texts(text, other_text) {
                Ordering::Equal => order_ends(end, other_end),
                found => found,
            }
        }
        (Scalar::Text(_), Scalar::Int(_)) => Ordering::Less,
        (Scalar::Text(_), Scalar::Bool(_)) => Ordering::Less,
        (Scalar::Int(_), Scalar::Text(_)) => Ordering::Greater,
        (Scalar::Bool(_), Scalar::Text(_)) => Ordering::Greater,
        (Scalar::Int(number), Scalar::Int(other_number)) => {
            order_numbers(*number, end, *other_number, other_end)
        }
        (Scalar::Int(_), Scalar::Bool(_)) => Ordering::Less,
        (Scalar::Bool(_), Scalar::Int(_)) => Ordering::Greater,
        (Scalar::Bool(truth), Scalar::Bool(other_truth)) => {
            truth.cmp(other_truth).then(order_ends(end, other_end))
        }
    }
}

/// The order of the scalars' texts.
pub fn order_values(scalar: &Scalar, other: &Scalar) -> Ordering
    ensures { result ≡ slice_cmp nat_cmp (scalar_text (scalar_view scalar.now)) (scalar_text (scalar_view other.now)) }
{
    order_scalars(scalar, b"", other, b"")
}

// What stands behind the member at a place of an object.
fn end_at(keys: &[(SmallText, Scalar)], i: usize) -> &'static [u8]
    requires { i < length keys.now }
    ensures { result.now ≡ key_end (drop (i + 1) (members_view keys.now)) }
{
    if i + 1 < keys.len() { b"," } else { b"}" }
}

// The order of the members at a place of two objects, with what stands behind them.
fn order_members(keys: &[(SmallText, Scalar)], others: &[(SmallText, Scalar)], i: usize) -> Ordering
    requires own { i < length keys.now }
    requires others { i < length others.now }
    ensures { result ≡ slice_cmp nat_cmp (member_text (drop i (members_view keys.now)))
        (member_text (drop i (members_view others.now))) }
{
    let own = &keys[i];
    let other = &others[i];
    match order_names(&own.0, &other.0) {
        Ordering::Equal => { order_scalars(&own.1, end_at(keys, i), &other.1, end_at(others, i)) }
        found => found,
    }
}

// The order of the key fields as the members of an object.
pub fn order_keys(keys: &[(SmallText, Scalar)], others: &[(SmallText, Scalar)]) -> Ordering
    ensures { result ≡ slice_cmp nat_cmp (compact_members false (key_members (members_view keys.now)))
        (compact_members false (key_members (members_view others.now))) }
{
    let mut i = 0;
    while i < keys.len() && i < others.len() {
        let order = order_members(keys, others, i);
        if order.is_ne() {
            return order;
        }
        i += 1;
    }
    others.len().cmp(&keys.len())
}
