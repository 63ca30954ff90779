//! What bytes and texts are between quotes.
ghost use Rattle.std.specs.Prelude.{◌≡◌, ◌<◌, ◌≤◌, ◌+◌, ◌++◌, length, take, OnOk};
ghost use Rattle.std.specs.Bool.{OnTrue};
ghost use Rattle.json.specs.Run.{is_plain};
ghost use Rattle.json.specs.Written.{PlainBetween};
ghost use Rattle.ssa_model.specs.definitions.Json.{escaped, escaped_byte, hex_digit};

use std::alloc::AllocError;
use std::simd::prelude::*;

// Most texts need no escapes. Sixteen bytes tell it at a time, of a short text eight or four; the last overlap those before.
#[inline(always)]
fn are_four_plain(text: &[u8], at: usize) -> bool
    requires { at + 4 ≤ length text.now }
    ensures { OnTrue result (PlainBetween text.now at (at + 4)) }
{
    let bytes = u8x4::from_slice(&text[at..]);
    (bytes.simd_eq(u8x4::splat(b'"'))
        | bytes.simd_eq(u8x4::splat(b'\\'))
        | bytes.simd_lt(u8x4::splat(0x20))).to_bitmask()
        == 0
}

#[inline(always)]
fn are_eight_plain(text: &[u8], at: usize) -> bool
    requires { at + 8 ≤ length text.now }
    ensures { OnTrue result (PlainBetween text.now at (at + 8)) }
{
    let bytes = u8x8::from_slice(&text[at..]);
    (bytes.simd_eq(u8x8::splat(b'"'))
        | bytes.simd_eq(u8x8::splat(b'\\'))
        | bytes.simd_lt(u8x8::splat(0x20))).to_bitmask()
        == 0
}

#[inline(always)]
fn are_sixteen_plain(text: &[u8], at: usize) -> bool
    requires { at + 16 ≤ length text.now }
    ensures { OnTrue result (PlainBetween text.now at (at + 16)) }
{
    let bytes = u8x16::from_slice(&text[at..]);
    (bytes.simd_eq(u8x16::splat(b'"'))
        | bytes.simd_eq(u8x16::splat(b'\\'))
        | bytes.simd_lt(u8x16::splat(0x20))).to_bitmask()
        == 0
}

// Whether a byte stands for itself between quotes.
#[inline(always)]
fn is_plain(byte: u8) -> bool
    ensures { result ≡ is_plain byte }
{
    byte != b'"' && byte != b'\\' && byte >= 0x20
}

#[inline(always)]
fn are_few_plain(text: &[u8]) -> bool
    ensures { OnTrue result (PlainBetween text.now 0 (length text.now)) }
{
    for byte in text {
        if !is_plain(*byte) {
            return false;
        }
    }
    true
}

#[inline(always)]
fn are_many_plain(text: &[u8]) -> bool
    requires { 16 ≤ length text.now }
    ensures { OnTrue result (PlainBetween text.now 0 (length text.now)) }
{
    let mut at = 0;
    while text.len() - at > 16 {
        if !are_sixteen_plain(text, at) {
            return false;
        }
        at += 16;
    }
    are_sixteen_plain(text, text.len() - 16)
}

#[inline(always)]
fn are_all_plain(text: &[u8]) -> bool
    ensures { OnTrue result (PlainBetween text.now 0 (length text.now)) }
{
    let len = text.len();
    if len >= 16 {
        are_many_plain(text)
    } else if len >= 8 {
        are_eight_plain(text, 0) && are_eight_plain(text, len - 8)
    } else if len >= 4 {
        are_four_plain(text, 0) && are_four_plain(text, len - 4)
    } else {
        are_few_plain(text)
    }
}

/// Whether a text stands between quotes as it is. Its callers need to know only that it does where this says so: the other
/// way is as right, and slower.
#[inline(always)]
pub fn has_no_escapes(text: &[u8]) -> bool
    ensures { OnTrue result (escaped text.now ≡ text.now) }
{
    are_all_plain(text)
}

// A digit of a hexadecimal number.
fn hex_digit(digit: u8) -> u8
    requires { digit < 16 }
    ensures { result ≡ hex_digit digit }
{
    if digit < 10 {
        b'0' + digit
    } else {
        b'a' + (digit - 10)
    }
}

/// A byte as it stands between quotes, and how many bytes that takes.
pub fn escape(byte: u8) -> ([u8; 6], usize)
    ensures within { result.1 ≤ 6 }
    ensures bytes { take result.1 result.0 ≡ escaped_byte byte }
{
    match byte {
        b'"' => ([b'\\', b'"', 0, 0, 0, 0], 2),
        b'\\' => ([b'\\', b'\\', 0, 0, 0, 0], 2),
        0x08 => ([b'\\', b'b', 0, 0, 0, 0], 2),
        b'\t' => ([b'\\', b't', 0, 0, 0, 0], 2),
        b'\n' => ([b'\\', b'n', 0, 0, 0, 0], 2),
        0x0C => ([b'\\', b'f', 0, 0, 0, 0], 2),
        b'\r' => ([b'\\', b'r', 0, 0, 0, 0], 2),
        _ => {
            if byte < 0x20 {
                let (high, low) = (hex_digit(byte / 16), hex_digit(byte % 16));
                ([b'\\', b'u', b'0', b'0', high, low], 6)
            } else {
                ([byte, 0, 0, 0, 0, 0], 1)
            }
        }
    }
}

// Appends a byte as it stands between quotes.
#[inline(always)]
pub(crate) fn push_escaped(text: &mut Vec<u8>, byte: u8) -> Result<(), AllocError>
    ensures { OnOk result (text.new.items ≡ text.old.items ++ escaped_byte byte) }
{
    if is_plain(byte) {
        text.push(byte)?;
        return Ok(());
    }
    let (bytes, len) = escape(byte);
    text.extend_from_slice(&bytes[..len])
}
