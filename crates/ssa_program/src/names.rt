//! Names of files, as people are told them.
ghost use Rattle.std.specs.Prelude.{◌≡◌, ◌++◌, IfOk, OnOk};
ghost use Rattle.ssa_program.specs.Names.{byte_at, escaped, escaped_byte, hidden_length, is_hidden_pair, is_hidden_triple, is_within, named_line, told_byte};

use std::alloc::{AllocError, Global};

const HEX_DIGITS: &[u8; 16] = b"0123456789abcdef";

// Appends a byte as `\xNN`.
fn push_escaped(text: &mut Vec<u8>, byte: u8) -> Result<(), AllocError>
    ensures { OnOk result (text.new.items ≡ text.old.items ++ escaped_byte byte) }
{
    text.extend_from_slice(b"\\x")?;
    text.push(HEX_DIGITS[usize::from(byte / 16)])?;
    text.push(HEX_DIGITS[usize::from(byte % 16)])?;
    Ok(())
}

// The byte at a place, and 0 behind the end.
fn byte_at(bytes: &[u8], place: usize) -> u8
    ensures { result ≡ byte_at bytes.now place }
{
    match bytes.get(place) {
        Some(byte) => *byte,
        None => 0,
    }
}

// How many bytes the first character has, if it is a control character or one that turns the direction of a line (U+0080 to
// U+009F, U+061C, U+200E, U+200F, U+202A to U+202E, U+2066 to U+2069), and else 0.
fn hidden_length(bytes: &[u8]) -> usize
    ensures { result ≡ hidden_length bytes.now }
{
    let first = byte_at(bytes, 0);
    let second = byte_at(bytes, 1);
    let third = byte_at(bytes, 2);
    if first < 32 || first == 127 {
        1
    } else if is_hidden_pair(first, second) {
        2
    } else if is_hidden_triple(first, second, third) {
        3
    } else {
        0
    }
}

fn is_within(least: u8, most: u8, byte: u8) -> bool
    ensures { result ≡ is_within least most byte }
{
    !(byte < least) && !(most < byte)
}

fn is_hidden_pair(first: u8, second: u8) -> bool
    ensures { result ≡ is_hidden_pair first second }
{
    first == 0xc2 && is_within(0x80, 0x9f, second) || first == 0xd8 && second == 0x9c
}

fn is_hidden_triple(first: u8, second: u8, third: u8) -> bool
    ensures { result ≡ is_hidden_triple first second third }
{
    first == 0xe2
        && (second == 0x80 && (is_within(0x8e, 0x8f, third) || is_within(0xaa, 0xae, third))
            || second == 0x81 && is_within(0xa6, 0xa9, third))
}

// Appends the first of the bytes, of which so many are to be escaped, or none.
fn push_told(text: &mut Vec<u8>, byte: u8, hidden: usize) -> Result<(), AllocError>
    ensures { OnOk result (text.new.items ≡ text.old.items ++ told_byte hidden byte) }
{
    if hidden == 0 {
        text.push(byte)?;
        return Ok(());
    }
    push_escaped(text, byte)
}

/// Appends a name. It takes one line, and is what it looks like, whatever it is.
pub fn push_name(text: &mut Vec<u8>, name: &str) -> Result<(), AllocError>
    ensures { OnOk result (text.new.items ≡ text.old.items ++ escaped name.now) }
{
    let mut rest = name.as_bytes();
    let mut left = 0;
    while !rest.is_empty() {
        let hidden = if left == 0 { hidden_length(rest) } else { left };
        push_told(text, rest[0], hidden)?;
        left = hidden.saturating_sub(1);
        rest = &rest[1..];
    }
    Ok(())
}

/// What is told of a file, with its name between.
pub fn named_line(
    alloc: Global,
    before: &str,
    name: &str,
    after: &str,
) -> Result<Vec<u8>, AllocError>
    ensures { IfOk result (λ text. text.items ≡ named_line before.now name.now after.now) }
{
    let mut text = before.as_bytes().to_vec(alloc)?;
    push_name(&mut text, name)?;
    text.extend_from_slice(after.as_bytes())?;
    Ok(text)
}
