//! Moments, to the second.
ghost use Rattle.std.specs.Prelude.{◌≡◌, ◌+◌, ◌<◌, ◌&&◌, ◌↔◌, length, IsOk, IfOk, IfSome, IsTrue, codes, string_bytes};
ghost use Rattle.ssa_json.specs.Moment.{is_moment, is_date, is_time, digit_of, two_at, parts_of, has_marks, IsSmall};

use jiff::civil::{Date, Time};
use std::alloc::{AllocError, Global};
use std::marker::Model;
use std::str;
use thiserror::Error;

/// A text that is no moment.
#[derive(Clone, Copy, Debug, PartialEq, Eq, Error)]
#[error("no moment")]
pub struct BadMoment;

/// A moment, as its text of 20 bytes: a date and a time of RFC 3339 in UTC, with no fraction of a
/// second and no leap second.
#[derive(Clone, Copy, Debug, PartialEq, Eq)]
pub struct Moment {
    bytes: [u8; 20],
}

impl Model for Moment {
    ghost use Rattle.std.specs.Prelude.{List, ℕ, IsTrue};
    ghost use Rattle.ssa_json.specs.Moment.{is_moment};

    ghost Value = { List ℕ };

    ghost view = { λ m. m.bytes };

    ghost invariant = { λ m. IsTrue (is_moment m.bytes) };

    ghost inverse = { λ bytes. record { bytes = bytes } };
}

impl Moment {
    /// Reads a moment, as `2024-02-29T23:59:59Z`, of the years 1970 to 9999.
    #[tactic(auto, using(crate::proofs::Moments::moment_length))]
    pub fn read(text: &str) -> Result<Moment, BadMoment>
        ensures succeeds { IsOk result ↔ IsTrue (is_moment text.now) }
        ensures value { IfOk result (λ m. m ≡ text.now) }
    {
        if !is_moment(text.as_bytes()) {
            return Err(BadMoment);
        }
        let mut bytes = [0; 20];
        bytes.copy_from_slice(text.as_bytes());
        Ok(Moment { bytes })
    }

    /// The first moment of all, the beginning of 1970.
    pub fn first() -> Moment
        ensures { result ≡ codes "1970-01-01T00:00:00Z" }
    {
        Moment {
            bytes: *b"1970-01-01T00:00:00Z",
        }
    }

    /// The text.
    pub fn write(&self) -> [u8; 20]
        ensures text { result ≡ self.now }
        ensures moment { IsTrue (is_moment self.now) }
    {
        self.bytes
    }

    /// The text as a `String`.
    pub fn to_text(&self, alloc: Global) -> Result<String, AllocError>
        ensures { IfOk result (λ text. string_bytes text ≡ self.now) }
    {
        let Ok(text) = str::from_utf8(&self.bytes) else {
            unreachable!("the bytes of a moment are ASCII");
        };
        String::from_str(alloc, text)
    }
}

#[derive(Clone, Copy)]
struct Parts {
    year: u16,
    month: u8,
    day: u8,
    hour: u8,
    minute: u8,
    second: u8,
}

#[tactic(auto, unfolding(crate::specs::Moment::is_moment))]
fn is_moment(bytes: &[u8]) -> bool
    ensures { result ≡ is_moment bytes.now }
{
    if bytes.len() != 20 || !is_marked(bytes) {
        return false;
    }
    match parts_of(bytes) {
        Some(parts) => is_in_calendar(parts),
        None => false,
    }
}

fn is_marked(bytes: &[u8]) -> bool
    requires { length bytes.now ≡ 20 }
    ensures { result ≡ has_marks bytes.now }
{
    bytes[4] == b'-'
        && bytes[7] == b'-'
        && bytes[10] == b'T'
        && bytes[13] == b':'
        && bytes[16] == b':'
        && bytes[19] == b'Z'
}

#[tactic(auto, unfolding(crate::specs::Moment::digit_of))]
fn digit(byte: u8) -> Option<u8>
    ensures value { result ≡ digit_of byte }
    ensures small { IfSome result (λ d. d < 10) }
{
    if byte >= b'0' && byte <= b'9' {
        Some(byte - b'0')
    } else {
        None
    }
}

#[tactic(auto, unfolding(crate::specs::Moment::two_at))]
fn two_digits(bytes: &[u8], at: usize) -> Option<u8>
    requires { at + 1 < length bytes.now }
    ensures value { result ≡ two_at bytes.now at }
    ensures small { IfSome result (λ n. n < 100) }
{
    let tens = digit(bytes[at])?;
    let units = digit(bytes[at + 1])?;
    Some(10 * tens + units)
}

#[tactic(auto, unfolding(crate::specs::Moment::parts_of))]
fn parts_of(bytes: &[u8]) -> Option<Parts>
    requires { length bytes.now ≡ 20 }
    ensures value { result ≡ parts_of bytes.now }
    ensures small { IfSome result IsSmall }
{
    let century = two_digits(bytes, 0)?;
    let years = two_digits(bytes, 2)?;
    let month = two_digits(bytes, 5)?;
    let day = two_digits(bytes, 8)?;
    let hour = two_digits(bytes, 11)?;
    let minute = two_digits(bytes, 14)?;
    let second = two_digits(bytes, 17)?;
    Some(Parts {
        year: 100 * u16::from(century) + u16::from(years),
        month,
        day,
        hour,
        minute,
        second,
    })
}

fn is_in_calendar(parts: Parts) -> bool
    requires { IsSmall parts }
    ensures { result ≡ (is_date parts && is_time parts) }
{
    parts.year >= 1970
        && Date::new(parts.year as i16, parts.month as i8, parts.day as i8).is_ok()
        && Time::new(parts.hour as i8, parts.minute as i8, parts.second as i8, 0).is_ok()
}
