//! A number of a key, which keys that are one share and others mostly do not.
ghost use Rattle.std.specs.Prelude.{◌≡◌};
ghost use Rattle.ssa_json.specs.View.{scalar_view};
ghost use Rattle.ssa_schema.specs.Repeats.{scalars_view};
ghost use Rattle.ssa_schema.specs.Tags.{spread, short_number, tail_number, text_tag, scalar_tag, row_tag};

use ssa_json::value::Scalar;

// Moves small differences into all bits: the factor is odd, so no two numbers become one, and near
// 2 ^ 64 over the golden ratio.
fn spread(number: u64) -> u64
    ensures { result ≡ spread number }
{
    number.wrapping_mul(11400714819323198485)
}

// The bytes of a short text as one number.
fn short_number(bytes: &[u8]) -> u64
    ensures { result ≡ short_number 0 bytes.now }
{
    let mut number: u64 = 0;
    for byte in bytes {
        number = number.wrapping_mul(256).wrapping_add(u64::from(*byte));
    }
    number
}

// The last eight bytes as one number, or those there are.
fn tail_number(bytes: &[u8]) -> u64
    ensures { result ≡ tail_number bytes.now }
{
    match bytes.last_chunk::<8>() {
        Some(eight) => u64::from_be_bytes(*eight),
        None => short_number(bytes),
    }
}

// Texts that end alike have other tags where their lengths differ.
fn text_tag(bytes: &[u8]) -> u64
    ensures { result ≡ text_tag bytes.now }
{
    tail_number(bytes).wrapping_add(spread(bytes.len() as u64))
}

/// The tag of a text, a number or a truth value. A number and the same below zero share theirs.
pub fn scalar_tag(scalar: &Scalar) -> u64
    ensures { result ≡ scalar_tag (scalar_view scalar.now) }
{
    match scalar {
        Scalar::Text(text) => text_tag(text.as_bytes()),
        Scalar::Int(number) => number.unsigned_abs(),
        Scalar::Bool(truth) => u64::from(*truth),
    }
}

/// The tag of several scalars, in which each has a part.
pub fn row_tag(scalars: &[&Scalar]) -> u64
    ensures { result ≡ row_tag (scalars_view scalars.now) }
{
    match scalars {
        [] => 0,
        [first, rest @ ..] => scalar_tag(first).wrapping_add(spread(row_tag(rest))),
    }
}
