//! Tests of texts that stand in the value itself where they are short.
use ssa_members::words::{eight_at, four_at};
use ssa_members::{Name, SmallText};
use std::alloc::{AllocError, Global};
use std::test::Fail;

// Of 0, 4, 21, 22, 23 and 60 bytes; the longest that stands within and the first beyond it end in a letter of two bytes.
const TEXTS: [&str; 6] = [
    "",
    "spec",
    "terminationGracePerio",
    "terminationGracePeri\u{f6}",
    "terminationGracePerio\u{f6}",
    "app.kubernetes.io/a-label-whose-name-has-sixty-bytes-in-alll",
];

// Whether the text is the same made of a borrowed one, of one that is given, and as a copy of it.
fn is_kept(alloc: Global, text: &str) -> Result<bool, AllocError> {
    let small = SmallText::from_str(alloc, text)?;
    let copied = small.copy(alloc)?;
    drop(small);
    let given = SmallText::from_string(alloc, String::from_str(alloc, text)?)?;
    Ok(copied.as_str() == text && given.as_bytes() == text.as_bytes())
}

// Whether each of the texts is.
fn are_kept(alloc: Global) -> Result<bool, AllocError> {
    for text in TEXTS {
        if !is_kept(alloc, text)? {
            return Ok(false);
        }
    }
    Ok(true)
}

// Whether each beginning of a text is.
fn are_beginnings_kept(alloc: Global, text: &str) -> Result<bool, AllocError> {
    let mut beginning = String::new(alloc);
    for letter in text.chars() {
        if !is_kept(alloc, beginning.as_str())? {
            return Ok(false);
        }
        beginning.push(letter)?;
    }
    Ok(true)
}

// Whether a text of up to 22 bytes is told to take no memory, and kept so, as a text and as a name, and none that is longer.
fn is_told_short(text: &str) -> bool {
    match (SmallText::short(text), Name::short(text)) {
        (Some(short), Some(name)) => {
            text.len() <= 22 && short.as_str() == text && name.as_str() == text
        }
        (None, None) => text.len() > 22,
        _ => false,
    }
}

#[test]
fn texts_that_take_no_memory_are_told(rt: HostRuntime) -> Result<(), Fail> {
    for text in TEXTS {
        assert!(rt; is_told_short(text), "at {text:?}");
    }
    Ok(())
}

#[test]
fn texts_are_kept_within_and_beyond_the_value(rt: HostRuntime) -> Result<(), Fail> {
    assert!(rt; are_kept(rt.alloc())?);
    Ok(())
}

#[test]
fn texts_of_each_length_are_kept(rt: HostRuntime) -> Result<(), Fail> {
    assert!(rt; are_beginnings_kept(rt.alloc(), TEXTS[5])?);
    Ok(())
}

#[test]
fn bytes_are_read_as_words(rt: HostRuntime) -> Result<(), Fail> {
    let bytes = [1, 0, 0, 0, 2, 0, 0, 0, 3];
    assert_eq!(rt; four_at(&bytes, 0), 1);
    assert_eq!(rt; four_at(&bytes, 4), 2);
    assert_eq!(rt; eight_at(&bytes, 0), 8_589_934_593);
    assert_eq!(rt; eight_at(&bytes, 1), 216_172_782_147_338_240);
    Ok(())
}
