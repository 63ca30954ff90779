//! Tests of elements and paths.
use crate::questions::Question;
use crate::support::{are_told, path, push_element};
use ssa_json::value::Scalar;
use ssa_members::SmallText;
use ssa_path::element::{Elem, own_texts_are_read};
use ssa_path::element_fault::ElemFault;
use ssa_path::keys::{Keys, SharedKeys};
use ssa_path::path::Path;
use ssa_path::path_text::push_path;
use std::alloc::{AllocError, Global};
use std::cmp::Ordering;
use std::test::Fail;

/// What is asked of elements.
pub enum Asked {
    /// What reading its text says.
    Read,
    /// How an element is written that is made, by its name here.
    Made,
    /// How the text's path is printed.
    Printed,
    /// How the text's path stands to a copy of another.
    Ordered,
}

/// The answer to a question of elements.
pub fn answer(alloc: Global, asked: &Asked, text: &str) -> Result<String, Fail> {
    match asked {
        Asked::Read => read_again(alloc, text),
        Asked::Made => written_made(alloc, text),
        Asked::Printed => path_printed(alloc, text),
        Asked::Ordered => order_told(alloc, text),
    }
}

// Texts of elements in the order of their bytes, the fields first.
const ORDERED: [&str; 31] = [
    "f:",
    "f:a",
    "f:a\u{1}",
    "f:a b",
    "f:b",
    "f:\u{e9}",
    r#"k:{"a b":1}"#,
    r#"k:{"a":1,"b":2}"#,
    r#"k:{"a":10,"b":2}"#,
    r#"k:{"a":10}"#,
    r#"k:{"a":1}"#,
    r#"k:{"b":-1}"#,
    r#"v:"!""#,
    r#"v:"""#,
    r#"v:"a""#,
    r#"v:"a\"""#,
    r#"v:"a\\""#,
    r#"v:"a\n""#,
    r#"v:"a\u0001""#,
    r#"v:"ab""#,
    "v:-1",
    "v:-10",
    "v:-9",
    "v:-9223372036854775808",
    "v:0",
    "v:1",
    "v:10",
    "v:100",
    "v:9",
    "v:false",
    "v:true",
];

const FIELDS: usize = 6;

// Whether the element stands to the others as its place says.
fn stands_at(elements: &[Elem], i: usize, element: &Elem) -> bool {
    let mut stands = element.is_item() == (i >= FIELDS);
    for (j, other) in elements.iter().enumerate() {
        stands = stands && element.order(other) == i.cmp(&j) && element.is_same(other) == (i == j);
    }
    stands
}

// Fails at the first element whose copy does not stand to all as its place says.
fn all_stand(alloc: Global, elements: &[Elem]) -> Result<(), Fail> {
    for (i, element) in elements.iter().enumerate() {
        if !stands_at(elements, i, &element.copy(alloc)?) {
            return Err(Fail::new(format_args!("at {i}")));
        }
    }
    Ok(())
}

// The same of the elements of the ordered texts.
fn ordered_stand(alloc: Global, elements: &mut Vec<Elem>) -> Result<(), Fail> {
    for text in &ORDERED {
        push_element(alloc, elements, text)?;
    }
    all_stand(alloc, elements)
}

#[test]
fn elements_stand_by_their_texts(rt: HostRuntime) -> Result<(), Fail> {
    let mut elements = Vec::new(rt.alloc());
    ordered_stand(rt.alloc(), &mut elements)
}

// Puts a key field behind others.
fn push_key(
    alloc: Global,
    pairs: &mut Vec<(SmallText, Scalar)>,
    name: &str,
    value: Scalar,
) -> Result<(), AllocError> {
    let name = SmallText::from_str(alloc, name)?;
    Ok(pairs.push((name, value))?)
}

// Puts key fields with whole numbers behind others.
fn push_numbers(
    alloc: Global,
    pairs: &mut Vec<(SmallText, Scalar)>,
    members: &[(&str, i64)],
) -> Result<(), AllocError> {
    for (name, number) in members {
        push_key(alloc, pairs, name, Scalar::Int(*number))?;
    }
    Ok(())
}

// How many key fields one more holds of those with these whole numbers, where their names rise.
fn shared_len(alloc: Global, members: &[(&str, i64)]) -> Result<Option<usize>, AllocError> {
    let mut pairs = Vec::new(alloc);
    push_numbers(alloc, &mut pairs, members)?;
    match Keys::new(pairs) {
        Some(keys) => {
            let keys = SharedKeys::of(alloc, keys)?;
            Ok(Some(keys.share()?.members().len()))
        }
        None => Ok(None),
    }
}

const KEYS: [(&[(&str, i64)], Option<usize>); 6] = [
    (&[("a", 1), ("b", 1)], Some(2)),
    (&[("a", 1), ("b", 2)], Some(2)),
    (&[("a", 1), ("aa", 1)], Some(2)),
    (&[], None),
    (&[("a", 1), ("a", 2)], None),
    (&[("b", 1), ("a", 1)], None),
];

#[test]
fn names_of_keys_rise(rt: HostRuntime) {
    for (members, want) in &KEYS {
        assert_eq!(rt;
            shared_len(rt.alloc(), members),
            Ok(*want),
            "at {members:?}"
        );
    }
}

// The texts of elements, and what reading them says: the text that is written again, or the fault.
const READ: [(&str, &str); 30] = [
    ("f:", "f:"),
    ("f:a b", "f:a b"),
    ("f:i:0", "f:i:0"),
    ("v:1", "v:1"),
    ("v:-9223372036854775808", "v:-9223372036854775808"),
    (r#"v:"x""#, r#"v:"x""#),
    ("v:\"\\u0001\\n\\\"\u{e9}\"", "v:\"\\u0001\\n\\\"\u{e9}\""),
    ("v:true", "v:true"),
    (r#"k:{"name":"a"}"#, r#"k:{"name":"a"}"#),
    (r#"k:{"a":1,"b":true}"#, r#"k:{"a":1,"b":true}"#),
    (
        r#"k:{"a":"","b":-1,"c":false}"#,
        r#"k:{"a":"","b":-1,"c":false}"#,
    ),
    ("i:0", "IndexElement"),
    ("", "BadElement"),
    ("q", "BadElement"),
    ("f", "BadElement"),
    ("x:1", "BadElement"),
    ("v:", "BadElement"),
    ("v:1.5", "BadElement"),
    ("v:null", "BadElement"),
    ("v:[1]", "BadElement"),
    ("v:-0", "BadElement"),
    ("v:01", "BadElement"),
    ("v:9223372036854775808", "BadElement"),
    ("k:{}", "BadElement"),
    ("k:[1]", "BadElement"),
    (r#"k:{"a":[]}"#, "BadElement"),
    ("v: 1", "NotCanonical"),
    (r#"v:"\u0041""#, "NotCanonical"),
    (r#"k:{"b":1,"a":1}"#, "NotCanonical"),
    (r#"k:{"a":1,"a":1}"#, "NotCanonical"),
];

// The text of an element.
fn written(alloc: Global, element: &Elem) -> Result<String, Fail> {
    Ok(String::from_utf8(element.text(alloc)?)?)
}

// What reading a text says.
fn read_again(alloc: Global, text: &str) -> Result<String, Fail> {
    let fault = match Elem::read(alloc, text) {
        Ok(element) => return written(alloc, &element),
        Err(ElemFault::BadElement) => "BadElement",
        Err(ElemFault::IndexElement) => "IndexElement",
        Err(ElemFault::NotCanonical) => "NotCanonical",
        Err(ElemFault::OutOfMemory) => "OutOfMemory",
    };
    Ok(String::from_str(alloc, fault)?)
}

// Two key fields, one with escapes in its name and its value, the other with a negative number.
fn push_escaped(alloc: Global, pairs: &mut Vec<(SmallText, Scalar)>) -> Result<(), AllocError> {
    let text = Scalar::Text(SmallText::from_str(alloc, "\\\t")?);
    push_key(alloc, pairs, "\"\n", text)?;
    push_key(alloc, pairs, "b", Scalar::Int(-1))
}

// The element of these key fields.
fn escaped_key(alloc: Global) -> Result<Elem, Fail> {
    let mut pairs = Vec::new(alloc);
    push_escaped(alloc, &mut pairs)?;
    match Keys::new(pairs) {
        Some(keys) => Ok(Elem::Key(SharedKeys::of(alloc, keys)?)),
        None => Err(Fail::new("the names rise")),
    }
}

// The element of a name here.
fn made(alloc: Global, name: &str) -> Result<Elem, Fail> {
    match name {
        "field" => Ok(Elem::Field(SmallText::from_str(alloc, "a\"")?)),
        "key" => escaped_key(alloc),
        "text" => Ok(Elem::Value(Scalar::Text(SmallText::from_str(alloc, "\u{1f}\u{e9}")?))),
        "least" => Ok(Elem::Value(Scalar::Int(i64::MIN))),
        "most" => Ok(Elem::Value(Scalar::Int(i64::MAX))),
        _ => Err(Fail::new("no such name")),
    }
}

// Whether a text is read as the element.
fn is_read_as(alloc: Global, text: &str, element: &Elem) -> Result<bool, ElemFault> {
    Ok(Elem::read(alloc, text)?.is_same(element))
}

// The text of a made element, which is read as the element.
fn written_and_read(alloc: Global, element: &Elem) -> Result<String, Fail> {
    element.is_of_program();
    let text = written(alloc, element)?;
    match is_read_as(alloc, &text, element) {
        Ok(true) => Ok(text),
        _ => Err(Fail::new("read as another element")),
    }
}

// The same of its name here.
fn written_made(alloc: Global, name: &str) -> Result<String, Fail> {
    written_and_read(alloc, &made(alloc, name)?)
}

// The names of made elements, and their texts.
const MADE: [(&str, &str); 5] = [
    ("field", "f:a\""),
    ("key", r#"k:{"\"\n":"\\\t","b":-1}"#),
    ("text", "v:\"\\u001f\u{e9}\""),
    ("least", "v:-9223372036854775808"),
    ("most", "v:9223372036854775807"),
];

#[test]
fn own_texts_alone_are_read(rt: HostRuntime) -> Result<(), Fail> {
    own_texts_are_read();
    are_told(rt.alloc(), &Question::Element(Asked::Read), &READ)?;
    are_told(rt.alloc(), &Question::Element(Asked::Made), &MADE)
}

// The text of the path of a text.
fn path_printed(alloc: Global, text: &str) -> Result<String, Fail> {
    let mut printed = Vec::new(alloc);
    push_path(alloc, &mut printed, &path(alloc, text)?)?;
    Ok(String::from_utf8(printed)?)
}

// Paths, and how they are printed: the list of their elements' texts, each with the escapes of its quotes and backslashes.
const PRINTED: [(&str, &str); 10] = [
    ("/", "[]"),
    ("f:a\"/f:\\b", r#"["f:a\"","f:\\b"]"#),
    (
        r#"f:ports/k:{"port":80,"protocol":"TCP"}/f:name"#,
        r#"["f:ports","k:{\"port\":80,\"protocol\":\"TCP\"}","f:name"]"#,
    ),
    (
        r#"k:{"a":"","b":-1,"c":false,"d":true}"#,
        r#"["k:{\"a\":\"\",\"b\":-1,\"c\":false,\"d\":true}"]"#,
    ),
    (
        r#"k:{"\"\n":"\\\t","b":"c"}"#,
        r#"["k:{\"\\\"\\n\":\"\\\\\\t\",\"b\":\"c\"}"]"#,
    ),
    (r#"v:"a.example""#, r#"["v:\"a.example\""]"#),
    (r#"v:"a\"\\""#, r#"["v:\"a\\\"\\\\\""]"#),
    ("v:\"\\u001f\u{e9}\"", "[\"v:\\\"\\\\u001f\u{e9}\\\"\"]"),
    ("v:-9223372036854775808", r#"["v:-9223372036854775808"]"#),
    ("v:true", r#"["v:true"]"#),
];

#[test]
fn paths_are_printed(rt: HostRuntime) -> Result<(), Fail> {
    are_told(rt.alloc(), &Question::Element(Asked::Printed), &PRINTED)
}

// How a path stands to another.
fn order_name(path: &Path, other: &Path) -> &'static str {
    match path.order(other) {
        Ordering::Less => "before",
        Ordering::Equal => "same",
        Ordering::Greater => "behind",
    }
}

// How a path stands to a copy of another.
fn order_beside(alloc: Global, path: &Path, other: &Path) -> Result<String, Fail> {
    let name = order_name(path, &other.copy(alloc)?);
    Ok(String::from_str(alloc, name)?)
}

// How the path of a text stands to `f:a/f:b`.
fn order_told(alloc: Global, text: &str) -> Result<String, Fail> {
    let own = path(alloc, text)?;
    let other = path(alloc, "f:a/f:b")?;
    order_beside(alloc, &own, &other)
}

const ORDERS: [(&str, &str); 3] = [("f:a/f:b", "same"), ("f:a", "before"), ("f:b", "behind")];

#[test]
fn paths_are_copied_and_ordered(rt: HostRuntime) -> Result<(), Fail> {
    are_told(rt.alloc(), &Question::Element(Asked::Ordered), &ORDERS)
}
