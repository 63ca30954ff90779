//! Tests of JSON values and moments.
use crate::questions::Question;
use crate::support::{are_told, printed, truth, value};
use ssa_json::fault::JsonFault;
use ssa_json::members::{find_member, has_member, put_member, put_text};
use ssa_json::moment::Moment;
use ssa_json::text::is_same_text;
use ssa_json::value::{Json, Scalar};
use ssa_json::write::compact_is_read;
use ssa_members::{Members, SmallText};
use std::alloc::{AllocError, Global};
use std::test::Fail;

/// What is asked of a value.
pub enum AskedOfValue {
    /// How it is printed.
    Printed,
    /// Whether a copy of the sample is the same.
    Same,
    /// Whether the members are found that an object has, and no other.
    LookedInto,
}

// The answer of a value.
fn told_of(alloc: Global, asked: &AskedOfValue, value: &Json) -> Result<String, Fail> {
    match asked {
        AskedOfValue::Printed => printed_and_read(alloc, value),
        AskedOfValue::Same => compared(alloc, value),
        AskedOfValue::LookedInto => truth(alloc, is_looked_into(value)),
    }
}

// The same of its text.
fn told_of_text(alloc: Global, asked: &AskedOfValue, text: &str) -> Result<String, Fail> {
    told_of(alloc, asked, &value(alloc, text)?)
}

/// What is asked of JSON.
pub enum Asked {
    /// What is told of its value.
    Value(AskedOfValue),
    /// What reading at most 24 bytes says.
    Read,
    /// Whether as many lists as the text says, one in another, are read.
    Nested,
    /// Whether lists and objects of as many as the text says are read.
    Many,
    /// How an object is printed whose members were put, the text among them.
    Put,
    /// What moment it is.
    Moment,
}

/// The answer to a question of JSON.
pub fn answer(alloc: Global, asked: &Asked, text: &str) -> Result<String, Fail> {
    match asked {
        Asked::Value(of_value) => told_of_text(alloc, of_value, text),
        Asked::Read => Ok(String::from_str(alloc, read_name(alloc, text.as_bytes()))?),
        Asked::Nested => truth(alloc, is_read_so_deep(alloc, text.parse::<usize>()?)?),
        Asked::Many => truth(alloc, are_many_read(alloc, text.parse::<usize>()?)?),
        Asked::Put => printed_put(alloc, text),
        Asked::Moment => moment_text(alloc, text),
    }
}

// Texts, and how their values are printed.
const PRINTED: [(&str, &str); 9] = [
    (
        " { \"b\" : [1, -2, true],\r\n\t\"a\": \"x\\u0041\\/\\u001F\u{7f}\" }\r",
        "{\"a\":\"xA/\\u001f\u{7f}\",\"b\":[1,-2,true]}",
    ),
    (r#"{"a":1,"a":2}"#, r#"{"a":2}"#),
    (r#"{"a":null,"a":1}"#, r#"{"a":1}"#),
    (r#"{"b":false,"":{},"B":[]}"#, r#"{"":{},"B":[],"b":false}"#),
    (
        r#"{"terminationGracePeriods":"b","b":"terminationGracePeriods","terminationGracePeriod":"terminationGracePeriod"}"#,
        r#"{"b":"terminationGracePeriods","terminationGracePeriod":"terminationGracePeriod","terminationGracePeriods":"b"}"#,
    ),
    ("9223372036854775807", "9223372036854775807"),
    ("-9223372036854775808", "-9223372036854775808"),
    ("[0,10,-1]", "[0,10,-1]"),
    (
        r#""\b\t\n\f\r\"\\\u0000\u000b\u00e9""#,
        "\"\\b\\t\\n\\f\\r\\\"\\\\\\u0000\\u000b\u{e9}\"",
    ),
];

// The printed text of a value, which is read as the same value.
fn printed_and_read(alloc: Global, read: &Json) -> Result<String, Fail> {
    let text = printed(alloc, read)?;
    match value(alloc, &text)?.same(read) {
        true => Ok(text),
        false => Err(Fail::new("read as another value")),
    }
}

fn fault_name(fault: &JsonFault) -> &'static str {
    match fault {
        JsonFault::NotJson => "NotJson",
        JsonFault::NullValue => "NullValue",
        JsonFault::NumberOutside => "NumberOutside",
        JsonFault::TooLong => "TooLong",
        JsonFault::OutOfMemory => "OutOfMemory",
    }
}

// What reading at most 24 bytes says.
fn read_name(alloc: Global, bytes: &[u8]) -> &'static str {
    match Json::read(alloc, bytes, 24) {
        Ok(_) => "read",
        Err(fault) => fault_name(&fault),
    }
}

const REFUSED: [(&str, &str); 17] = [
    ("nul", "NotJson"),
    ("", "NotJson"),
    ("  \r\n", "NotJson"),
    (r#"{"a":1,}"#, "NotJson"),
    ("1 2", "NotJson"),
    ("01", "NotJson"),
    ("1e400", "NotJson"),
    (r#"{"a":null,"b":1.5}"#, "NullValue"),
    (r#"{"b":null,"a":1.5}"#, "NumberOutside"),
    ("[1.5,null]", "NumberOutside"),
    ("9223372036854775808", "NumberOutside"),
    ("18446744073709551615", "NumberOutside"),
    ("-0", "NumberOutside"),
    ("1.0", "NumberOutside"),
    ("1e2", "NumberOutside"),
    ("1e-400", "NumberOutside"),
    ("                         ", "TooLong"),
];

// So many lists, each but the last inside the one before.
fn nested(alloc: Global, depth: usize) -> Result<String, AllocError> {
    let mut text = String::new(alloc);
    for _ in 0..depth {
        text.push_str("[")?;
    }
    for _ in 0..depth {
        text.push_str("]")?;
    }
    Ok(text)
}

// Whether a value is written so.
fn is_written(alloc: Global, value: &Json, text: &str) -> Result<bool, AllocError> {
    Ok(value.to_text(alloc)?.as_slice() == text.as_bytes())
}

// Whether lists so deep are read, and written as they were.
fn is_read_so_deep(alloc: Global, depth: usize) -> Result<bool, AllocError> {
    let text = nested(alloc, depth)?;
    match &Json::read(alloc, text.as_bytes(), 300) {
        Ok(value) => is_written(alloc, value, &text),
        Err(_) => Ok(false),
    }
}

const NESTED: [(&str, &str); 2] = [("127", "true"), ("128", "false")];

// A list of so many numbers, the first of them 0.
fn numbers(alloc: Global, many: usize) -> Result<String, AllocError> {
    let mut text = String::from_str(alloc, "[0")?;
    for n in 1..many {
        text.push_str(&format!(in alloc; ",{n}")?)?;
    }
    text.push_str("]")?;
    Ok(text)
}

// An object of so many members, whose names are numbers from 100 on, with this value in each.
fn members_with(alloc: Global, many: usize, value: &str) -> Result<String, AllocError> {
    let mut text = format!(in alloc; "{{\"100\":{value}")?;
    for n in 1..many {
        let name = n.saturating_add(100);
        text.push_str(&format!(in alloc; ",\"{name}\":{value}")?)?;
    }
    text.push_str("}")?;
    Ok(text)
}

// Whether lists and objects of so many are read, one in another and behind others, and written as they were.
fn are_many_read(alloc: Global, many: usize) -> Result<bool, AllocError> {
    let numbers = numbers(alloc, many)?;
    let object = members_with(alloc, many, &numbers)?;
    let text = format!(in alloc;
        "{{\"a\":1,\"b\":[true,{object},{numbers},{object}],\"c\":{object}}}"
    )?;
    match &Json::read(alloc, text.as_bytes(), 1_000_000) {
        Ok(value) => is_written(alloc, value, &text),
        Err(_) => Ok(false),
    }
}

const MANY: [(&str, &str); 7] = [
    ("1", "true"),
    ("31", "true"),
    ("32", "true"),
    ("33", "true"),
    ("64", "true"),
    ("65", "true"),
    ("97", "true"),
];

#[test]
fn values_are_printed_as_they_were_read(rt: HostRuntime) -> Result<(), Fail> {
    compact_is_read();
    assert!(rt; read_name(rt.alloc(), b"\"\xff\"") == "NotJson");
    are_told(
        rt.alloc(),
        &Question::Json(Asked::Value(AskedOfValue::Printed)),
        &PRINTED,
    )?;
    are_told(rt.alloc(), &Question::Json(Asked::Read), &REFUSED)?;
    are_told(rt.alloc(), &Question::Json(Asked::Nested), &NESTED)?;
    are_told(rt.alloc(), &Question::Json(Asked::Many), &MANY)
}

const SAMPLE: &str = r#"{"a":[1,"x",true,{"b":{}}],"c":""}"#;

const OTHERS: [(&str, &str); 9] = [
    (SAMPLE, "same"),
    (r#"{"a":[1,"x",true,{"b":{}}]}"#, "other"),
    (r#"{"a":[1,"x",true,{"b":{}}],"c":"","d":1}"#, "other"),
    (r#"{"a":[1,"x",true,{"b":[]}],"c":""}"#, "other"),
    (r#"{"a":[1,"x",true],"c":""}"#, "other"),
    (r#"{"a":[1,"x",false,{"b":{}}],"c":""}"#, "other"),
    (r#"{"a":[-1,"x",true,{"b":{}}],"c":""}"#, "other"),
    (r#"{"a":[1,"x",true,{"b":{}}],"d":""}"#, "other"),
    ("[]", "other"),
];

// Whether two values are one, seen from both.
fn told_same(own: &Json, other: &Json) -> &'static str {
    match (own.same(other), other.same(own)) {
        (true, true) => "same",
        (false, false) => "other",
        _ => "same from one side",
    }
}

// Whether the copy of a value and another are one.
fn compared_copy(alloc: Global, own: &Json, other: &Json) -> Result<String, Fail> {
    let told = told_same(&own.copy(alloc)?, other);
    Ok(String::from_str(alloc, told)?)
}

// The same of the sample and another.
fn compared(alloc: Global, other: &Json) -> Result<String, Fail> {
    compared_copy(alloc, &value(alloc, SAMPLE)?, other)
}

// Whether a scalar's copy is the same, and a number another.
fn is_copied(alloc: Global, scalar: &Scalar) -> Result<bool, AllocError> {
    Ok(scalar.copy(alloc)?.same(scalar) && !scalar.same(&Scalar::Int(1)))
}

#[test]
fn scalars_are_copied_and_compared(rt: HostRuntime) -> Result<(), Fail> {
    let scalar = Scalar::Text(SmallText::from_str(rt.alloc(), "x")?);
    let is_copied = is_copied(rt.alloc(), &scalar);
    drop(scalar);
    assert!(rt; is_copied? && is_same_text("ab", "ab") && !is_same_text("ab", "ac"));
    Ok(())
}

// Whether the members are found that the object has, and no other.
fn is_looked_into(object: &Json) -> bool {
    let Some(members) = object.as_object() else {
        return false;
    };
    let (Some(a), Some(b)) = (find_member(members, "a"), object.member("b")) else {
        return false;
    };
    let is_found = a.as_text() == Some("x") && b.is_object() && has_member(members, "b");
    let is_other = has_member(members, "c") || object.member("c").is_some();
    is_found && !is_other && object.is_object() && object.as_text().is_none()
}

// Members are looked for among two, and among ten.
const LOOKED_INTO: [(&str, &str); 3] = [
    (r#"{"a":"x","b":{}}"#, "true"),
    (
        r#"{"a":"x","b":{},"d":1,"e":1,"f":1,"g":1,"h":1,"i":1,"j":1,"k":1}"#,
        "true",
    ),
    (r#""x""#, "false"),
];

// Puts members in from the last to the first, one of them twice, the second time with this text.
fn put_members(alloc: Global, members: &mut Members<Json>, text: &str) -> Result<(), AllocError> {
    put_text(alloc, members, "b", "y")?;
    put_member(alloc, members, "a", Json::Scalar(Scalar::Int(1)))?;
    put_text(alloc, members, "b", text)
}

// An object of these members.
fn put_together(alloc: Global, text: &str) -> Result<Json, AllocError> {
    let mut members = Members::new(alloc);
    put_members(alloc, &mut members, text)?;
    Ok(Json::Object(members))
}

// How such an object is printed.
fn printed_put(alloc: Global, text: &str) -> Result<String, Fail> {
    printed(alloc, &put_together(alloc, text)?)
}

const PUT: [(&str, &str); 1] = [("z", r#"{"a":1,"b":"z"}"#)];

#[test]
fn values_are_compared_looked_into_and_put_together(rt: HostRuntime) -> Result<(), Fail> {
    are_told(
        rt.alloc(),
        &Question::Json(Asked::Value(AskedOfValue::Same)),
        &OTHERS,
    )?;
    are_told(
        rt.alloc(),
        &Question::Json(Asked::Value(AskedOfValue::LookedInto)),
        &LOOKED_INTO,
    )?;
    are_told(rt.alloc(), &Question::Json(Asked::Put), &PUT)
}

// Moments are written as they were read.
const MOMENTS: [(&str, &str); 18] = [
    ("2024-02-29T23:59:59Z", "2024-02-29T23:59:59Z"),
    ("1970-01-01T00:00:00Z", "1970-01-01T00:00:00Z"),
    ("9999-12-31T23:59:59Z", "9999-12-31T23:59:59Z"),
    ("2024-02-30T00:00:00Z", "refused"),
    ("2023-02-29T00:00:00Z", "refused"),
    ("1969-12-31T23:59:59Z", "refused"),
    ("2024-05-01T10:00:60Z", "refused"),
    ("2024-05-01t10:00:01z", "refused"),
    ("2024-05-01T24:00:00Z", "refused"),
    ("2024-13-01T00:00:00Z", "refused"),
    ("2024-00-01T00:00:00Z", "refused"),
    ("2024-05-00T00:00:00Z", "refused"),
    ("2024-05-01T10:60:00Z", "refused"),
    ("2024-05-01 10:00:01Z", "refused"),
    ("2024-05-01T10:00:01", "refused"),
    ("2024-05-01T10:00:01.5Z", "refused"),
    ("+024-05-01T10:00:01Z", "refused"),
    ("", "refused"),
];

// The text of the moment that a text says.
fn moment_text(alloc: Global, text: &str) -> Result<String, Fail> {
    match Moment::read(text) {
        Ok(moment) if moment.write().as_slice() == text.as_bytes() => Ok(moment.to_text(alloc)?),
        Ok(_) => Err(Fail::new("written as another moment")),
        Err(_) => Ok(String::from_str(alloc, "refused")?),
    }
}

#[test]
fn moments_are_read(rt: HostRuntime) -> Result<(), Fail> {
    let first = Moment::first().write();
    assert!(rt; first.as_slice() == b"1970-01-01T00:00:00Z".as_slice());
    are_told(rt.alloc(), &Question::Json(Asked::Moment), &MOMENTS)
}
