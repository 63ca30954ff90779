//! What the tests share: values, schemas, paths and sets by their texts, and tables of cases.
ghost use Rattle.std.specs.Prelude.{IfOk};
ghost use Rattle.ssa_model.specs.definitions.Fitting.{IsBodyOf};
ghost use Rattle.ssa_typed.specs.Alike.{AreAlike};

use crate::questions::{Question, QuestionOfTwo, answer, answer_of_two};
use ssa_json::value::Json;
use ssa_path::element::Elem;
use ssa_path::field_set::FieldSet;
use ssa_path::path::Path;
use ssa_schema::schema::Schema;
use ssa_typed::body::Body;
use ssa_typed::node::Look;
use std::alloc::{AllocError, Global};
use std::test::Fail;

/// The value of a JSON text.
pub fn value(alloc: Global, text: &str) -> Result<Json, Fail> {
    Ok(Json::read(alloc, text.as_bytes(), text.len())?)
}

/// The compact text of a value.
pub fn printed(alloc: Global, value: &Json) -> Result<String, Fail> {
    Ok(value.to_string(alloc)?)
}

/// The schema of a JSON text.
pub fn schema(alloc: Global, text: &str) -> Result<Schema, Fail> {
    Ok(Schema::read(alloc, value(alloc, text)?)?)
}

/// Puts the element of a text behind others.
pub fn push_element(alloc: Global, elements: &mut Vec<Elem>, text: &str) -> Result<(), Fail> {
    elements.push(Elem::read(alloc, text)?)?;
    Ok(())
}

/// The path whose elements have these texts, with `/` between them. The root is `/`.
pub fn path(alloc: Global, text: &str) -> Result<Path, Fail> {
    let mut elements = Vec::new(alloc);
    for part in text.split('/') {
        if !part.is_empty() {
            push_element(alloc, &mut elements, part)?;
        }
    }
    Ok(Path::new(elements))
}

/// The set of the paths of these texts, with blanks between them.
pub fn set(alloc: Global, text: &str) -> Result<FieldSet, Fail> {
    let mut set = FieldSet::new(alloc);
    for part in text.split_whitespace() {
        set.insert(alloc, &path(alloc, part)?)?;
    }
    Ok(set)
}

// Adds the text of a path.
fn push_path(alloc: Global, text: &mut Vec<u8>, path: &Path) -> Result<(), AllocError> {
    if path.elements().is_empty() {
        text.push(b'/')?;
    }
    for (i, element) in path.elements().iter().enumerate() {
        if i > 0 {
            text.push(b'/')?;
        }
        text.extend_from_slice(&element.text(alloc)?)?;
    }
    Ok(())
}

// Adds the texts of paths, with blanks between them.
fn push_paths(alloc: Global, text: &mut Vec<u8>, paths: &[Path]) -> Result<(), AllocError> {
    for path in paths {
        if !text.is_empty() {
            text.push(b' ')?;
        }
        push_path(alloc, text, path)?;
    }
    Ok(())
}

/// The texts of the set's paths in their order, with blanks between them.
pub fn listed(alloc: Global, set: &FieldSet) -> Result<String, Fail> {
    let mut text = Vec::new(alloc);
    push_paths(alloc, &mut text, &set.paths(alloc)?)?;
    Ok(String::from_utf8(text)?)
}

// The body of a JSON text under a schema.
fn body_under(alloc: Global, schema: &Schema, text: &str) -> Result<Body, Fail>
    ensures { IfOk result (λ b. IsBodyOf schema.now.kind b) }
{
    Ok(Body::from_json(alloc, schema, value(alloc, text)?)?)
}

/// The body of a JSON text under the schema of another.
pub fn body(alloc: Global, schema_text: &str, text: &str) -> Result<Body, Fail> {
    body_under(alloc, &schema(alloc, schema_text)?, text)
}

// The bodies of two JSON texts under a schema.
fn bodies_under(
    alloc: Global,
    schema: &Schema,
    first: &str,
    second: &str,
) -> Result<(Body, Body), Fail>
    ensures { IfOk result (λ bodies. AreAlike bodies.0 bodies.1) }
{
    let first = body_under(alloc, schema, first)?;
    let second = body_under(alloc, schema, second)?;
    Ok((first, second))
}

/// The bodies of two JSON texts under the schema of another.
pub fn bodies(
    alloc: Global,
    schema_text: &str,
    first: &str,
    second: &str,
) -> Result<(Body, Body), Fail>
    ensures { IfOk result (λ bodies. AreAlike bodies.0 bodies.1) }
{
    bodies_under(alloc, &schema(alloc, schema_text)?, first, second)
}

/// The compact text of the value that the body is of.
pub fn shown(alloc: Global, body: &Body) -> Result<String, Fail> {
    printed(alloc, &body.to_json(alloc)?)
}

/// What stands at the path of a text, with the number of its children.
pub fn look_at(alloc: Global, body: &Body, place: &str) -> Result<String, Fail> {
    let (sort, children) = match body.get(&path(alloc, place)?) {
        None => ("nothing", 0),
        Some(Look::Leaf(_)) => ("leaf", 0),
        Some(Look::Branch(children)) => ("record", children),
        Some(Look::Dict(children)) => ("Dict", children),
        Some(Look::List(children)) => ("list", children),
    };
    Ok(format!(in alloc; "{sort} {children}")?)
}

/// Fails at the first text of which the answer is not the wanted one.
pub fn are_told(alloc: Global, question: &Question, cases: &[(&str, &str)]) -> Result<(), Fail> {
    for (text, want) in cases {
        let told = answer(alloc, question, text)?;
        if told.as_str() != *want {
            return Err(Fail::new(format_args!("at {text}: {told}")));
        }
    }
    Ok(())
}

/// Fails at the first two texts of which the answer is not the wanted one.
pub fn are_told_of_two(
    alloc: Global,
    question: &QuestionOfTwo,
    cases: &[(&str, &str, &str)],
) -> Result<(), Fail> {
    for (first, second, want) in cases {
        let told = answer_of_two(alloc, question, first, second)?;
        if told.as_str() != *want {
            return Err(Fail::new(format_args!("at {first} and {second}: {told}")));
        }
    }
    Ok(())
}

/// A truth value as a text.
pub fn truth(alloc: Global, is_so: bool) -> Result<String, Fail> {
    Ok(String::from_str(alloc, if is_so { "true" } else { "false" })?)
}
