//! What is wrong with a part of a value, in words.

use crate::way::{push_member, push_name, push_place};
use ssa_json::value::{Json, Scalar};
use ssa_schema::kind::{Kind, ScalarKind, Shape};
use std::alloc::{AllocError, Global};

/// What is wrong at a place, and the way there, the last step first.
#[derive(Drop)]
pub struct Wrong {
    words: Vec<u8>,
    steps: Vec<Vec<u8>>,
}

// What the value is.
fn value_words(value: &Json) -> &'static str {
    match value {
        Json::Scalar(Scalar::Text(_)) => "a text",
        Json::Scalar(Scalar::Int(_)) => "a whole number",
        Json::Scalar(Scalar::Bool(true)) => "true",
        Json::Scalar(Scalar::Bool(false)) => "false",
        Json::List(_) => "a list",
        Json::Object(_) => "an object",
    }
}

/// What a scalar of the kind is.
pub fn scalar_words(kind: ScalarKind) -> &'static str {
    match kind {
        ScalarKind::Text => "a text",
        ScalarKind::Whole => "a whole number",
        ScalarKind::Truth => "true or false",
    }
}

/// What a value of the shape is.
pub fn shape_words(shape: &Shape) -> &'static str {
    match shape {
        Shape::Scalar(kind) => scalar_words(*kind),
        Shape::Record(_) | Shape::Dict(_) => "an object",
        Shape::List(_) => "a list",
    }
}

/// What a value of the kind is.
pub fn kind_words(kind: &Kind) -> &'static str {
    match kind {
        Kind::Scalar(kind) => scalar_words(*kind),
        Kind::AtomicOf(shape) => shape_words(shape),
        Kind::Record(_) | Kind::Dict(_) => "an object",
        Kind::SetOf(_) | Kind::ItemsOf { .. } => "a list",
    }
}

impl Wrong {
    // These words of the place itself.
    fn here(alloc: Global, words: Vec<u8>) -> Wrong {
        Wrong {
            words,
            steps: Vec::new(alloc),
        }
    }

    /// The value is another than the one that is wanted.
    pub fn other_type(alloc: Global, value: &Json, wanted: &str) -> Result<Wrong, AllocError> {
        let found = value_words(value);
        let words = format!(in alloc; "{found}, where {wanted} is wanted")?;
        Ok(Wrong::here(alloc, words.as_bytes().to_vec(alloc)?))
    }

    /// There is no such field, but perhaps one with a name that is near.
    pub fn unknown_field(alloc: Global, near: Option<&str>) -> Result<Wrong, AllocError> {
        let mut words = b"no such field".to_vec(alloc)?;
        if let Some(name) = near {
            words.extend_from_slice(b"; ")?;
            push_name(&mut words, name)?;
            words.push(b'?')?;
        }
        Ok(Wrong::here(alloc, words))
    }

    /// A key field is not there.
    pub fn missing_key(alloc: Global) -> Result<Wrong, AllocError> {
        let words = b"missing, where a key is wanted".to_vec(alloc)?;
        Ok(Wrong::here(alloc, words))
    }

    /// An earlier item of the list is the same, or has the same key fields.
    pub fn repeated_item(alloc: Global) -> Result<Wrong, AllocError> {
        let words = b"twice in the list".to_vec(alloc)?;
        Ok(Wrong::here(alloc, words))
    }

    /// The same of the object whose member it is wrong in.
    pub fn in_member(self, alloc: Global, name: &str) -> Result<Wrong, AllocError> {
        let mut step = Vec::new(alloc);
        push_member(&mut step, name)?;
        self.below(step)
    }

    /// The same of the list whose item it is wrong in.
    pub fn in_item(self, alloc: Global, place: usize) -> Result<Wrong, AllocError> {
        let mut step = Vec::new(alloc);
        push_place(alloc, &mut step, place)?;
        self.below(step)
    }

    // The same of what the step is made from.
    fn below(self, step: Vec<u8>) -> Result<Wrong, AllocError> {
        let Wrong { words, mut steps } = self;
        steps.push(step)?;
        Ok(Wrong { words, steps })
    }

    /// Appends the way and the words.
    pub fn push_text(&self, text: &mut Vec<u8>) -> Result<(), AllocError> {
        for step in self.steps.iter().rev() {
            text.extend_from_slice(step)?;
        }
        text.extend_from_slice(b": ")?;
        text.extend_from_slice(&self.words)
    }
}
