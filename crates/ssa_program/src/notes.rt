//! Where a refusal is: lines for people, beside its fault line.
ghost use Rattle.ssa_program.specs.Telling.{IsNoted};

use crate::names::named_line;
use ssa_answers::asked::{Asked, AskedFault, MOST_INPUT_BYTES, command_of};
use ssa_answers::command::Command;
use ssa_answers::fault::Fault;
use ssa_answers::read_command::LineFault;
use ssa_bench::bench::Bench;
use ssa_explain::body::push_body_fault;
use ssa_explain::conflict::push_conflict;
use ssa_explain::entry::push_refused_entry;
use ssa_explain::identity::{push_missing_part, push_other_part};
use ssa_explain::json::push_unread;
use ssa_explain::path::push_refused_element;
use ssa_explain::way::push_member;
use ssa_json::fault::JsonFault;
use ssa_json::sink::{OfWriter, Sink};
use ssa_json::value::Json;
use ssa_lines::line::line_len;
use ssa_lines::loading::LoadFault;
use ssa_lines::saving::write_text;
use ssa_schema::body_fault::BodyFault;
use ssa_schema::schema::Schema;
use ssa_session::files::{FileFault, schema_of};
use std::alloc::{AllocError, Global};

/// Lines about a refusal. Where memory runs out, they are fewer.
#[derive(Drop)]
pub struct Notes {
    text: Vec<u8>,
}

impl Notes {
    /// No lines.
    pub fn new(alloc: Global) -> Notes {
        Notes {
            text: Vec::new(alloc),
        }
    }

    /// Tells the lines, where there are some. What the device does not take is lost.
    pub fn tell<E: Sink>(&self, errors: &mut E)
        ensures { IsNoted E.contents E.has_failed errors.old errors.new }
    {
        if self.text.is_empty() {
            return;
        }
        match write_text(errors, &self.text) {
            Ok(()) => {}
            Err(_) => {}
        }
    }

    // Keeps whole lines alone.
    fn keep(&mut self, lines: Result<Vec<u8>, AllocError>) {
        if let Ok(lines) = lines {
            let _kept = self.text.extend_from_slice(&lines);
        }
    }

    /// Where the bytes of a schema file are refused.
    pub fn about_schema(&mut self, alloc: Global, name: &str, bytes: &[u8], fault: &FileFault) {
        self.keep(schema_lines(alloc, name, bytes, fault));
    }

    /// Where the bytes of an object file are refused, under the schema of these bytes.
    pub fn about_object(
        &mut self,
        alloc: Global,
        name: &str,
        bytes: &[u8],
        schema: &[u8],
        fault: &FileFault,
    ) {
        self.keep(object_lines(alloc, name, bytes, schema, fault));
    }

    /// Which line of a bench file is refused, where its bytes are at fault.
    pub fn about_bench(&mut self, alloc: Global, name: &str, number: usize, fault: &LoadFault) {
        let told = match fault {
            LoadFault::BenchText => "is not as a bench file has it",
            LoadFault::RecordDoesNotFit => "is not the record from the state before it",
            LoadFault::Io | LoadFault::OutOfMemory => return,
        };
        self.keep(bench_line(alloc, name, number, told));
    }

    /// Where a subcommand is refused that the bench, which is as it was, has refused. Its object is that of the named
    /// file.
    pub fn about_command(&mut self, alloc: Global, bench: &Bench, asked: Asked<'_>, name: &str) {
        match asked {
            Asked::Apply { object, .. } | Asked::Update { object, .. } => {
                self.keep(command_lines(alloc, bench, asked, object, name));
            }
            Asked::Owners { path } => self.keep(path_lines(alloc, path.as_bytes())),
            Asked::Strip | Asked::Undo | Asked::Redo | Asked::Show { .. } | Asked::Log => {}
        }
    }
}

// The beginning of a line about a file.
fn begun(alloc: Global, name: &str) -> Result<Vec<u8>, AllocError> {
    named_line(alloc, "ssabench: ", name, ": ")
}

// The line, with its end.
fn ended(mut text: Vec<u8>) -> Result<Vec<u8>, AllocError> {
    text.push(b'\n')?;
    Ok(text)
}

// A line about a line of a bench file.
fn bench_line(alloc: Global, name: &str, number: usize, told: &str) -> Result<Vec<u8>, AllocError> {
    let mut text = begun(alloc, name)?;
    let line = format!(in alloc; "line {number} {told}")?;
    text.extend_from_slice(line.as_bytes())?;
    ended(text)
}

// A line about bytes that are no value, or too many.
fn unread_line(alloc: Global, name: &str, bytes: &[u8]) -> Result<Vec<u8>, AllocError> {
    let mut text = begun(alloc, name)?;
    if bytes.len() > MOST_INPUT_BYTES {
        text.extend_from_slice(b"more than 1048576 bytes")?;
    } else {
        push_unread(alloc, &mut text, bytes)?;
    }
    ended(text)
}

// A line about a value that is no schema.
fn schema_line(alloc: Global, name: &str, bytes: &[u8]) -> Result<Vec<u8>, AllocError> {
    let Ok(schema) = Json::read(alloc, bytes, MOST_INPUT_BYTES) else {
        return Ok(Vec::new(alloc));
    };
    let place = Schema::fault_place(alloc, &schema)?;
    let mut text = begun(alloc, name)?;
    text.extend_from_slice(b"at ")?;
    if place.is_empty() {
        text.extend_from_slice(b"the root")?;
    }
    for step in &place {
        push_member(&mut text, step.as_str())?;
    }
    ended(text)
}

fn schema_lines(
    alloc: Global,
    name: &str,
    bytes: &[u8],
    fault: &FileFault,
) -> Result<Vec<u8>, AllocError> {
    match fault {
        FileFault::Json(_) => unread_line(alloc, name, bytes),
        FileFault::Schema(_) => schema_line(alloc, name, bytes),
        FileFault::Object(_) | FileFault::OutOfMemory => Ok(Vec::new(alloc)),
    }
}

// A line about an object that does not fit its schema.
fn body_line(
    alloc: Global,
    name: &str,
    schema: &Schema,
    object: &Json,
    fault: &BodyFault,
) -> Result<Vec<u8>, AllocError> {
    let mut text = begun(alloc, name)?;
    push_body_fault(alloc, &mut text, schema, object, fault)?;
    ended(text)
}

// A line about an object that is too large, or that makes another one so.
fn too_many_line(alloc: Global, name: &str) -> Result<Vec<u8>, AllocError> {
    let mut text = begun(alloc, name)?;
    text.extend_from_slice(b"more than 20000 fields and items")?;
    ended(text)
}

// A line about the managers' entries of an object.
fn entry_line(
    alloc: Global,
    name: &str,
    schema: &Schema,
    object: Json,
) -> Result<Vec<u8>, AllocError> {
    let mut text = begun(alloc, name)?;
    push_refused_entry(alloc, &mut text, schema, object)?;
    ended(text)
}

// A line about an object without an identity.
fn identity_line(alloc: Global, name: &str, object: &Json) -> Result<Vec<u8>, AllocError> {
    let mut text = begun(alloc, name)?;
    push_missing_part(&mut text, object)?;
    ended(text)
}

// A line about an object that no bench is made of.
fn object_line(
    alloc: Global,
    name: &str,
    bytes: &[u8],
    schema: &[u8],
    fault: &Fault,
) -> Result<Vec<u8>, AllocError> {
    let (Ok(object), Ok(schema)) = (
        Json::read(alloc, bytes, MOST_INPUT_BYTES),
        schema_of(alloc, schema),
    ) else {
        return Ok(Vec::new(alloc));
    };
    match fault {
        Fault::Identity => identity_line(alloc, name, &object),
        Fault::Body(fault) => body_line(alloc, name, &schema, &object, fault),
        Fault::TooManyPaths => too_many_line(alloc, name),
        Fault::Entry(_) => entry_line(alloc, name, &schema, object),
        _ => Ok(Vec::new(alloc)),
    }
}

fn object_lines(
    alloc: Global,
    name: &str,
    bytes: &[u8],
    schema: &[u8],
    fault: &FileFault,
) -> Result<Vec<u8>, AllocError> {
    match fault {
        FileFault::Json(_) => unread_line(alloc, name, bytes),
        FileFault::Object(fault) => object_line(alloc, name, bytes, schema, fault),
        FileFault::Schema(_) | FileFault::OutOfMemory => Ok(Vec::new(alloc)),
    }
}

// A line about a path that is not read.
fn path_lines(alloc: Global, path: &[u8]) -> Result<Vec<u8>, AllocError> {
    match Json::read(alloc, path, MOST_INPUT_BYTES) {
        Ok(value) => {
            let mut text = begun(alloc, "PATH")?;
            push_refused_element(alloc, &mut text, &value)?;
            ended(text)
        }
        Err(JsonFault::OutOfMemory) => Err(AllocError),
        Err(_) => unread_line(alloc, "PATH", path),
    }
}

// Lines about an Apply or an Update of these bytes, the named file's, that is refused.
fn command_lines(
    alloc: Global,
    bench: &Bench,
    asked: Asked<'_>,
    object: &[u8],
    name: &str,
) -> Result<Vec<u8>, AllocError> {
    match command_of(alloc, asked) {
        Ok(Command::Change(command)) => match bench.prepare(alloc, command) {
            Ok(_) => Ok(Vec::new(alloc)),
            Err(fault) => refusal_lines(alloc, bench, &fault, object, name),
        },
        Ok(_) => Ok(Vec::new(alloc)),
        Err(AskedFault::Line(LineFault::BadMoment)) => {
            b"ssabench: --at is no moment such as 2024-05-01T10:00:01Z\n".to_vec(alloc)
        }
        Err(AskedFault::Line(LineFault::OutOfMemory)) => Err(AllocError),
        Err(_) => unread_line(alloc, name, object),
    }
}

// The schema of a bench: the second line of its file.
fn schema_of_bench(alloc: Global, bench: &Bench) -> Option<Schema> {
    let mut sink = OfWriter::new(Vec::new(alloc));
    if bench.save(alloc, &mut sink).is_err() {
        return None;
    }
    let text = sink.into_inner();
    let first = line_len(&text);
    if first >= text.len() {
        return None;
    }
    let rest = &text[first + 1..];
    schema_of(alloc, &rest[..line_len(rest)]).ok()
}

// A line about an object that does not fit the schema of a bench.
fn misfit_line(
    alloc: Global,
    bench: &Bench,
    name: &str,
    object: &Json,
    fault: &BodyFault,
) -> Result<Vec<u8>, AllocError> {
    match schema_of_bench(alloc, bench) {
        Some(schema) => body_line(alloc, name, &schema, object, fault),
        None => Ok(Vec::new(alloc)),
    }
}

// A line about an object that is another than the bench's.
fn other_line(
    alloc: Global,
    bench: &Bench,
    name: &str,
    object: &Json,
) -> Result<Vec<u8>, AllocError> {
    let held = bench.show(alloc, false)?;
    let mut text = begun(alloc, name)?;
    push_other_part(&mut text, object, &held)?;
    ended(text)
}

// Lines about the refusal of a command whose object is these bytes, the named file's.
fn refusal_lines(
    alloc: Global,
    bench: &Bench,
    fault: &Fault,
    object: &[u8],
    name: &str,
) -> Result<Vec<u8>, AllocError> {
    if matches!(fault, Fault::ManagerName) {
        return b"ssabench: --field-manager is not of 1 to 128 printable ASCII characters\n".to_vec(
            alloc,
        );
    }
    if matches!(fault, Fault::NoSubresource) {
        return b"ssabench: the schema has no field status, so the object has no such subresource\n".to_vec(
            alloc,
        );
    }
    let Ok(object) = Json::read(alloc, object, MOST_INPUT_BYTES) else {
        return Ok(Vec::new(alloc));
    };
    match fault {
        Fault::Identity => other_line(alloc, bench, name, &object),
        Fault::Body(fault) => misfit_line(alloc, bench, name, &object, fault),
        Fault::TooManyPaths => too_many_line(alloc, name),
        Fault::Conflict(clashes) => {
            let held = bench.show(alloc, false)?;
            let mut text = Vec::new(alloc);
            push_conflict(alloc, &mut text, clashes, &held, &object)?;
            Ok(text)
        }
        _ => Ok(Vec::new(alloc)),
    }
}
