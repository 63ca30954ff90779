//! A bench from a schema file and an object file, and the lines of their faults.
ghost use Rattle.std.specs.Prelude.{◌≡◌, IfOk, OnErr, OnOk, true};
ghost use Rattle.ssa_model.specs.definitions.Files.{bench_of_file, bench_with_file, schema_of_file, value_of_file};
ghost use Rattle.ssa_json.specs.Readings.{readings};
ghost use Rattle.ssa_json.specs.View.{view};
ghost use Rattle.ssa_session.specs.Files.{IsGivenFile, IsGivenValue, IsTelling, IsTold, json_fault, schema_fault, object_fault};

use ssa_answers::asked::MOST_INPUT_BYTES;
use ssa_answers::fault::Fault;
use ssa_answers::fault_text::fault_text;
use ssa_bench::bench::Bench;
use ssa_json::fault::JsonFault;
use ssa_json::fault_code::FaultCode;
use ssa_json::sink::Sink;
use ssa_json::source::DeviceFault;
use ssa_json::value::Json;
use ssa_lines::fault_line::{code_text, write_fault};
use ssa_lines::write_line::write_reply;
use ssa_reverse::depth::Depth;
use ssa_schema::fault::SchemaFault;
use ssa_schema::schema::Schema;
use std::alloc::{AllocError, Global};
use thiserror::Error;

/// Why a schema file or an object file makes no bench.
#[derive(Debug, Drop, Error)]
pub enum FileFault {
    /// The bytes are no value, or more than [`MOST_INPUT_BYTES`].
    #[error("no JSON value")]
    Json(JsonFault),
    /// The value is no schema.
    #[error("no schema")]
    Schema(SchemaFault),
    /// The value is no object of the schema, or its managers' entries are no table.
    #[error("no object of the schema")]
    Object(Fault),
    /// A growth of memory was refused.
    #[error("out of memory")]
    OutOfMemory,
}

impl From<JsonFault> for FileFault {
    ghost from_gives = { λ f e. e ≡ json_fault f };

    fn from(fault: JsonFault) -> FileFault {
        match fault {
            JsonFault::OutOfMemory => FileFault::OutOfMemory,
            _ => FileFault::Json(fault),
        }
    }
}

impl From<SchemaFault> for FileFault {
    ghost from_gives = { λ f e. e ≡ schema_fault f };

    fn from(fault: SchemaFault) -> FileFault {
        match fault {
            SchemaFault::OutOfMemory => FileFault::OutOfMemory,
            _ => FileFault::Schema(fault),
        }
    }
}

impl From<Fault> for FileFault {
    ghost from_gives = { λ f e. e ≡ object_fault f };

    fn from(fault: Fault) -> FileFault {
        match fault {
            Fault::OutOfMemory => FileFault::OutOfMemory,
            _ => FileFault::Object(fault),
        }
    }
}

/// How a run ends by a refused file, where no device failed.
#[derive(Clone, Copy, Debug, PartialEq, Eq)]
pub enum Ending {
    /// The line of the fault is written.
    Refused,
    /// A growth was refused, and the line that says so is written.
    OutOfMemory,
}

// The value of a file's bytes.
fn value_of(alloc: Global, bytes: &[u8]) -> Result<Json, FileFault>
    ensures { IsGivenValue result (value_of_file readings bytes.now) }
{
    match Json::read(alloc, bytes, MOST_INPUT_BYTES) {
        Ok(value) => Ok(value),
        Err(fault) => Err(FileFault::from(fault)),
    }
}

/// The schema of a schema file. Of several faults the first is told: the bytes' own, then those of
/// `Schema::read`.
pub fn schema_of(alloc: Global, bytes: &[u8]) -> Result<Schema, FileFault>
    ensures { IsGivenFile result (schema_of_file readings bytes.now) }
{
    match value_of(alloc, bytes) {
        Ok(value) => match Schema::read(alloc, value) {
            Ok(schema) => Ok(schema),
            Err(fault) => Err(FileFault::from(fault)),
        },
        Err(fault) => Err(fault),
    }
}

/// The bench of an object file, of depth 1,000. Of several faults the first is told: the bytes' own, then those of
/// `Bench::new`.
pub fn bench_of(alloc: Global, schema: Schema, bytes: &[u8]) -> Result<Bench, FileFault>
    ensures { IsGivenFile result (bench_of_file readings schema bytes.now) }
{
    bench_with(alloc, schema, bytes, Depth::greatest())
}

/// The same with another depth.
pub fn bench_with(
    alloc: Global,
    schema: Schema,
    bytes: &[u8],
    depth: Depth,
) -> Result<Bench, FileFault>
    ensures { IsGivenFile result (bench_with_file readings depth schema bytes.now) }
{
    match value_of(alloc, bytes) {
        Ok(value) => match Bench::with_depth(alloc, schema, value, depth) {
            Ok(bench) => Ok(bench),
            Err(fault) => Err(FileFault::from(fault)),
        },
        Err(fault) => Err(fault),
    }
}

// The line of a file's fault; none where memory ran out, now or before.
fn told(alloc: Global, fault: &FileFault) -> Result<Vec<u8>, AllocError>
    ensures { IfOk result (λ text. IsTold fault.now text.items) }
{
    match fault {
        FileFault::Json(JsonFault::OutOfMemory)
        | FileFault::Schema(SchemaFault::OutOfMemory)
        | FileFault::Object(Fault::OutOfMemory)
        | FileFault::OutOfMemory => Err(AllocError),
        FileFault::Json(fault) => code_text(alloc, fault.code()),
        FileFault::Schema(fault) => code_text(alloc, fault.code()),
        FileFault::Object(fault) => fault_text(alloc, fault),
    }
}

/// Writes the line of a file's fault, and tells how the run ends by it.
pub fn tell<W: Sink>(
    alloc: Global,
    writer: &mut W,
    fault: &FileFault,
) -> Result<Ending, DeviceFault>
    ensures telling { IsTelling fault.now (W.contents writer.old) (W.contents writer.new) result }
    ensures handed_on { OnOk result (W.is_handed_on writer.new ≡ true) }
    ensures failed { OnErr result (W.has_failed writer.new ≡ true) }
{
    match told(alloc, fault) {
        Ok(text) => {
            write_reply(writer, text)?;
            Ok(Ending::Refused)
        }
        Err(_) => {
            write_fault(writer, FaultCode::OutOfMemory)?;
            Ok(Ending::OutOfMemory)
        }
    }
}
