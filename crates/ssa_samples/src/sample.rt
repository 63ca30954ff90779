//! An object of the sample schema, and its bench.

use crate::sample_schema::SCHEMA;
use ssa_bench::bench::Bench;
use ssa_json::moment::Moment;
use ssa_json::value::Json;
use ssa_schema::schema::Schema;
use std::alloc::{AllocError, Global};
use std::test::Fail;

/// The object `web` in `shop` with these members before its name, each with a comma behind it, and
/// these behind its metadata, each with a comma before it.
pub fn web(alloc: Global, metadata: &str, members: &str) -> Result<String, AllocError> {
    [
        "{\"apiVersion\":\"example.com/v1\",\"kind\":\"App\",\"metadata\":{",
        metadata,
        "\"name\":\"web\",\"namespace\":\"shop\"}",
        members,
        "}",
    ]
    .concat(alloc)
}

/// An image of the object, as a member behind its metadata.
pub const IMAGE: &str = ",\"spec\":{\"image\":\"a\"}";

/// The value that a text is.
pub fn json(alloc: Global, text: &str) -> Result<Json, Fail> {
    Ok(Json::read(alloc, text.as_bytes(), text.len())?)
}

/// The sample schema.
pub fn schema(alloc: Global) -> Result<Schema, Fail> {
    Ok(Schema::read(alloc, json(alloc, SCHEMA)?)?)
}

/// The moment of all the lines and commands.
pub fn moment() -> Result<Moment, Fail> {
    Ok(Moment::read("2024-05-01T10:00:01Z")?)
}

/// The bench of the object without further members.
pub fn bench(alloc: Global) -> Result<Bench, Fail> {
    let object = json(alloc, web(alloc, "", "")?.as_str())?;
    Ok(Bench::new(alloc, schema(alloc)?, object)?)
}
