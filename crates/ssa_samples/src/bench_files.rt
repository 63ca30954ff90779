//! The file of a bench of the sample schema, and how a bench is taken from its file and saved in it.

use crate::sample::{IMAGE, web};
use crate::sample_schema::SCHEMA;
use ssa_bench::bench::Bench;
use ssa_json::reader::OfReader;
use ssa_json::sink::OfWriter;
use ssa_lines::loading::LoadFault;
use std::alloc::{AllocError, Global};
use std::test::Fail;

const ENTRY: &str =
    "\"managedFields\":[{\"apiVersion\":\"example.com/v1\",\"fieldsType\":\"FieldsV1\",\"fieldsV1\":{\"f:spec\":{\"f:image\":{}}},\"manager\":\"kubectl\",\"operation\":\"Apply\",\"time\":\"2024-05-01T10:00:01Z\"}],";

/// The file of the bench on which the image was applied.
pub fn bench_file(alloc: Global) -> Result<String, AllocError> {
    let present = web(alloc, ENTRY, IMAGE)?;
    [
        "{\"depth\":1000,\"format\":4,\"future\":0,\"past\":1}\n",
        SCHEMA,
        "\n",
        present.as_str(),
        "\n{\"command\":{\"at\":\"2024-05-01T10:00:01Z\",\"do\":\"apply\",\"force\":false,\"manager\":\"kubectl\"},\"record\":{\"changed\":[],\"cut\":[[\"f:spec\"]],\"gone\":[[\"kubectl\",\"Apply\"]],\"here\":[],\"leaves\":[],\"order\":[],\"put\":[]}}\n",
    ]
    .concat(alloc)
}

/// The file of whole states of the same bench, with this place.
pub fn states_file(alloc: Global, place: &str) -> Result<String, AllocError> {
    let first = web(alloc, "", "")?;
    let second = web(alloc, ENTRY, IMAGE)?;
    [
        "{\"format\":1,\"place\":",
        place,
        ",\"states\":2}\n",
        SCHEMA,
        "\n{\"command\":{},\"object\":",
        first.as_str(),
        "}\n{\"command\":{\"at\":\"2024-05-01T10:00:01Z\",\"do\":\"apply\",\"force\":false,\"manager\":\"kubectl\"},\"object\":",
        second.as_str(),
        "}\n",
    ]
    .concat(alloc)
}

/// The bench of a file.
pub fn loaded(alloc: Global, file: &[u8]) -> Result<Bench, LoadFault> {
    let mut reader = OfReader::new(file);
    Bench::load(alloc, &mut reader)
}

/// The file of a bench.
pub fn saved(alloc: Global, bench: &Bench) -> Result<Vec<u8>, Fail> {
    let mut sink = OfWriter::new(Vec::new(alloc));
    bench.save(alloc, &mut sink)?;
    Ok(sink.into_inner())
}
