//! The sample: a schema, a body, its managers, and what they apply.
ghost use Rattle.std.specs.Prelude.{IfOk};
ghost use Rattle.ssa_model.specs.definitions.Valid.{IsValidBody};
ghost use Rattle.ssa_calls.specs.Samples.{IsSample};

use crate::stop::Stop;
use ssa_json::value::Json;
use ssa_merge::managers::Managers;
use ssa_merge::state::State;
use ssa_schema::schema::Schema;
use ssa_typed::body::Body;
use std::alloc::Global;

// A schema with an atomic list, a map, a set, an atomic map, a map list and scalars.
const SCHEMA: &str =
    r#"{"properties":{"spec":{"properties":{"args":{"items":{"type":"string"},"type":"array"},"env":{"additionalProperties":{"type":"string"},"type":"object"},"hosts":{"items":{"type":"string"},"type":"array","x-kubernetes-list-type":"set"},"image":{"type":"string"},"limits":{"additionalProperties":{"type":"integer"},"type":"object","x-kubernetes-map-type":"atomic"},"ports":{"items":{"properties":{"name":{"type":"string"},"port":{"type":"integer"}},"type":"object"},"type":"array","x-kubernetes-list-map-keys":["name"],"x-kubernetes-list-type":"map"},"replicas":{"type":"integer"}},"type":"object"}},"type":"object"}"#;

const BODY: &str =
    r#"{"spec":{"args":["-v"],"env":{"A":"1","B":"2"},"hosts":["a","b"],"image":"nginx:1","limits":{"cpu":2},"ports":[{"name":"web","port":80},{"name":"ops","port":81}],"replicas":3}}"#;

/// The `apiVersion` of the entries.
pub const VERSION: &str = "v1";

/// The moment of each command.
pub const AT: &str = "2024-05-01T10:00:09Z";

// A manager of a name of one byte that applies, one of seven bytes that updates, and one of 128 that
// applies. The first two own `replicas`, the first and the last `image` and the item `web`.
const ENTRIES: &str =
    r#"[{"apiVersion":"v1","fieldsType":"FieldsV1","fieldsV1":{"f:spec":{"f:env":{"f:A":{}},"f:hosts":{"v:\"a\"":{}},"f:image":{},"f:ports":{"k:{\"name\":\"web\"}":{".":{},"f:name":{},"f:port":{}}},"f:replicas":{}}},"manager":"a","operation":"Apply","time":"2024-05-01T10:00:01Z"},{"apiVersion":"v1","fieldsType":"FieldsV1","fieldsV1":{"f:spec":{"f:args":{},"f:env":{"f:B":{}},"f:hosts":{"v:\"b\"":{}},"f:replicas":{}}},"manager":"kubectl","operation":"Update","time":"2024-05-01T10:00:02Z"},{"apiVersion":"v1","fieldsType":"FieldsV1","fieldsV1":{"f:spec":{"f:image":{},"f:limits":{},"f:ports":{"k:{\"name\":\"ops\"}":{".":{},"f:name":{},"f:port":{}},"k:{\"name\":\"web\"}":{".":{},"f:name":{},"f:port":{}}}}},"manager":"nnnnnnnnnnnnnnnnnnnnnnnnnnnnnnnnnnnnnnnnnnnnnnnnnnnnnnnnnnnnnnnnnnnnnnnnnnnnnnnnnnnnnnnnnnnnnnnnnnnnnnnnnnnnnnnnnnnnnnnnnnnnnnnn","operation":"Apply","time":"2024-05-01T10:00:03Z"}]"#;

/// A configuration, and who applies it.
#[derive(Clone, Copy)]
pub struct Config {
    pub who: &'static str,
    pub force: bool,
    pub text: &'static str,
}

const LONG_NAME: &str =
    "nnnnnnnnnnnnnnnnnnnnnnnnnnnnnnnnnnnnnnnnnnnnnnnnnnnnnnnnnnnnnnnnnnnnnnnnnnnnnnnnnnnnnnnnnnnnnnnnnnnnnnnnnnnnnnnnnnnnnnnnnnnnnnnn";

/// Changes and adds what nobody else owns.
pub const OWN: Config = Config {
    who: "a",
    force: false,
    text: r#"{"spec":{"env":{"A":"9","C":"3"},"hosts":["a","c"],"image":"nginx:1","ports":[{"name":"dbg","port":82},{"name":"web","port":80}],"replicas":3}}"#,
};

/// Changes what each of the managers owns.
pub const CONTRARY: Config = Config {
    who: "kubectl",
    force: false,
    text: r#"{"spec":{"image":"nginx:2","limits":{"cpu":4},"replicas":5}}"#,
};

/// The same, forced.
pub const FORCED: Config = Config {
    who: "kubectl",
    force: true,
    text: r#"{"spec":{"image":"nginx:2","limits":{"cpu":4},"replicas":5}}"#,
};

/// Leaves out what its manager alone owns, and an item that another owns too.
pub const LESS: Config = Config {
    who: LONG_NAME,
    force: false,
    text: r#"{"spec":{"image":"nginx:1"}}"#,
};

/// All that the same manager owns in the sample.
pub const AGAIN: Config = Config {
    who: LONG_NAME,
    force: false,
    text: r#"{"spec":{"image":"nginx:1","limits":{"cpu":2},"ports":[{"name":"ops","port":81},{"name":"web","port":80}]}}"#,
};

/// What the manager that updates makes of the object.
pub const OBJECT: &str =
    r#"{"spec":{"args":["-v","-q"],"env":{"B":"2","D":"4"},"image":"nginx:1","limits":{"cpu":2},"ports":[{"name":"web","port":90},{"name":"ops","port":81}],"replicas":3}}"#;

/// A state of a schema.
#[derive(Drop)]
pub struct Sample {
    pub schema: Schema,
    pub state: State,
}

// The value of a text.
fn value(alloc: Global, text: &str) -> Result<Json, Stop> {
    let value = Json::read(alloc, text.as_bytes(), text.len())?;
    Ok(value)
}

/// The body that a text is under the schema.
pub fn body_of(alloc: Global, schema: &Schema, text: &str) -> Result<Body, Stop>
    ensures { IfOk result (IsValidBody schema.now.kind) }
{
    let value = value(alloc, text)?;
    let body = Body::from_json(alloc, schema, value)?;
    Ok(body)
}

/// The sample.
pub fn read_sample(alloc: Global) -> Result<Sample, Stop>
    ensures { IfOk result IsSample }
{
    let source = value(alloc, SCHEMA)?;
    let schema = Schema::read(alloc, source)?;
    let body = body_of(alloc, &schema, BODY)?;
    let entries = value(alloc, ENTRIES)?;
    let managers = Managers::from_entries(alloc, &entries, &body, VERSION)?;
    Ok(Sample {
        schema,
        state: State { body, managers },
    })
}
