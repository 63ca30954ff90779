//! What the JSON value of a record tells, list by list, before it is known to fit a state.
use ssa_json::moment::Moment;
use ssa_json::value::Json;
use ssa_merge::manager::ManagerKey;
use ssa_merge::managers::Entry;
use ssa_path::element::Elem;
use ssa_path::field_set::FieldSet;
use ssa_path::path::Path;

/// A leaf that changes: its path, and its content afterwards as a value.
#[derive(Drop)]
pub struct ToldLeaf {
    pub path: Path,
    pub value: Json,
}

/// A list whose order changes: its path, and all its items in their order afterwards.
#[derive(Drop)]
pub struct ToldOrder {
    pub path: Path,
    pub items: Vec<Elem>,
}

/// What is put at a path: its value, and the place that is told of an item.
#[derive(Drop)]
pub struct ToldPut {
    pub path: Path,
    pub value: Json,
    pub place: Option<usize>,
}

/// What is told of a body, each list as it stands in the value.
#[derive(Drop)]
pub struct ToldBody {
    pub cut: Vec<Path>,
    pub leaves: Vec<ToldLeaf>,
    pub order: Vec<ToldOrder>,
    pub put: Vec<ToldPut>,
}

/// A manager of which paths or another moment are told.
#[derive(Drop)]
pub struct ToldChange {
    pub key: ManagerKey,
    pub gain: FieldSet,
    pub lose: FieldSet,
    pub at: Option<Moment>,
}

/// An entry that is here, and the place that is told of it.
#[derive(Drop)]
pub struct ToldHere {
    pub place: usize,
    pub entry: Entry,
}

/// What is told of a table, each list as it stands in the value.
#[derive(Drop)]
pub struct ToldTable {
    pub changed: Vec<ToldChange>,
    pub gone: Vec<ManagerKey>,
    pub here: Vec<ToldHere>,
}

/// What is told of a state.
#[derive(Drop)]
pub struct ToldRecord {
    pub body: ToldBody,
    pub table: ToldTable,
}
