//! The two values of the line of a command and its record.
ghost use Rattle.ssa_json.specs.View.{view};
ghost use Rattle.ssa_told.specs.LineValues.{TellsLine};

use crate::member_names::{Shape, have_names_of};
use ssa_json::value::Json;

/// The values of a line's members.
#[derive(Clone, Copy)]
pub struct LineValues<'a> {
    pub command: &'a Json,
    pub record: &'a Json,
}

/// The values of a line, where it is an object of the members `command` and `record` and no others.
///
/// Whether the first is a command and the second a record is another question. Takes no memory.
pub fn line_values(value: &Json) -> Option<LineValues<'_>>
    ensures { TellsLine result (view value.now) }
{
    let Json::Object(members) = value else {
        return None;
    };
    if !have_names_of(Shape::Line, members) {
        return None;
    }
    let (Some(command), Some(record)) = (value.member("command"), value.member("record")) else {
        return None;
    };
    Some(LineValues { command, record })
}
