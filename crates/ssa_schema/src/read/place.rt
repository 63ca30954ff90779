//! Where the first fault of a schema stands.

use crate::read::refusal::Refusal;
use crate::read::rules::{property_members, unknown_keyword};
use crate::read::standing::Standing;
use crate::read::walk::{first_refusal, own_refusal};
use ssa_json::members::find_member;
use ssa_json::value::Json;
use ssa_members::Members;
use std::alloc::{AllocError, Global};

// A schema inside another: the keyword that it stands under, and its name where it is a field's.
#[derive(Drop)]
struct Inside<'a> {
    keyword: &'static str,
    name: Option<&'a str>,
    schema: &'a Json,
}

// The first schema of a field that has a fault.
fn refused_property<'a>(
    alloc: Global,
    properties: &'a Members<Json>,
    levels: usize,
    standing: Standing,
) -> Result<Option<Inside<'a>>, AllocError> {
    for (name, schema) in properties.entries() {
        if first_refusal(alloc, schema, levels, standing)?.is_some() {
            return Ok(Some(Inside {
                keyword: "properties",
                name: Some(name.as_str()),
                schema,
            }));
        }
    }
    Ok(None)
}

// The schema under a keyword, where it has a fault.
fn refused_member<'a>(
    alloc: Global,
    members: &'a Members<Json>,
    keyword: &'static str,
    levels: usize,
    standing: Standing,
) -> Result<Option<Inside<'a>>, AllocError> {
    let Some(schema) = find_member(members, keyword) else {
        return Ok(None);
    };
    if first_refusal(alloc, schema, levels, standing)?.is_none() {
        return Ok(None);
    }
    Ok(Some(Inside {
        keyword,
        name: None,
        schema,
    }))
}

// The first schema inside that has a fault, in the order in which they are read.
fn refused_inside<'a>(
    alloc: Global,
    members: &'a Members<Json>,
    levels: usize,
    standing: Standing,
) -> Result<Option<Inside<'a>>, AllocError> {
    if let Some(properties) = property_members(members) {
        let found = refused_property(alloc, properties, levels, standing)?;
        if found.is_some() {
            return Ok(found);
        }
    }
    let found = refused_member(alloc, members, "additionalProperties", levels, standing)?;
    if found.is_some() {
        return Ok(found);
    }
    refused_member(alloc, members, "items", levels, standing)
}

// Appends a name of the way.
fn push_name(alloc: Global, place: &mut Vec<String>, name: &str) -> Result<(), AllocError> {
    place.push(String::from_str(alloc, name)?)?;
    Ok(())
}

// The schema inside that the first fault is in, with its way appended; none where the fault is the schema's own, and
// then a keyword that is not read is the end of the way.
fn step_inside<'a>(
    alloc: Global,
    members: &'a Members<Json>,
    levels: usize,
    standing: Standing,
    place: &mut Vec<String>,
) -> Result<Option<&'a Json>, AllocError> {
    if let Some(refusal) = own_refusal(alloc, members, standing)? {
        if refusal == Refusal::Keyword {
            push_name(alloc, place, unknown_keyword(members).unwrap_or(""))?;
        }
        return Ok(None);
    }
    let Some(inside) = refused_inside(alloc, members, levels, standing.inside(members))? else {
        return Ok(None);
    };
    push_name(alloc, place, inside.keyword)?;
    if let Some(name) = inside.name {
        push_name(alloc, place, name)?;
    }
    Ok(Some(inside.schema))
}

/// The names that lead from a schema to what its first fault is at: to a schema inside, or to a keyword that is not
/// read. A schema of `n` parts costs at most its depth times `n`.
pub fn fault_place(
    alloc: Global,
    schema: &Json,
    most_levels: usize,
) -> Result<Vec<String>, AllocError> {
    let mut place = Vec::new(alloc);
    let mut standing = Standing::Root;
    let mut here = schema;
    for levels in (0..most_levels).rev() {
        let Json::Object(members) = here else {
            break;
        };
        let Some(inside) = step_inside(alloc, members, levels, standing, &mut place)? else {
            break;
        };
        standing = standing.inside(members);
        here = inside;
    }
    Ok(place)
}
