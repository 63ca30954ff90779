//! Copies of JSON values.
ghost use Rattle.std.specs.Prelude.{◌≡◌, IfOk};
ghost use Rattle.ssa_json.specs.View.{view, items_view, members_view, scalar_view};

use crate::value::{Json, Scalar};
use ssa_members::Members;
use std::alloc::{AllocError, Global};

impl Scalar {
    /// The same scalar, in memory of its own.
    #[inline(always)]
    pub fn copy(&self, alloc: Global) -> Result<Scalar, AllocError>
        ensures { IfOk result (λ s. scalar_view s ≡ scalar_view self.now) }
    {
        match self {
            Scalar::Text(text) => Ok(Scalar::Text(text.copy(alloc)?)),
            Scalar::Int(n) => Ok(Scalar::Int(*n)),
            Scalar::Bool(b) => Ok(Scalar::Bool(*b)),
        }
    }
}

impl Json {
    /// The same value, in memory of its own.
    pub fn copy(&self, alloc: Global) -> Result<Json, AllocError>
        ensures { IfOk result (λ v. view v ≡ view self.now) }
    {
        copied(alloc, self)
    }
}

#[cycle(copy)]
fn copied(alloc: Global, value: &Json) -> Result<Json, AllocError>
    ensures { IfOk result (λ v. view v ≡ view value.now) }
{
    match value {
        Json::Scalar(scalar) => Ok(Json::Scalar(scalar.copy(alloc)?)),
        Json::List(items) => Ok(Json::List(copied_items(alloc, items)?)),
        Json::Object(members) => Ok(Json::Object(copied_members(alloc, members)?)),
    }
}

#[cycle(copy)]
fn copied_items(alloc: Global, items: &Vec<Json>) -> Result<Vec<Json>, AllocError>
    ensures { IfOk result (λ v. items_view v.items ≡ items_view items.now.items) }
{
    let mut found = Vec::with_capacity(alloc, items.len())?;
    for item in items {
        found.push(copied(alloc, item)?)?;
    }
    Ok(found)
}

#[cycle(copy)]
fn copied_members(alloc: Global, members: &Members<Json>) -> Result<Members<Json>, AllocError>
    ensures { IfOk result (λ m. members_view m.entries ≡ members_view members.now.entries) }
{
    let mut found = Vec::with_capacity(alloc, members.len())?;
    for (name, member) in members.entries() {
        let key = name.copy(alloc)?;
        found.push((key, copied(alloc, member)?))?;
    }
    Ok(Members::of_rising(found))
}
