//! The identity of an object: its version, kind, name and namespace.
ghost use Rattle.std.specs.Prelude.{true, ◌≡◌, ◌∷◌, [], IfOk, codes, not, ◌&&◌, ◌||◌, Some, None, option_map};
ghost use Rattle.ssa_model.specs.definitions.Objects.{value_at, identity_of, is_named_text, is_some_object, is_identity, same_value, same_identity, is_missing};
ghost use Rattle.ssa_json.specs.View.{view};
ghost use Rattle.ssa_object.specs.Identities.{identity_in, HasVersion};

use ssa_json::value::Json;
use std::alloc::{AllocError, Global};
use std::marker::Model;

/// What an object is called. It is the same in every command on a bench.
#[derive(Drop)]
pub struct Identity {
    version: Json,
    kind: Json,
    name: Json,
    namespace: Option<Json>,
}

impl Model for Identity {
    ghost use Rattle.ssa_model.specs.definitions.Objects as model;
    ghost use Rattle.ssa_model.specs.codes.BenchCodes.{coded_identity};

    ghost Value = { model.Identity };

    ghost coded = { coded_identity };

    ghost use Rattle.ssa_object.specs.Identities.{identity_view};

    ghost view = { identity_view };

    ghost use Rattle.ssa_object.specs.Identities.{IsNamed};

    ghost invariant = { IsNamed };
}

// The member of a member.
#[inline(always)]
fn member_in<'a>(object: &'a Json, outer: &str, inner: &str) -> Option<&'a Json>
    ensures { option_map (λ v. view v.now) result ≡ value_at (outer.now ∷ inner.now ∷ []) (view object.now) }
{
    match object.member(outer) {
        Some(value) => value.member(inner),
        None => None,
    }
}

// Whether the value is a text that isn't empty.
fn is_named(value: &Json) -> bool
    ensures { result ≡ is_named_text (Some (view value.now)) }
{
    match value.as_text() {
        Some(text) => !text.is_empty(),
        None => false,
    }
}

// Whether the object has a member of the name that is a text and isn't empty.
#[inline(always)]
fn has_named(object: &Json, name: &str) -> bool
    ensures { result ≡ is_named_text (value_at (name.now ∷ []) (view object.now)) }
{
    match object.member(name) {
        Some(value) => is_named(value),
        None => false,
    }
}

// The same of a member of a member.
fn has_named_in(object: &Json, outer: &str, inner: &str) -> bool
    ensures { result ≡ is_named_text (value_at (outer.now ∷ inner.now ∷ []) (view object.now)) }
{
    match member_in(object, outer, inner) {
        Some(value) => is_named(value),
        None => false,
    }
}

// Whether the object has no such member of a member.
#[inline(always)]
fn lacks(object: &Json, outer: &str, inner: &str) -> bool
    ensures { result ≡ is_missing (value_at (outer.now ∷ inner.now ∷ []) (view object.now)) }
{
    member_in(object, outer, inner).is_none()
}

/// Whether the object has `metadata`, and a version, kind and name, and a namespace that is a text where it is there.
pub fn has_identity(object: &Json) -> bool
    ensures { result ≡ (is_some_object (value_at (codes "metadata" ∷ []) (view object.now)) && is_identity (identity_of (view object.now))) }
{
    has_metadata(object)
        && (has_named(object, "apiVersion")
            && (has_named(object, "kind")
                && (has_named_in(object, "metadata", "name")
                    && (lacks(object, "metadata", "namespace")
                        || has_named_in(object, "metadata", "namespace")))))
}

fn has_metadata(object: &Json) -> bool
    ensures { result ≡ is_some_object (value_at (codes "metadata" ∷ []) (view object.now)) }
{
    match object.member("metadata") {
        Some(value) => value.is_object(),
        None => false,
    }
}

/// Whether a command's object carries `managedFields`, whatever its value.
pub fn gives_managed_fields(object: &Json) -> bool
    ensures { result ≡ not (is_missing (value_at (codes "metadata" ∷ codes "managedFields" ∷ []) (view object.now))) }
{
    !lacks(object, "metadata", "managedFields")
}

// Whether the value found is the one given.
fn is_same_value(found: Option<&Json>, given: &Json) -> bool
    ensures { result ≡ same_value (option_map (λ v. view v.now) found.entry) (Some (view given.now)) }
{
    match found {
        Some(value) => value.same(given),
        None => false,
    }
}

// The same where there may be none.
fn is_same_optional(found: Option<&Json>, given: &Option<Json>) -> bool
    ensures { result ≡ same_value (option_map (λ v. view v.now) found.entry) (option_map view given.now) }
{
    match (found, given) {
        (Some(value), Some(other)) => value.same(other),
        (Some(_), None) => false,
        (None, Some(_)) => false,
        (None, None) => true,
    }
}

// The same value, with new memory, where there is one.
fn copy_optional(alloc: Global, value: Option<&Json>) -> Result<Option<Json>, AllocError>
    ensures { IfOk result (λ copied. option_map view copied ≡ option_map (λ v. view v.now) value.entry) }
{
    match value {
        Some(value) => Ok(Some(value.copy(alloc)?)),
        None => Ok(None),
    }
}

impl Identity {
    /// The version, kind, name and namespace.
    pub fn parts(&self) -> (&Json, &Json, &Json, Option<&Json>)
        ensures { self.now ≡ record { version = Some (view result.0.now); kind = Some (view result.1.now); name = Some (view result.2.now); namespace = option_map (λ v. view v.now) result.3 } }
    {
        (
            &self.version,
            &self.kind,
            &self.name,
            self.namespace.as_ref(),
        )
    }

    /// Each part is a text that isn't empty; the namespace may be absent.
    pub fn parts_are_named(&self)
        ensures { is_identity self.now ≡ true }
    {
        let _ = &self.name;
    }

    /// The `apiVersion`.
    pub fn version(&self) -> &str
        ensures { HasVersion result.now self.now }
    {
        let Some(version) = self.version.as_text() else {
            unreachable!("the version is a text");
        };
        version
    }

    /// Whether the object's identity is this one, absence of the namespace included. Such an object has `metadata` and all
    /// that an identity needs, so it need not be asked [`has_identity`].
    pub fn is_same_as(&self, object: &Json) -> bool
        ensures same { result ≡ same_identity (identity_of (view object.now)) self.now }
        ensures whole { result ≡ true → (is_some_object (value_at (codes "metadata" ∷ []) (view object.now)) && is_identity (identity_of (view object.now))) ≡ true }
    {
        let _ = &self.name;
        self.has_same_parts(object)
    }

    // Whether each part of the object's identity is this one's.
    fn has_same_parts(&self, object: &Json) -> bool
        ensures { result ≡ same_identity (identity_of (view object.now)) self.now }
    {
        let version = is_same_value(object.member("apiVersion"), &self.version);
        let kind = is_same_value(object.member("kind"), &self.kind);
        let name = is_same_value(member_in(object, "metadata", "name"), &self.name);
        let namespace = member_in(object, "metadata", "namespace");
        version && (kind && (name && is_same_optional(namespace, &self.namespace)))
    }

    /// The identity of an object; none where a part is missing, empty or no text.
    pub fn of_object(alloc: Global, object: &Json) -> Result<Option<Identity>, AllocError>
        ensures { IfOk result (λ found. found ≡ identity_in (view object.now)) }
    {
        if !has_identity(object) {
            return Ok(None);
        }
        let Some(version) = object.member("apiVersion") else {
            return Ok(None);
        };
        let Some(kind) = object.member("kind") else {
            return Ok(None);
        };
        let Some(name) = member_in(object, "metadata", "name") else {
            return Ok(None);
        };
        let namespace = copy_optional(alloc, member_in(object, "metadata", "namespace"))?;
        Ok(Some(Identity {
            version: version.copy(alloc)?,
            kind: kind.copy(alloc)?,
            name: name.copy(alloc)?,
            namespace,
        }))
    }
}
