//! The references in an object's content that aren't met.
ghost use Rattle.std.specs.Prelude.{◌≡◌, List, ℕ, Bool, option_map, IfOk};
ghost use Rattle.doip_json.specs.Meaning.{value_of};
ghost use Rattle.schema_core.specs.References.{references_in};
ghost use Rattle.type_core.specs.Names.{checked_content};
ghost use Rattle.type_core.specs.Checked.{is_met, is_of_with, unmet_among, first_unmet};

use dobj_model::Object;
use doip_json::{Json, Str};
use schema_core::{Reference, References, Schema, references};
use std::alloc::{AllocError, Global};

/// Objects and their types, as references ask for them.
pub trait Typed {
    /// Whether there is an object with the identifier and of the type, however they are kept.
    ghost is_of: { Self → List ℕ → List ℕ → Bool };

    /// Whether there is an object with this identifier and of the type of this name. It takes no memory.
    fn has_type(&self, id: &str, type_name: &str) -> bool
        ensures { result ≡ is_of self.now id.now type_name.now };
}

/// The JSON pointer of the first reference in the object's content that isn't met, `None` exactly when all are met.
///
/// A reference is a string to which the schema applies the word `cordra`. It is met by an object that has the string as
/// its identifier, and one of the word's types: by one of the others, or by the object itself, which takes the place of
/// the one that has its identifier.
pub fn first_unmet<T: Typed>(
    alloc: Global,
    schema: &Schema,
    object: &Object,
    others: &T,
) -> Result<Option<Str>, AllocError>
    ensures { IfOk result (λ pointer. pointer ≡ first_unmet schema.now object.now (T.is_of others.now)) }
{
    let found = references_of(alloc, schema, object)?;
    match unmet_among(found.as_slice(), object, others) {
        Some(pointer) => Ok(Some(Str::of(alloc, pointer.get())?)),
        None => Ok(None),
    }
}

// The pointer of the first reference that isn't met.
fn unmet_among<'a, T: Typed>(
    references: &'a [Reference],
    object: &Object,
    others: &T,
) -> Option<&'a Str>
    ensures { option_map (λ pointer. pointer.now) result
        ≡ unmet_among (is_of_with object.now (T.is_of others.now)) references.now }
{
    match references
        .iter()
        .find(|reference| !is_met(reference, object, others))
    {
        Some(reference) => Some(&reference.pointer),
        None => None,
    }
}

// The references in the object's content.
fn references_of(alloc: Global, schema: &Schema, object: &Object) -> Result<References, AllocError>
    ensures { IfOk result (λ found. found ≡ references_in schema.now (checked_content object.now)) }
{
    match object.content() {
        Some(content) => references(alloc, schema, content),
        None => references(alloc, schema, &Json::Null),
    }
}

// Whether the reference is met by the object, or by another.
fn is_met<T: Typed>(reference: &Reference, object: &Object, others: &T) -> bool
    ensures { result ≡ is_met (is_of_with object.now (T.is_of others.now)) reference.now }
{
    let id = reference.id.get();
    reference
        .types
        .as_slice()
        .iter()
        .any(|name| has_type(id, name.get(), object, others))
}

// Whether the object is the one with the identifier and has the type, or another has.
fn has_type<T: Typed>(id: &str, type_name: &str, object: &Object, others: &T) -> bool
    ensures { result ≡ is_of_with object.now (T.is_of others.now) id.now type_name.now }
{
    if object.id().get() == id {
        object.type_name().get() == type_name
    } else {
        others.has_type(id, type_name)
    }
}
