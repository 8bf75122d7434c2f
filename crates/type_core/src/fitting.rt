//! Whether an object fits a type, or leans on another object, with no memory.
ghost use Rattle.std.specs.Prelude.{◌≡◌, ◌&&◌, is_none};
ghost use Rattle.std.specs.List.{list_any};
ghost use Rattle.doip_json.specs.Meaning.{value_of};
ghost use Rattle.schema_core.specs.FirstFailure as first;
ghost use Rattle.schema_core.specs.References.{references_in};
ghost use Rattle.type_core.specs.Names.{is_text, checked_content};
ghost use Rattle.type_core.specs.Checked.{unmet_among};
ghost use Rattle.type_core.specs.Sound.{makes, fits, leans_on};

use crate::names::name_given;
use crate::referring::Typed;
use base_core::Items;
use dobj_model::Object;
use doip_json::{Json, Str};
use schema_core::{ReferenceTest, Schema, every_reference, first_failures_are_found, valid};

// Objects, as a test of references: that one of them meets a reference.
#[derive(Drop)]
struct Met<'t, T> {
    objects: &'t T,
}

impl<'t, T: Typed> ReferenceTest for Met<'t, T> {
    ghost use Rattle.std.specs.List.{list_any};

    ghost holds_of = { λ m id types. list_any (T.is_of m.objects.now id) types };

    fn holds(&self, id: &str, types: &Items<Str>) -> bool {
        has_one(self.objects, id, types)
    }
}

// Whether an object has the identifier and one of the types.
fn has_one<T: Typed>(objects: &T, id: &str, types: &Items<Str>) -> bool
    ensures { result ≡ list_any (T.is_of objects.now id.now) types.now }
{
    types
        .as_slice()
        .iter()
        .any(|name| objects.has_type(id, name.get()))
}

// An identifier, as a test of references: that a reference is to another one.
#[derive(Drop)]
struct Other<'t> {
    id: &'t str,
}

impl<'t> ReferenceTest for Other<'t> {
    ghost use Rattle.std.specs.Prelude.{not};
    ghost use Rattle.type_core.specs.Names.{is_text};

    ghost holds_of = { λ o id types. not (is_text id o.id.now) };

    fn holds(&self, id: &str, _: &Items<Str>) -> bool {
        id != self.id
    }
}

/// Whether the object makes the type of this name: it is of the type `Schema`, and has the name at `name` of its
/// content. It takes no memory.
pub fn makes(object: &Object, name: &str) -> bool
    ensures { result ≡ makes name.now object.now }
{
    match name_given(object) {
        Some(given) => given == name,
        None => false,
    }
}

/// Whether the content of the object is valid to the schema, and each of its references is met by one of the
/// objects, among which it stands itself. It takes no memory, and time linear in the content but for what `valid` of
/// `schema_core` takes and the looks at the objects.
pub fn fits<T: Typed>(schema: &Schema, object: &Object, objects: &T) -> bool
    ensures { result ≡ fits (T.is_of objects.now) object.now schema.now }
{
    match object.content() {
        Some(content) => fits_in(schema, content, objects),
        None => fits_in(schema, &Json::Null, objects),
    }
}

fn fits_in<T: Typed>(schema: &Schema, content: &Json, objects: &T) -> bool
    ensures { result ≡ (is_none (first.first_failure schema.now (value_of content.now))
        && is_none (unmet_among (T.is_of objects.now) (references_in schema.now (value_of content.now)))) }
{
    is_valid(schema, content) && are_met(schema, content, objects)
}

fn is_valid(schema: &Schema, content: &Json) -> bool
    ensures { result ≡ is_none (first.first_failure schema.now (value_of content.now)) }
{
    // A call for its clauses: the failure as a function.
    first_failures_are_found();
    valid(schema, content).is_none()
}

fn are_met<T: Typed>(schema: &Schema, content: &Json, objects: &T) -> bool
    ensures { result ≡ is_none (unmet_among (T.is_of objects.now) (references_in schema.now (value_of content.now))) }
{
    every_reference(schema, content, &Met { objects })
}

/// Whether the object, which fits the schema, isn't sound without another one: that makes its type, or a reference
/// of its content is to that. It takes no memory.
pub fn leans_on(other: &Object, schema: &Schema, object: &Object) -> bool
    ensures { result ≡ leans_on other.now schema.now object.now }
{
    makes(other, object.type_name().get()) || refers(schema, object, other.id().get())
}

// Whether a reference of the object's content is to the identifier.
fn refers(schema: &Schema, object: &Object, id: &str) -> bool
    ensures { result
        ≡ list_any (λ r. is_text r.id id.now) (references_in schema.now (checked_content object.now)) }
{
    match object.content() {
        Some(content) => refers_in(schema, content, id),
        None => refers_in(schema, &Json::Null, id),
    }
}

fn refers_in(schema: &Schema, content: &Json, id: &str) -> bool
    ensures { result ≡ list_any (λ r. is_text r.id id.now) (references_in schema.now (value_of content.now)) }
{
    !every_reference(schema, content, &Other { id })
}
