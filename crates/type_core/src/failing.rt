//! The first failure of an object's content by a schema.
ghost use Rattle.std.specs.Prelude.{◌≡◌, option_map, IfOk};
ghost use Rattle.doip_json.specs.Meaning.{value_of};
ghost use Rattle.schema_core.specs.FirstFailure as first;
ghost use Rattle.type_core.specs.Checked.{failure_of, first_failing};

use dobj_model::Object;
use doip_json::{Json, Str};
use schema_core::{Schema, SchemaWord, failure_pointer, first_failures_are_found, valid};
use std::alloc::{AllocError, Global};

/// A failure of content.
#[derive(Debug, Drop)]
pub struct Failure {
    /// The word that is failed.
    pub word: SchemaWord,
    /// The JSON pointer of the value that fails it, empty for the whole content.
    pub pointer: Str,
}

/// The first failure of the object's content by the schema, `None` exactly when the content is valid. An object without
/// content is checked as if it had `null`. It takes memory for the pointer alone, so none where the content is valid.
pub fn first_failing(
    alloc: Global,
    schema: &Schema,
    object: &Object,
) -> Result<Option<Failure>, AllocError>
    ensures { IfOk result (λ found. found ≡ first_failing schema.now object.now) }
{
    match object.content() {
        Some(content) => failure_in(alloc, schema, content),
        None => failure_in(alloc, schema, &Json::Null),
    }
}

fn failure_in(alloc: Global, schema: &Schema, content: &Json) -> Result<Option<Failure>, AllocError>
    ensures { IfOk result (λ found.
        found ≡ option_map failure_of (first.first_failure schema.now (value_of content.now))) }
{
    // A call for its clauses: the failure as a function.
    first_failures_are_found();
    let Some(word) = valid(schema, content) else {
        return Ok(None);
    };
    match failure_pointer(alloc, schema, content)? {
        Some(pointer) => Ok(Some(Failure { word, pointer })),
        None => unreachable!(),
    }
}
