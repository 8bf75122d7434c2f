//! The value at a JSON pointer into the content.
ghost use Rattle.std.specs.Prelude.{◌≡◌, IfOk, option_map};
ghost use Rattle.doip_json.specs.Meaning.{value_of};
ghost use Rattle.ext_ops.specs.declared.code.ExtCode.TheVariants.{Pick};
ghost use Rattle.ext_ops.specs.Extended.{answer_of, place_in, picked, ext};

use crate::answer::ExtAnswer;
use crate::common::{refused, string_in};
use dobj_model::Object;
use doip_json::{Json, JsonMap, Str, at_pointer, copy};
use std::alloc::{AllocError, Global};

/// The value at a place of the object's content, copied: `{"value":V}`.
///
/// The argument `pointer` is a string, a JSON pointer: empty for the content itself, or with a `/` before each token. It
/// is refused with `pointer` if it is no string or finds nothing, as in an object without content.
pub fn pick(alloc: Global, object: &Object, arguments: &JsonMap) -> Result<ExtAnswer, AllocError>
    ensures { IfOk result (λ answer. answer_of answer ≡ ext Pick object.now arguments.now) }
{
    match found_in(object, arguments) {
        Some(value) => Ok(ExtAnswer::Answer(pick_of(alloc, value)?)),
        None => refused(alloc, "pointer"),
    }
}

// The value that the arguments point to.
fn found_in<'a>(object: &'a Object, arguments: &JsonMap) -> Option<&'a Json>
    ensures { option_map (λ found. value_of found.now) result ≡ place_in object.now arguments.now }
{
    let pointer = string_in(arguments, "pointer")?;
    let content = object.content()?;
    at_pointer(content, pointer)
}

fn pick_of(alloc: Global, value: &Json) -> Result<Json, AllocError>
    ensures { IfOk result (λ json. value_of json ≡ picked (value_of value.now)) }
{
    let mut pick = JsonMap::empty(alloc);
    pick.put(Str::of(alloc, "value")?, copy(alloc, value)?)?;
    Ok(Json::Table(pick))
}
