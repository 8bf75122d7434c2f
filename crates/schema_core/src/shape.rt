//! The shapes of the words' values.
ghost use Rattle.std.specs.Prelude.{◌≡◌, is_some, option_map};
ghost use Rattle.doip_json.specs.Meaning.{value_of};
ghost use Rattle.doip_json.specs.Value.{values_from};
ghost use Rattle.schema_core.specs.Failing.{string_in};
ghost use Rattle.schema_core.specs.Shapes.{has_shape, kind_called, kind_in, kinds_in, names_in, all_in, is_reference, handle_in, types_in, members_in, count_in};

use crate::kind::Kind;
use crate::word::SchemaWord;
use doip_json::{Json, JsonList, get};

/// The kind of this name.
pub(crate) fn kind_of(name: &str) -> Option<Kind>
    ensures { result ≡ kind_called name.now }
{
    match name {
        "null" => Some(Kind::Null),
        "boolean" => Some(Kind::Boolean),
        "integer" => Some(Kind::Integer),
        "number" => Some(Kind::Number),
        "string" => Some(Kind::String),
        "array" => Some(Kind::Array),
        "object" => Some(Kind::Object),
        _ => None,
    }
}

/// The kind that the value names.
pub(crate) fn kind_named(value: &Json) -> Option<Kind>
    ensures { result ≡ kind_in (value_of value.now) }
{
    match value {
        Json::Text(name) => kind_of(name.get()),
        _ => None,
    }
}

fn are_kinds(items: &JsonList) -> bool
    ensures { result ≡ is_some (all_in kind_in (values_from items.now)) }
{
    for i in 0..items.len() {
        let Some(_) = kind_named(items.item(i)) else {
            return false;
        };
    }
    true
}

fn has_kinds(value: &Json) -> bool
    ensures { result ≡ is_some (kinds_in (value_of value.now)) }
{
    match value {
        Json::Items(items) => items.len() > 0 && are_kinds(items),
        _ => kind_named(value).is_some(),
    }
}

/// The string, of a string.
pub(crate) fn name_of(value: &Json) -> Option<&str>
    ensures { option_map (λ name. name.now) result ≡ string_in (value_of value.now) }
{
    match value {
        Json::Text(name) => Some(name.get()),
        _ => None,
    }
}

fn are_names(items: &JsonList) -> bool
    ensures { result ≡ is_some (all_in string_in (values_from items.now)) }
{
    for i in 0..items.len() {
        let Some(_) = name_of(items.item(i)) else {
            return false;
        };
    }
    true
}

fn has_names(value: &Json) -> bool
    ensures { result ≡ is_some (names_in (value_of value.now)) }
{
    match value {
        Json::Items(items) => are_names(items),
        _ => false,
    }
}

fn has_members(value: &Json) -> bool
    ensures { result ≡ is_some (members_in (value_of value.now)) }
{
    match value {
        Json::Items(items) => items.len() > 0,
        _ => false,
    }
}

fn has_types(handle: &Json) -> bool
    ensures { result ≡ is_some (types_in (value_of handle.now)) }
{
    match get(handle, "types") {
        Some(Json::Items(items)) => items.len() > 0 && are_names(items),
        _ => false,
    }
}

/// What `cordra` says of references.
pub(crate) fn handle_of(value: &Json) -> Option<&Json>
    ensures { option_map (λ handle. value_of handle.now) result ≡ handle_in (value_of value.now) }
{
    match get(value, "type") {
        Some(kind) => get(kind, "handleReference"),
        None => None,
    }
}

/// Whether what `cordra` has says nothing of references, or names types.
pub(crate) fn refers(value: &Json) -> bool
    ensures { result ≡ is_reference (value_of value.now) }
{
    match handle_of(value) {
        Some(handle) => has_types(handle),
        None => true,
    }
}

/// Whether the value has the shape of the word. A schema inside is looked at by itself.
pub(crate) fn is_shaped(word: SchemaWord, value: &Json) -> bool
    ensures { result ≡ has_shape word (value_of value.now) }
{
    match word {
        SchemaWord::Kind => has_kinds(value),
        SchemaWord::Enum => has_members(value),
        SchemaWord::Minimum | SchemaWord::Maximum => matches!(value, Json::Whole(_)),
        SchemaWord::MinLength
        | SchemaWord::MaxLength
        | SchemaWord::MinItems
        | SchemaWord::MaxItems => { has_count(value) }
        SchemaWord::Required => has_names(value),
        SchemaWord::AdditionalProperties => matches!(value, Json::Truth(_)),
        SchemaWord::Properties | SchemaWord::Items => true,
    }
}

fn has_count(value: &Json) -> bool
    ensures { result ≡ is_some (count_in (value_of value.now)) }
{
    match value {
        Json::Whole(number) => number.get() >= 0,
        _ => false,
    }
}
