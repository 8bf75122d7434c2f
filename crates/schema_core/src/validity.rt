//! Whether a value is valid to a schema.
ghost use Rattle.doip_json.specs.Value.{list, table, values_from, entries_from};
ghost use Rattle.doip_json.specs.Meaning.{value_of};
ghost use Rattle.schema_core.specs.Rules.{words_of};
ghost use Rattle.schema_core.specs.First.{IsFirstWord, IsFirstHere};
ghost use Rattle.std.specs.Prelude.{None};

use crate::schema::Schema;
use crate::word::SchemaWord;
use doip_json::{Json, JsonList, JsonMap};

/// The word of the first failure of the value, `None` exactly when the value is valid.
///
/// At one value the words are tried in the order `type`, `enum`, `minimum`, `maximum`, `minLength`, `maxLength`,
/// `minItems`, `maxItems`, `required`. Then come the entries of an object, ascending by keys, each by
/// `additionalProperties` or by the schema of its key, or the items of an array, in order.
///
/// It takes no memory. The time is linear in value and schema, but for `enum`, for `required`, and for a kind that stands
/// more than once in `type`; a key's schema is found by a hash. The stack grows with the nesting of the value.
#[cycle(validity)]
pub fn valid(schema: &Schema, value: &Json) -> Option<SchemaWord>
    ensures { IsFirstWord schema.now (value_of value.now) result }
{
    if let Some(word) = schema.words().failure(value) {
        return Some(word);
    }
    match value {
        Json::Table(map) => first_in_object(schema, map),
        Json::Items(list) => first_in_array(schema, list),
        _ => None,
    }
}

// The first failure in an object that fails nothing by itself.
#[cycle(validity)]
fn first_in_object(schema: &Schema, map: &JsonMap) -> Option<SchemaWord>
    requires { IsFirstHere (words_of schema.now) (table (entries_from map.now)) None }
    ensures { IsFirstWord schema.now (table (entries_from map.now)) result }
{
    for i in 0..map.len() {
        match schema.property(map.key_at(i).get()) {
            Some(inner) => {
                if let Some(word) = valid(inner, map.value_at(i)) {
                    return Some(word);
                }
            }
            None => {
                if !schema.words().additional_properties {
                    return Some(SchemaWord::AdditionalProperties);
                }
            }
        }
    }
    None
}

// The first failure in an array that fails nothing by itself.
#[cycle(validity)]
fn first_in_array(schema: &Schema, items: &JsonList) -> Option<SchemaWord>
    requires { IsFirstHere (words_of schema.now) (list (values_from items.now)) None }
    ensures { IsFirstWord schema.now (list (values_from items.now)) result }
{
    let inner = schema.items()?;
    for i in 0..items.len() {
        if let Some(word) = valid(inner, items.item(i)) {
            return Some(word);
        }
    }
    None
}
