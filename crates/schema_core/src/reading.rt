//! Reading a JSON value as a schema.
ghost use Rattle.std.specs.Prelude.{◌≡◌, None, IfOk, IfErr, length};
ghost use Rattle.doip_json.specs.Value.{table, entries_from};
ghost use Rattle.doip_json.specs.Meaning.{value_of};
ghost use Rattle.schema_core.specs.Rules.{no_properties, words_of, plain};
ghost use Rattle.schema_core.specs.Kept.{keyed, within_from};
ghost use Rattle.schema_core.specs.Reading.{words_in, rules_in, properties_at, schemas_in, each_schema, within_at, fault_of, IsFaultOf};

use crate::checking::check;
use crate::fault::SchemaFault;
use crate::schema::Schema;
use crate::values::{
    additional_at, count_at, kinds_at, members_at, number_at, reference_at, required_at,
};
use crate::words::Words;
use base_core::Items;
use doip_json::{Json, JsonMap};
use indexmap::IndexSet;
use std::alloc::{AllocError, Global};

/// The schema that a JSON value is.
///
/// # Errors
/// The keys of a schema are looked at in ascending order, a schema inside when its word is, and the first fault counts:
/// `Word` is a word of JSON Schema that is not supported, `Shape` a word whose value has another shape than it asks
/// for, or a schema that is no JSON object, whose name is `schema`. Words that are neither used nor refused are ignored.
/// `Memory` comes only if an allocation was refused.
///
/// The time is linear in the value. What the schema keeps is copied.
pub fn schema_of(alloc: Global, value: &Json) -> Result<Schema, SchemaFault>
    ensures schema { IfOk result (λ schema. schema ≡ rules_in (value_of value.now)) }
    ensures faultless { IfOk result (λ _. fault_of (value_of value.now) ≡ None) }
    ensures fault { IfErr result (IsFaultOf (fault_of (value_of value.now))) }
{
    check(alloc, value)?;
    let schema = stated(alloc, value)?;
    Ok(schema)
}

// What the value states.
#[cycle(reading)]
fn stated(alloc: Global, value: &Json) -> Result<Schema, AllocError>
    ensures { IfOk result (λ schema. schema ≡ rules_in (value_of value.now)) }
{
    match value {
        Json::Table(map) => object_stated(alloc, map),
        _ => Ok(nothing_stated(alloc)),
    }
}

#[cycle(reading)]
fn object_stated(alloc: Global, map: &JsonMap) -> Result<Schema, AllocError>
    ensures { IfOk result (λ schema. schema ≡ rules_in (table (entries_from map.now))) }
{
    let words = words_of(alloc, map)?;
    let (keys, properties) = properties_of(alloc, map)?;
    let items = items_of(alloc, map)?;
    Ok(Schema::of(words, keys, properties, items))
}

// Keys, and the schema of each at its place.
type Keyed = (IndexSet<String>, Vec<Schema>);

#[cycle(reading)]
fn properties_of(alloc: Global, map: &JsonMap) -> Result<Keyed, AllocError>
    ensures even { IfOk result (λ made. length made.0.keys ≡ length made.1.items) }
    ensures stated { IfOk result (λ made. keyed made.0.keys made.1.items ≡ properties_at (entries_from map.now)) }
{
    match map.get("properties") {
        Some(value) => schemas_of(alloc, value),
        None => Ok(no_properties(alloc)),
    }
}

#[cycle(reading)]
fn schemas_of(alloc: Global, value: &Json) -> Result<Keyed, AllocError>
    ensures even { IfOk result (λ made. length made.0.keys ≡ length made.1.items) }
    ensures stated { IfOk result (λ made. keyed made.0.keys made.1.items ≡ schemas_in (value_of value.now)) }
{
    match value {
        Json::Table(map) => each_of(alloc, map),
        _ => Ok(no_properties(alloc)),
    }
}

#[cycle(reading)]
fn each_of(alloc: Global, map: &JsonMap) -> Result<Keyed, AllocError>
    ensures even { IfOk result (λ made. length made.0.keys ≡ length made.1.items) }
    ensures stated { IfOk result (λ made. keyed made.0.keys made.1.items ≡ each_schema (entries_from map.now)) }
{
    let mut keys = IndexSet::new(alloc);
    let mut schemas = Vec::new(alloc);
    for i in 0..map.len() {
        let key = String::from_str(alloc, map.key_at(i).get())?;
        let schema = stated(alloc, map.value_at(i))?;
        keys.insert(key)?;
        schemas.push(schema)?;
    }
    Ok((keys, schemas))
}

#[cycle(reading)]
fn items_of(alloc: Global, map: &JsonMap) -> Result<Option<Box<Schema>>, AllocError>
    ensures { IfOk result (λ items. within_from items ≡ within_at (entries_from map.now)) }
{
    match map.get("items") {
        Some(value) => {
            let schema = stated(alloc, value)?;
            Ok(Some(Box::new(alloc, schema)?))
        }
        None => Ok(None),
    }
}

fn words_of(alloc: Global, map: &JsonMap) -> Result<Words, AllocError>
    ensures { IfOk result (λ words. words ≡ words_in (entries_from map.now)) }
{
    Ok(Words {
        kinds: kinds_at(alloc, map)?,
        members: members_at(alloc, map)?,
        minimum: number_at(map, "minimum"),
        maximum: number_at(map, "maximum"),
        min_length: count_at(map, "minLength"),
        max_length: count_at(map, "maxLength"),
        min_items: count_at(map, "minItems"),
        max_items: count_at(map, "maxItems"),
        required: required_at(alloc, map)?,
        additional_properties: additional_at(map),
        reference: reference_at(alloc, map)?,
    })
}

// The schema that asks nothing.
fn nothing_stated(alloc: Global) -> Schema
    ensures { result ≡ plain }
{
    let (keys, properties) = no_properties(alloc);
    Schema::of(none(alloc), keys, properties, None)
}

// No key.
fn no_properties(alloc: Global) -> Keyed
    ensures even { length result.0.keys ≡ length result.1.items }
    ensures stated { keyed result.0.keys result.1.items ≡ no_properties }
{
    (IndexSet::new(alloc), Vec::new(alloc))
}

// No word.
fn none(alloc: Global) -> Words
    ensures { result ≡ words_of plain }
{
    Words {
        kinds: None,
        members: None,
        minimum: None,
        maximum: None,
        min_length: None,
        max_length: None,
        min_items: None,
        max_items: None,
        required: Items::new(alloc),
        additional_properties: true,
        reference: None,
    }
}
