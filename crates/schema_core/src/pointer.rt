//! Where a value fails a schema.
ghost use Rattle.std.specs.Prelude.{◌≡◌, ◌∷◌, ◌++◌, [], None, reverse, decimal, IfOk, MatchOption};
ghost use Rattle.doip_json.specs.Value.{list, table, values_from, entries_from};
ghost use Rattle.doip_json.specs.Meaning.{value_of};
ghost use Rattle.doip_json.specs.Written.{pointer_of};
ghost use Rattle.schema_core.specs.Rules.{words_of};
ghost use Rattle.schema_core.specs.Failing.{IsValid};
ghost use Rattle.schema_core.specs.First.{IsFirstHere, IsFirstPointer, IsFirstNames};

use crate::schema::Schema;
use doip_json::{Json, JsonList, JsonMap, Str, push_token};
use std::alloc::{AllocError, Global};

/// The JSON pointer of the first failure of the value, `None` exactly when the value is valid.
///
/// The failure is the one whose word [`valid`](crate::valid) returns. The pointer is empty if the value itself fails,
/// and a key that `additionalProperties` refuses is its last token. It takes the time of `valid` and that of the
/// pointer, and takes memory for the pointer alone.
pub fn failure_pointer(
    alloc: Global,
    schema: &Schema,
    value: &Json,
) -> Result<Option<Str>, AllocError>
    ensures { IfOk result (IsFirstPointer schema.now (value_of value.now)) }
{
    match failing(alloc, schema, value)? {
        Some(names) => Ok(Some(written(alloc, names)?)),
        None => Ok(None),
    }
}

// The pointer of names, of which the last one comes first.
fn written(alloc: Global, names: Vec<Str>) -> Result<Str, AllocError>
    ensures { IfOk result (λ pointer. pointer ≡ pointer_of (reverse names.items)) }
{
    let mut names = names;
    let mut pointer = String::new(alloc);
    while let Some(name) = names.pop() {
        push_token(alloc, &mut pointer, name.get())?;
    }
    Ok(Str::from_string(pointer))
}

// The names of the steps to the first failure, the last one first.
#[cycle(failing)]
fn failing(alloc: Global, schema: &Schema, value: &Json) -> Result<Option<Vec<Str>>, AllocError>
    ensures { IfOk result (λ found. MatchOption found (IsValid schema.now (value_of value.now))
        (λ names. IsFirstNames schema.now (value_of value.now) names.items)) }
{
    if let Some(_) = schema.words().failure(value) {
        return Ok(Some(Vec::new(alloc)));
    }
    match value {
        Json::Table(map) => failing_entry(alloc, schema, map),
        Json::Items(items) => failing_item(alloc, schema, items),
        _ => Ok(None),
    }
}

#[cycle(failing)]
fn failing_entry(
    alloc: Global,
    schema: &Schema,
    map: &JsonMap,
) -> Result<Option<Vec<Str>>, AllocError>
    requires { IsFirstHere (words_of schema.now) (table (entries_from map.now)) None }
    ensures { IfOk result (λ found. MatchOption found (IsValid schema.now (table (entries_from map.now)))
        (λ names. IsFirstNames schema.now (table (entries_from map.now)) names.items)) }
{
    for i in 0..map.len() {
        let key = map.key_at(i).get();
        match schema.property(key) {
            Some(inner) => {
                if let Some(names) = failing(alloc, inner, map.value_at(i))? {
                    return Ok(Some(with_name(alloc, names, key)?));
                }
            }
            None => {
                if !schema.words().additional_properties {
                    return Ok(Some(with_name(alloc, Vec::new(alloc), key)?));
                }
            }
        }
    }
    Ok(None)
}

#[cycle(failing)]
fn failing_item(
    alloc: Global,
    schema: &Schema,
    items: &JsonList,
) -> Result<Option<Vec<Str>>, AllocError>
    requires { IsFirstHere (words_of schema.now) (list (values_from items.now)) None }
    ensures { IfOk result (λ found. MatchOption found (IsValid schema.now (list (values_from items.now)))
        (λ names. IsFirstNames schema.now (list (values_from items.now)) names.items)) }
{
    let Some(inner) = schema.items() else {
        return Ok(None);
    };
    for i in 0..items.len() {
        if let Some(names) = failing(alloc, inner, items.item(i))? {
            return Ok(Some(with_position(alloc, names, i)?));
        }
    }
    Ok(None)
}

// Adds a name at the end.
fn with_name(alloc: Global, names: Vec<Str>, name: &str) -> Result<Vec<Str>, AllocError>
    ensures { IfOk result (λ more. more.items ≡ names.items ++ name.now ∷ []) }
{
    let mut names = names;
    names.push(Str::of(alloc, name)?)?;
    Ok(names)
}

// Adds the name of a position at the end: its decimal digits.
fn with_position(alloc: Global, names: Vec<Str>, position: usize) -> Result<Vec<Str>, AllocError>
    ensures { IfOk result (λ more. more.items ≡ names.items ++ decimal position ∷ []) }
{
    let name = format!(in alloc; "{position}")?;
    with_name(alloc, names, &name)
}
