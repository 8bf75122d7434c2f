//! What the values of a schema's words state.
ghost use Rattle.std.specs.Prelude.{◌≡◌, [], ◌∷◌, true, IfOk, option_map, option_and_then, unwrap_or, codes};
ghost use Rattle.doip_json.specs.Value.{whole, values_from, entries_from};
ghost use Rattle.doip_json.specs.Meaning.{value_of};
ghost use Rattle.doip_json.specs.Look.{entry_of};
ghost use Rattle.schema_core.specs.Failing.{number_in, string_in};
ghost use Rattle.schema_core.specs.Shapes.{all_in, unless_empty, kind_in, kinds_in, members_in, count_in, names_in, truth_in, types_in, reference_in};
ghost use Rattle.schema_core.specs.Reading.{cordra};

use crate::kind::Kind;
use crate::shape::{handle_of, kind_named, name_of};
use base_core::Items;
use doip_json::{Json, JsonList, JsonMap, Num, Str, copy, get};
use std::alloc::{AllocError, Global};

// The list, unless it is empty.
fn some_of<T: Drop>(list: Option<Items<T>>) -> Option<Items<T>>
    ensures { result ≡ option_and_then unless_empty list }
{
    match list {
        Some(items) => if items.is_empty() { None } else { Some(items) },
        None => None,
    }
}

// The kinds that the items name, if each names one.
fn kinds_named(alloc: Global, items: &JsonList) -> Result<Option<Items<Kind>>, AllocError>
    ensures { IfOk result (λ found. found ≡ all_in kind_in (values_from items.now)) }
{
    let mut kinds = Items::new(alloc);
    for i in 0..items.len() {
        let Some(kind) = kind_named(items.item(i)) else {
            return Ok(None);
        };
        kinds.push(kind)?;
    }
    Ok(Some(kinds))
}

// The items as strings, if each is one.
fn names_of(alloc: Global, items: &JsonList) -> Result<Option<Items<Str>>, AllocError>
    ensures { IfOk result (λ found. found ≡ all_in string_in (values_from items.now)) }
{
    let mut names = Items::new(alloc);
    for i in 0..items.len() {
        let Some(name) = name_of(items.item(i)) else {
            return Ok(None);
        };
        names.push(Str::of(alloc, name)?)?;
    }
    Ok(Some(names))
}

/// The strings of an array, `None` exactly when the value is no array of strings alone. It copies them.
pub fn strings_of(alloc: Global, value: &Json) -> Result<Option<Items<Str>>, AllocError>
    ensures { IfOk result (λ found. found ≡ names_in (value_of value.now)) }
{
    match value {
        Json::Items(items) => names_of(alloc, items),
        _ => Ok(None),
    }
}

fn one_kind(alloc: Global, value: &Json) -> Result<Option<Items<Kind>>, AllocError>
    ensures { IfOk result (λ found. found ≡ option_map (λ kind. kind ∷ []) (kind_in (value_of value.now))) }
{
    let Some(kind) = kind_named(value) else {
        return Ok(None);
    };
    let mut kinds = Items::new(alloc);
    kinds.push(kind)?;
    Ok(Some(kinds))
}

/// What `type` states.
pub(crate) fn kinds_at(alloc: Global, map: &JsonMap) -> Result<Option<Items<Kind>>, AllocError>
    ensures { IfOk result (λ found. found ≡ option_and_then kinds_in (entry_of (codes "type") (entries_from map.now))) }
{
    match map.get("type") {
        Some(Json::Items(items)) => Ok(some_of(kinds_named(alloc, items)?)),
        Some(value) => one_kind(alloc, value),
        None => Ok(None),
    }
}

// The items of a copy, unless there are none.
fn list_of(value: Json) -> Option<JsonList>
    ensures { result ≡ members_in (value_of value) }
{
    match value {
        Json::Items(items) => if items.len() > 0 { Some(items) } else { None },
        _ => None,
    }
}

/// What `enum` states.
pub(crate) fn members_at(alloc: Global, map: &JsonMap) -> Result<Option<JsonList>, AllocError>
    ensures { IfOk result (λ found.
        found ≡ option_and_then members_in (entry_of (codes "enum") (entries_from map.now))) }
{
    match map.get("enum") {
        Some(value) => Ok(list_of(copy(alloc, value)?)),
        None => Ok(None),
    }
}

/// The number at the key.
pub(crate) fn number_at(map: &JsonMap, key: &str) -> Option<Num>
    ensures { result ≡ option_and_then number_in (entry_of key.now (entries_from map.now)) }
{
    match map.get(key) {
        Some(Json::Whole(number)) => Some(*number),
        _ => None,
    }
}

/// The number from 0 at the key.
pub(crate) fn count_at(map: &JsonMap, key: &str) -> Option<u64>
    ensures { result ≡ option_and_then count_in (entry_of key.now (entries_from map.now)) }
{
    match map.get(key) {
        Some(Json::Whole(number)) => count_of(number),
        _ => None,
    }
}

fn count_of(number: &Num) -> Option<u64>
    ensures { result ≡ count_in (whole number.now) }
{
    let number = number.get();
    if number >= 0 {
        Some(number as u64)
    } else {
        None
    }
}

/// What `required` states.
pub(crate) fn required_at(alloc: Global, map: &JsonMap) -> Result<Items<Str>, AllocError>
    ensures { IfOk result (λ found.
        found ≡ unwrap_or (option_and_then names_in (entry_of (codes "required") (entries_from map.now))) []) }
{
    match map.get("required") {
        Some(Json::Items(items)) => match names_of(alloc, items)? {
            Some(names) => Ok(names),
            None => Ok(Items::new(alloc)),
        },
        _ => Ok(Items::new(alloc)),
    }
}

/// What `additionalProperties` states.
pub(crate) fn additional_at(map: &JsonMap) -> bool
    ensures { result ≡
        unwrap_or (option_and_then truth_in (entry_of (codes "additionalProperties") (entries_from map.now))) true }
{
    match map.get("additionalProperties") {
        Some(Json::Truth(truth)) => *truth,
        _ => true,
    }
}

fn types_of(alloc: Global, handle: &Json) -> Result<Option<Items<Str>>, AllocError>
    ensures { IfOk result (λ found. found ≡ types_in (value_of handle.now)) }
{
    match get(handle, "types") {
        Some(types) => Ok(some_of(strings_of(alloc, types)?)),
        None => Ok(None),
    }
}

/// What `cordra` states of references.
pub(crate) fn reference_at(alloc: Global, map: &JsonMap) -> Result<Option<Items<Str>>, AllocError>
    ensures { IfOk result (λ found. found ≡ option_and_then reference_in (entry_of cordra (entries_from map.now))) }
{
    match map.get("cordra") {
        Some(value) => match handle_of(value) {
            Some(handle) => types_of(alloc, handle),
            None => Ok(None),
        },
        None => Ok(None),
    }
}
