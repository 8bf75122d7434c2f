//! Equality and copies.
ghost use Rattle.std.specs.Prelude.{◌≡◌, ◌↔◌, IsTrue, IfOk, [], length, take};
ghost use Rattle.doip_json.specs.Meaning.{value_of};

use crate::leaf::Str;
use crate::value::{Json, JsonList, JsonMap};
use std::alloc::{AllocError, Global};

/// Whether the two values are equal.
#[cycle(same)]
pub fn is_same(a: &Json, b: &Json) -> bool
    ensures { IsTrue result ↔ (value_of a.now ≡ value_of b.now) }
{
    match (a, b) {
        (Json::Null, Json::Null) => true,
        (Json::Truth(x), Json::Truth(y)) => *x == *y,
        (Json::Whole(x), Json::Whole(y)) => x.get() == y.get(),
        (Json::Text(x), Json::Text(y)) => x.get() == y.get(),
        (Json::Items(x), Json::Items(y)) => are_same(x, y),
        (Json::Table(x), Json::Table(y)) => is_same_map(x, y),
        _ => false,
    }
}

#[cycle(same)]
fn are_same(a: &JsonList, b: &JsonList) -> bool
    ensures { IsTrue result ↔ (a.now ≡ b.now) }
{
    if a.len() != b.len() {
        return false;
    }
    for i in 0..a.len() {
        if !is_same(a.item(i), b.item(i)) {
            return false;
        }
    }
    true
}

/// Whether the JSON objects are equal. It ends at the first difference.
#[cycle(same)]
pub fn is_same_map(a: &JsonMap, b: &JsonMap) -> bool
    ensures { IsTrue result ↔ (a.now ≡ b.now) }
{
    if a.len() != b.len() {
        return false;
    }
    for i in 0..a.len() {
        if a.key_at(i).get() != b.key_at(i).get() || !is_same(a.value_at(i), b.value_at(i)) {
            return false;
        }
    }
    true
}

/// An equal value. It copies each string once.
#[cycle(copy)]
pub fn copy(alloc: Global, value: &Json) -> Result<Json, AllocError>
    ensures { IfOk result (λ made. value_of made ≡ value_of value.now) }
{
    match value {
        Json::Null => Ok(Json::Null),
        Json::Truth(truth) => Ok(Json::Truth(*truth)),
        Json::Whole(number) => Ok(Json::Whole(*number)),
        Json::Text(text) => Ok(Json::Text(Str::of(alloc, text.get())?)),
        Json::Items(list) => Ok(Json::Items(copy_list(alloc, list)?)),
        Json::Table(map) => Ok(Json::Table(copy_map(alloc, map)?)),
    }
}

#[cycle(copy)]
fn copy_list(alloc: Global, list: &JsonList) -> Result<JsonList, AllocError>
    ensures { IfOk result (λ made. made ≡ list.now) }
{
    let mut made = JsonList::empty(alloc);
    for i in 0..list.len() {
        made.push(copy(alloc, list.item(i))?)?;
    }
    Ok(made)
}

/// An equal object. It copies each string once.
#[cycle(copy)]
pub fn copy_map(alloc: Global, map: &JsonMap) -> Result<JsonMap, AllocError>
    ensures { IfOk result (λ made. made ≡ map.now) }
{
    let mut made = JsonMap::empty(alloc);
    for i in 0..map.len() {
        let key = Str::of(alloc, map.key_at(i).get())?;
        made.push_last(key, copy(alloc, map.value_at(i))?)?;
    }
    Ok(made)
}
