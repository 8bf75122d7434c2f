//! Reading a text as a value.
ghost use Rattle.std.specs.Prelude.{◌≡◌, ◌≤◌, ◌↔◌, IsTrue, IfOk, IfErr, IfSome, Some, option_map};
ghost use Rattle.serde_json.specs.Data.{depth as nesting, items_depth, members_depth};
ghost use Rattle.serde_json.specs.Find.{as_integer};
ghost use Rattle.serde_json.specs.View.{view, number_view, items_view, members_view};
ghost use Rattle.doip_json.specs.Value.{depth_of, whole, values_from, entries_from};
ghost use Rattle.doip_json.specs.Meaning.{value_of};
ghost use Rattle.doip_json.specs.Read.{reading, value_in, values_in, entries_in};
ghost use Rattle.doip_json.specs.Faults.{text_fault_of};
ghost use Rattle.doip_json.specs.Whole.{IsNotWhole};

use crate::fault::JsonFault;
use crate::leaf::{Num, Str};
use crate::value::{Json, JsonList, JsonMap};
use serde_json::{Map, Number, Value};
use std::alloc::Global;

/// The value of a JSON text, with arrays and objects nested at most `depth` deep.
///
/// The first fault counts: `NotJson` if the bytes aren't UTF-8 or aren't a JSON text by RFC 8259 (a text that nests
/// deeper than 127 is none), else `TooDeep`, else `NotWhole`.
///
/// It takes time linear in the text. `serde_json` reads it into its own value, whose strings are then moved and not
/// copied; arrays and objects are built anew. The stack grows with the nesting alone.
pub fn read(alloc: Global, bytes: &[u8], depth: u8) -> Result<Json, JsonFault>
    requires low { 1 ≤ depth }
    requires high { depth ≤ 127 }
    ensures value { IfOk result (λ json. reading bytes.now depth ≡ Ok (value_of json)) }
    ensures nests { IfOk result (λ json. depth_of (value_of json) ≤ depth) }
    ensures fault { IfErr result (λ fault. IfSome (text_fault_of fault) (λ told. reading bytes.now depth ≡ Err told)) }
{
    match Value::from_slice(alloc, bytes) {
        Ok(parsed) => if nests_within(&parsed, depth) {
            json_of(alloc, parsed)
        } else {
            Err(JsonFault::TooDeep)
        },
        Err(e) => if e.is_memory() {
            Err(JsonFault::Memory)
        } else {
            Err(JsonFault::NotJson)
        },
    }
}

#[cycle(nests)]
fn nests_within(value: &Value, depth: u8) -> bool
    ensures { IsTrue result ↔ (nesting (view value.now) ≤ depth) }
{
    match value {
        Value::Array(items) => depth > 0 && items_within(items, depth - 1),
        Value::Object(members) => depth > 0 && members_within(members, depth - 1),
        _ => true,
    }
}

#[cycle(nests)]
fn items_within(items: &Vec<Value>, depth: u8) -> bool
    ensures { IsTrue result ↔ (items_depth (items_view items.now.items) ≤ depth) }
{
    for item in items {
        if !nests_within(item, depth) {
            return false;
        }
    }
    true
}

#[cycle(nests)]
fn members_within(members: &Map<String, Value>, depth: u8) -> bool
    ensures { IsTrue result ↔ (members_depth (members_view members.now.entries) ≤ depth) }
{
    for (_, member) in members.iter() {
        if !nests_within(member, depth) {
            return false;
        }
    }
    true
}

#[cycle(convert)]
fn json_of(alloc: Global, value: Value) -> Result<Json, JsonFault>
    ensures value { IfOk result (λ json. value_in (view value) ≡ Some (value_of json)) }
    ensures fault { IfErr result (IsNotWhole (value_in (view value))) }
{
    match value {
        Value::Null => Ok(Json::Null),
        Value::Bool(truth) => Ok(Json::Truth(truth)),
        Value::Number(number) => number_of(number),
        Value::String(text) => Ok(Json::Text(Str::from_string(text))),
        Value::Array(items) => Ok(Json::Items(list_of(alloc, items)?)),
        Value::Object(members) => Ok(Json::Table(map_of(alloc, members)?)),
    }
}

fn number_of(number: Number) -> Result<Json, JsonFault>
    ensures value { IfOk result (λ json. option_map whole (as_integer (number_view number)) ≡ Some (value_of json)) }
    ensures fault { IfErr result (IsNotWhole (option_map whole (as_integer (number_view number)))) }
{
    match number.as_i128().and_then(Num::new) {
        Some(number) => Ok(Json::Whole(number)),
        None => Err(JsonFault::NotWhole),
    }
}

#[cycle(convert)]
fn list_of(alloc: Global, items: Vec<Value>) -> Result<JsonList, JsonFault>
    ensures value { IfOk result (λ list. values_in (items_view items.items) ≡ Some (values_from list)) }
    ensures fault { IfErr result (IsNotWhole (values_in (items_view items.items))) }
{
    let mut list = JsonList::empty(alloc);
    for item in items {
        list.push(json_of(alloc, item)?)?;
    }
    Ok(list)
}

#[cycle(convert)]
fn map_of(alloc: Global, members: Map<String, Value>) -> Result<JsonMap, JsonFault>
    ensures value { IfOk result (λ map. entries_in (members_view members.entries) ≡ Some (entries_from map)) }
    ensures fault { IfErr result (IsNotWhole (entries_in (members_view members.entries))) }
{
    let mut map = JsonMap::empty(alloc);
    for (key, member) in members {
        map.push_last(Str::from_string(key), json_of(alloc, member)?)?;
    }
    Ok(map)
}
