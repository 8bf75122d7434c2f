//! Fields of one value each, as they are found in the value of a record's text. Values are moved and not copied.
ghost use Rattle.std.specs.Prelude.{◌≡◌, Some, option_map};
ghost use Rattle.doip_json.specs.Value.{whole, table, entries_from};
ghost use Rattle.doip_json.specs.Meaning.{value_of};
ghost use Rattle.record_core.specs.Fields.{text_at, name_at, number_at, table_at, list_if, IsTable, Finds};

use crate::change::RecordFault;
use dobj_model::{Id, TypeName};
use doip_json::{Json, JsonList, JsonMap, Num, Str};
use std::alloc::Global;

pub(crate) fn text_of(value: Option<Json>) -> Result<Str, RecordFault>
    ensures { Finds result (text_at (option_map value_of value)) }
{
    match value {
        Some(Json::Text(text)) => Ok(text),
        _ => Err(RecordFault::NotARecord),
    }
}

pub(crate) fn id_of(value: Option<Json>) -> Result<Id, RecordFault>
    ensures { Finds result (name_at (option_map value_of value)) }
{
    match value {
        Some(Json::Text(text)) => match Id::from_text(text) {
            Some(id) => Ok(id),
            None => Err(RecordFault::NotARecord),
        },
        _ => Err(RecordFault::NotARecord),
    }
}

pub(crate) fn type_of(value: Option<Json>) -> Result<TypeName, RecordFault>
    ensures { Finds result (name_at (option_map value_of value)) }
{
    match value {
        Some(Json::Text(text)) => match TypeName::from_text(text) {
            Some(type_name) => Ok(type_name),
            None => Err(RecordFault::NotARecord),
        },
        _ => Err(RecordFault::NotARecord),
    }
}

pub(crate) fn number_of(value: Option<Json>) -> Result<u64, RecordFault>
    ensures { Finds result (number_at (option_map value_of value)) }
{
    match &value {
        Some(Json::Whole(number)) => natural(*number),
        _ => Err(RecordFault::NotARecord),
    }
}

fn natural(number: Num) -> Result<u64, RecordFault>
    ensures { Finds result (number_at (Some (whole number))) }
{
    let n = number.get();
    if n < 0 {
        Err(RecordFault::NotARecord)
    } else {
        Ok(n as u64)
    }
}

pub(crate) fn table_of(value: Option<Json>) -> Result<JsonMap, RecordFault>
    ensures { Finds result (table_at (option_map value_of value)) }
{
    match value {
        Some(Json::Table(entries)) => Ok(entries),
        _ => Err(RecordFault::NotARecord),
    }
}

// An array, empty where it is absent.
pub(crate) fn list_of(alloc: Global, value: Option<Json>) -> Result<JsonList, RecordFault>
    ensures { Finds result (list_if (option_map value_of value)) }
{
    match value {
        None => Ok(JsonList::empty(alloc)),
        Some(value) => items_of(value),
    }
}

fn items_of(value: Json) -> Result<JsonList, RecordFault>
    ensures { Finds result (list_if (Some (value_of value))) }
{
    match value {
        Json::Items(items) => Ok(items),
        _ => Err(RecordFault::NotARecord),
    }
}

// A JSON object that is known to be there.
pub(crate) fn table_there(value: Option<Json>) -> JsonMap
    requires { IsTable (option_map value_of value) }
    ensures { option_map value_of value ≡ Some (table (entries_from result)) }
{
    match value {
        Some(Json::Table(entries)) => entries,
        _ => unreachable!(),
    }
}
