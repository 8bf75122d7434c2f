//! What the value of a record's text has of an object.
ghost use Rattle.std.specs.Prelude.{◌≡◌, option_map, codes};
ghost use Rattle.doip_json.specs.Value.{entries_from};
ghost use Rattle.doip_json.specs.Meaning.{value_of};
ghost use Rattle.doip_json.specs.Look.{entry_of};
ghost use Rattle.record_core.specs.Fields.{time_at, metadata_of, metadata_at, fields_in, fields_at, Finds};

use crate::change::RecordFault;
use crate::format::Format;
use crate::leaves::{id_of, list_of, number_of, table_of, text_of, type_of};
use dobj_model::{Id, Metadata, TypeName};
use doip_json::{Json, JsonList, JsonMap};
use std::alloc::Global;

// An object but for the bytes of its elements.
#[derive(Drop)]
pub(crate) struct Fields {
    pub(crate) id: Id,
    pub(crate) type_name: TypeName,
    // Without `metadata`.
    pub(crate) attributes: JsonMap,
    pub(crate) metadata: Metadata,
    // The elements as they are listed.
    pub(crate) elements: JsonList,
}

// The properties that are read.
#[derive(Drop)]
struct Properties {
    id: Option<Json>,
    type_name: Option<Json>,
    attributes: Option<Json>,
    elements: Option<Json>,
}

// The entries of `metadata` that are read.
#[derive(Drop)]
struct MetadataEntries {
    created_by: Option<Json>,
    created_on: Option<Json>,
    modified_by: Option<Json>,
    modified_on: Option<Json>,
    revision: Option<Json>,
}

// The fields of an object, by moving them out of the value.
pub(crate) fn fields_of(alloc: Global, json: Json, format: Format) -> Result<Fields, RecordFault>
    ensures { Finds result (fields_at format (value_of json)) }
{
    match json {
        Json::Table(object) => fields_of_object(alloc, object, format),
        _ => Err(RecordFault::NotARecord),
    }
}

#[tactic(auto, unfolding(crate::specs::Fields::fields_in))]
fn fields_of_object(alloc: Global, object: JsonMap, format: Format) -> Result<Fields, RecordFault>
    ensures { Finds result (fields_in format object) }
{
    let properties = properties_of(object);
    let id = id_of(properties.id)?;
    let type_name = type_of(properties.type_name)?;
    let mut attributes = table_of(properties.attributes)?;
    let metadata = metadata_found(attributes.remove("metadata"), format)?;
    let elements = list_of(alloc, properties.elements)?;
    Ok(Fields {
        id,
        type_name,
        attributes,
        metadata,
        elements,
    })
}

fn properties_of(mut object: JsonMap) -> Properties
    ensures id { option_map value_of result.id ≡ entry_of (codes "id") (entries_from object) }
    ensures type_name { option_map value_of result.type_name ≡ entry_of (codes "type") (entries_from object) }
    ensures attributes { option_map value_of result.attributes ≡ entry_of (codes "attributes") (entries_from object) }
    ensures elements { option_map value_of result.elements ≡ entry_of (codes "elements") (entries_from object) }
{
    let id = object.take("id");
    let type_name = object.take("type");
    let attributes = object.take("attributes");
    let elements = object.take("elements");
    Properties {
        id,
        type_name,
        attributes,
        elements,
    }
}

fn metadata_found(value: Option<Json>, format: Format) -> Result<Metadata, RecordFault>
    ensures { Finds result (metadata_at format (option_map value_of value)) }
{
    match value {
        Some(Json::Table(entries)) => metadata_of_object(entries, format),
        _ => Err(RecordFault::NotARecord),
    }
}

#[tactic(auto, unfolding(crate::specs::Fields::metadata_of))]
fn metadata_of_object(object: JsonMap, format: Format) -> Result<Metadata, RecordFault>
    ensures { Finds result (metadata_of format object) }
{
    let entries = metadata_entries(object);
    let created_by = text_of(entries.created_by)?;
    let created_on = time_of(entries.created_on, format)?;
    let modified_by = text_of(entries.modified_by)?;
    let modified_on = time_of(entries.modified_on, format)?;
    let revision = number_of(entries.revision)?;
    Ok(Metadata {
        created_by,
        created_on,
        modified_by,
        modified_on,
        revision,
    })
}

// A time, which is unknown in format 1.
fn time_of(value: Option<Json>, format: Format) -> Result<u64, RecordFault>
    ensures { Finds result (time_at format (option_map value_of value)) }
{
    match format {
        Format::First => Ok(0),
        Format::Second => number_of(value),
    }
}

fn metadata_entries(mut object: JsonMap) -> MetadataEntries
    ensures created_by { option_map value_of result.created_by ≡ entry_of (codes "createdBy") (entries_from object) }
    ensures created_on { option_map value_of result.created_on ≡ entry_of (codes "createdOn") (entries_from object) }
    ensures modified_by { option_map value_of result.modified_by ≡ entry_of (codes "modifiedBy") (entries_from object) }
    ensures modified_on { option_map value_of result.modified_on ≡ entry_of (codes "modifiedOn") (entries_from object) }
    ensures revision { option_map value_of result.revision ≡ entry_of (codes "revision") (entries_from object) }
{
    let created_by = object.take("createdBy");
    let created_on = object.take("createdOn");
    let modified_by = object.take("modifiedBy");
    let modified_on = object.take("modifiedOn");
    let revision = object.take("revision");
    MetadataEntries {
        created_by,
        created_on,
        modified_by,
        modified_on,
        revision,
    }
}
