//! Reading a request.
ghost use Rattle.std.specs.Prelude.{◌≡◌, ◌≢◌, ◌<◌, List, ℕ, codes, option_map, drop, length, IfOk};
ghost use Rattle.doip_json.specs.Value.{table, entries_from};
ghost use Rattle.doip_json.specs.Meaning.{value_of};
ghost use Rattle.doip_json.specs.Look.{entry_of};
ghost use Rattle.doip_message.specs.Asked.{content_of};
ghost use Rattle.doip_message.specs.Reading.{unless_null, optional_text, required_text, attributes_in, authentication_in, input_in, property_values, properties_in, first_object, further, request, Reads, IsRequest};
ghost use Rattle.doip_message.specs.Fields.{view_of, asking_view};

use crate::request::{Body, FieldName, Request, RequestFault, Why};
use doip_json::{Json, JsonMap, Str, read};
use doip_segment::{Kind, Message};
use std::alloc::{AllocError, Global};

/// How deep the first segment may nest.
const DEPTH: u8 = 64;

// The properties of the first segment that are read, each absent where it is `null`.
#[derive(Drop)]
struct Fields {
    request_id: Option<Json>,
    target_id: Option<Json>,
    operation_id: Option<Json>,
    attributes: Option<Json>,
    authentication: Option<Json>,
    input: Option<Json>,
}

// The properties after the request id, as they are asked.
#[derive(Drop)]
struct Asking {
    target_id: Str,
    operation_id: Str,
    attributes: JsonMap,
    authentication: Option<Json>,
    input: Body,
}

/// The request that a message is, or its first fault.
///
/// # Errors
/// The first of these that holds, in this order; the last two carry the request id where that property is a string.
///
/// | fault | comes |
/// |---|---|
/// | `NoSegment` | the message has no segment |
/// | `FirstIsBytes` | its first segment is bytes |
/// | `Json` | its first segment is not JSON, nests deeper than 64, or has a number that isn't an integer |
/// | `NotTable` | its first segment is no JSON object |
/// | `Field` | `requestId`, `targetId`, `operationId` or `attributes`, in this order, is of another kind or missing |
/// | `TwoInputs` | there is an `input` and a further segment |
///
/// `null` for an optional property counts as absent, as does an empty JSON object of `authentication`; other properties
/// are not read. `Memory` comes only when an allocation was refused.
///
/// It takes time linear in the length of the message: the values are those that the reader of JSON made, and the
/// contents of further segments are copied once.
pub fn request_of(alloc: Global, message: &Message) -> Result<Request, RequestFault>
    ensures { IsRequest result (request message.now.segments) }
{
    let object = match first_object_of(alloc, message) {
        Ok(object) => object,
        Err(why) => {
            return Err(RequestFault {
                request_id: None,
                why,
            });
        }
    };
    let mut fields = fields_of(object);
    let request_id = match optional_text_of(fields.request_id.take(), FieldName::RequestId) {
        Ok(request_id) => request_id,
        Err(why) => {
            return Err(RequestFault {
                request_id: None,
                why,
            });
        }
    };
    match asking_of(alloc, fields, message) {
        Ok(asking) => Ok(Request {
            request_id,
            target_id: asking.target_id,
            operation_id: asking.operation_id,
            attributes: asking.attributes,
            authentication: asking.authentication,
            input: asking.input,
        }),
        Err(why) => Err(RequestFault { request_id, why }),
    }
}

// The JSON object that the first segment is.
fn first_object_of(alloc: Global, message: &Message) -> Result<JsonMap, Why>
    ensures { Reads (λ m. table (entries_from m)) result (first_object message.now.segments) }
{
    if message.count() == 0 {
        return Err(Why::NoSegment);
    }
    if matches!(message.kind(0), Kind::Bytes) {
        return Err(Why::FirstIsBytes);
    }
    match read(alloc, message.bytes(0), DEPTH) {
        Ok(Json::Table(object)) => Ok(object),
        Ok(_) => Err(Why::NotTable),
        Err(fault) => match fault.text_fault() {
            Some(fault) => Err(Why::Json(fault)),
            None => Err(Why::Memory),
        },
    }
}

// The value of a property, which is taken out of the object. `null` counts as absent.
fn take_property(object: &mut JsonMap, key: &str) -> Option<Json>
    ensures value { option_map value_of result ≡ unless_null (entry_of key.now (entries_from object.old)) }
    ensures others { (other : List ℕ) → other ≢ key.now →
        entry_of other (entries_from object.new) ≡ entry_of other (entries_from object.old) }
{
    match object.take(key) {
        None | Some(Json::Null) => None,
        Some(value) => Some(value),
    }
}

// The properties that are read.
fn fields_of(mut entries: JsonMap) -> Fields
    ensures { view_of result ≡ property_values (table (entries_from entries)) }
{
    let request_id = take_property(&mut entries, "requestId");
    let target_id = take_property(&mut entries, "targetId");
    let operation_id = take_property(&mut entries, "operationId");
    let attributes = take_property(&mut entries, "attributes");
    let authentication = take_property(&mut entries, "authentication");
    let input = take_property(&mut entries, "input");
    Fields {
        request_id,
        target_id,
        operation_id,
        attributes,
        authentication,
        input,
    }
}

// What the properties after the request id ask, the first fault first.
#[tactic(auto, unfolding(crate::specs::Reading::properties_in))]
fn asking_of(alloc: Global, fields: Fields, message: &Message) -> Result<Asking, Why>
    ensures { Reads asking_view result (properties_in (view_of fields) (further message.now.segments)) }
{
    let target_id = required_text_of(fields.target_id, FieldName::TargetId)?;
    let operation_id = required_text_of(fields.operation_id, FieldName::OperationId)?;
    let attributes = attributes_of(alloc, fields.attributes)?;
    let authentication = authentication_of(fields.authentication);
    let input = input_of(alloc, fields.input, message)?;
    Ok(Asking {
        target_id,
        operation_id,
        attributes,
        authentication,
        input,
    })
}

// The text of an optional property.
fn optional_text_of(property: Option<Json>, name: FieldName) -> Result<Option<Str>, Why>
    ensures { Reads (λ t. t) result (optional_text name (option_map value_of property)) }
{
    match property {
        None => Ok(None),
        Some(Json::Text(text)) => Ok(Some(text)),
        Some(_) => Err(Why::Field { name }),
    }
}

// The text of a property that has to be there.
fn required_text_of(property: Option<Json>, name: FieldName) -> Result<Str, Why>
    ensures { Reads (λ t. t) result (required_text name (option_map value_of property)) }
{
    match property {
        Some(Json::Text(text)) => Ok(text),
        _ => Err(Why::Field { name }),
    }
}

// The arguments, empty where there are none.
fn attributes_of(alloc: Global, property: Option<Json>) -> Result<JsonMap, Why>
    ensures { Reads entries_from result (attributes_in (option_map value_of property)) }
{
    match property {
        None => Ok(JsonMap::empty(alloc)),
        Some(Json::Table(attributes)) => Ok(attributes),
        Some(_) => Err(Why::Field {
            name: FieldName::Attributes,
        }),
    }
}

// Who asks. An empty JSON object counts as absent.
fn authentication_of(property: Option<Json>) -> Option<Json>
    ensures { option_map value_of result ≡ authentication_in (option_map value_of property) }
{
    match property {
        Some(Json::Table(entries)) => {
            if entries.len() == 0 {
                None
            } else {
                Some(Json::Table(entries))
            }
        }
        other => other,
    }
}

// The input: the property of that name, or the segments after the first.
fn input_of(alloc: Global, property: Option<Json>, message: &Message) -> Result<Body, Why>
    ensures { Reads content_of result (input_in (option_map value_of property) (further message.now.segments)) }
{
    let has_more = message.count() > 1;
    match property {
        Some(value) => {
            if has_more {
                Err(Why::TwoInputs)
            } else {
                Ok(Body::Value(value))
            }
        }
        None => {
            if has_more {
                match parts_of(alloc, message) {
                    Ok(parts) => Ok(Body::Parts(parts)),
                    Err(AllocError) => Err(Why::Memory),
                }
            } else {
                Ok(Body::Nothing)
            }
        }
    }
}

// A copy of the segments after the first.
fn parts_of(alloc: Global, message: &Message) -> Result<Message, AllocError>
    ensures { IfOk result (λ m. m.segments ≡ drop 1 message.now.segments) }
{
    let mut parts = Message::empty(alloc);
    for i in 1..message.count() {
        parts.push(message.kind(i), message.bytes(i))?;
    }
    Ok(parts)
}
