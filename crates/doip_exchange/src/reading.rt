//! Reading a response.
ghost use Rattle.std.specs.Prelude.{◌≡◌, ◌≢◌, ◌<◌, List, ℕ, option_map, drop, length, IfOk};
ghost use Rattle.doip_json.specs.Value.{table, entries_from};
ghost use Rattle.doip_json.specs.Meaning.{value_of};
ghost use Rattle.doip_json.specs.Look.{entry_of};
ghost use Rattle.doip_message.specs.Asked.{content_of};
ghost use Rattle.doip_message.specs.Reading.{unless_null, optional_text, required_text, attributes_in, input_in, further, Reads};
ghost use Rattle.doip_message.specs.Reply.{replied_of};
ghost use Rattle.doip_exchange.specs.Answer.{reply_values, replied_in, reply_object, reply_in, response, fault_named, IsResponse};
ghost use Rattle.doip_exchange.specs.Held.{view_of};

use crate::fault::ResponseFault;
use crate::status::status_of;
use doip_json::{Json, JsonMap, Str, read};
use doip_message::{Body, FieldName, Response, Why};
use doip_segment::{Kind, Message};
use std::alloc::{AllocError, Global};

/// How deep the first segment may nest.
const DEPTH: u8 = 127;

// The properties of the first segment that are read, each absent where it is `null`.
#[derive(Drop)]
struct Fields {
    request_id: Option<Json>,
    status: Option<Json>,
    attributes: Option<Json>,
    output: Option<Json>,
}

/// The response that a message is, or its first fault.
///
/// # Errors
/// The first of these that holds, in this order:
///
/// | fault | comes |
/// |---|---|
/// | `NoSegment` | the message has no segment |
/// | `FirstIsBytes` | its first segment is bytes |
/// | `Json` | its first segment is not JSON, nests deeper than 127, or has a number that isn't an integer |
/// | `NotTable` | its first segment is no JSON object |
/// | `Field` | `requestId`, `status` or `attributes`, in this order, is of another kind, or `status` is missing |
/// | `TwoOutputs` | there is an `output` and a further segment |
///
/// `null` for an optional property counts as absent; other properties are not read. `Memory` comes only when an
/// allocation was refused.
///
/// It takes time linear in the length of the message: the values are those that the reader of JSON made, and the
/// contents of further segments are copied once.
pub fn response_of(alloc: Global, message: &Message) -> Result<Response, ResponseFault>
    ensures { IsResponse result (response message.now.segments) }
{
    match replying_of(alloc, message) {
        Ok(response) => Ok(response),
        Err(why) => Err(named(why)),
    }
}

// The fault of a response that goes by the same name.
fn named(why: Why) -> ResponseFault
    ensures { result ≡ fault_named why }
{
    match why {
        Why::NoSegment => ResponseFault::NoSegment,
        Why::FirstIsBytes => ResponseFault::FirstIsBytes,
        Why::Json(fault) => ResponseFault::Json(fault),
        Why::NotTable => ResponseFault::NotTable,
        Why::Field { name } => ResponseFault::Field { name },
        Why::TwoInputs => ResponseFault::TwoOutputs,
        Why::Memory => ResponseFault::Memory,
    }
}

// The response, as the reading of a request names its faults.
fn replying_of(alloc: Global, message: &Message) -> Result<Response, Why>
    ensures { Reads replied_of result (reply_in message.now.segments) }
{
    let object = object_of(alloc, message)?;
    response_with(alloc, fields_of(object), message)
}

// The JSON object that the first segment is.
fn object_of(alloc: Global, message: &Message) -> Result<JsonMap, Why>
    ensures { Reads (λ m. table (entries_from m)) result (reply_object message.now.segments) }
{
    if message.count() == 0 {
        return Err(Why::NoSegment);
    }
    if matches!(message.kind(0), Kind::Bytes) {
        return Err(Why::FirstIsBytes);
    }
    match read(alloc, message.bytes(0), DEPTH) {
        Ok(Json::Table(object)) => Ok(object),
        Ok(_) => Err(Why::NotTable),
        Err(fault) => match fault.text_fault() {
            Some(fault) => Err(Why::Json(fault)),
            None => Err(Why::Memory),
        },
    }
}

// The value of a property, which is taken out of the object. `null` counts as absent.
fn take_property(object: &mut JsonMap, key: &str) -> Option<Json>
    ensures value { option_map value_of result ≡ unless_null (entry_of key.now (entries_from object.old)) }
    ensures others { (other : List ℕ) → other ≢ key.now →
        entry_of other (entries_from object.new) ≡ entry_of other (entries_from object.old) }
{
    match object.take(key) {
        None | Some(Json::Null) => None,
        Some(value) => Some(value),
    }
}

// The properties that are read.
fn fields_of(mut entries: JsonMap) -> Fields
    ensures { view_of result ≡ reply_values (table (entries_from entries)) }
{
    let request_id = take_property(&mut entries, "requestId");
    let status = take_property(&mut entries, "status");
    let attributes = take_property(&mut entries, "attributes");
    let output = take_property(&mut entries, "output");
    Fields {
        request_id,
        status,
        attributes,
        output,
    }
}

// What the properties reply, the first fault first.
#[tactic(auto, unfolding(crate::specs::Answer::replied_in))]
fn response_with(alloc: Global, fields: Fields, message: &Message) -> Result<Response, Why>
    ensures { Reads replied_of result (replied_in (view_of fields) (further message.now.segments)) }
{
    let request_id = optional_text_of(fields.request_id, FieldName::RequestId)?;
    let status = required_text_of(fields.status, FieldName::Status)?;
    let attributes = attributes_of(alloc, fields.attributes)?;
    let output = output_of(alloc, fields.output, message)?;
    Ok(Response {
        request_id,
        status: status_of(status),
        attributes,
        output,
    })
}

// The text of an optional property.
fn optional_text_of(property: Option<Json>, name: FieldName) -> Result<Option<Str>, Why>
    ensures { Reads (λ t. t) result (optional_text name (option_map value_of property)) }
{
    match property {
        None => Ok(None),
        Some(Json::Text(text)) => Ok(Some(text)),
        Some(_) => Err(Why::Field { name }),
    }
}

// The text of a property that has to be there.
fn required_text_of(property: Option<Json>, name: FieldName) -> Result<Str, Why>
    ensures { Reads (λ t. t) result (required_text name (option_map value_of property)) }
{
    match property {
        Some(Json::Text(text)) => Ok(text),
        _ => Err(Why::Field { name }),
    }
}

// The attributes, empty where there are none.
fn attributes_of(alloc: Global, property: Option<Json>) -> Result<JsonMap, Why>
    ensures { Reads entries_from result (attributes_in (option_map value_of property)) }
{
    match property {
        None => Ok(JsonMap::empty(alloc)),
        Some(Json::Table(attributes)) => Ok(attributes),
        Some(_) => Err(Why::Field {
            name: FieldName::Attributes,
        }),
    }
}

// The output: the property of that name, or the segments after the first.
fn output_of(alloc: Global, property: Option<Json>, message: &Message) -> Result<Body, Why>
    ensures { Reads content_of result (input_in (option_map value_of property) (further message.now.segments)) }
{
    let has_more = message.count() > 1;
    match property {
        Some(value) => {
            if has_more {
                Err(Why::TwoInputs)
            } else {
                Ok(Body::Value(value))
            }
        }
        None => {
            if has_more {
                match parts_of(alloc, message) {
                    Ok(parts) => Ok(Body::Parts(parts)),
                    Err(AllocError) => Err(Why::Memory),
                }
            } else {
                Ok(Body::Nothing)
            }
        }
    }
}

// A copy of the segments after the first.
fn parts_of(alloc: Global, message: &Message) -> Result<Message, AllocError>
    ensures { IfOk result (λ m. m.segments ≡ drop 1 message.now.segments) }
{
    let mut parts = Message::empty(alloc);
    for i in 1..message.count() {
        parts.push(message.kind(i), message.bytes(i))?;
    }
    Ok(parts)
}
