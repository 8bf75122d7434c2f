//! Writing a request.
ghost use Rattle.std.specs.Prelude.{◌≡◌, ◌∷◌, ◌++◌, option_map, IfOk, OnOk, Ok};
ghost use Rattle.doip_json.specs.Value.{text, table, entries_from};
ghost use Rattle.doip_json.specs.Meaning.{value_of};
ghost use Rattle.doip_json.specs.Sound.{IsSound};
ghost use Rattle.doip_json.specs.Text.{text_of};
ghost use Rattle.doip_segment.specs.Segments.{segment};
ghost use Rattle.doip_segment.specs.Canonical.{AreEncodable};
ghost use Rattle.doip_message.specs.Asked.{asked_of, content_of};
ghost use Rattle.doip_message.specs.Reading.{request as request_read};
ghost use Rattle.doip_message.specs.Reply.{output_value, output_parts, CanFollow};
ghost use Rattle.doip_exchange.specs.Question.{attributes_asked, question_entries, request_segments, IsAskable};
ghost use Rattle.doip_exchange.specs.Held.{put_some};

use crate::sound::recall;
use doip_json::{Json, JsonMap, Str, copy, copy_map, is_one_line, text};
use doip_message::{Body, Request};
use doip_segment::{Kind, Message};
use std::alloc::{AllocError, Global};

/// The message of a request. Its first segment is a JSON object with `attributes` if they aren't empty,
/// `authentication` if it is there, `input` if the input is one JSON value, `operationId`, `requestId` if it is there,
/// and `targetId`; parts follow as segments.
///
/// A request that can be asked reads back as itself: its parts aren't empty, its input value isn't `null`, its
/// authentication is neither `null` nor an empty object, and its first segment nests at most 64 deep. Its message can be
/// encoded if its parts can follow one more segment.
///
/// It copies each value once, and then writes them as text.
pub fn request_message(alloc: Global, request: &Request) -> Result<Message, AllocError>
    ensures segments { IfOk result (λ m. m.segments ≡ request_segments (asked_of request.now)) }
    ensures encodable { IfOk result (λ m. CanFollow (output_parts (content_of request.now.input))
        → AreEncodable m.segments) }
    ensures reads_back { IfOk result (λ m. IsAskable (asked_of request.now)
        → request_read m.segments ≡ Ok (asked_of request.now)) }
{
    let first = first_entries_of(alloc, request)?;
    let message = message_with(alloc, first, &request.input)?;
    Ok(message)
}

// The message of a first segment and of the parts of an input after it.
fn message_with(alloc: Global, first: JsonMap, input: &Body) -> Result<Message, AllocError>
    ensures segments { IfOk result (λ m. m.segments
        ≡ segment Kind.Json (text_of (table (entries_from first))) ∷ output_parts (content_of input.now)) }
    ensures encodable { IfOk result (λ m. CanFollow (output_parts (content_of input.now)) → AreEncodable m.segments) }
    ensures sound { IsSound (table (entries_from first)) }
{
    let object = Json::Table(first);
    recall(&object);
    is_one_line(&object);
    let first_text = text(alloc, &object)?;
    let mut message = Message::empty(alloc);
    message.push(Kind::Json, first_text.get())?;
    if let Body::Parts(parts) = input {
        push_all(&mut message, parts)?;
    }
    Ok(message)
}

// The entries of the first segment, in the order of their keys.
fn first_entries_of(alloc: Global, request: &Request) -> Result<JsonMap, AllocError>
    ensures { IfOk result (λ entries. entries ≡ question_entries (asked_of request.now)) }
{
    let attributes = attributes_of(alloc, &request.attributes)?;
    let authentication = copy_if_some(alloc, &request.authentication)?;
    let input = input_of(alloc, &request.input)?;
    let operation = text_value(alloc, &request.operation_id)?;
    let request_id = text_if_some(alloc, &request.request_id)?;
    let target = text_value(alloc, &request.target_id)?;
    let mut entries = JsonMap::empty(alloc);
    put_if_some(alloc, &mut entries, "attributes", attributes)?;
    put_if_some(alloc, &mut entries, "authentication", authentication)?;
    put_if_some(alloc, &mut entries, "input", input)?;
    put_if_some(alloc, &mut entries, "operationId", Some(operation))?;
    put_if_some(alloc, &mut entries, "requestId", request_id)?;
    put_if_some(alloc, &mut entries, "targetId", Some(target))?;
    Ok(entries)
}

// A string as a value.
fn text_value(alloc: Global, of: &Str) -> Result<Json, AllocError>
    ensures { IfOk result (λ made. value_of made ≡ text of.now) }
{
    Ok(Json::Text(Str::of(alloc, of.get())?))
}

// The same of a string that may be absent.
fn text_if_some(alloc: Global, of: &Option<Str>) -> Result<Option<Json>, AllocError>
    ensures { IfOk result (λ made. option_map value_of made ≡ option_map text of.now) }
{
    match of {
        Some(of) => Ok(Some(text_value(alloc, of)?)),
        None => Ok(None),
    }
}

// A copy of a value that may be absent.
fn copy_if_some(alloc: Global, value: &Option<Json>) -> Result<Option<Json>, AllocError>
    ensures { IfOk result (λ made. option_map value_of made ≡ option_map value_of value.now) }
{
    match value {
        Some(value) => Ok(Some(copy(alloc, value)?)),
        None => Ok(None),
    }
}

// A copy of the attributes, if there are some.
fn attributes_of(alloc: Global, attributes: &JsonMap) -> Result<Option<Json>, AllocError>
    ensures { IfOk result (λ made. option_map value_of made ≡ attributes_asked (entries_from attributes.now)) }
{
    if attributes.len() == 0 {
        Ok(None)
    } else {
        Ok(Some(Json::Table(copy_map(alloc, attributes)?)))
    }
}

// A copy of the input, if it is one value.
fn input_of(alloc: Global, input: &Body) -> Result<Option<Json>, AllocError>
    ensures { IfOk result (λ made. option_map value_of made ≡ output_value (content_of input.now)) }
{
    match input {
        Body::Value(value) => Ok(Some(copy(alloc, value)?)),
        Body::Nothing | Body::Parts(_) => Ok(None),
    }
}

// Puts the value at the key, if there is one.
fn put_if_some(
    alloc: Global,
    entries: &mut JsonMap,
    key: &str,
    value: Option<Json>,
) -> Result<(), AllocError>
    ensures { OnOk result (entries.new ≡ put_some entries.old key.now (option_map value_of value)) }
{
    match value {
        None => Ok(()),
        Some(value) => entries.put(Str::of(alloc, key)?, value),
    }
}

// Adds copies of these segments after the others.
fn push_all(message: &mut Message, parts: &Message) -> Result<(), AllocError>
    ensures { OnOk result (message.new.segments ≡ message.old.segments ++ parts.now.segments) }
{
    for i in 0..parts.count() {
        message.push(parts.kind(i), parts.bytes(i))?;
    }
    Ok(())
}
