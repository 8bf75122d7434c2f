//! Writing a response.
ghost use Rattle.std.specs.Prelude.{◌≡◌, ◌∷◌, ◌++◌, option_map, IfOk, OnOk, MatchOption};
ghost use Rattle.doip_json.specs.Value.{table, entries_from};
ghost use Rattle.doip_json.specs.Text.{text_of};
ghost use Rattle.doip_segment.specs.Segments.{segment};
ghost use Rattle.doip_json.specs.Meaning.{value_of};
ghost use Rattle.doip_segment.specs.Canonical.{AreEncodable};
ghost use Rattle.doip_message.specs.Reply.{replied_of, attributes_value, output_value, output_parts, entries_with, response_segments, CanFollow};
ghost use Rattle.doip_message.specs.Asked.{content_of};
ghost use Rattle.std.specs.Ordering.{nat_cmp};
ghost use Rattle.std.specs.Cmp.Lexicographic.{slice_cmp};
ghost use Rattle.std.specs.BTreeMap.{insert_entry};

use crate::request::Body;
use crate::response::{Response, Status};
use doip_json::{Json, JsonMap, Str, copy, copy_map, is_one_line, text};
use doip_segment::{Kind, Message};
use std::alloc::{AllocError, Global};

/// The message of a response. Its first segment is a JSON object with `attributes` if they aren't empty, `output` if
/// the output is one JSON value, `requestId` if the request had one, and `status`; parts follow as segments.
///
/// It copies the attributes and the output once, and then writes them as text. A caller that has no more use for the
/// response calls `Response::into_message`.
pub fn response_message(alloc: Global, response: &Response) -> Result<Message, AllocError>
    ensures segments { IfOk result (λ m. m.segments ≡ response_segments (replied_of response.now)) }
    // It can be encoded if its parts can follow one more segment.
    ensures encodable { IfOk result (λ m. CanFollow (output_parts (content_of response.now.output))
        → AreEncodable m.segments) }
{
    let request_id = match &response.request_id {
        None => None,
        Some(id) => Some(Str::of(alloc, id.get())?),
    };
    let attributes = copy_map(alloc, &response.attributes)?;
    let output = output_of(alloc, &response.output)?;
    let first = first_entries_of(alloc, request_id, &response.status, attributes, output)?;
    message_with(alloc, first, &response.output)
}

impl Response {
    /// The message of the response, as `response_message` makes it. The attributes and an output of one value are moved
    /// into it and not copied.
    pub fn into_message(self, alloc: Global) -> Result<Message, AllocError>
        ensures segments { IfOk result (λ m. m.segments ≡ response_segments (replied_of self)) }
        ensures encodable { IfOk result (λ m. CanFollow (output_parts (content_of self.output))
            → AreEncodable m.segments) }
    {
        let Response {
            request_id,
            status,
            attributes,
            output,
        } = self;
        match output {
            Body::Value(value) => {
                let first = first_entries_of(alloc, request_id, &status, attributes, Some(value))?;
                message_with(alloc, first, &Body::Nothing)
            }
            other => {
                let first = first_entries_of(alloc, request_id, &status, attributes, None)?;
                message_with(alloc, first, &other)
            }
        }
    }
}

// The message of a first segment and of the parts of an output after it.
fn message_with(alloc: Global, first: JsonMap, output: &Body) -> Result<Message, AllocError>
    ensures segments { IfOk result (λ m. m.segments
        ≡ segment Kind.Json (text_of (table (entries_from first))) ∷ output_parts (content_of output.now)) }
    ensures encodable { IfOk result (λ m. CanFollow (output_parts (content_of output.now)) → AreEncodable m.segments) }
{
    let object = Json::Table(first);
    is_one_line(&object);
    let first_text = text(alloc, &object)?;
    let mut message = Message::empty(alloc);
    message.push(Kind::Json, first_text.get())?;
    if let Body::Parts(parts) = output {
        push_all(&mut message, parts)?;
    }
    Ok(message)
}

// The entries of the first segment.
fn first_entries_of(
    alloc: Global,
    request_id: Option<Str>,
    status: &Status,
    attributes: JsonMap,
    output: Option<Json>,
) -> Result<JsonMap, AllocError>
    ensures { IfOk result (λ entries. entries
        ≡ entries_with (attributes_value attributes) (option_map value_of output) request_id status.now) }
{
    let status = Json::Text(Str::of(alloc, status.text())?);
    let mut entries = JsonMap::empty(alloc);
    put_if_some(alloc, &mut entries, "attributes", value_if_some(attributes))?;
    put_if_some(alloc, &mut entries, "output", output)?;
    put_if_some(alloc, &mut entries, "requestId", request_id.map(Json::Text))?;
    put_if_some(alloc, &mut entries, "status", Some(status))?;
    Ok(entries)
}

// Puts the value at the key, where there is one.
fn put_if_some(
    alloc: Global,
    entries: &mut JsonMap,
    key: &str,
    value: Option<Json>,
) -> Result<(), AllocError>
    ensures { OnOk result (MatchOption value (entries.new ≡ entries.old)
        (λ v. entries.new ≡ insert_entry (slice_cmp nat_cmp) entries.old key.now (value_of v))) }
{
    match value {
        None => Ok(()),
        Some(value) => entries.put(Str::of(alloc, key)?, value),
    }
}

// The attributes as a value, where there are some.
fn value_if_some(attributes: JsonMap) -> Option<Json>
    ensures { option_map value_of result ≡ attributes_value attributes }
{
    if attributes.len() == 0 {
        None
    } else {
        Some(Json::Table(attributes))
    }
}

// A copy of the output, where it is one value.
fn output_of(alloc: Global, output: &Body) -> Result<Option<Json>, AllocError>
    ensures { IfOk result (λ made. option_map value_of made ≡ output_value (content_of output.now)) }
{
    match output {
        Body::Value(value) => Ok(Some(copy(alloc, value)?)),
        Body::Nothing | Body::Parts(_) => Ok(None),
    }
}

// Adds copies of these segments after the others.
fn push_all(message: &mut Message, parts: &Message) -> Result<(), AllocError>
    ensures { OnOk result (message.new.segments ≡ message.old.segments ++ parts.now.segments) }
{
    for i in 0..parts.count() {
        message.push(parts.kind(i), parts.bytes(i))?;
    }
    Ok(())
}
