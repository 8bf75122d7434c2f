//! Replies written into a buffer part by part, with no response, no message and no copy in between.
//!
//! A caller that knows how long its output is takes the room for the whole reply before it writes. Out of memory the
//! buffer may end with a part of the reply.
ghost use Rattle.std.specs.Prelude.{◌≡◌, [], ◌∷◌, ◌++◌, ℕ, List, Option, OnOk, codes, option_map};
ghost use Rattle.std.specs.List.{flat_map};
ghost use Rattle.json.specs.Token.{string};
ghost use Rattle.doip_json.specs.Value.{Value};
ghost use Rattle.doip_json.specs.Text.{text_of, string_of};
ghost use Rattle.doip_segment.specs.Segments.{Segment};
ghost use Rattle.doip_segment.specs.Canonical.{segment_text};
ghost use Rattle.doip_message.specs.declared.response.Status.{Status};
ghost use Rattle.doip_message.specs.Asked.{no_content, one_value, parts};
ghost use Rattle.doip_message.specs.Reply.{reply_text, refusal, done};
ghost use Rattle.doip_message.specs.Appended.{message_end, status_end, first_end, value_start, value_end, parts_start, message_text, refusal_text};

use crate::response::Status;
use json::Writer;
use std::alloc::{AllocError, Global};
use std::mem;

/// What the parts of a reply make together: a law, with no code.
pub fn parts_make_a_reply()
    ensures value { (id : Option (List ℕ)) (v : Value)
        → value_start ++ (text_of v ++ value_end id) ≡ reply_text (done id (one_value v)) }
    ensures segments { (id : Option (List ℕ)) (s : Segment) (ss : List Segment)
        → parts_start id ++ (flat_map segment_text (s ∷ ss) ++ message_end) ≡ reply_text (done id (parts (s ∷ ss))) }
    ensures nothing { (id : Option (List ℕ)) → parts_start id ++ message_end ≡ reply_text (done id no_content) }
    ensures refusal { (id : Option (List ℕ)) (status : Status) (message : List ℕ)
        → refusal_text id status message ≡ reply_text (refusal id status message) }
{}

// Writes a string.
fn write_string(text: &str, out: &mut Writer) -> Result<(), AllocError>
    ensures ok { OnOk result (out.new.tokens ≡ out.old.tokens ++ string text.now ∷ []) }
    ensures before { out.new.before ≡ out.old.before }
{
    out.string(text)
}

/// Adds a string in quotes, with the escapes of JSON.
pub fn append_string(alloc: Global, text: &str, out: &mut Vec<u8>) -> Result<(), AllocError>
    ensures { OnOk result (out.new.items ≡ out.old.items ++ string_of text.now) }
{
    let mut writer = Writer::new(mem::replace(out, Vec::new(alloc)));
    let written = write_string(text, &mut writer);
    *out = writer.into_inner();
    written
}

// Adds the end of a first segment from its status on.
fn append_status(alloc: Global, status: &Status, out: &mut Vec<u8>) -> Result<(), AllocError>
    ensures { OnOk result (out.new.items ≡ out.old.items ++ status_end status.now) }
{
    out.extend_from_slice(b"\"status\":")?;
    append_string(alloc, status.text(), out)?;
    out.extend_from_slice(b"}\n#\n")
}

// Adds the end of a first segment from its request id on.
fn append_first_end(
    alloc: Global,
    request_id: Option<&str>,
    status: &Status,
    out: &mut Vec<u8>,
) -> Result<(), AllocError>
    ensures { OnOk result (out.new.items
        ≡ out.old.items ++ first_end (option_map (λ id. id.now) request_id.entry) status.now) }
{
    match request_id {
        None => append_status(alloc, status, out),
        Some(id) => {
            out.extend_from_slice(b"\"requestId\":")?;
            append_string(alloc, id, out)?;
            out.extend_from_slice(b",")?;
            append_status(alloc, status, out)
        }
    }
}

/// Adds what comes before the text of an output that is one value.
pub fn begin_value(out: &mut Vec<u8>) -> Result<(), AllocError>
    ensures { OnOk result (out.new.items ≡ out.old.items ++ value_start) }
{
    out.extend_from_slice(b"{\"output\":")
}

/// Adds what comes after the text of an output that is one value: the reply is done, and ends.
pub fn end_value(
    alloc: Global,
    request_id: Option<&str>,
    out: &mut Vec<u8>,
) -> Result<(), AllocError>
    ensures { OnOk result (out.new.items ≡ out.old.items ++ value_end (option_map (λ id. id.now) request_id.entry)) }
{
    out.extend_from_slice(b",")?;
    append_first_end(alloc, request_id, &Status::Done, out)?;
    out.extend_from_slice(b"#\n")
}

/// Adds the first segment of a reply that is done, whose output is the segments after it, or nothing.
pub fn begin_parts(
    alloc: Global,
    request_id: Option<&str>,
    out: &mut Vec<u8>,
) -> Result<(), AllocError>
    ensures { OnOk result (out.new.items ≡ out.old.items ++ parts_start (option_map (λ id. id.now) request_id.entry)) }
{
    out.extend_from_slice(b"{")?;
    append_first_end(alloc, request_id, &Status::Done, out)
}

/// Adds the end of a reply whose output is segments, or nothing.
pub fn end_parts(out: &mut Vec<u8>) -> Result<(), AllocError>
    ensures { OnOk result (out.new.items ≡ out.old.items ++ message_end) }
{
    out.extend_from_slice(b"#\n")
}

/// Adds a refusal: its status, and its message as the one attribute.
pub fn append_refusal(
    alloc: Global,
    request_id: Option<&str>,
    status: &Status,
    message: &str,
    out: &mut Vec<u8>,
) -> Result<(), AllocError>
    ensures { OnOk result (out.new.items ≡ out.old.items
        ++ refusal_text (option_map (λ id. id.now) request_id.entry) status.now message.now) }
{
    append_message(alloc, message, out)?;
    append_first_end(alloc, request_id, status, out)?;
    out.extend_from_slice(b"#\n")
}

// Adds the attributes of a refusal.
fn append_message(alloc: Global, message: &str, out: &mut Vec<u8>) -> Result<(), AllocError>
    ensures { OnOk result (out.new.items ≡ out.old.items ++ message_text message.now) }
{
    out.extend_from_slice("{\"attributes\":{\"message\":".as_bytes())?;
    append_string(alloc, message, out)?;
    out.extend_from_slice(b"},")
}
