//! Reading the bytes of elements from segments.
ghost use Rattle.std.specs.Prelude.{◌≡◌, ◌<◌, ◌+◌, ◌^◌, suc, drop, length, is_some, nat_eq, slice_index_or, slice_set};
ghost use Rattle.std.specs.Prelude.{vec_len, Ok, Err, IfSome, IfOk, IfErr, codes};
ghost use Rattle.std.specs.Cmp.Lexicographic.{pointwise};
ghost use Rattle.dobj_draft.specs.declared.draft.DraftElement.{DraftElement};
ghost use Rattle.doip_json.specs.Meaning.{value_of};
ghost use Rattle.doip_json.specs.Look.{field_of};
ghost use Rattle.doip_segment.specs.Segments.{segment_of};
ghost use Rattle.dobj_draft.specs.Draft.{value_of_kind, named_in, expected, is_waiting, with_payload, bytes_in};
ghost use Rattle.dobj_draft.specs.Draft.{with_bytes, payloads, Reads};
ghost use Rattle.dobj_draft.specs.Waiting.{IsFirst};

use crate::draft::{DraftElement, ObjectFault};
use base_core::Bytes;
use doip_json::{Json, Str, read};
use doip_segment::{Kind, Message};
use std::alloc::Global;

/// How deep a JSON segment may nest.
const DEPTH: u8 = 64;

// Parts are the segments after a message's first, so the number in the message is one more than that among the parts.

/// The elements with the bytes that the parts after the first bring. Each is copied once.
pub(crate) fn with_payloads(
    alloc: Global,
    parts: &Message,
    mut elements: Vec<DraftElement>,
) -> Result<Vec<DraftElement>, ObjectFault>
    ensures { Reads (λ v. v.items) result (payloads 2 (drop 1 parts.now.segments) elements.items) }
{
    for pair in 0..parts.count() / 2 {
        take_pair(alloc, parts, 2 * pair + 1, &mut elements)?;
    }
    Ok(elements)
}

// Reads the part here, which names an element, and the one after it, which has its bytes.
fn take_pair(
    alloc: Global,
    parts: &Message,
    at: usize,
    elements: &mut Vec<DraftElement>,
) -> Result<(), ObjectFault>
    requires within { at < length parts.now.segments }
    requires fits { at + 2 < 2 ^ 64 }
    ensures { Reads (λ _. elements.new.items) result (with_bytes (suc at) (segment_of parts.now.segments at)
        (drop (at + 1) parts.now.segments) elements.old.items) }
{
    let number = at as u64 + 1;
    let header = json_segment(alloc, parts, at, number)?;
    let id = name_in(header, number)?;
    let place = place_for(elements.as_slice(), id)?;
    let bytes = byte_segment(alloc, parts, at + 1, number + 1)?;
    fill(elements, place, bytes);
    Ok(())
}

/// The JSON value of the part here, which has this number in the message.
pub(crate) fn json_segment(
    alloc: Global,
    parts: &Message,
    at: usize,
    number: u64,
) -> Result<Json, ObjectFault>
    requires { at < length parts.now.segments }
    ensures { Reads value_of result (value_of_kind number (segment_of parts.now.segments at).kind
        (segment_of parts.now.segments at).bytes) }
{
    if matches!(parts.kind(at), Kind::Bytes) {
        return Err(ObjectFault::Segment { number });
    }
    match read(alloc, parts.bytes(at), DEPTH) {
        Ok(value) => Ok(value),
        Err(fault) => match fault.text_fault() {
            Some(fault) => Err(ObjectFault::Json { number, fault }),
            None => Err(ObjectFault::Memory),
        },
    }
}

// The identifier that the value of this segment names.
fn name_in(value: Json, number: u64) -> Result<Str, ObjectFault>
    ensures { Reads (λ s. s) result (named_in number (field_of (codes "id") (value_of value))) }
{
    match value {
        Json::Table(mut object) => match object.take("id") {
            Some(Json::Text(id)) => Ok(id),
            _ => Err(ObjectFault::Segment { number }),
        },
        _ => Err(ObjectFault::Segment { number }),
    }
}

// The place of the element with the identifier, which waits for its bytes.
fn place_for(elements: &[DraftElement], id: Str) -> Result<usize, ObjectFault>
    ensures ok { IfOk result (λ place. IsFirst id elements.now place × (expected id elements.now ≡ Ok tt)) }
    ensures err { IfErr result (λ fault. expected id elements.now ≡ Err fault) }
{
    match waiting_place(elements, id.get()) {
        Some(place) => Ok(place),
        None => Err(ObjectFault::Stranger { id }),
    }
}

fn waiting_place(elements: &[DraftElement], id: &str) -> Option<usize>
    ensures waits { is_some result ≡ is_waiting id.now elements.now }
    ensures place { IfSome result (IsFirst id.now elements.now) }
{
    for i in 0..elements.len() {
        if is_named(&elements[i], id) {
            return if elements[i].bytes.is_none() {
                Some(i)
            } else {
                None
            };
        }
    }
    None
}

fn is_named(element: &DraftElement, id: &str) -> bool
    ensures { result ≡ pointwise nat_eq id.now element.now.id }
{
    id == element.id.get()
}

fn fill(elements: &mut Vec<DraftElement>, place: usize, bytes: Bytes)
    requires { place < vec_len elements.old }
    ensures { (e : DraftElement) → e ≡ slice_index_or elements.old.items place e →
        elements.new.items ≡ slice_set elements.old.items place (with_payload bytes e) }
{
    elements[place].bytes = Some(bytes);
}

// The bytes of the part here, which has this number in the message.
fn byte_segment(
    alloc: Global,
    parts: &Message,
    at: usize,
    number: u64,
) -> Result<Bytes, ObjectFault>
    ensures { Reads (λ b. b) result (bytes_in number (drop at parts.now.segments)) }
{
    if at >= parts.count() {
        return Err(ObjectFault::Segment { number });
    }
    match parts.kind(at) {
        Kind::Json => Err(ObjectFault::Segment { number }),
        Kind::Bytes => Ok(Bytes::of(alloc, parts.bytes(at))?),
    }
}
