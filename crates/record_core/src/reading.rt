//! A change from its bytes.
ghost use Rattle.std.specs.Prelude.{◌≡◌, ◌↔◌, ◌∷◌, ℕ, IsTrue, IfOk, IfErr};
ghost use Rattle.std.specs.List.{flat_map};
ghost use Rattle.doip_json.specs.Text.{text_of};
ghost use Rattle.dobj_model.specs.declared.object.ObjectValue.{ObjectValue};
ghost use Rattle.record_core.specs.declared.format.Format.TheVariants.{First, Second};
ghost use Rattle.record_core.specs.Body.{form_in, payload};
ghost use Rattle.record_core.specs.Cuts.{Yields, IsCounted, IsValueOf};
ghost use Rattle.record_core.specs.Reading.{Reads};
ghost use Rattle.record_core.specs.Storable.{IsCounter, IsKept, HasTimesOf};

use crate::change::{Change, RecordFault};
use crate::cutting::{are_same, eight, head_of, two};
use crate::elements::elements_of;
use crate::fields::{Fields, fields_of};
use crate::format::{COUNTER, Format, MOST_COUNTER, PUT, REMOVE};
use crate::kept::recall;
use crate::shown::text_in;
use dobj_model::{Id, Object, ObjectValue};
use doip_json::{Json, JsonFault, read};
use std::alloc::{AllocError, Global};
use std::str;

/// How deep the text of an object may nest; no shown form is that deep.
const DEPTH: u8 = 67;

/// The change whose body these bytes are. `NotARecord` comes exactly when they are the body of no storable change, and
/// `Memory` only when an allocation was refused.
///
/// It takes time linear in the bytes but for the elements' identifiers, which are compared with each other. The bytes
/// of each element are copied at once. The text is read as a JSON value, whose strings and attributes are moved into the
/// object but for those of elements, which are copied; and the object's own text is written beside it, to be compared.
pub fn change_of(alloc: Global, bytes: &[u8]) -> Result<Change, RecordFault>
    ensures { Reads Second bytes.now result }
{
    change_in(alloc, bytes, Format::Second)
}

/// The same of the body of a change in format 1, whose objects have no times: each is given 0, which stands for an
/// unknown one.
pub fn change_of_first(alloc: Global, bytes: &[u8]) -> Result<Change, RecordFault>
    ensures { Reads First bytes.now result }
{
    change_in(alloc, bytes, Format::First)
}

fn change_in(alloc: Global, bytes: &[u8], format: Format) -> Result<Change, RecordFault>
    ensures { Reads format bytes.now result }
{
    let Some((kind, content)) = bytes.split_first() else {
        return Err(RecordFault::NotARecord);
    };
    match *kind {
        PUT => put_of(alloc, content, format),
        REMOVE => removal_of(alloc, content, format),
        COUNTER => counter_of(content, format),
        _ => Err(RecordFault::NotARecord),
    }
}

fn put_of(alloc: Global, content: &[u8], format: Format) -> Result<Change, RecordFault>
    ensures { Reads format (1 ∷ content.now) result }
{
    let Some(head) = head_of(content) else {
        return Err(RecordFault::NotARecord);
    };
    let counter = minted(head.counter)?;
    let object = object_of(alloc, head.text, head.payloads, format)?;
    if object.elements().len() as u64 != head.count as u64 {
        return Err(RecordFault::NotARecord);
    }
    if !has_text(alloc, &object, format, head.text)? {
        return Err(RecordFault::NotARecord);
    }
    Ok(Change::Put { object, counter })
}

// The counter of a put, none for 0.
fn minted(counter: u64) -> Result<Option<u64>, RecordFault>
    ensures { IsCounted counter result }
{
    if counter > MOST_COUNTER {
        Err(RecordFault::NotARecord)
    } else if counter == 0 {
        Ok(None)
    } else {
        Ok(Some(counter))
    }
}

// An object whose text this may be, with these bytes of its elements.
fn object_of(
    alloc: Global,
    shown: &[u8],
    payloads: &[u8],
    format: Format,
) -> Result<Object, RecordFault>
    ensures kept { IfOk result IsKept }
    ensures bytes { IfOk result (λ o. payloads.now ≡ flat_map payload o.elements) }
    ensures found { (o : ObjectValue) → IsKept o → HasTimesOf format o → shown.now ≡ text_of (form_in format o)
        → payloads.now ≡ flat_map payload o.elements → Yields result o }
{
    let fields = fields_of(alloc, json_of(alloc, shown)?, format)?;
    let Fields {
        id,
        type_name,
        attributes,
        metadata,
        elements,
    } = fields;
    let elements = elements_of(alloc, &elements, payloads)?;
    let value = ObjectValue {
        id,
        type_name,
        attributes,
        metadata,
        elements,
    };
    let Some(object) = Object::of(value) else {
        return Err(RecordFault::NotARecord);
    };
    recall(&object);
    Ok(object)
}

// The JSON value of a text.
fn json_of(alloc: Global, shown: &[u8]) -> Result<Json, RecordFault>
    ensures { IsValueOf shown.now result }
{
    match read(alloc, shown, DEPTH) {
        Ok(json) => Ok(json),
        Err(JsonFault::Memory) => Err(RecordFault::Memory),
        Err(_) => Err(RecordFault::NotARecord),
    }
}

// Whether the object is one of this format, and this is its text.
fn has_text(
    alloc: Global,
    object: &Object,
    format: Format,
    shown: &[u8],
) -> Result<bool, AllocError>
    ensures { IfOk result (λ same. IsTrue same
        ↔ (HasTimesOf format object.now × (shown.now ≡ text_of (form_in format object.now)))) }
{
    if !has_times_of(format, object) {
        return Ok(false);
    }
    let own = text_in(alloc, object, format)?;
    Ok(are_same(shown, own.get()))
}

// Whether the times are unknown, as in format 1.
fn has_times_of(format: Format, object: &Object) -> bool
    ensures { IsTrue result ↔ HasTimesOf format object.now }
{
    match format {
        Format::First => is_unknown(object.metadata().created_on, object.metadata().modified_on),
        Format::Second => true,
    }
}

fn is_unknown(created_on: u64, modified_on: u64) -> bool
    ensures { IsTrue result ↔ ((created_on ≡ 0) × (modified_on ≡ 0)) }
{
    created_on == 0 && modified_on == 0
}

fn removal_of(alloc: Global, content: &[u8], format: Format) -> Result<Change, RecordFault>
    ensures { Reads format (2 ∷ content.now) result }
{
    let Some((length, name)) = two(content) else {
        return Err(RecordFault::NotARecord);
    };
    if name.len() != length as usize {
        return Err(RecordFault::NotARecord);
    }
    let Ok(name) = str::from_utf8(name) else {
        return Err(RecordFault::NotARecord);
    };
    match Id::of(alloc, name)? {
        Some(id) => Ok(Change::Remove { id }),
        None => Err(RecordFault::NotARecord),
    }
}

fn counter_of(content: &[u8], format: Format) -> Result<Change, RecordFault>
    ensures { Reads format (3 ∷ content.now) result }
{
    let Some((n, rest)) = eight(content) else {
        return Err(RecordFault::NotARecord);
    };
    if rest.len() > 0 {
        return Err(RecordFault::NotARecord);
    }
    if !is_counter(n) {
        return Err(RecordFault::NotARecord);
    }
    Ok(Change::Counter { n })
}

fn is_counter(n: u64) -> bool
    ensures { IsTrue result ↔ IsCounter n }
{
    n >= 1 && n <= MOST_COUNTER
}
