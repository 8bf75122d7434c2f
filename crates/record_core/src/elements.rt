//! The elements of a put: what its text lists, and their bytes.
ghost use Rattle.std.specs.Prelude.{◌≡◌, ◌<◌, ◌^◌, [], ◌∷◌, ◌++◌, List, ℕ, map, length, OnOk, IfOk, codes, option_map};
ghost use Rattle.std.specs.List.{flat_map, AllByRecursion};
ghost use Rattle.doip_json.specs.Meaning.{value_of};
ghost use Rattle.doip_json.specs.Look.{field_of};
ghost use Rattle.dobj_model.specs.declared.elements.Element.{Element};
ghost use Rattle.dobj_model.specs.Elements.{AreElements};
ghost use Rattle.dobj_model.specs.Name.{IsName};
ghost use Rattle.dobj_model.specs.Shown.{element_form};
ghost use Rattle.record_core.specs.Body.{payload};
ghost use Rattle.record_core.specs.Cuts.{Yields, YieldsItems, YieldsFirst, AreListed};
ghost use Rattle.record_core.specs.Fields.{name_at, text_if, table_if, listed_in, Finds};

use crate::change::RecordFault;
use crate::cutting::payload_of;
use base_core::Bytes;
use dobj_model::{Element, Elements, Id};
use doip_json::{Json, JsonList, JsonMap, Str, copy_map, get};
use std::alloc::{AllocError, Global};

// An element but for its bytes.
#[derive(Drop)]
pub(crate) struct Listed {
    pub(crate) id: Id,
    pub(crate) type_name: Option<Str>,
    pub(crate) attributes: Option<JsonMap>,
}

// The elements that are listed, with their bytes. Each is as `elements` of an object asks.
pub(crate) fn elements_of(
    alloc: Global,
    items: &JsonList,
    payloads: &[u8],
) -> Result<Elements, RecordFault>
    ensures bytes { IfOk result (λ es. payloads.now ≡ flat_map payload es) }
    ensures found { (es : List Element) → AreElements es → AreListed items.now payloads.now es → Yields result es }
{
    let made = listed_with_bytes(alloc, items, payloads)?;
    match Elements::of(made) {
        Some(elements) => Ok(elements),
        None => Err(RecordFault::NotARecord),
    }
}

// The elements in order, and no byte after theirs.
fn listed_with_bytes(
    alloc: Global,
    items: &JsonList,
    payloads: &[u8],
) -> Result<Vec<Element>, RecordFault>
    ensures bytes { IfOk result (λ v. payloads.now ≡ flat_map payload v.items) }
    ensures found { (es : List Element) → AreListed items.now payloads.now es → YieldsItems (λ v. v.items) result es }
{
    let mut made = Vec::new(alloc);
    let mut rest = payloads;
    'elements: for i in 0..items.len() {
        let (element, after) = element_of(alloc, items.item(i), rest)?;
        push(&mut made, element)?;
        rest = after;
    }
    if rest.is_empty() {
        Ok(made)
    } else {
        Err(RecordFault::NotARecord)
    }
}

fn push(made: &mut Vec<Element>, element: Element) -> Result<(), AllocError>
    ensures { OnOk result (made.new.items ≡ made.old.items ++ element ∷ []) }
{
    made.push(element)?;
    Ok(())
}

// The element that is listed, with the bytes that come first, and the bytes after these.
fn element_of<'a>(
    alloc: Global,
    value: &Json,
    bytes: &'a [u8],
) -> Result<(Element, &'a [u8]), RecordFault>
    ensures bytes { IfOk result (λ p. bytes.now ≡ payload p.0 ++ p.1.now) }
    ensures found { (e : Element) (more : List ℕ) → IsName e.id → length e.bytes < 2 ^ 64
        → value_of value.now ≡ element_form e → bytes.now ≡ payload e ++ more → YieldsFirst (λ r. r.now) result e more }
{
    let listed = listed_of(alloc, value)?;
    let Some((first, rest)) = payload_of(bytes) else {
        return Err(RecordFault::NotARecord);
    };
    let Listed {
        id,
        type_name,
        attributes,
    } = listed;
    let bytes = Bytes::of(alloc, first)?;
    let element = Element {
        id,
        type_name,
        attributes,
        bytes,
    };
    Ok((element, rest))
}

// What is listed of an element. Its strings and attributes are copied.
#[tactic(auto, unfolding(crate::specs::Fields::listed_in))]
fn listed_of(alloc: Global, value: &Json) -> Result<Listed, RecordFault>
    ensures { Finds result (listed_in (value_of value.now)) }
{
    let id = listed_id(alloc, value)?;
    let type_name = listed_type(alloc, value)?;
    let attributes = listed_attributes(alloc, value)?;
    Ok(Listed {
        id,
        type_name,
        attributes,
    })
}

fn listed_id(alloc: Global, value: &Json) -> Result<Id, RecordFault>
    ensures { Finds result (name_at (field_of (codes "id") (value_of value.now))) }
{
    match get(value, "id") {
        Some(Json::Text(text)) => match Id::of(alloc, text.get())? {
            Some(id) => Ok(id),
            None => Err(RecordFault::NotARecord),
        },
        _ => Err(RecordFault::NotARecord),
    }
}

fn listed_type(alloc: Global, value: &Json) -> Result<Option<Str>, RecordFault>
    ensures { Finds result (text_if (field_of (codes "type") (value_of value.now))) }
{
    match get(value, "type") {
        None => Ok(None),
        Some(Json::Text(text)) => Ok(Some(Str::of(alloc, text.get())?)),
        Some(_) => Err(RecordFault::NotARecord),
    }
}

fn listed_attributes(alloc: Global, value: &Json) -> Result<Option<JsonMap>, RecordFault>
    ensures { Finds result (table_if (field_of (codes "attributes") (value_of value.now))) }
{
    match get(value, "attributes") {
        None => Ok(None),
        Some(Json::Table(attributes)) => Ok(Some(copy_map(alloc, attributes)?)),
        Some(_) => Err(RecordFault::NotARecord),
    }
}
