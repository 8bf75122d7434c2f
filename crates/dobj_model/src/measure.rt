//! How long and how deep a shown form is, found with no JSON value built for it.
ghost use Rattle.std.specs.Prelude.{◌≡◌, ◌≤◌, ◌-◌, ◌^◌, ◌↔◌, IsTrue, min, length, map, None, codes};
ghost use Rattle.doip_json.specs.Value.{text, depth_of, deepest_value, values_from, entries_from};
ghost use Rattle.doip_json.specs.Look.{entry_of};
ghost use Rattle.doip_json.specs.Sound.{IsSound, AreSound, EntriesAreSound};
ghost use Rattle.doip_json.specs.Text.{text_of};
ghost use Rattle.dobj_model.specs.Lengths.{items_total, entries_total};
ghost use Rattle.dobj_model.specs.Object.{IsMetadata, most_nested};
ghost use Rattle.dobj_model.specs.Shown.{object_with, optional, metadata_form, element_form, elements_form, shown_form};
ghost use Rattle.dobj_model.specs.Shown.{bare_form};

use crate::depth::entries_within;
use crate::elements::{Element, Elements};
use crate::length::{digits_of, entries_length, map_length, string_length};
use crate::metadata::Metadata;
use crate::object::ObjectValue;
use doip_json::{JsonMap, Str};

/// How deep the attributes may nest: the shown form has two brackets around them.
const ATTRIBUTES_DEPTH: u8 = 62;
/// How deep the attributes of an element may nest: the shown form has four brackets around them.
const ELEMENT_DEPTH: u8 = 60;

// Each length is the highest number of 64 bits if it is more than that. A name in quotes with a colon and a byte beside
// the entry is four bytes longer than the name.

/// In how many bytes the shown form is written.
pub(crate) fn shown_length(value: &ObjectValue) -> u64
    requires apart { entry_of (codes "metadata") (entries_from value.now.attributes) ≡ None }
    requires metadata { IsMetadata value.now.metadata }
    ensures length { result ≡ min (length (text_of (shown_form value.now))) (2 ^ 64 - 1) }
    ensures sound { IsSound (shown_form value.now) }
{
    // `"metadata":` among the attributes, `"attributes":`, and the brackets of both objects.
    let attributes = entries_length(&value.attributes).saturating_add(metadata_length(
        &value.metadata,
    ));
    let elements = elements_entry_length(&value.elements);
    let id = string_length(value.id.get());
    let type_name = string_length(value.type_name.get());
    attributes
        .saturating_add(elements)
        .saturating_add(id)
        .saturating_add(type_name)
        .saturating_add(42)
}

fn metadata_length(metadata: &Metadata) -> u64
    requires { IsMetadata metadata.now }
    ensures length { result ≡ min (length (text_of (metadata_form metadata.now))) (2 ^ 64 - 1) }
    ensures sound { IsSound (metadata_form metadata.now) }
{
    let created = string_length(metadata.created_by.get()).saturating_add(digits_of(
        metadata.created_on,
    ));
    let modified = string_length(metadata.modified_by.get()).saturating_add(digits_of(
        metadata.modified_on,
    ));
    created
        .saturating_add(modified)
        .saturating_add(digits_of(metadata.revision))
        .saturating_add(67)
}

// The entry `elements`, if there is one.
fn elements_entry_length(elements: &Elements) -> u64
    ensures length { result ≡ min (entries_total (elements_form elements.now)) (2 ^ 64 - 1) }
    ensures sound { EntriesAreSound (entries_from (elements_form elements.now)) }
{
    if elements.is_empty() {
        return 0;
    }
    elements_length(elements.as_slice()).saturating_add(13)
}

fn elements_length(elements: &[Element]) -> u64
    ensures length { result ≡ min (items_total (map element_form elements.now)) (2 ^ 64 - 1) }
    ensures sound { AreSound (values_from (map element_form elements.now)) }
{
    let mut total = 0_u64;
    for i in 0..elements.len() {
        total = total.saturating_add(element_length(&elements[i]).saturating_add(1));
    }
    total
}

fn element_length(element: &Element) -> u64
    ensures length { result ≡ min (length (text_of (element_form element.now))) (2 ^ 64 - 1) }
    ensures sound { IsSound (element_form element.now) }
{
    attributes_entry_length(&element.attributes)
        .saturating_add(type_entry_length(&element.type_name))
        .saturating_add(string_length(element.id.get()))
        .saturating_add(digits_of(element.bytes.get().len() as u64))
        .saturating_add(17)
}

// The entry `attributes` of an element, if it has some.
fn attributes_entry_length(attributes: &Option<JsonMap>) -> u64
    ensures length { result
        ≡ min (entries_total (optional (codes "attributes") object_with attributes.now)) (2 ^ 64 - 1) }
    ensures sound { EntriesAreSound (entries_from (optional (codes "attributes") object_with attributes.now)) }
{
    match attributes {
        None => 0,
        Some(attributes) => map_length(attributes).saturating_add(14),
    }
}

// The entry `type` of an element, if it has one.
fn type_entry_length(type_name: &Option<Str>) -> u64
    ensures length { result ≡ min (entries_total (optional (codes "type") text type_name.now)) (2 ^ 64 - 1) }
    ensures sound { EntriesAreSound (entries_from (optional (codes "type") text type_name.now)) }
{
    match type_name {
        None => 0,
        Some(text) => string_length(text.get()).saturating_add(8),
    }
}

/// Whether the shown form without its `metadata` nests no deeper than an object may.
pub(crate) fn nests(value: &ObjectValue) -> bool
    ensures { IsTrue result ↔ (depth_of (bare_form value.now) ≤ most_nested) }
{
    if !entries_within(&value.attributes, ATTRIBUTES_DEPTH) {
        return false;
    }
    elements_within(value.elements.as_slice())
}

fn elements_within(elements: &[Element]) -> bool
    ensures { IsTrue result ↔ (deepest_value (values_from (map element_form elements.now)) ≤ 62) }
{
    for i in 0..elements.len() {
        if !element_within(&elements[i]) {
            return false;
        }
    }
    true
}

fn element_within(element: &Element) -> bool
    ensures { IsTrue result ↔ (depth_of (element_form element.now) ≤ 62) }
{
    match &element.attributes {
        None => true,
        Some(attributes) => entries_within(attributes, ELEMENT_DEPTH),
    }
}
