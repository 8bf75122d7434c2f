//! The shown form of an object as text, with no JSON value built for it.
ghost use Rattle.std.specs.Prelude.{◌≡◌, [], ◌∷◌, ◌++◌, map, length, None, codes, OnOk, OnErr};
ghost use Rattle.json.specs.Token.{begin_array, end_array, key, string, number as json_number};
ghost use Rattle.std.specs.Fmt.{decimal};
ghost use Rattle.doip_json.specs.Value.{values_from, entries_from, text};
ghost use Rattle.doip_json.specs.Look.{entry_of};
ghost use Rattle.doip_json.specs.Places.{IsGapFor};
ghost use Rattle.doip_json.specs.Text.{text_of};
ghost use Rattle.doip_json.specs.Tokens.{tokens_of, item_tokens, entry_tokens};
ghost use Rattle.dobj_model.specs.Shown.{object_with, optional, metadata_form, element_form, elements_form};
ghost use Rattle.dobj_model.specs.Shown.{with_metadata, shown_form};

use crate::elements::{Element, Elements};
use crate::measure::shown_length;
use crate::metadata::Metadata;
use crate::object::{Object, ObjectValue};
use crate::writing::{write_entries, write_map};
use doip_json::{JsonMap, Str};
use json::Writer;
use std::alloc::{AllocError, Global};
use std::cmp::Ordering;
use std::mem;

/// In how many bytes the text of the shown form is written. It takes no memory, and time linear in the text.
pub fn text_length(object: &Object) -> u64
    ensures { result ≡ length (text_of (shown_form object.now)) }
{
    shown_length(object.value())
}

/// Adds the canonical text of the shown form at the end of the buffer. Out of memory the buffer stays as it was.
///
/// One pass finds how much room to take, and takes it at once: the text and one byte, since the writer of JSON wants a
/// byte beside each token. A second pass writes.
pub fn append_text(alloc: Global, object: &Object, out: &mut Vec<u8>) -> Result<(), AllocError>
    ensures ok { OnOk result (out.new.items ≡ out.old.items ++ text_of (shown_form object.now)) }
    ensures err { OnErr result (out.new.items ≡ out.old.items) }
{
    let before = out.len();
    let length = text_length(object) as usize;
    out.reserve(length.saturating_add(1))?;
    let mut writer = Writer::new(mem::replace(out, Vec::new(alloc)));
    let written = write_shown(object.value(), &mut writer);
    *out = writer.into_inner();
    if written.is_err() {
        out.truncate(before);
    }
    written
}

fn write_shown(value: &ObjectValue, out: &mut Writer) -> Result<(), AllocError>
    requires { entry_of (codes "metadata") (entries_from value.now.attributes) ≡ None }
    ensures ok { OnOk result (out.new.tokens ≡ out.old.tokens ++ tokens_of (shown_form value.now)) }
    ensures before { out.new.before ≡ out.old.before }
{
    out.begin_object()?;
    out.key("attributes")?;
    write_attributes(&value.attributes, &value.metadata, out)?;
    write_elements_entry(&value.elements, out)?;
    write_text_entry("id", value.id.get(), out)?;
    write_text_entry("type", value.type_name.get(), out)?;
    out.end_object()
}

// The attributes with `metadata` at its place.
fn write_attributes(
    attributes: &JsonMap,
    metadata: &Metadata,
    out: &mut Writer,
) -> Result<(), AllocError>
    requires { entry_of (codes "metadata") (entries_from attributes.now) ≡ None }
    ensures ok { OnOk result (out.new.tokens
        ≡ out.old.tokens ++ tokens_of (object_with (with_metadata attributes.now metadata.now))) }
    ensures before { out.new.before ≡ out.old.before }
{
    let place = place_of_metadata(attributes);
    out.begin_object()?;
    write_entries(attributes, 0, place, out)?;
    out.key("metadata")?;
    write_metadata(metadata, out)?;
    write_entries(attributes, place, attributes.len(), out)?;
    out.end_object()
}

// Where the key would go.
fn place_of_metadata(attributes: &JsonMap) -> usize
    requires { entry_of (codes "metadata") (entries_from attributes.now) ≡ None }
    ensures { IsGapFor (codes "metadata") attributes.now result }
{
    for i in 0..attributes.len() {
        match attributes.key_at(i).get().cmp("metadata") {
            Ordering::Less => {}
            Ordering::Equal => unreachable!(),
            Ordering::Greater => return i,
        }
    }
    attributes.len()
}

fn write_metadata(metadata: &Metadata, out: &mut Writer) -> Result<(), AllocError>
    ensures ok { OnOk result (out.new.tokens ≡ out.old.tokens ++ tokens_of (metadata_form metadata.now)) }
    ensures before { out.new.before ≡ out.old.before }
{
    out.begin_object()?;
    write_text_entry("createdBy", metadata.created_by.get(), out)?;
    write_number_entry("createdOn", metadata.created_on, out)?;
    write_text_entry("modifiedBy", metadata.modified_by.get(), out)?;
    write_number_entry("modifiedOn", metadata.modified_on, out)?;
    write_number_entry("revision", metadata.revision, out)?;
    out.end_object()
}

fn write_text_entry(name: &str, value: &str, out: &mut Writer) -> Result<(), AllocError>
    ensures ok { OnOk result (out.new.tokens ≡ out.old.tokens ++ key name.now ∷ string value.now ∷ []) }
    ensures before { out.new.before ≡ out.old.before }
{
    out.key(name)?;
    out.string(value)
}

fn write_number_entry(name: &str, value: u64, out: &mut Writer) -> Result<(), AllocError>
    ensures ok { OnOk result (out.new.tokens ≡ out.old.tokens ++ key name.now ∷ json_number (decimal value) ∷ []) }
    ensures before { out.new.before ≡ out.old.before }
{
    out.key(name)?;
    out.u64(value)
}

// The entry `elements`, if there is one.
fn write_elements_entry(elements: &Elements, out: &mut Writer) -> Result<(), AllocError>
    ensures ok { OnOk result
        (out.new.tokens ≡ out.old.tokens ++ entry_tokens (entries_from (elements_form elements.now))) }
    ensures before { out.new.before ≡ out.old.before }
{
    if elements.is_empty() {
        return Ok(());
    }
    out.key("elements")?;
    write_elements(elements.as_slice(), out)
}

fn write_elements(elements: &[Element], out: &mut Writer) -> Result<(), AllocError>
    ensures ok { OnOk result (out.new.tokens ≡ out.old.tokens
        ++ begin_array ∷ (item_tokens (values_from (map element_form elements.now)) ++ end_array ∷ [])) }
    ensures before { out.new.before ≡ out.old.before }
{
    out.begin_array()?;
    for i in 0..elements.len() {
        write_element(&elements[i], out)?;
    }
    out.end_array()
}

fn write_element(element: &Element, out: &mut Writer) -> Result<(), AllocError>
    ensures ok { OnOk result (out.new.tokens ≡ out.old.tokens ++ tokens_of (element_form element.now)) }
    ensures before { out.new.before ≡ out.old.before }
{
    out.begin_object()?;
    write_attributes_entry(&element.attributes, out)?;
    write_text_entry("id", element.id.get(), out)?;
    write_number_entry("length", element.bytes.get().len() as u64, out)?;
    write_type_entry(&element.type_name, out)?;
    out.end_object()
}

// The entry `attributes` of an element, if it has some.
fn write_attributes_entry(attributes: &Option<JsonMap>, out: &mut Writer) -> Result<(), AllocError>
    ensures ok { OnOk result (out.new.tokens ≡ out.old.tokens
        ++ entry_tokens (entries_from (optional (codes "attributes") object_with attributes.now))) }
    ensures before { out.new.before ≡ out.old.before }
{
    match attributes {
        None => Ok(()),
        Some(attributes) => {
            out.key("attributes")?;
            write_map(attributes, out)
        }
    }
}

// The entry `type` of an element, if it has one.
fn write_type_entry(type_name: &Option<Str>, out: &mut Writer) -> Result<(), AllocError>
    ensures ok { OnOk result (out.new.tokens ≡ out.old.tokens
        ++ entry_tokens (entries_from (optional (codes "type") text type_name.now))) }
    ensures before { out.new.before ≡ out.old.before }
{
    match type_name {
        None => Ok(()),
        Some(text) => { write_text_entry("type", text.get(), out) }
    }
}
