//! An object as a JSON value, and as segments.
ghost use Rattle.std.specs.Prelude.{◌≡◌, ◌++◌, OnOk, IfOk};
ghost use Rattle.doip_json.specs.Meaning.{value_of};
ghost use Rattle.doip_json.specs.Text.{text_of};
ghost use Rattle.dobj_model.specs.Parts.{element_name, element_segments, object_segments};
ghost use Rattle.dobj_model.specs.Shown.{shown_form};

use crate::elements::Element;
use crate::object::Object;
use crate::shown::append_text;
use doip_json::{Bytes, Json, JsonMap, Str, read, text};
use doip_segment::{Kind, Message};
use std::alloc::{AllocError, Global};

/// How deep a JSON text may nest; no shown form is that deep.
const DEPTH: u8 = 127;

/// The shown form of the object as a JSON value. Where its text is enough, [`append_text`] makes no value: this call
/// writes the text and reads it.
pub fn object_json(alloc: Global, object: &Object) -> Result<Json, AllocError>
    ensures { IfOk result (λ json. value_of json ≡ shown_form object.now) }
{
    let _ = object.value();
    let mut shown = Vec::new(alloc);
    append_text(alloc, object, &mut shown)?;
    match read(alloc, shown.as_slice(), DEPTH) {
        Ok(json) => Ok(json),
        Err(fault) => match fault.text_fault() {
            None => Err(AllocError),
            Some(_) => unreachable!(),
        },
    }
}

/// The object as segments: its shown form, and then for each element `{"id": ..}` and its bytes, which are copied once.
pub fn object_parts(alloc: Global, object: &Object) -> Result<Message, AllocError>
    ensures { IfOk result (λ parts. parts.segments ≡ object_segments object.now) }
{
    let mut shown = Vec::new(alloc);
    append_text(alloc, object, &mut shown)?;
    let mut parts = Message::empty(alloc);
    parts.push(Kind::Json, shown.as_slice())?;
    let elements = object.elements().as_slice();
    for i in 0..elements.len() {
        push_element(alloc, &elements[i], &mut parts)?;
    }
    Ok(parts)
}

fn push_element(alloc: Global, element: &Element, parts: &mut Message) -> Result<(), AllocError>
    ensures { OnOk result (parts.new.segments ≡ parts.old.segments ++ element_segments element.now) }
{
    let name = name_text(alloc, element)?;
    parts.push(Kind::Json, name.get())?;
    parts.push(Kind::Bytes, element.bytes.get())
}

fn name_text(alloc: Global, element: &Element) -> Result<Bytes, AllocError>
    ensures { IfOk result (λ bytes. bytes ≡ text_of (element_name element.now)) }
{
    let mut name = JsonMap::empty(alloc);
    name.put(
        Str::of(alloc, "id")?,
        Json::Text(Str::of(alloc, element.id.get())?),
    )?;
    text(alloc, &Json::Table(name))
}
