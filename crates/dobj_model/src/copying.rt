//! A copy of an object.
ghost use Rattle.std.specs.Prelude.{◌≡◌, ◌∷◌, [], ◌++◌, OnOk, IfOk};

use crate::elements::{Element, Elements};
use crate::id::Id;
use crate::metadata::Metadata;
use crate::object::{Object, ObjectValue};
use crate::type_name::TypeName;
use doip_json::{Bytes, JsonMap, Str, copy_map};
use std::alloc::{AllocError, Global};

/// An equal object. The bytes of each element are copied at once.
pub fn copy_object(alloc: Global, object: &Object) -> Result<Object, AllocError>
    ensures { IfOk result (λ made. made ≡ object.now) }
{
    match Object::of(copy_value(alloc, object.value())?) {
        Some(made) => Ok(made),
        None => unreachable!(),
    }
}

fn copy_value(alloc: Global, value: &ObjectValue) -> Result<ObjectValue, AllocError>
    ensures { IfOk result (λ made. made ≡ value.now) }
{
    let id = copy_id(alloc, &value.id)?;
    let type_name = copy_type_name(alloc, &value.type_name)?;
    let attributes = copy_map(alloc, &value.attributes)?;
    let metadata = copy_metadata(alloc, &value.metadata)?;
    let elements = copy_elements(alloc, &value.elements)?;
    Ok(ObjectValue {
        id,
        type_name,
        attributes,
        metadata,
        elements,
    })
}

fn copy_id(alloc: Global, id: &Id) -> Result<Id, AllocError>
    ensures { IfOk result (λ made. made ≡ id.now) }
{
    match Id::of(alloc, id.get())? {
        Some(made) => Ok(made),
        None => unreachable!(),
    }
}

fn copy_type_name(alloc: Global, name: &TypeName) -> Result<TypeName, AllocError>
    ensures { IfOk result (λ made. made ≡ name.now) }
{
    match TypeName::of(alloc, name.get())? {
        Some(made) => Ok(made),
        None => unreachable!(),
    }
}

fn copy_metadata(alloc: Global, metadata: &Metadata) -> Result<Metadata, AllocError>
    ensures { IfOk result (λ made. made ≡ metadata.now) }
{
    Ok(Metadata {
        created_by: Str::of(alloc, metadata.created_by.get())?,
        created_on: metadata.created_on,
        modified_by: Str::of(alloc, metadata.modified_by.get())?,
        modified_on: metadata.modified_on,
        revision: metadata.revision,
    })
}

fn copy_elements(alloc: Global, elements: &Elements) -> Result<Elements, AllocError>
    ensures { IfOk result (λ made. made ≡ elements.now) }
{
    let items = copy_items(alloc, elements.as_slice())?;
    match Elements::of(items) {
        Some(made) => Ok(made),
        None => unreachable!(),
    }
}

fn copy_items(alloc: Global, items: &[Element]) -> Result<Vec<Element>, AllocError>
    ensures { IfOk result (λ made. made.items ≡ items.now) }
{
    let mut made = Vec::new(alloc);
    for i in 0..items.len() {
        made.push(copy_element(alloc, &items[i])?)?;
    }
    Ok(made)
}

fn copy_element(alloc: Global, element: &Element) -> Result<Element, AllocError>
    ensures { IfOk result (λ made. made ≡ element.now) }
{
    let id = copy_id(alloc, &element.id)?;
    let type_name = copy_text(alloc, &element.type_name)?;
    let attributes = copy_attributes(alloc, &element.attributes)?;
    let bytes = Bytes::of(alloc, element.bytes.get())?;
    Ok(Element {
        id,
        type_name,
        attributes,
        bytes,
    })
}

fn copy_text(alloc: Global, text: &Option<Str>) -> Result<Option<Str>, AllocError>
    ensures { IfOk result (λ made. made ≡ text.now) }
{
    match text {
        None => Ok(None),
        Some(text) => Ok(Some(Str::of(alloc, text.get())?)),
    }
}

fn copy_attributes(
    alloc: Global,
    attributes: &Option<JsonMap>,
) -> Result<Option<JsonMap>, AllocError>
    ensures { IfOk result (λ made. made ≡ attributes.now) }
{
    match attributes {
        None => Ok(None),
        Some(attributes) => Ok(Some(copy_map(alloc, attributes)?)),
    }
}
