//! Reading the elements of an object.
ghost use Rattle.std.specs.Prelude.{◌≡◌, [], ◌∷◌, ◌++◌, OnOk, codes, option_map};
ghost use Rattle.doip_json.specs.Meaning.{value_of};
ghost use Rattle.dobj_draft.specs.declared.draft.ObjectField.TheVariants as fields;
ghost use Rattle.dobj_draft.specs.Draft.{with_element, property, required_name, optional_text, optional_object};
ghost use Rattle.dobj_draft.specs.Draft.{element_in, is_listed, is_table, elements_after, elements_of, elements_in};
ghost use Rattle.dobj_draft.specs.Draft.{are_tables, Reads};

use crate::draft::{DraftElement, ObjectFault, ObjectField};
use crate::properties::property_of;
use dobj_model::Id;
use doip_json::{Json, JsonList, JsonMap, Str, copy_map};
use std::alloc::{AllocError, Global};

/// The most elements of an object.
const MOST: usize = 1000;

/// The elements that are listed, none where they are absent. Their strings and attributes are copied once.
pub(crate) fn elements_listed(
    alloc: Global,
    elements: Option<Json>,
) -> Result<Vec<DraftElement>, ObjectFault>
    ensures { Reads (λ v. v.items) result (elements_in (option_map value_of elements)) }
{
    match elements {
        None => Ok(Vec::new(alloc)),
        Some(Json::Items(items)) => elements_of_list(alloc, &items),
        Some(_) => Err(ObjectFault::BadField {
            name: ObjectField::Elements,
        }),
    }
}

fn elements_of_list(alloc: Global, items: &JsonList) -> Result<Vec<DraftElement>, ObjectFault>
    ensures { Reads (λ v. v.items) result (elements_of items.now) }
{
    if !are_objects(items) {
        return Err(ObjectFault::BadField {
            name: ObjectField::Elements,
        });
    }
    if items.len() > MOST {
        return Err(ObjectFault::TooMany);
    }
    elements_in_order(alloc, items)
}

// Whether the items are JSON objects.
fn are_objects(items: &JsonList) -> bool
    ensures { result ≡ are_tables items.now }
{
    for i in 0..items.len() {
        if !is_object(items.item(i)) {
            return false;
        }
    }
    true
}

fn is_object(value: &Json) -> bool
    ensures { result ≡ is_table (value_of value.now) }
{
    matches!(value, Json::Table(_))
}

fn elements_in_order(alloc: Global, items: &JsonList) -> Result<Vec<DraftElement>, ObjectFault>
    ensures { Reads (λ v. v.items) result (elements_after [] items.now) }
{
    let mut elements = Vec::new(alloc);
    for i in 0..items.len() {
        add_element(alloc, items.item(i), &mut elements)?;
    }
    Ok(elements)
}

// Adds the element unless its identifier is among them.
fn add_element(
    alloc: Global,
    value: &Json,
    elements: &mut Vec<DraftElement>,
) -> Result<(), ObjectFault>
    ensures { Reads (λ _. elements.new.items) result (with_element elements.old.items (value_of value.now)) }
{
    let element = element_of(alloc, value)?;
    if has_id(elements.as_slice(), &element.id) {
        return Err(ObjectFault::TwiceElement { id: element.id });
    }
    push(elements, element)?;
    Ok(())
}

fn push(elements: &mut Vec<DraftElement>, element: DraftElement) -> Result<(), AllocError>
    ensures { OnOk result (elements.new.items ≡ elements.old.items ++ element ∷ []) }
{
    elements.push(element)?;
    Ok(())
}

// Whether one of the elements has the identifier.
fn has_id(elements: &[DraftElement], id: &Id) -> bool
    ensures { result ≡ is_listed id.now elements.now }
{
    for i in 0..elements.len() {
        if *id == elements[i].id {
            return true;
        }
    }
    false
}

#[tactic(auto, unfolding(crate::specs::Draft::element_in))]
fn element_of(alloc: Global, value: &Json) -> Result<DraftElement, ObjectFault>
    ensures { Reads (λ e. e) result (element_in (value_of value.now)) }
{
    let id = element_id(alloc, value)?;
    let type_name = element_type(alloc, value)?;
    let attributes = element_attributes(alloc, value)?;
    Ok(DraftElement {
        id,
        type_name,
        attributes,
        bytes: None,
    })
}

fn element_id(alloc: Global, value: &Json) -> Result<Id, ObjectFault>
    ensures { Reads (λ i. i) result (required_name fields.ElementId (property (codes "id") (value_of value.now))) }
{
    match property_of(value, "id") {
        Some(Json::Text(text)) => match Id::of(alloc, text.get())? {
            Some(id) => Ok(id),
            None => Err(ObjectFault::BadField {
                name: ObjectField::ElementId,
            }),
        },
        _ => Err(ObjectFault::BadField {
            name: ObjectField::ElementId,
        }),
    }
}

fn element_type(alloc: Global, value: &Json) -> Result<Option<Str>, ObjectFault>
    ensures { Reads (λ t. t) result (optional_text fields.ElementType (property (codes "type") (value_of value.now))) }
{
    match property_of(value, "type") {
        None => Ok(None),
        Some(Json::Text(text)) => Ok(Some(Str::of(alloc, text.get())?)),
        Some(_) => Err(ObjectFault::BadField {
            name: ObjectField::ElementType,
        }),
    }
}

fn element_attributes(alloc: Global, value: &Json) -> Result<Option<JsonMap>, ObjectFault>
    ensures { Reads (λ m. m) result
        (optional_object fields.ElementAttributes (property (codes "attributes") (value_of value.now))) }
{
    match property_of(value, "attributes") {
        None => Ok(None),
        Some(Json::Table(attributes)) => Ok(Some(copy_map(alloc, attributes)?)),
        Some(_) => Err(ObjectFault::BadField {
            name: ObjectField::ElementAttributes,
        }),
    }
}
