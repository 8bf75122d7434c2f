//! Reading an object as it comes in.
ghost use Rattle.std.specs.Prelude.{◌≡◌, [], None, drop, codes, option_map};
ghost use Rattle.doip_json.specs.Value.{table, entries_from};
ghost use Rattle.doip_json.specs.Meaning.{value_of};
ghost use Rattle.dobj_draft.specs.Draft.{property, draft, draft_with, draft_in, Reads};

use crate::draft::{Draft, ObjectFault};
use crate::listed::elements_listed;
use crate::payloads::{json_segment, with_payloads};
use crate::properties::{attributes_of, id_of, signatures_of, take_property, type_of};
use base_core::Items;
use doip_json::{Json, JsonMap};
use doip_segment::Message;
use std::alloc::Global;

// The properties of an object that are read, each absent where it is `null`.
#[derive(Drop)]
struct Properties {
    signatures: Option<Json>,
    id: Option<Json>,
    type_name: Option<Json>,
    attributes: Option<Json>,
    elements: Option<Json>,
}

/// The object that the value is, or else the one that the parts bring: the segments after a request's first.
///
/// # Errors
/// The first of these that holds, in this order. Segments are numbered in the message, so the first part has number 1.
///
/// | fault | comes |
/// |---|---|
/// | `Missing` | there is neither a value nor a part |
/// | `Segment`, `Json` | the first part is bytes, or isn't JSON that nests at most 64 deep with integers alone |
/// | `NotObject` | the value, or that of the first part, is no JSON object |
/// | `Signatures` | `signatures` is something else than an empty array |
/// | `BadField` | `id`, `type`, `attributes`, `acl` or `elements`, in this order, is of another kind |
/// | `TooMany` | there are more than 1,000 elements |
/// | `BadField`, `TwiceElement` | an element's `id`, `type` or `attributes` is of another kind; its `id` comes again |
/// | `Segment`, `Json`, `Stranger` | a later pair isn't `{"id": ..}` and bytes, for a listed element that waits |
///
/// `null` counts as absent, and is not kept in `content`, `acl`, `readers` and `writers`; `metadata` and other
/// properties are not read. `Memory` comes only when an allocation was refused.
///
/// It takes time linear in the input but for the elements' identifiers, which are compared with each other. Attributes
/// are moved; those of elements and the contents of segments are copied once.
pub fn draft_of(alloc: Global, value: Option<Json>, parts: &Message) -> Result<Draft, ObjectFault>
    ensures { Reads (λ d. d) result (draft (option_map value_of value) parts.now.segments) }
{
    match value {
        Some(value) => draft_alone(alloc, value),
        None => draft_in_parts(alloc, parts),
    }
}

fn draft_alone(alloc: Global, value: Json) -> Result<Draft, ObjectFault>
    ensures { Reads (λ d. d) result (draft_with (value_of value) []) }
{
    let none = Message::empty(alloc);
    draft_beside(alloc, value, &none)
}

fn draft_in_parts(alloc: Global, parts: &Message) -> Result<Draft, ObjectFault>
    ensures { Reads (λ d. d) result (draft None parts.now.segments) }
{
    if parts.count() == 0 {
        return Err(ObjectFault::Missing);
    }
    let value = json_segment(alloc, parts, 0, 1)?;
    draft_beside(alloc, value, parts)
}

// The object that the value is, with the parts after the first.
fn draft_beside(alloc: Global, value: Json, parts: &Message) -> Result<Draft, ObjectFault>
    ensures { Reads (λ d. d) result (draft_with (value_of value) (drop 1 parts.now.segments)) }
{
    match value {
        Json::Table(object) => draft_of_object(alloc, object, parts),
        _ => Err(ObjectFault::NotObject),
    }
}

#[tactic(auto, unfolding(crate::specs::Draft::draft_in))]
fn draft_of_object(alloc: Global, object: JsonMap, parts: &Message) -> Result<Draft, ObjectFault>
    ensures { Reads (λ d. d) result (draft_in (table (entries_from object)) (drop 1 parts.now.segments)) }
{
    let properties = properties_of(object);
    signatures_of(properties.signatures)?;
    let id = id_of(properties.id)?;
    let type_name = type_of(properties.type_name)?;
    let attributes = attributes_of(alloc, properties.attributes)?;
    let elements = elements_listed(alloc, properties.elements)?;
    let filled = with_payloads(alloc, parts, elements)?;
    Ok(Draft {
        id,
        type_name,
        attributes,
        elements: Items::from(filled),
    })
}

fn properties_of(mut object: JsonMap) -> Properties
    ensures signatures { option_map value_of result.signatures
        ≡ property (codes "signatures") (table (entries_from object)) }
    ensures id { option_map value_of result.id ≡ property (codes "id") (table (entries_from object)) }
    ensures type_name { option_map value_of result.type_name ≡ property (codes "type") (table (entries_from object)) }
    ensures attributes { option_map value_of result.attributes
        ≡ property (codes "attributes") (table (entries_from object)) }
    ensures elements { option_map value_of result.elements
        ≡ property (codes "elements") (table (entries_from object)) }
{
    let signatures = take_property(&mut object, "signatures");
    let id = take_property(&mut object, "id");
    let type_name = take_property(&mut object, "type");
    let attributes = take_property(&mut object, "attributes");
    let elements = take_property(&mut object, "elements");
    Properties {
        signatures,
        id,
        type_name,
        attributes,
        elements,
    }
}
