//! Update: the input takes the place of attributes and elements.
ghost use Rattle.std.specs.Prelude.{◌≡◌, ◌+◌, ◌-◌, ◌<◌, ◌^◌, map, option_map, IfOk};
ghost use Rattle.acl_core.specs.Caller.{IsShort};
ghost use Rattle.dobj_model.specs.Object.{IsMetadata};
ghost use Rattle.doip_message.specs.Asked.{content_of};
ghost use Rattle.repo_step.specs.Chain.{Gives};
ghost use Rattle.repo_step.specs.Drafts.{IsBroughtContent};
ghost use Rattle.repo_step.specs.Shown.{effect_of};
ghost use Rattle.repo_step.specs.Turn.{state_in};
ghost use Rattle.repo_step.specs.Rights.{caller_name};
ghost use Rattle.repo_step.specs.operations.Update as spec;

use super::input::{copy_id, draft_in};
use super::limits::put;
use super::making::object_of;
use super::rights::{caller_name, may, no_right};
use crate::shown::Made;
use crate::turn::Turn;
use crate::{Refusal, Stop};
use acl_core::{Caller, Right};
use base_core::Bytes;
use dobj_draft::{Draft, DraftElement, DraftElements};
use dobj_model::{Element, Id, Metadata, Object, TypeName};
use doip_json::Str;
use doip_message::Body;
use std::alloc::{AllocError, Global};

/// The last revision of an object.
const LAST_REVISION: u64 = 0x7fff_ffff_ffff_ffff;

/// What an Update makes of an object, or its first refusal.
pub(crate) fn update<'t>(
    turn: Turn<'t>,
    caller: &Caller,
    input: Body,
    object: &'t Object,
) -> Result<Made<'t>, Stop>
    requires short { IsShort caller.now }
    requires brought { IsBroughtContent (content_of input) }
    ensures { Gives effect_of result
        (spec.update turn.entry.brought (state_in turn.entry) caller.now (content_of input) object.now) }
{
    if !may(turn, caller, Right::Write, object) {
        return Err(Stop::Refused(no_right(caller)));
    }
    let Draft {
        id,
        type_name,
        attributes,
        elements,
    } = draft_in(turn.alloc, input)?;
    if !is_same_id(&id, object) {
        return Err(Stop::Refused(Refusal::OtherId));
    }
    if !is_same_type(&type_name, object) {
        return Err(Stop::Refused(Refusal::OtherType));
    }
    if let Some(id) = first_lacking(object, elements.as_slice()) {
        let id = copy_id(turn.alloc, id)?;
        return Err(Stop::Refused(Refusal::NoBytes { id }));
    }
    // A call for its clause: what is stored keeps what objects keep.
    object.value();
    let elements = elements_after(turn.alloc, object, elements)?;
    if object.metadata().revision >= LAST_REVISION {
        return Err(Stop::Refused(Refusal::LastRevision));
    }
    let metadata = next_metadata(turn, caller, object.metadata())?;
    let id = copy_id(turn.alloc, object.id())?;
    let type_name = copy_type(turn.alloc, object.type_name())?;
    let updated = object_of(id, type_name, attributes, metadata, elements);
    put(turn, updated, None)
}

// Whether the input has no identifier, or the object's.
fn is_same_id(id: &Option<Id>, object: &Object) -> bool
    ensures { result ≡ spec.is_same_if_there id.now object.now.id }
{
    match id {
        None => true,
        Some(id) => id.get() == object.id().get(),
    }
}

// Whether the input has no type, or the object's.
fn is_same_type(type_name: &Option<TypeName>, object: &Object) -> bool
    ensures { result ≡ spec.is_same_if_there type_name.now object.now.type_name }
{
    match type_name {
        None => true,
        Some(name) => name.get() == object.type_name().get(),
    }
}

// The first element that comes without bytes, and of which none are stored.
fn first_lacking<'a>(object: &Object, elements: &'a [DraftElement]) -> Option<&'a Id>
    ensures { option_map (λ id. id.now) result ≡ spec.first_lacking object.now elements.now }
{
    match elements.iter().find(|element| lacks_bytes(object, element)) {
        Some(element) => Some(&element.id),
        None => None,
    }
}

// Whether the element comes without bytes, and none are stored.
fn lacks_bytes(object: &Object, element: &DraftElement) -> bool
    ensures { result ≡ spec.lacks_bytes object.now element.now }
{
    element.bytes.is_none() && object.elements().get(element.id.get()).is_none()
}

// The elements with their bytes, or else with copies of those that are stored.
fn elements_after(
    alloc: Global,
    object: &Object,
    elements: DraftElements,
) -> Result<Vec<Element>, AllocError>
    ensures { IfOk result (λ made. made.items ≡ map (spec.element_after object.now) elements) }
{
    let mut made = Vec::new(alloc);
    made.reserve(elements.len())?;
    for element in elements.into_vec() {
        made.push(element_after(alloc, object, element)?)?;
    }
    Ok(made)
}

// An element with its bytes, or else with a copy of those that are stored.
fn element_after(
    alloc: Global,
    object: &Object,
    element: DraftElement,
) -> Result<Element, AllocError>
    ensures { IfOk result (λ made. made ≡ spec.element_after object.now element) }
{
    let DraftElement {
        id,
        type_name,
        attributes,
        bytes,
    } = element;
    let bytes = match bytes {
        Some(bytes) => bytes,
        None => stored_bytes(alloc, object, id.get())?,
    };
    Ok(Element {
        id,
        type_name,
        attributes,
        bytes,
    })
}

// A copy of the stored bytes of an element, none where it isn't stored.
fn stored_bytes(alloc: Global, object: &Object, id: &str) -> Result<Bytes, AllocError>
    ensures { IfOk result (λ bytes. bytes ≡ spec.bytes_stored id.now object.now) }
{
    match object.elements().get(id) {
        Some(stored) => Bytes::of(alloc, stored.bytes.get()),
        None => Ok(Bytes::from(Vec::new(alloc))),
    }
}

// Who changes the object, at the time of the turn: its creation stays.
fn next_metadata(turn: Turn, caller: &Caller, metadata: &Metadata) -> Result<Metadata, AllocError>
    requires short { IsShort caller.now }
    requires before { IsMetadata metadata.now }
    requires last { metadata.now.revision < 2 ^ 63 - 1 }
    ensures metadata { IfOk result (λ next. next
        ≡ spec.next_metadata metadata.now (caller_name caller.now) turn.entry.brought.time) }
    ensures range { IfOk result IsMetadata }
{
    Ok(Metadata {
        created_by: Str::of(turn.alloc, metadata.created_by.get())?,
        created_on: metadata.created_on,
        modified_by: Str::of(turn.alloc, caller_name(caller))?,
        modified_on: turn.brought.time,
        revision: metadata.revision + 1,
    })
}

// A copy of a type's name.
fn copy_type(alloc: Global, name: &TypeName) -> Result<TypeName, AllocError>
    ensures { IfOk result (λ copy. copy ≡ name.now) }
{
    match TypeName::of(alloc, name.get())? {
        Some(copy) => Ok(copy),
        None => unreachable!(),
    }
}
