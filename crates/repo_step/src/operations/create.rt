//! Create: an object comes of the input.
ghost use Rattle.std.specs.Prelude.{◌≡◌, map, option_map, IfOk};
ghost use Rattle.acl_core.specs.Caller.{IsShort};
ghost use Rattle.dobj_model.specs.Object.{IsMetadata};
ghost use Rattle.doip_message.specs.Asked.{content_of};
ghost use Rattle.ext_ops.specs.Offered.{Offered};
ghost use Rattle.repo_step.specs.Chain.{Gives};
ghost use Rattle.repo_step.specs.Drafts.{IsBroughtContent};
ghost use Rattle.repo_step.specs.Shown.{effect_of};
ghost use Rattle.repo_step.specs.Turn.{setting_in, state_in};
ghost use Rattle.repo_step.specs.Rights.{caller_name};
ghost use Rattle.repo_step.specs.operations.Create as spec;

use super::input::{copy_id, draft_in};
use super::limits::{MOST_OBJECTS, put};
use super::making::object_of;
use super::mint::named;
use super::rights::{caller_name, known_lists, may_make, no_right};
use crate::shown::Made;
use crate::turn::Turn;
use crate::{Refusal, Stop};
use acl_core::Caller;
use base_core::Bytes;
use dobj_draft::{Draft, DraftElement, DraftElements};
use dobj_model::{Element, Id, Metadata};
use doip_json::Str;
use doip_message::Body;
use std::alloc::{AllocError, Global};

/// What a Create makes of its input, or its first refusal.
pub(crate) fn create<'t>(turn: Turn<'t>, caller: &Caller, input: Body) -> Result<Made<'t>, Stop>
    requires short { IsShort caller.now }
    requires brought { IsBroughtContent (content_of input) }
    ensures { (offers : Offered) → Gives effect_of result
        (spec.create (setting_in turn.entry offers) turn.entry.brought (state_in turn.entry) caller.now
        (content_of input)) }
{
    let Draft {
        id,
        type_name,
        attributes,
        elements,
    } = draft_in(turn.alloc, input)?;
    let Some(type_name) = type_name else {
        return Err(Stop::Refused(Refusal::TypeMissing));
    };
    let Some(lists) = known_lists(turn, type_name.get()) else {
        return Err(Stop::Refused(Refusal::TypeUnknown { name: type_name }));
    };
    if !may_make(turn, caller, lists) {
        return Err(Stop::Refused(no_right(caller)));
    }
    if let Some(id) = first_without_bytes(elements.as_slice()) {
        let id = copy_id(turn.alloc, id)?;
        return Err(Stop::Refused(Refusal::NoBytes { id }));
    }
    let named = named(turn, id)?;
    let metadata = first_metadata(turn, caller)?;
    let elements = elements_of(turn.alloc, elements)?;
    let object = object_of(named.id, type_name, attributes, metadata, elements);
    if turn.table.count() >= MOST_OBJECTS {
        return Err(Stop::Refused(Refusal::TooManyObjects));
    }
    put(turn, object, named.counter)
}

// The first element that came without bytes.
fn first_without_bytes(elements: &[DraftElement]) -> Option<&Id>
    ensures { option_map (λ id. id.now) result ≡ spec.first_without_bytes elements.now }
{
    match elements.iter().find(|element| element.bytes.is_none()) {
        Some(element) => Some(&element.id),
        None => None,
    }
}

// Who makes the object, at the time of the turn.
fn first_metadata(turn: Turn, caller: &Caller) -> Result<Metadata, AllocError>
    requires short { IsShort caller.now }
    ensures metadata { IfOk result (λ metadata. metadata
        ≡ spec.first_metadata (caller_name caller.now) turn.entry.brought.time) }
    ensures range { IfOk result IsMetadata }
{
    let name = caller_name(caller);
    Ok(Metadata {
        created_by: Str::of(turn.alloc, name)?,
        created_on: turn.brought.time,
        modified_by: Str::of(turn.alloc, name)?,
        modified_on: turn.brought.time,
        revision: 1,
    })
}

// The elements with their bytes, which are moved.
fn elements_of(alloc: Global, elements: DraftElements) -> Result<Vec<Element>, AllocError>
    ensures { IfOk result (λ made. made.items ≡ map spec.element_of elements) }
{
    let mut made = Vec::new(alloc);
    made.reserve(elements.len())?;
    for element in elements.into_vec() {
        let DraftElement {
            id,
            type_name,
            attributes,
            bytes,
        } = element;
        let bytes = match bytes {
            Some(bytes) => bytes,
            None => Bytes::from(Vec::new(alloc)),
        };
        made.push(Element {
            id,
            type_name,
            attributes,
            bytes,
        })?;
    }
    Ok(made)
}
