//! The input and the arguments of a request.
ghost use Rattle.std.specs.Prelude.{◌≡◌, IfOk, option_map};
ghost use Rattle.doip_json.specs.Value.{entries_from};
ghost use Rattle.doip_json.specs.Meaning.{value_of};
ghost use Rattle.doip_message.specs.Asked.{content_of};
ghost use Rattle.dobj_draft.specs.Draft.{draft};
ghost use Rattle.dobj_draft.specs.Made.{AreBrought};
ghost use Rattle.repo_step.specs.Chain.{Gives};
ghost use Rattle.repo_step.specs.Drafts.{IsBroughtContent, CanBecome};
ghost use Rattle.repo_step.specs.operations.Shared as spec;

use crate::{Refusal, Stop};
use dobj_draft::{Draft, ObjectFault, draft_of, drafts_keep_their_bounds, drafts_make_objects};
use dobj_model::Id;
use doip_json::{Json, JsonMap};
use doip_message::Body;
use doip_segment::Message;
use std::alloc::{AllocError, Global};

/// The draft that the input of a request is, which an object can be made of.
pub(crate) fn draft_in(alloc: Global, input: Body) -> Result<Draft, Stop>
    requires brought { IsBroughtContent (content_of input) }
    ensures draft { Gives (λ d. d) result (spec.drafted (content_of input)) }
    ensures becomes { IfOk result CanBecome }
{
    match input {
        Body::Nothing => draft_read(alloc, None, &Message::empty(alloc)),
        Body::Value(value) => draft_read(alloc, Some(value), &Message::empty(alloc)),
        Body::Parts(parts) => draft_read(alloc, None, &parts),
    }
}

// The draft that a value or else the parts are.
fn draft_read(alloc: Global, value: Option<Json>, parts: &Message) -> Result<Draft, Stop>
    requires brought { AreBrought (option_map value_of value) parts.now.segments }
    ensures draft { Gives (λ d. d) result (spec.or_refused (draft (option_map value_of value) parts.now.segments)) }
    ensures becomes { IfOk result CanBecome }
{
    drafts_keep_their_bounds();
    drafts_make_objects();
    match draft_of(alloc, value, parts) {
        Ok(draft) => Ok(draft),
        Err(ObjectFault::Memory) => Err(Stop::Memory),
        Err(fault) => Err(Stop::Refused(Refusal::BadInput { fault })),
    }
}

/// The argument at the key; `null` counts as absent.
pub(crate) fn argument<'a>(arguments: &'a JsonMap, key: &str) -> Option<&'a Json>
    ensures { option_map (λ v. value_of v.now) result ≡ spec.argument key.now (entries_from arguments.now) }
{
    match arguments.get(key) {
        Some(Json::Null) => None,
        other => other,
    }
}

/// A copy of an identifier.
pub(crate) fn copy_id(alloc: Global, id: &Id) -> Result<Id, AllocError>
    ensures { IfOk result (λ copy. copy ≡ id.now) }
{
    match Id::of(alloc, id.get())? {
        Some(copy) => Ok(copy),
        None => unreachable!(),
    }
}
