//! One step of the repository.
ghost use Rattle.std.specs.Prelude.{◌≡◌, IfOk, Some, option_map};
ghost use Rattle.acl_core.specs.Caller.{IsShort};
ghost use Rattle.doip_json.specs.Value.{entries_from};
ghost use Rattle.doip_json.specs.Meaning.{value_of};
ghost use Rattle.doip_message.specs.Asked.{content_of, asked_of};
ghost use Rattle.repo_state.specs.Groups.{is_text};
ghost use Rattle.repo_step.specs.Setting.{setting_of, state};
ghost use Rattle.repo_step.specs.Turn.{setting_in, state_in};
ghost use Rattle.repo_step.specs.Chain.{Gives};
ghost use Rattle.repo_step.specs.Drafts.{AreShort, IsBroughtContent};
ghost use Rattle.repo_step.specs.Effect.{Attempt};
ghost use Rattle.repo_step.specs.Shown.{effect_of, planned_of};
ghost use Rattle.repo_step.specs.Step as spec;
ghost use Rattle.repo_step.specs.Step.{at_service};
ghost use Rattle.doip_message.specs.Asked.{Properties};
ghost use Rattle.ext_ops.specs.declared.code.ExtCode.{ExtCode};
ghost use Rattle.ext_ops.specs.Offered.{Offered, offered, code_at};
ghost use Rattle.repo_step.specs.declared.operation.Operation.TheVariants.{Extended};
ghost use Rattle.repo_step.specs.Asking.{properties, asked_caller, IsInvalid};

use crate::operation::operation_in;
use crate::operations::{create, delete, extended, list_object, list_service, retrieve, update};
use crate::shown::{Made, Shown};
use crate::turn::Turn;
use crate::{Brought, Config, Operation, Planned, Refusal, Stop};
use acl_core::{AuthFault, Caller, caller_of};
use dobj_draft::messages_bring_values;
use dobj_model::Object;
use doip_json::{Json, JsonMap, Str};
use doip_message::{Body, Request, RequestFault, Why, request_of};
use doip_segment::Message;
use ext_ops::Extensions;
use journal_core::Room;
use repo_state::Table;
use std::alloc::{AllocError, Global};

/// The reply to a message, and its change: those of the first row that refuses, or the operation's own.
///
/// | row | status | message |
/// |---|---|---|
/// | the message is no request | 101 | the request's first fault |
/// | its credentials are wrong | 102 | `authentication refused` |
/// | no such operation | 200 | `operation unknown` |
/// | the target is neither the service nor an object | 104 | `target unknown` |
/// | the operation isn't offered on the target | 200 | `operation not offered here` |
/// | the operation's own rows, in `specs/operations` | | |
///
/// It reads and changes nothing else. What the reply shows of stored objects is lent from the table.
pub fn answer<'t>(
    alloc: Global,
    table: &'t Table,
    config: &'t Config,
    extensions: &'t Extensions,
    brought: Brought,
    room: Option<Room>,
    message: &Message,
) -> Result<Planned<'t>, AllocError>
    requires short { AreShort message.now.segments }
    ensures plan { IfOk result (λ planned. planned_of planned
        ≡ spec.step (setting_of config.now (offered extensions.now.operations extensions.now.hooks)) brought
        (state table.now.contents room) message.now.segments) }
{
    let turn = Turn {
        alloc,
        table,
        config,
        brought,
        room,
    };
    messages_bring_values();
    match request_of(alloc, message) {
        Ok(request) => requested(turn, extensions, request),
        Err(RequestFault { request_id, why }) => planned(request_id, invalid(why)),
    }
}

// The plan of a request.
fn requested<'t>(
    turn: Turn<'t>,
    extensions: &Extensions,
    request: Request,
) -> Result<Planned<'t>, AllocError>
    requires brought { IsBroughtContent (content_of request.input) }
    ensures { IfOk result (λ planned. planned_of planned ≡ spec.plan_with request.request_id (spec.accepted
        (setting_in turn.entry (offered extensions.now.operations extensions.now.hooks)) turn.entry.brought
        (state_in turn.entry) (asked_of request).properties)) }
{
    let Request {
        request_id,
        target_id,
        operation_id,
        attributes,
        authentication,
        input,
    } = request;
    let made = accepted(
        turn,
        extensions,
        target_id.get(),
        operation_id.get(),
        &attributes,
        authentication.as_ref(),
        input,
    );
    planned(request_id, made)
}

// A message that is no request, unless memory ran out as it was read.
fn invalid<'t>(why: Why) -> Result<Made<'t>, Stop>
    ensures { IsInvalid why result }
{
    match why {
        Why::Memory => Err(Stop::Memory),
        _ => Err(Stop::Refused(Refusal::Invalid { why })),
    }
}

// The plan of what was made, or of its refusal.
fn planned<'t>(
    request_id: Option<Str>,
    made: Result<Made<'t>, Stop>,
) -> Result<Planned<'t>, AllocError>
    ensures { IfOk result (λ p. (chain : Attempt) → Gives effect_of made.entry chain
        → planned_of p ≡ spec.plan_with request_id chain) }
{
    match made {
        Ok(made) => Ok(Planned {
            request_id,
            attempt: Ok(made),
        }),
        Err(Stop::Refused(refusal)) => Ok(Planned {
            request_id,
            attempt: Err(refusal),
        }),
        Err(Stop::Memory) => Err(AllocError),
    }
}

// What a request comes to, or its first refusal: a row a line, as in the table.
fn accepted<'t>(
    turn: Turn<'t>,
    extensions: &Extensions,
    target_id: &str,
    operation_id: &str,
    attributes: &JsonMap,
    authentication: Option<&Json>,
    input: Body,
) -> Result<Made<'t>, Stop>
    requires brought { IsBroughtContent (content_of input) }
    ensures { Gives effect_of result (spec.accepted
        (setting_in turn.entry (offered extensions.now.operations extensions.now.hooks)) turn.entry.brought
        (state_in turn.entry)
        (properties target_id.now operation_id.now (entries_from attributes.now)
        (option_map (λ v. value_of v.now) authentication.entry) (content_of input))) }
{
    let caller = match caller_in(turn, authentication) {
        Ok(caller) => caller,
        Err(stop) => return Err(stop),
    };
    let Some(operation) = operation_in(extensions, operation_id) else {
        return Err(Stop::Refused(Refusal::OperationUnknown));
    };
    if is_service(turn, target_id) {
        return at_service(turn, &caller, operation, input);
    }
    let Some(object) = turn.table.get(target_id) else {
        return Err(Stop::Refused(Refusal::TargetUnknown));
    };
    let asked = Asked {
        operation,
        name: operation_id,
        attributes,
    };
    at_object(turn, extensions, &caller, asked, input, object)
}

// Whether the target is the service.
fn is_service(turn: Turn, target_id: &str) -> bool
    ensures { (offers : Offered) → result ≡ is_text target_id.now (setting_in turn.entry offers).service }
{
    target_id == turn.config.service.get()
}

// The caller, unless the credentials are wrong.
fn caller_in(turn: Turn, authentication: Option<&Json>) -> Result<Caller, Stop>
    ensures caller { (offers : Offered) → Gives (λ caller. caller) result
        (asked_caller (setting_in turn.entry offers) (option_map (λ v. value_of v.now) authentication.entry)) }
    ensures short { IfOk result IsShort }
{
    match caller_of(turn.alloc, &turn.config.accounts, authentication) {
        Ok(caller) => Ok(caller),
        Err(AuthFault::NotAuthentic) => Err(Stop::Refused(Refusal::AuthenticationRefused)),
        Err(AuthFault::Memory) => Err(Stop::Memory),
    }
}

// What an operation on the service comes to.
fn at_service<'t>(
    turn: Turn<'t>,
    caller: &Caller,
    operation: Operation,
    input: Body,
) -> Result<Made<'t>, Stop>
    requires short { IsShort caller.now }
    requires brought { IsBroughtContent (content_of input) }
    ensures { (offers : Offered) → (asked : Properties) → asked.input ≡ content_of input
        → Gives effect_of result (spec.offered (setting_in turn.entry offers) turn.entry.brought (state_in turn.entry)
        caller.now asked (spec.offer_on operation at_service)) }
{
    match operation {
        Operation::Hello => Ok(Made::showing(Shown::Information(turn.config))),
        Operation::ListOperations => list_service(turn.alloc),
        Operation::Create => create(turn, caller, input),
        _ => Err(Stop::Refused(Refusal::NotOffered)),
    }
}

// What is asked of an object, beside the input.
#[derive(Clone, Copy)]
struct Asked<'a> {
    operation: Operation,
    // The identifier of the operation.
    name: &'a str,
    attributes: &'a JsonMap,
}

// What an operation on an object comes to.
fn at_object<'t>(
    turn: Turn<'t>,
    extensions: &Extensions,
    caller: &Caller,
    asked: Asked,
    input: Body,
    object: &'t Object,
) -> Result<Made<'t>, Stop>
    requires short { IsShort caller.now }
    requires brought { IsBroughtContent (content_of input) }
    requires extension { (code : ExtCode) → asked.operation ≡ Extended code
        → code_at asked.name.now extensions.now.operations ≡ Some code }
    ensures { (request : Properties) → request.attributes ≡ entries_from asked.entry.attributes.now
        → request.input ≡ content_of input
        → Gives effect_of result (spec.offered
        (setting_in turn.entry (offered extensions.now.operations extensions.now.hooks)) turn.entry.brought
        (state_in turn.entry) caller.now request
        (spec.offer_on asked.entry.operation (spec.at_object object.now))) }
{
    match asked.operation {
        Operation::ListOperations => list_object(turn, extensions, caller, object),
        Operation::Retrieve => retrieve(turn, caller, asked.attributes, object),
        Operation::Update => update(turn, caller, input, object),
        Operation::Delete => delete(turn, caller, object),
        Operation::Extended(_) => extended(
            turn,
            extensions,
            caller,
            asked.name,
            asked.attributes,
            object,
        ),
        Operation::Hello | Operation::Create => Err(Stop::Refused(Refusal::NotOffered)),
    }
}
