//! Retrieve: an object, an element's bytes, or both.
ghost use Rattle.std.specs.Prelude.{◌≡◌, None, option_map};
ghost use Rattle.doip_json.specs.Value.{entries_from};
ghost use Rattle.doip_json.specs.Meaning.{value_of};
ghost use Rattle.repo_step.specs.Chain.{Gives};
ghost use Rattle.repo_step.specs.Shown.{effect_of, content_shown};
ghost use Rattle.repo_step.specs.Turn.{state_in};
ghost use Rattle.repo_step.specs.operations.Retrieve as spec;

use super::input::argument;
use super::rights::{may, no_right};
use crate::shown::{Made, Shown};
use crate::turn::Turn;
use crate::{Refusal, Stop};
use acl_core::{Caller, Right};
use dobj_model::Object;
use doip_json::{Json, JsonMap};

/// What a Retrieve shows of an object, or its first refusal.
pub(crate) fn retrieve<'t>(
    turn: Turn<'t>,
    caller: &Caller,
    arguments: &JsonMap,
    object: &'t Object,
) -> Result<Made<'t>, Stop>
    ensures { Gives effect_of result
        (spec.retrieve (state_in turn.entry) caller.now (entries_from arguments.now) object.now) }
{
    if !may(turn, caller, Right::Read, object) {
        return Err(Stop::Refused(no_right(caller)));
    }
    match argument(arguments, "element") {
        None => Ok(Made::showing(form_of(object, arguments))),
        Some(Json::Text(id)) => element_of(object, id.get()),
        Some(_) => Err(Stop::Refused(Refusal::ArgumentElement)),
    }
}

// The element, or the refusal where there is none.
fn element_of<'t>(object: &'t Object, id: &str) -> Result<Made<'t>, Stop>
    ensures { Gives effect_of result (spec.element_shown object.now id.now) }
{
    match object.elements().get(id) {
        Some(element) => Ok(Made::showing(Shown::OfElement(element))),
        None => Err(Stop::Refused(Refusal::ArgumentElement)),
    }
}

// The shown form, with the elements' bytes where they are asked for and there is one.
fn form_of<'t>(object: &'t Object, arguments: &JsonMap) -> Shown<'t>
    ensures { content_shown None result ≡ spec.form_of object.now
        (spec.asks_for_bytes (spec.bytes_argument (entries_from arguments.now))) }
{
    if asks_for_bytes(argument(arguments, "includeElementData")) && !object.elements().is_empty() {
        Shown::WithElements(object)
    } else {
        Shown::Stored(object)
    }
}

// Whether the argument asks for the elements' bytes.
fn asks_for_bytes(argument: Option<&Json>) -> bool
    ensures { result ≡ spec.asks_for_bytes (option_map (λ v. value_of v.now) argument.entry) }
{
    match argument {
        None => false,
        Some(Json::Truth(truth)) => *truth,
        Some(Json::Text(text)) => text.get() != "false",
        Some(_) => true,
    }
}
