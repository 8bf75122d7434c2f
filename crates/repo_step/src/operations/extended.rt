//! Extended operations: what their extensions answer on an object.
ghost use Rattle.std.specs.Prelude.{◌≡◌, Some};
ghost use Rattle.doip_json.specs.Value.{entries_from};
ghost use Rattle.ext_ops.specs.declared.code.ExtCode.{ExtCode};
ghost use Rattle.ext_ops.specs.Offered.{code_at};
ghost use Rattle.ext_ops.specs.Extended.{answer_of};
ghost use Rattle.repo_step.specs.Chain.{Gives};
ghost use Rattle.repo_step.specs.Shown.{effect_of};
ghost use Rattle.repo_step.specs.Turn.{state_in};
ghost use Rattle.repo_step.specs.operations.Extended as spec;

use super::rights::{may, no_right};
use crate::shown::{Made, Shown};
use crate::turn::Turn;
use crate::{Refusal, Stop};
use acl_core::{Caller, Right};
use dobj_model::Object;
use doip_json::JsonMap;
use ext_ops::{ExtAnswer, Extensions};

/// What the extension of an operation answers on an object, or the first refusal.
pub(crate) fn extended<'t>(
    turn: Turn<'t>,
    extensions: &Extensions,
    caller: &Caller,
    name: &str,
    arguments: &JsonMap,
    object: &Object,
) -> Result<Made<'t>, Stop>
    ensures { (code : ExtCode) → code_at name.now extensions.now.operations ≡ Some code
        → Gives effect_of result (spec.extended code (state_in turn.entry) caller.now (entries_from arguments.now)
        object.now) }
{
    if !may(turn, caller, Right::Read, object) {
        return Err(Stop::Refused(no_right(caller)));
    }
    match extensions.call(name, object, arguments)? {
        Some(answer) => answered(answer),
        // Whoever calls knows that there is an extension.
        None => Err(Stop::Refused(Refusal::OperationUnknown)),
    }
}

// The answer of an extension is shown, or its refusal refused.
fn answered<'t>(answer: ExtAnswer) -> Result<Made<'t>, Stop>
    ensures { Gives effect_of result (spec.answered (answer_of answer)) }
{
    match answer {
        ExtAnswer::Answer(value) => Ok(Made::showing(Shown::Value(value))),
        ExtAnswer::Refused(reason) => Err(Stop::Refused(Refusal::ByExtension { reason })),
    }
}
