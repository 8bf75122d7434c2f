//! Delete: the object goes.
ghost use Rattle.repo_step.specs.Chain.{Gives};
ghost use Rattle.repo_step.specs.Shown.{effect_of};
ghost use Rattle.repo_step.specs.Turn.{state_in};
ghost use Rattle.repo_step.specs.operations.Delete as spec;

use super::input::copy_id;
use super::limits::within_limits;
use super::rights::{may, no_right};
use crate::Stop;
use crate::shown::{Made, Shown};
use crate::turn::Turn;
use acl_core::{Caller, Right};
use dobj_model::Object;
use record_core::Change;

/// What a Delete makes of an object, or its first refusal.
pub(crate) fn delete<'t>(
    turn: Turn<'t>,
    caller: &Caller,
    object: &'t Object,
) -> Result<Made<'t>, Stop>
    ensures { Gives effect_of result (spec.delete (state_in turn.entry) caller.now object.now) }
{
    if !may(turn, caller, Right::Write, object) {
        return Err(Stop::Refused(no_right(caller)));
    }
    let change = Change::Remove {
        id: copy_id(turn.alloc, object.id())?,
    };
    within_limits(turn, &change)?;
    Ok(Made {
        shown: Shown::Nothing,
        change: Some(change),
    })
}
