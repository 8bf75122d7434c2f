//! Who may do what.
ghost use Rattle.std.specs.Prelude.{◌≡◌, option_map};
ghost use Rattle.repo_state.specs.Types.{known_lists};
ghost use Rattle.repo_step.specs.Turn.{state_in};
ghost use Rattle.repo_step.specs.Rights as rights;

use crate::Refusal;
use crate::turn::Turn;
use acl_core::{Caller, Right, TypeLists, may_create};
use dobj_model::Object;

/// The type of plain objects, which is built in.
const PLAIN: &str = "0.TYPE/DO";

/// The lists of a type, if it is known.
pub(crate) fn known_lists<'t>(turn: Turn<'t>, name: &str) -> Option<&'t TypeLists>
    ensures { option_map (λ lists. lists.now) result ≡ known_lists (state_in turn.entry).contents.objects name.now }
{
    if name == PLAIN {
        Some(&turn.config.plain)
    } else {
        None
    }
}

/// Whether the caller has the right on the object.
pub(crate) fn may(turn: Turn, caller: &Caller, right: Right, object: &Object) -> bool
    ensures { result ≡ rights.may (state_in turn.entry).contents.objects caller.now right object.now }
{
    match known_lists(turn, object.type_name().get()) {
        Some(lists) => acl_core::may(caller, right, object, lists, turn.table),
        None => acl_core::may(caller, right, object, &turn.config.nothing, turn.table),
    }
}

/// Whether the caller may create objects of a type with these lists.
pub(crate) fn may_make(turn: Turn, caller: &Caller, lists: &TypeLists) -> bool
    ensures { result ≡ rights.may_create (state_in turn.entry).contents.objects caller.now lists.now }
{
    may_create(caller, lists, turn.table)
}

/// The refusal of a caller who has no right.
pub(crate) fn no_right(caller: &Caller) -> Refusal
    ensures { result ≡ rights.no_right caller.now }
{
    match caller {
        Caller::Anonymous => Refusal::AuthenticationNeeded,
        Caller::Known { .. } => Refusal::NotPermitted,
    }
}

/// How a caller is written in `metadata`.
pub(crate) fn caller_name(caller: &Caller) -> &str
    ensures { result.now ≡ rights.caller_name caller.now }
{
    match caller {
        Caller::Anonymous => "anonymous",
        Caller::Known { id, .. } => id.get(),
    }
}
