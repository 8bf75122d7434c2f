//! ListOperations: what is offered on a target, ascending.
ghost use Rattle.std.specs.Prelude.{◌≡◌, ◌++◌, map, IfOk, OnOk};
ghost use Rattle.doip_json.specs.Meaning.{value_of};
ghost use Rattle.ext_ops.specs.Offered.{offered};
ghost use Rattle.repo_step.specs.Chain.{Gives};
ghost use Rattle.repo_step.specs.Shown.{effect_of};
ghost use Rattle.repo_step.specs.Turn.{setting_in, state_in};
ghost use Rattle.repo_step.specs.operations.ListOperations as spec;

use super::rights::{may, no_right};
use crate::Stop;
use crate::operation::is_reserved;
use crate::shown::{Made, Shown};
use crate::turn::Turn;
use acl_core::{Caller, Right};
use dobj_model::Object;
use doip_json::{Json, JsonList, Str};
use ext_ops::{ExtCode, Extensions, Names};
use std::alloc::{AllocError, Global};

/// What the service offers, for everybody.
pub(crate) fn list_service<'t>(alloc: Global) -> Result<Made<'t>, Stop>
    ensures { Gives effect_of result spec.list_service }
{
    let value = names_value(alloc, names_on_service(alloc)?)?;
    Ok(Made::showing(Shown::Value(value)))
}

/// What an object offers, for whoever may read it.
pub(crate) fn list_object<'t>(
    turn: Turn<'t>,
    extensions: &Extensions,
    caller: &Caller,
    object: &Object,
) -> Result<Made<'t>, Stop>
    ensures { Gives effect_of result (spec.list_object
        (setting_in turn.entry (offered extensions.now.operations extensions.now.hooks)) (state_in turn.entry) caller.now
        object.now) }
{
    if !may(turn, caller, Right::Read, object) {
        return Err(Stop::Refused(no_right(caller)));
    }
    let names = names_on_object(turn.alloc, extensions.operations())?;
    let value = names_value(turn.alloc, names)?;
    Ok(Made::showing(Shown::Value(value)))
}

// The names of what the service offers, ascending.
fn names_on_service<'t>(alloc: Global) -> Result<Vec<&'t str>, AllocError>
    ensures { IfOk result (λ names. map (λ name. name.now) names.items ≡ spec.service_operations) }
{
    let mut names = Vec::new(alloc);
    names.push("0.DOIP/Op.Create")?;
    names.push("0.DOIP/Op.Hello")?;
    names.push("0.DOIP/Op.ListOperations")?;
    Ok(names)
}

// The names of what every object offers, ascending.
fn names_on_any<'t>(alloc: Global) -> Result<Vec<&'t str>, AllocError>
    ensures { IfOk result (λ names. map (λ name. name.now) names.items ≡ spec.object_operations) }
{
    let mut names = Vec::new(alloc);
    names.push("0.DOIP/Op.Delete")?;
    names.push("0.DOIP/Op.ListOperations")?;
    names.push("0.DOIP/Op.Retrieve")?;
    names.push("0.DOIP/Op.Update")?;
    Ok(names)
}

// The names of what an object offers, ascending.
fn names_on_object(alloc: Global, operations: &Names<ExtCode>) -> Result<Vec<&str>, AllocError>
    ensures { IfOk result (λ names. map (λ name. name.now) names.items
        ≡ spec.with_names (spec.extended_names operations.now) spec.object_operations) }
{
    let mut names = names_on_any(alloc)?;
    let mut place = operations.len();
    while place > 0 {
        place -= 1;
        let name = operations.name(place);
        if !is_reserved(name) {
            add_name(&mut names, name)?;
        }
    }
    Ok(names)
}

// Adds a name at its place among ascending ones.
fn add_name<'t>(names: &mut Vec<&'t str>, name: &'t str) -> Result<(), AllocError>
    ensures { OnOk result (map (λ n. n.now) names.new.items
        ≡ spec.with_name name.now (map (λ n. n.now) names.old.items)) }
{
    let mut place = 0;
    while place < names.len() && !(name < names[place]) {
        place += 1;
    }
    names.insert(place, name)?;
    Ok(())
}

// Names as an array of strings.
fn names_value(alloc: Global, names: Vec<&str>) -> Result<Json, AllocError>
    ensures { IfOk result (λ value. value_of value ≡ spec.names_value (map (λ name. name.now) names.entry.items)) }
{
    let mut list = JsonList::empty(alloc);
    for name in names {
        list.push(Json::Text(Str::of(alloc, name)?))?;
    }
    Ok(Json::Items(list))
}
