//! The first fault of a schema.
ghost use Rattle.std.specs.Prelude.{◌≡◌, None, OnOk, IfOk, IfErr};
ghost use Rattle.doip_json.specs.Value.{entries_from};
ghost use Rattle.doip_json.specs.Meaning.{value_of};
ghost use Rattle.schema_core.specs.declared.fault.SchemaFault.TheVariants as fault;
ghost use Rattle.schema_core.specs.Reading.{is_refused, fault_of, first_fault, properties_fault, schemas_fault, fault_at, unless_shaped, IsFaultOf, word_called};

use crate::fault::SchemaFault;
use crate::shape::{is_shaped, refers};
use crate::word::SchemaWord;
use doip_json::{Json, JsonMap, Str};
use std::alloc::{AllocError, Global};

/// Whether the key spells a word that is refused.
fn is_unsupported(key: &str) -> bool
    ensures { result ≡ is_refused key.now }
{
    match key {
        "$ref"
        | "allOf"
        | "anyOf"
        | "dependencies"
        | "exclusiveMaximum"
        | "exclusiveMinimum"
        | "maxProperties"
        | "minProperties"
        | "multipleOf"
        | "not"
        | "oneOf"
        | "pattern"
        | "patternProperties"
        | "uniqueItems" => true,
        _ => false,
    }
}

/// The used word that the key spells.
fn called(key: &str) -> Option<SchemaWord>
    ensures { result ≡ word_called key.now }
{
    match key {
        "type" => Some(SchemaWord::Kind),
        "enum" => Some(SchemaWord::Enum),
        "minimum" => Some(SchemaWord::Minimum),
        "maximum" => Some(SchemaWord::Maximum),
        "minLength" => Some(SchemaWord::MinLength),
        "maxLength" => Some(SchemaWord::MaxLength),
        "minItems" => Some(SchemaWord::MinItems),
        "maxItems" => Some(SchemaWord::MaxItems),
        "required" => Some(SchemaWord::Required),
        "additionalProperties" => Some(SchemaWord::AdditionalProperties),
        "properties" => Some(SchemaWord::Properties),
        "items" => Some(SchemaWord::Items),
        _ => None,
    }
}

fn shape_fault(alloc: Global, name: &str) -> Result<SchemaFault, AllocError>
    ensures { IfOk result (λ made. made ≡ fault.Shape name.now) }
{
    Ok(SchemaFault::Shape {
        name: Str::of(alloc, name)?,
    })
}

fn word_fault(alloc: Global, name: &str) -> Result<SchemaFault, AllocError>
    ensures { IfOk result (λ made. made ≡ fault.Word name.now) }
{
    Ok(SchemaFault::Word {
        name: Str::of(alloc, name)?,
    })
}

// No fault, if the test holds; else the fault of shape.
fn expect(alloc: Global, holds: bool, name: &str) -> Result<(), SchemaFault>
    ensures ok { OnOk result (unless_shaped holds name.now ≡ None) }
    ensures err { IfErr result (IsFaultOf (unless_shaped holds name.now)) }
{
    if holds {
        Ok(())
    } else {
        Err(shape_fault(alloc, name)?)
    }
}

/// No fault, or the first fault of the schema.
#[cycle(checking)]
pub(crate) fn check(alloc: Global, value: &Json) -> Result<(), SchemaFault>
    ensures ok { OnOk result (fault_of (value_of value.now) ≡ None) }
    ensures err { IfErr result (IsFaultOf (fault_of (value_of value.now))) }
{
    match value {
        Json::Table(map) => check_keys(alloc, map),
        _ => Err(shape_fault(alloc, "schema")?),
    }
}

#[cycle(checking)]
fn check_keys(alloc: Global, map: &JsonMap) -> Result<(), SchemaFault>
    ensures ok { OnOk result (first_fault (entries_from map.now) ≡ None) }
    ensures err { IfErr result (IsFaultOf (first_fault (entries_from map.now))) }
{
    for i in 0..map.len() {
        check_key(alloc, map.key_at(i).get(), map.value_at(i))?;
    }
    Ok(())
}

#[cycle(checking)]
fn check_key(alloc: Global, key: &str, value: &Json) -> Result<(), SchemaFault>
    ensures ok { OnOk result (fault_at key.now (value_of value.now) ≡ None) }
    ensures err { IfErr result (IsFaultOf (fault_at key.now (value_of value.now))) }
{
    if is_unsupported(key) {
        return Err(word_fault(alloc, key)?);
    }
    if key == "cordra" {
        return expect(alloc, refers(value), key);
    }
    match called(key) {
        None => Ok(()),
        Some(SchemaWord::Properties) => check_properties(alloc, value),
        Some(SchemaWord::Items) => check(alloc, value),
        Some(word) => expect(alloc, is_shaped(word, value), key),
    }
}

#[cycle(checking)]
fn check_properties(alloc: Global, value: &Json) -> Result<(), SchemaFault>
    ensures ok { OnOk result (properties_fault (value_of value.now) ≡ None) }
    ensures err { IfErr result (IsFaultOf (properties_fault (value_of value.now))) }
{
    match value {
        Json::Table(map) => check_schemas(alloc, map),
        _ => Err(shape_fault(alloc, "properties")?),
    }
}

#[cycle(checking)]
fn check_schemas(alloc: Global, map: &JsonMap) -> Result<(), SchemaFault>
    ensures ok { OnOk result (schemas_fault (entries_from map.now) ≡ None) }
    ensures err { IfErr result (IsFaultOf (schemas_fault (entries_from map.now))) }
{
    for i in 0..map.len() {
        check(alloc, map.value_at(i))?;
    }
    Ok(())
}
