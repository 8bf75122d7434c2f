//! The references in a value.
ghost use Rattle.std.specs.Prelude.{◌≡◌, ◌∷◌, ◌++◌, [], decimal, IfOk, OnOk};
ghost use Rattle.doip_json.specs.Value.{values_from, entries_from};
ghost use Rattle.doip_json.specs.Meaning.{value_of};
ghost use Rattle.doip_json.specs.Written.{pointer_of};
ghost use Rattle.schema_core.specs.References.{references_in, references_at, entry_references, item_references, own_references, reference};
ghost use Rattle.schema_core.specs.Rules.{words_of};

use crate::schema::Schema;
use base_core::Items;
use doip_json::{Json, JsonList, JsonMap, Str, push_token};
use std::alloc::{AllocError, Global};

/// A reference: a string that names an object of one of some types.
#[derive(Debug, Drop)]
pub struct Reference {
    /// The JSON pointer of the string.
    pub pointer: Str,
    /// The string: the identifier of the object.
    pub id: Str,
    /// The names of the types.
    pub types: Items<Str>,
}

/// References, in the order in which they were found.
pub type References = Items<Reference>;

/// The references in the value, in the order in which a value is walked: the entries of an object ascending by keys,
/// the items of an array in order.
///
/// A string is a reference if a schema with the word `cordra` is applied to it, through `properties` and `items`. The
/// time is linear in value and schema, and in what is returned.
pub fn references(alloc: Global, schema: &Schema, value: &Json) -> Result<References, AllocError>
    ensures { IfOk result (λ found. found ≡ references_in schema.now (value_of value.now)) }
{
    let mut found = Items::new(alloc);
    let mut names = Vec::new(alloc);
    collect(alloc, schema, value, &mut names, &mut found)?;
    Ok(found)
}

// Adds the references in the value, which these names lead to.
#[cycle(collecting)]
fn collect(
    alloc: Global,
    schema: &Schema,
    value: &Json,
    names: &mut Vec<Str>,
    found: &mut References,
) -> Result<(), AllocError>
    ensures found { OnOk result
        (found.new ≡ found.old ++ references_at names.old.items schema.now (value_of value.now)) }
    ensures names { OnOk result (names.new.items ≡ names.old.items) }
{
    match value {
        Json::Text(text) => add_own(alloc, schema, text, names, found),
        Json::Table(map) => collect_entries(alloc, schema, map, names, found),
        Json::Items(items) => match schema.items() {
            Some(inner) => collect_items(alloc, inner, items, names, found),
            None => Ok(()),
        },
        _ => Ok(()),
    }
}

// Adds the references in the value, which is the one of this name in what the names lead to.
#[cycle(collecting)]
fn collect_under(
    alloc: Global,
    schema: &Schema,
    value: &Json,
    name: Str,
    names: &mut Vec<Str>,
    found: &mut References,
) -> Result<(), AllocError>
    ensures found { OnOk result
        (found.new ≡ found.old ++ references_at (names.old.items ++ name ∷ []) schema.now (value_of value.now)) }
    ensures names { OnOk result (names.new.items ≡ names.old.items) }
{
    names.push(name)?;
    collect(alloc, schema, value, names, found)?;
    names.pop();
    Ok(())
}

#[cycle(collecting)]
fn collect_entries(
    alloc: Global,
    schema: &Schema,
    map: &JsonMap,
    names: &mut Vec<Str>,
    found: &mut References,
) -> Result<(), AllocError>
    ensures found { OnOk result
        (found.new ≡ found.old ++ entry_references names.old.items schema.now (entries_from map.now)) }
    ensures names { OnOk result (names.new.items ≡ names.old.items) }
{
    for i in 0..map.len() {
        let key = map.key_at(i).get();
        if let Some(inner) = schema.property(key) {
            let name = Str::of(alloc, key)?;
            collect_under(alloc, inner, map.value_at(i), name, names, found)?;
        }
    }
    Ok(())
}

#[cycle(collecting)]
fn collect_items(
    alloc: Global,
    schema: &Schema,
    items: &JsonList,
    names: &mut Vec<Str>,
    found: &mut References,
) -> Result<(), AllocError>
    ensures found { OnOk result
        (found.new ≡ found.old ++ item_references names.old.items schema.now 0 (values_from items.now)) }
    ensures names { OnOk result (names.new.items ≡ names.old.items) }
{
    for i in 0..items.len() {
        let name = position_name(alloc, i)?;
        collect_under(alloc, schema, items.item(i), name, names, found)?;
    }
    Ok(())
}

// The name of a position: its decimal digits.
fn position_name(alloc: Global, position: usize) -> Result<Str, AllocError>
    ensures { IfOk result (λ name. name ≡ decimal position) }
{
    Ok(Str::from_string(format!(in alloc; "{position}")?))
}

// Adds the string, if the schema says that it is a reference.
fn add_own(
    alloc: Global,
    schema: &Schema,
    text: &Str,
    names: &Vec<Str>,
    found: &mut References,
) -> Result<(), AllocError>
    ensures { OnOk result
        (found.new ≡ found.old ++ own_references names.now.items (words_of schema.now).reference text.now) }
{
    match &schema.words().reference {
        Some(types) => {
            let reference = reference_of(alloc, names, text, types)?;
            found.push(reference)
        }
        None => Ok(()),
    }
}

fn reference_of(
    alloc: Global,
    names: &Vec<Str>,
    text: &Str,
    types: &Items<Str>,
) -> Result<Reference, AllocError>
    ensures { IfOk result (λ made. made ≡ reference (pointer_of names.now.items) text.now types.now) }
{
    Ok(Reference {
        pointer: pointer_to(alloc, names)?,
        id: Str::of(alloc, text.get())?,
        types: copy_of(alloc, types)?,
    })
}

fn pointer_to(alloc: Global, names: &Vec<Str>) -> Result<Str, AllocError>
    ensures { IfOk result (λ pointer. pointer ≡ pointer_of names.now.items) }
{
    let mut pointer = String::new(alloc);
    for i in 0..names.len() {
        push_token(alloc, &mut pointer, names[i].get())?;
    }
    Ok(Str::from_string(pointer))
}

fn copy_of(alloc: Global, names: &Items<Str>) -> Result<Items<Str>, AllocError>
    ensures { IfOk result (λ made. made ≡ names.now) }
{
    let mut made = Items::new(alloc);
    for i in 0..names.len() {
        made.push(Str::of(alloc, names.item(i).get())?)?;
    }
    Ok(made)
}
