//! Tables made of changes, and changes that are installed.
use crate::replay::is_sound;
use crate::{Replay, ReplayFault, Table, changes_keep_consistency};
use acl_core::Groups;
use dobj_model::{Elements, Id, Metadata, Object, ObjectValue, TypeName};
use doip_json::{Json, JsonMap, Str, read};
use journal_core::Stamp;
use record_core::Change;
use std::alloc::{AllocError, Global};
use std::test::Fail;

mod records;

fn map_of(alloc: Global, text: &str) -> Result<JsonMap, Fail> {
    match read(alloc, text.as_bytes(), 60)? {
        Json::Table(map) => Ok(map),
        _ => Err(Fail::from("no object")),
    }
}

fn id_of(alloc: Global, id: &str) -> Result<Id, Fail> {
    Ok(Id::of(alloc, id)?.ok_or("no identifier")?)
}

fn metadata_of(alloc: Global) -> Result<Metadata, Fail> {
    Ok(Metadata {
        created_by: Str::of(alloc, "admin")?,
        created_on: 0,
        modified_by: Str::of(alloc, "admin")?,
        modified_on: 0,
        revision: 1,
    })
}

// An object of this type with these attributes.
fn object_of(alloc: Global, id: &str, type_name: &str, attributes: &str) -> Result<Object, Fail> {
    let value = ObjectValue {
        id: id_of(alloc, id)?,
        type_name: TypeName::of(alloc, type_name)?.ok_or("no type")?,
        attributes: map_of(alloc, attributes)?,
        metadata: metadata_of(alloc)?,
        elements: Elements::of(Vec::new(alloc)).ok_or("no elements")?,
    };
    Ok(Object::of(value).ok_or("no object")?)
}

// Makes the next change, a put.
fn put(replay: &mut Replay, number: u64, object: Object) -> Result<(), Fail> {
    replay.change(
        Stamp { number, time: 0 },
        Change::Put {
            object,
            counter: None,
        },
    )?;
    Ok(())
}

fn table_of(replay: Replay) -> Result<Table, Fail> {
    match replay.finish() {
        Ok(table) => Ok(table),
        Err(_) => Err(Fail::from("no table")),
    }
}

#[test]
fn a_table_holds_what_changes_left(rt: HostRuntime) -> Result<(), Fail> {
    let alloc = rt.alloc();
    let mut replay = Replay::new(alloc);
    put(&mut replay, 1, object_of(alloc, "b", "0.TYPE/DO", "{}")?)?;
    put(&mut replay, 2, object_of(alloc, "a", "0.TYPE/DO", "{}")?)?;
    put(
        &mut replay,
        3,
        object_of(alloc, "a", "0.TYPE/DO", "{\"content\":1}")?,
    )?;
    replay.change(Stamp { number: 4, time: 0 }, Change::Counter { n: 7 })?;
    replay.change(
        Stamp { number: 5, time: 0 },
        Change::Remove {
            id: id_of(alloc, "b")?,
        },
    )?;
    let table = table_of(replay)?;
    assert_eq!(rt; table.counter(), 7);
    assert_eq!(rt; table.number(), 5);
    assert_eq!(rt; table.count(), 1);
    assert!(rt; table.get("b").is_none());
    let attributes = match table.get("a") {
        Some(object) => object.attributes().len(),
        None => 0,
    };
    assert_eq!(rt; attributes, 1);
    Ok(())
}

// The identifier that is reported, empty if none is.
fn reported(alloc: Global, replay: Replay) -> Result<Str, AllocError> {
    match replay.finish() {
        Err(ReplayFault::Unsound { id }) => Str::of(alloc, id.get()),
        _ => Str::of(alloc, ""),
    }
}

#[test]
fn the_least_unsound_object_is_reported(rt: HostRuntime) -> Result<(), Fail> {
    let alloc = rt.alloc();
    let mut replay = Replay::new(alloc);
    put(&mut replay, 1, object_of(alloc, "c", "Other", "{}")?)?;
    put(&mut replay, 2, object_of(alloc, "b", "Other", "{}")?)?;
    put(&mut replay, 3, object_of(alloc, "a", "0.TYPE/DO", "{}")?)?;
    put(&mut replay, 4, object_of(alloc, "d", "Other", "{}")?)?;
    assert_eq!(rt; reported(alloc, replay)?.get(), "b");
    Ok(())
}

// Installs a put, unless its object's type is unknown.
fn is_put(table: &mut Table, number: u64, object: Object) -> Result<bool, AllocError> {
    let is_plain = is_sound(&object);
    if is_plain {
        let change = Change::Put {
            object,
            counter: Some(9),
        };
        table.reserve(&change)?;
        if table.counter() <= 9 {
            changes_keep_consistency();
            table.install(Stamp { number, time: 0 }, change);
        }
    }
    Ok(is_plain)
}

#[test]
fn changes_are_installed(rt: HostRuntime) -> Result<(), Fail> {
    let alloc = rt.alloc();
    let mut table = Table::new(alloc);
    let group = "{\"content\":{\"users\":[\"u\",\"v\"]}}";
    assert!(rt; is_put(&mut table, 1, object_of(alloc, "g", "0.TYPE/DO", group)?)?);
    assert!(rt; !is_put(&mut table, 2, object_of(alloc, "h", "Group", group)?)?);
    assert_eq!(rt; table.counter(), 9);
    assert_eq!(rt; table.number(), 1);
    assert_eq!(rt; table.count(), 1);
    assert!(rt; !table.has("g", "v"));
    Ok(())
}
