//! Orders and pages, on a few objects.
mod queries;

use crate::hits::{Hits, page};
use crate::numbers::page_number;
use crate::order::Order;
use crate::sorting::{OrderFault, order_of};
use dobj_model::{Elements, Id, Metadata, Object, ObjectValue, TypeName};
use doip_json::{JsonMap, Str, read};
use std::alloc::Global;
use std::test::Fail;

// An object with this content, which no object without one has.
fn object(alloc: Global, id: &str, content: &str) -> Result<Object, Fail> {
    let mut attributes = JsonMap::empty(alloc);
    attributes.put(
        Str::of(alloc, "content")?,
        read(alloc, content.as_bytes(), 64)?,
    )?;
    let value = ObjectValue {
        id: Id::of(alloc, id)?.ok_or("no identifier")?,
        type_name: TypeName::of(alloc, "0.TYPE/DO")?.ok_or("no type")?,
        attributes,
        metadata: Metadata {
            created_by: Str::of(alloc, "admin")?,
            created_on: 1,
            modified_by: Str::of(alloc, "admin")?,
            modified_on: 2,
            revision: 1,
        },
        elements: Elements::none(alloc),
    };
    match Object::of(value) {
        Some(object) => Ok(object),
        None => Err(Fail::from("no object")),
    }
}

fn order(alloc: Global, text: &str) -> Result<Order, Fail> {
    match order_of(alloc, text) {
        Ok(order) => Ok(order),
        Err(_) => Err(Fail::from("no order")),
    }
}

// The last letters of the identifiers on the page.
fn letters(
    alloc: Global,
    objects: &[Object],
    sorting: &str,
    number: u64,
    size: Option<u64>,
) -> Result<String, Fail> {
    let order = order(alloc, sorting)?;
    let mut hits = Hits::none(alloc);
    for object in objects {
        hits.push(object)?;
    }
    let mut letters = String::new(alloc);
    for hit in page(alloc, &order, &hits, number, size)?.as_slice() {
        letters.push_str(hit.id().get())?;
    }
    Ok(letters)
}

#[test]
fn a_text_names_keys_or_is_refused(rt: HostRuntime) -> Result<(), Fail> {
    let rows = [
        ("", true),
        ("id", true),
        (" id DESC ,\t/k\\,~1 ASC", true),
        ("/a\\ DESC", true),
        (" ", false),
        ("id,", false),
        ("idDESC", false),
        ("id desc", false),
        ("id DESC ASC", false),
        ("/a(", false),
    ];
    for row in &rows {
        match order_of(rt.alloc(), row.0) {
            Ok(_) => assert!(rt; row.1),
            Err(OrderFault::Refused) => assert!(rt; !row.1),
            Err(OrderFault::Memory) => return Err(Fail::from("out of memory")),
        }
    }
    Ok(())
}

// Objects with these identifiers and contents.
fn objects_of(alloc: Global, rows: &[(&str, &str)]) -> Result<Vec<Object>, Fail> {
    let mut objects = Vec::new(alloc);
    for row in rows {
        objects.push(object(alloc, row.0, row.1)?)?;
    }
    Ok(objects)
}

// Six objects, a to f, with their contents.
fn objects(alloc: Global) -> Result<Vec<Object>, Fail> {
    let rows = [
        ("a", "{}"),
        ("b", "{\"k\":true}"),
        ("c", "{\"k\":\"x\"}"),
        ("d", "{\"k\":[2,1]}"),
        ("e", "{\"k\":false}"),
        ("f", "{\"k\":9}"),
    ];
    objects_of(alloc, &rows)
}

// Whether each row's order and page of the objects give the identifiers after them.
fn pages_are(
    alloc: Global,
    objects: &[Object],
    rows: &[(&str, u64, Option<u64>, &str)],
) -> Result<bool, Fail> {
    for row in rows {
        if letters(alloc, objects, row.0, row.1, row.2)?.as_str() != row.3 {
            return Ok(false);
        }
    }
    Ok(true)
}

#[test]
fn hits_are_sorted(rt: HostRuntime) -> Result<(), Fail> {
    let rows = [
        ("", 0, None, "abcdef"),
        ("/k", 0, None, "fcebad"),
        ("/k DESC", 0, None, "becfad"),
        ("/k/_,id DESC", 0, None, "dfecba"),
        ("/k DESC , id DESC", 0, None, "becfda"),
        ("type DESC", 0, None, "abcdef"),
        ("type,id DESC", 0, None, "fedcba"),
        ("/l,/k ASC", 0, None, "fcebad"),
    ];
    assert!(rt; pages_are(rt.alloc(), &objects(rt.alloc())?, &rows)?);
    Ok(())
}

// Seven objects, a to g, whose keys are numbers and strings.
fn numbers_and_strings(alloc: Global) -> Result<Vec<Object>, Fail> {
    let rows = [
        ("a", "{\"k\":10}"),
        ("b", "{\"k\":\"10\"}"),
        ("c", "{\"k\":-5}"),
        ("d", "{\"k\":\"9\"}"),
        ("e", "{\"k\":9}"),
        ("f", "{\"k\":\"a\"}"),
        ("g", "{\"k\":\"Z\"}"),
    ];
    objects_of(alloc, &rows)
}

#[test]
fn numbers_go_by_size_and_strings_by_bytes(rt: HostRuntime) -> Result<(), Fail> {
    let rows = [
        ("/k", 0, None, "ceabdgf"),
        ("/k DESC", 0, None, "fgdbaec"),
        ("/k DESC", 2, Some(3), "c"),
    ];
    assert!(rt; pages_are(rt.alloc(), &numbers_and_strings(rt.alloc())?, &rows)?);
    Ok(())
}

#[test]
fn sorted_hits_are_cut_into_pages(rt: HostRuntime) -> Result<(), Fail> {
    let rows = [
        ("id DESC", 1, Some(4), "ba"),
        ("id", 1, Some(2), "cd"),
        ("id", 9, Some(1), ""),
        ("id", 4_294_967_296, Some(4_294_967_296), ""),
        ("id", 0, Some(0), ""),
        ("id", 0, Some(6), "abcdef"),
        ("id", 1, Some(6), ""),
        ("id", 2, None, "abcdef"),
    ];
    assert!(rt; pages_are(rt.alloc(), &objects(rt.alloc())?, &rows)?);
    Ok(())
}

// The number that the JSON text gives for a page, 77 for none.
fn number(alloc: Global, text: &str) -> Result<i128, Fail> {
    match page_number(&read(alloc, text.as_bytes(), 64)?) {
        Some(number) => Ok(number.get()),
        None => Ok(77),
    }
}

#[test]
fn the_numbers_of_a_page_are_numbers_or_texts(rt: HostRuntime) -> Result<(), Fail> {
    let rows = [
        ("3", 3),
        ("-1", -1),
        ("\"9\"", 9),
        ("\"-0\"", 0),
        ("\"-007\"", -7),
        ("\"999999999999999999\"", 999_999_999_999_999_999),
        ("\"1000000000000000000\"", 77),
        ("\"\"", 77),
        ("\"-\"", 77),
        ("\"1 \"", 77),
        ("\"+1\"", 77),
        ("true", 77),
        ("null", 77),
    ];
    for row in &rows {
        assert_eq!(rt; number(rt.alloc(), row.0)?, row.1);
    }
    Ok(())
}
