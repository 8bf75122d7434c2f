//! Queries, held against a few objects.
use super::{object, objects, order};
use crate::hits::{Hits, page};
use crate::matching::matches;
use query_text::query_of;
use std::alloc::Global;
use std::test::Fail;

// The identifiers of the objects of which the query holds.
fn found(alloc: Global, text: &str) -> Result<String, Fail> {
    let objects = objects(alloc)?;
    let mut letters = String::new(alloc);
    match query_of(alloc, text) {
        Ok(query) => {
            for object in &objects {
                if matches(&query, object) {
                    letters.push_str(object.id().get())?;
                }
            }
            Ok(letters)
        }
        Err(_) => Err(Fail::from("no query")),
    }
}

fn finds(alloc: Global, rows: &[(&str, &str)]) -> Result<bool, Fail> {
    for row in rows {
        if found(alloc, row.0)?.as_str() != row.1 {
            return Ok(false);
        }
    }
    Ok(true)
}

#[test]
fn tests_find_what_their_fields_reach(rt: HostRuntime) -> Result<(), Fail> {
    let rows = [
        ("*:*", "abcdef"),
        (" NOT *:* ", ""),
        ("id:a", "a"),
        ("id:\"a\"", "a"),
        ("id:a*", "a"),
        ("type:0.TYPE*", "abcdef"),
        ("type:0.TYPE", ""),
        ("type:\"0.TYPE/DO\"", "abcdef"),
        ("/k:x", "c"),
        ("/k:*", "bcef"),
        ("/k/_:*", "d"),
        ("/k/_:2", "d"),
        ("/k/_:[1 TO 1]", "d"),
        ("/k:true", "b"),
        ("/k:9", "f"),
        ("/k:\"9\"", "f"),
        ("/k:[9 TO 9]", "f"),
        ("/k:[* TO *]", "f"),
        ("/k:[10 TO *]", ""),
        ("/k:[* TO 9]", "f"),
        ("/k:[9 TO *]", "f"),
        ("/k:[-5 TO 18446744073709551615]", "f"),
        ("/k:[* TO 8]", ""),
        ("/k:[10 TO 8]", ""),
        ("/k/_:[ -0 TO 002 ]", "d"),
        ("/k:\"t\"", ""),
        ("/k:\"x*\"", ""),
        ("/k:\"\"", ""),
        ("/l:*", ""),
        ("/k:t* OR /k:f*", "be"),
    ];
    assert!(rt; finds(rt.alloc(), &rows)?);
    Ok(())
}

#[test]
fn operators_find_what_they_join(rt: HostRuntime) -> Result<(), Fail> {
    let rows = [
        ("id:a OR id:b AND id:c", "a"),
        ("id:c AND id:b OR id:a", "a"),
        ("(id:a OR id:b) AND id:a", "a"),
        ("NOT id:a AND id:b", "b"),
        ("NOT NOT id:a", "a"),
        ("NOT NOT NOT id:a", "bcdef"),
        ("NOT (id:a OR id:b) AND NOT id:c", "def"),
        ("id:a AND id:b OR id:c AND id:c", "c"),
        ("id:a OR (id:b AND (id:c OR id:b))", "ab"),
        ("*:* AND NOT /k:*", "ad"),
        ("NOT(id:a OR id:b)", "cdef"),
        ("id:a OR NOT id:a", "abcdef"),
        ("(((id:a)))", "a"),
        ("( id:a )OR(id:b)", "ab"),
        ("id: a", "a"),
        ("id:\\a", "a"),
        ("/\\k:\"\\x\"", "c"),
        ("id:a\\*", ""),
        ("id:a:b", ""),
        ("\tid:a\nOR\rid:b", "ab"),
    ];
    assert!(rt; finds(rt.alloc(), &rows)?);
    Ok(())
}

// The identifiers on a page of what the query finds, and how many it finds, among objects of one content.
fn page_of(
    alloc: Global,
    ids: &[&str],
    text: &str,
    sorting: &str,
    number: u64,
    size: Option<u64>,
) -> Result<(String, usize), Fail> {
    let mut objects = Vec::new(alloc);
    for id in ids {
        objects.push(object(alloc, id, "{\"k\":\"x\"}")?)?;
    }
    let mut hits = Hits::none(alloc);
    match query_of(alloc, text) {
        Ok(query) => {
            for object in &objects {
                if matches(&query, object) {
                    hits.push(object)?;
                }
            }
        }
        Err(_) => return Err(Fail::from("no query")),
    }
    let mut found = String::new(alloc);
    for hit in page(alloc, &order(alloc, sorting)?, &hits, number, size)?.as_slice() {
        found.push_str(hit.id().get())?;
    }
    Ok((found, hits.as_slice().len()))
}

#[test]
fn a_search_is_sorted_and_cut(rt: HostRuntime) -> Result<(), Fail> {
    let ids = [
        "35.TEST/a1",
        "35.TEST/a2",
        "35.TEST/a3",
        "35.TEST/a4",
        "35.TEST/a5",
    ];
    let query = "NOT id:\"35.TEST/a2\" AND /k:x";
    let found = page_of(rt.alloc(), &ids, query, "id DESC", 0, Some(2))?;
    assert_eq!(rt; found.0.as_str(), "35.TEST/a535.TEST/a4");
    assert_eq!(rt; found.1, 4);
    Ok(())
}

// A page counts all hits, also where none of them is on it.
#[test]
fn a_page_may_have_none_of_the_hits(rt: HostRuntime) -> Result<(), Fail> {
    let alloc = rt.alloc();
    let ids = ["35.TEST/a1", "35.TEST/a4"];
    let none = page_of(alloc, &ids, "/k:x", "id", 0, Some(0))?;
    assert_eq!(rt; none.0.as_str(), "");
    assert_eq!(rt; none.1, 2);
    let all = page_of(alloc, &ids, "/k:x", "id", 0, None)?;
    assert_eq!(rt; all.0.as_str(), "35.TEST/a135.TEST/a4");
    let past = page_of(alloc, &ids, "/k:x", "id", 9, Some(1))?;
    assert_eq!(rt; past.0.as_str(), "");
    assert_eq!(rt; past.1, 2);
    Ok(())
}
