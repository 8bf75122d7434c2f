//! Texts that are no query, each with the place where it breaks, and queries with the number of their tokens.
use crate::fault::QueryFault;
use crate::reading::query_of;
use std::alloc::Global;
use std::test::Fail;

// The place at which the text breaks.
fn place_of(alloc: Global, text: &str) -> Result<usize, Fail> {
    match query_of(alloc, text) {
        Ok(_) => Err(Fail::from("a query")),
        Err(QueryFault::At { place }) => Ok(place),
        Err(QueryFault::Memory) => Err(Fail::from("out of memory")),
    }
}

// How many tokens the query has.
fn count_of(alloc: Global, text: &str) -> Result<usize, Fail> {
    match query_of(alloc, text) {
        Ok(query) => Ok(query.tokens().len()),
        Err(_) => Err(Fail::from("no query")),
    }
}

fn breaks_there(alloc: Global, rows: &[(&str, usize)]) -> Result<bool, Fail> {
    for row in rows {
        if place_of(alloc, row.0)? != row.1 {
            return Ok(false);
        }
    }
    Ok(true)
}

fn has_so_many(alloc: Global, rows: &[(&str, usize)]) -> Result<bool, Fail> {
    for row in rows {
        if count_of(alloc, row.0)? != row.1 {
            return Ok(false);
        }
    }
    Ok(true)
}

#[test]
fn each_text_that_is_no_query_breaks_at_its_place(rt: HostRuntime) -> Result<(), Fail> {
    let rows = [
        ("", 0),
        (" ", 1),
        ("(", 1),
        (")", 0),
        ("()", 1),
        ("( )", 2),
        ("id:a id:b", 5),
        ("/k:x AND", 8),
        ("id:a ANDid:b", 8),
        ("id:a AN", 7),
        ("id:a and id:b", 5),
        ("id:a AND AND id:b", 9),
        ("id:a XOR id:b", 5),
        ("id:a OR", 7),
        ("id:a O", 6),
        ("id:a ORid:b", 7),
        ("(id:a OR)", 8),
        ("AND id:a", 0),
        ("NOT", 3),
        ("NOT )", 4),
        ("NOTid:a", 3),
        ("NX", 1),
        ("not id:a", 0),
        ("id:a NOT id:b", 5),
        ("id:a OR NOT ", 12),
        ("id:a(", 4),
        ("id:a)", 4),
        ("(id:a", 5),
        ("(id:a))", 6),
        ("((id:a) OR id:b", 15),
    ];
    assert!(rt; breaks_there(rt.alloc(), &rows)?);
    Ok(())
}

#[test]
fn each_field_that_is_none_breaks_at_its_place(rt: HostRuntime) -> Result<(), Fail> {
    let rows = [
        ("*", 1),
        ("*:", 2),
        ("*: *", 2),
        ("*:*x", 3),
        ("*:*AND id:a", 3),
        (":a", 0),
        ("id", 2),
        ("idx:a", 2),
        ("id :a", 2),
        ("typ:a", 3),
        ("name:a", 0),
        ("\"id\":a", 0),
        ("/a b:c", 2),
        ("/a(:b", 2),
        ("/a\":b", 2),
        ("/a~2:b", 3),
        ("/a~:b", 3),
        ("/a", 2),
        ("/a\\", 3),
        ("/a\\:b", 5),
    ];
    assert!(rt; breaks_there(rt.alloc(), &rows)?);
    Ok(())
}

#[test]
fn each_value_that_is_none_breaks_at_its_place(rt: HostRuntime) -> Result<(), Fail> {
    let rows = [
        ("id:", 3),
        ("id: ", 4),
        ("id:)", 3),
        ("id:(a)", 3),
        ("id:\"a", 5),
        ("id:\"a\"b", 6),
        ("id:\"a\\\"", 7),
        ("id:\"a\"*", 6),
        ("id:a\"", 4),
        ("id:a\\", 5),
        ("id:a**", 5),
        ("id:a*b", 5),
        ("id:a*(", 5),
        ("id:*a", 4),
        ("id:a *", 5),
    ];
    assert!(rt; breaks_there(rt.alloc(), &rows)?);
    Ok(())
}

#[test]
fn each_range_that_is_none_breaks_at_its_place(rt: HostRuntime) -> Result<(), Fail> {
    let rows = [
        ("id:[", 4),
        ("id:[]", 4),
        ("id:[1]", 5),
        ("id:[*1 TO 2]", 5),
        ("id:[1 2]", 6),
        ("id:[1 to 2]", 6),
        ("id:[1 T 2]", 7),
        ("id:[1 TO 2", 10),
        ("id:[1 TO 2)", 10),
        ("id:[1 TO 2 3]", 11),
        ("id:[1TO 2]", 5),
        ("id:[1 TO2]", 8),
        ("id:[1 TO ]", 9),
        ("id:[- TO 1]", 5),
        ("id:[--1 TO 1]", 5),
        ("id:[+1 TO 2]", 4),
        ("id:[1.5 TO 2]", 5),
        ("id:[1x TO 2]", 5),
        ("id:[18446744073709551616 TO *]", 4),
        ("id:[* TO 0018446744073709551616]", 9),
        ("id:[-9223372036854775809 TO", 4),
        ("id:[1 TO 99999999999999999999 x", 9),
        ("id:[1 TO 2]x", 11),
        ("id:[1 TO 2]]", 11),
    ];
    assert!(rt; breaks_there(rt.alloc(), &rows)?);
    Ok(())
}

#[test]
fn queries_have_so_many_tokens(rt: HostRuntime) -> Result<(), Fail> {
    let rows = [
        ("*:*", 1),
        (" NOT (id:a OR type:b*) AND\t/k/_:[-1 TO *]\n", 8),
        ("NOT NOT(*:*)", 5),
        ("/a\\:b:\"\" OR /\\ :\\*", 3),
        ("id:[-9223372036854775808 TO 18446744073709551615]", 1),
    ];
    assert!(rt; has_so_many(rt.alloc(), &rows)?);
    Ok(())
}

// So many times this text, and then another.
fn repeated(alloc: Global, times: usize, text: &str, last: &str) -> Result<String, Fail> {
    let mut whole = String::new(alloc);
    for _ in 0..times {
        whole.push_str(text)?;
    }
    whole.push_str(last)?;
    Ok(whole)
}

#[test]
fn the_sixty_fifth_construct_is_refused(rt: HostRuntime) -> Result<(), Fail> {
    let alloc = rt.alloc();
    let place = place_of(alloc, repeated(alloc, 64, "(", "(id:a")?.as_str())?;
    assert_eq!(rt; place, 64);
    let place = place_of(alloc, repeated(alloc, 64, "NOT ", "NOT id:a")?.as_str())?;
    assert_eq!(rt; place, 256);
    let count = count_of(alloc, repeated(alloc, 64, "NOT ", "id:a")?.as_str())?;
    assert_eq!(rt; count, 65);
    Ok(())
}
