//! Texts with their values and faults, pointers, and a happy run of each call.

use crate::{
    Bytes, Json, JsonFault, JsonList, JsonMap, Num, Str, TextFault, append_text, at_pointer, copy,
    copy_map, get, is_one_line, is_same, push_token, read, reads_back, text, texts_are_no_longer,
    written_pointers_find,
};
use std::alloc::{AllocError, Global};
use std::test::Fail;

const DEPTH: u8 = 64;

// The canonical text of what was read, or the fault's name.
fn outcome(alloc: Global, bytes: &[u8]) -> Result<Vec<u8>, AllocError> {
    match read(alloc, bytes, DEPTH) {
        Ok(json) => Ok(text(alloc, &json)?.into_vec()),
        Err(JsonFault::NotJson) => b"NotJson".to_vec(alloc),
        Err(JsonFault::TooDeep) => b"TooDeep".to_vec(alloc),
        Err(JsonFault::NotWhole) => b"NotWhole".to_vec(alloc),
        Err(JsonFault::Memory) => b"Memory".to_vec(alloc),
    }
}

#[test]
fn each_text_has_its_value_or_its_fault(rt: HostRuntime) -> Result<(), Fail> {
    let cases: [(&[u8], &[u8]); 52] = [
        (b"null", b"null"),
        (b"true", b"true"),
        (b"false", b"false"),
        (b"[]", b"[]"),
        (b"{}", b"{}"),
        (b" \t\r\n[ 1 , 2 ] \n", b"[1,2]"),
        (
            b"{ \"b\" : 1 , \"a\" : [ true , null ] }",
            b"{\"a\":[true,null],\"b\":1}",
        ),
        // Keys ascend by their bytes: capitals first, a prefix before what it begins.
        (
            b"{\"a\":1,\"B\":2,\"\":3,\"ab\":4}",
            b"{\"\":3,\"B\":2,\"a\":1,\"ab\":4}",
        ),
        (b"{\"\xc3\xa9\":1,\"z\":2}", b"{\"z\":2,\"\xc3\xa9\":1}"),
        (
            b"{\"\xc3\xa9\":[1, -2],\"a\":\"\\/\\u000B\"}",
            b"{\"a\":\"/\\u000b\",\"\xc3\xa9\":[1,-2]}",
        ),
        // Twice the same key leaves one entry.
        (b"{\"a\":1,\"a\":1}", b"{\"a\":1}"),
        // Numbers.
        (b"0", b"0"),
        (b"-1", b"-1"),
        (b"18446744073709551615", b"18446744073709551615"),
        (b"18446744073709551616", b"NotWhole"),
        (b"-9223372036854775808", b"-9223372036854775808"),
        (b"-9223372036854775809", b"NotWhole"),
        (b"1.0", b"NotWhole"),
        (b"1e2", b"NotWhole"),
        (b"0.5", b"NotWhole"),
        (b"[1,2.5]", b"NotWhole"),
        (b"{\"a\":{\"b\":1E3}}", b"NotWhole"),
        // A number past the range of a float is no JSON to `serde_json`.
        (b"1e400", b"NotJson"),
        (b"01", b"NotJson"),
        (b"+1", b"NotJson"),
        (b"1.", b"NotJson"),
        // Strings: each escape, and what is written in its place.
        (
            b"\"\\\"\\\\\\/\\b\\f\\n\\r\\t\"",
            b"\"\\\"\\\\/\\b\\f\\n\\r\\t\"",
        ),
        (
            b"\"\\u0000\\u001f\\u000B\\u007f\"",
            b"\"\\u0000\\u001f\\u000b\x7f\"",
        ),
        (
            b"\"\\u0022\\u005c\\u002f\\u0008\\u000c\\u000a\\u000d\\u0009\"",
            b"\"\\\"\\\\/\\b\\f\\n\\r\\t\"",
        ),
        (b"\"\\u00e9\\u20AC\"", b"\"\xc3\xa9\xe2\x82\xac\""),
        (b"\"\\ud83d\\ude00\"", b"\"\xf0\x9f\x98\x80\""),
        (b"\"\\ud83d\"", b"NotJson"),
        (b"\"\\ude00\"", b"NotJson"),
        (b"\"\\ude00\\ud83d\"", b"NotJson"),
        (b"\"\\ud83dx\"", b"NotJson"),
        (b"\"\\x\"", b"NotJson"),
        (b"\"\\u12g4\"", b"NotJson"),
        (b"\"\x1f\"", b"NotJson"),
        (b"\"a", b"NotJson"),
        (b"{\"a\\nb\":\"\"}", b"{\"a\\nb\":\"\"}"),
        // Bytes that aren't UTF-8, and a byte order mark.
        (b"\"\xff\"", b"NotJson"),
        (b"\"\xc3\"", b"NotJson"),
        (b"\"\xed\xa0\x80\"", b"NotJson"),
        (b"\xef\xbb\xbfnull", b"NotJson"),
        // No JSON.
        (b"", b"NotJson"),
        (b"  ", b"NotJson"),
        (b"nul", b"NotJson"),
        (b"null null", b"NotJson"),
        (b"[1,]", b"NotJson"),
        (b"{\"a\" 1}", b"NotJson"),
        (b"{a:1}", b"NotJson"),
        (b"'a'", b"NotJson"),
    ];
    for (bytes, want) in cases {
        let got = outcome(rt.alloc(), bytes)?;
        assert_eq!(rt; got.as_slice(), want, "at {bytes:?}");
    }
    Ok(())
}

// Arrays, or objects under the key `a`, nested this often round the bytes inside.
fn nested(
    alloc: Global,
    open: &[u8],
    inside: &[u8],
    close: &[u8],
    times: u8,
) -> Result<Vec<u8>, AllocError> {
    let mut bytes = Vec::new(alloc);
    for _ in 0..times {
        bytes.extend_from_slice(open)?;
    }
    bytes.extend_from_slice(inside)?;
    for _ in 0..times {
        bytes.extend_from_slice(close)?;
    }
    Ok(bytes)
}

#[test]
fn nesting_is_refused_past_the_depth(rt: HostRuntime) -> Result<(), Fail> {
    for (times, fault) in [
        (63, ""),
        (64, ""),
        (65, "TooDeep"),
        (127, "TooDeep"),
        (128, "NotJson"),
    ] {
        let arrays = nested(rt.alloc(), b"[", b"", b"]", times)?;
        let want = if fault.is_empty() {
            arrays.as_slice()
        } else {
            fault.as_bytes()
        };
        assert_eq!(rt;
            outcome(rt.alloc(), &arrays)?.as_slice(),
            want,
            "{times} arrays"
        );

        let objects = nested(rt.alloc(), b"{\"a\":", b"0", b"}", times)?;
        let want = if fault.is_empty() {
            objects.as_slice()
        } else {
            fault.as_bytes()
        };
        assert_eq!(rt;
            outcome(rt.alloc(), &objects)?.as_slice(),
            want,
            "{times} objects"
        );
    }
    let deepest = nested(rt.alloc(), b"[", b"", b"]", 127)?;
    assert!(rt; read(rt.alloc(), &deepest, 127).is_ok());

    // What nests too deep is reported before a number that isn't an integer, wherever the two are.
    let both = nested(rt.alloc(), b"[1.5,[", b"", b"]]", 33)?;
    assert_eq!(rt;
        outcome(rt.alloc(), &both)?.as_slice(),
        b"TooDeep".as_slice()
    );
    let flat = nested(rt.alloc(), b"[1.5,[", b"", b"]]", 32)?;
    assert_eq!(rt;
        outcome(rt.alloc(), &flat)?.as_slice(),
        b"NotWhole".as_slice()
    );
    Ok(())
}

#[test]
fn a_pointer_finds_what_it_names(rt: HostRuntime) -> Result<(), Fail> {
    let bytes = b"{\"a\":[10,[11],{\"b\":12}],\"\":13,\"m~n\":14,\"o/p\":15,\"~1\":16,\"0\":17}";
    let Ok(value) = read(rt.alloc(), bytes, DEPTH) else {
        return Err(Fail::from("no value"));
    };
    let cases: [(&str, &[u8]); 27] = [
        (
            "",
            b"{\"\":13,\"0\":17,\"a\":[10,[11],{\"b\":12}],\"m~n\":14,\"o/p\":15,\"~1\":16}",
        ),
        ("/a/0", b"10"),
        ("/a/1", b"[11]"),
        ("/a/1/0", b"11"),
        ("/a/2/b", b"12"),
        ("/", b"13"),
        ("/m~0n", b"14"),
        ("/o~1p", b"15"),
        ("/~01", b"16"),
        ("/0", b"17"),
        ("a", b"none"),
        ("/b", b"none"),
        ("/a/", b"none"),
        ("/a/3", b"none"),
        ("/a/00", b"none"),
        ("/a/01", b"none"),
        ("/a/-", b"none"),
        ("/a/-1", b"none"),
        ("/a/+1", b"none"),
        ("/a/1a", b"none"),
        ("/a/0000000000", b"none"),
        ("/a/9999999999", b"none"),
        ("/a/0/0", b"none"),
        ("/m~n", b"none"),
        ("/m~2n", b"none"),
        ("/m~", b"none"),
        ("/~1", b"none"),
    ];
    for (pointer, want) in cases {
        let found = at_pointer(&value, pointer);
        let got = match found {
            Some(json) => text(rt.alloc(), json)?.into_vec(),
            None => b"none".to_vec(rt.alloc())?,
        };
        assert_eq!(rt; got.as_slice(), want, "at {pointer}");
    }
    Ok(())
}

// {"b":[-1,"x"],"a":true}, built by hand.
fn built(alloc: Global) -> Result<Json, AllocError> {
    let mut list = JsonList::empty(alloc);
    if let Some(number) = Num::new(-1) {
        list.push(Json::Whole(number))?;
    }
    list.push(Json::Text(Str::of(alloc, "x")?))?;
    let mut map = JsonMap::empty(alloc);
    map.put(Str::of(alloc, "b")?, Json::Null)?;
    map.put(Str::of(alloc, "a")?, Json::Truth(true))?;
    map.put(Str::of(alloc, "b")?, Json::Items(list))?;
    Ok(Json::Table(map))
}

#[test]
fn a_value_is_built_looked_into_and_copied(rt: HostRuntime) -> Result<(), Fail> {
    let value = built(rt.alloc())?;
    let written = text(rt.alloc(), &value)?;
    assert_eq!(rt; written.get(), b"{\"a\":true,\"b\":[-1,\"x\"]}".as_slice());

    assert!(rt; matches!(get(&value, "a"), Some(Json::Truth(true))));
    assert!(rt; get(&value, "c").is_none());
    assert!(rt; get(&Json::Null, "a").is_none());

    let other = copy(rt.alloc(), &value)?;
    assert!(rt; is_same(&value, &other));
    assert!(rt; !is_same(&value, &Json::Null));
    let Some(Json::Items(list)) = get(&other, "b") else {
        return Err(Fail::from("no array"));
    };
    assert!(rt; !is_same(&value, &Json::Items(JsonList::empty(rt.alloc()))));
    assert_eq!(rt; list.len(), 2);
    assert!(rt; matches!(list.item(0), Json::Whole(number) if number.get() == -1));
    let Json::Table(map) = &other else {
        return Err(Fail::from("no object"));
    };
    assert_eq!(rt; map.len(), 2);
    assert_eq!(rt; map.key_at(1).get(), "b");
    assert!(rt; matches!(map.value_at(0), Json::Truth(true)));
    Ok(())
}

#[test]
fn a_value_that_is_taken_leaves_null(rt: HostRuntime) -> Result<(), Fail> {
    let Json::Table(mut map) = built(rt.alloc())? else {
        return Err(Fail::from("no object"));
    };
    let before = copy_map(rt.alloc(), &map)?;
    assert!(rt; map.take("c").is_none());
    assert!(rt; matches!(map.take("a"), Some(Json::Truth(true))));
    let rest = Json::Table(map);
    is_one_line(&rest);
    assert_eq!(rt;
        text(rt.alloc(), &rest)?.get(),
        b"{\"a\":null,\"b\":[-1,\"x\"]}".as_slice()
    );
    assert_eq!(rt;
        text(rt.alloc(), &Json::Table(before))?.get(),
        b"{\"a\":true,\"b\":[-1,\"x\"]}".as_slice()
    );
    Ok(())
}

#[test]
fn what_was_written_is_read_as_the_same_value(rt: HostRuntime) -> Result<(), Fail> {
    let value = built(rt.alloc())?;
    let bytes = text(rt.alloc(), &value)?;
    let Ok(again) = read(rt.alloc(), bytes.get(), 2) else {
        return Err(Fail::from("no value"));
    };
    assert!(rt; is_same(&value, &again));
    reads_back(&Json::Null, 1);
    texts_are_no_longer();
    Ok(())
}

#[test]
fn a_text_is_appended_after_what_the_buffer_holds(rt: HostRuntime) -> Result<(), Fail> {
    let mut out = b"{}\n".to_vec(rt.alloc())?;
    append_text(rt.alloc(), &built(rt.alloc())?, &mut out)?;
    append_text(rt.alloc(), &Json::Null, &mut out)?;
    let escaped = Json::Text(Str::of(rt.alloc(), "\"\n\u{1}\u{e9}")?);
    append_text(rt.alloc(), &escaped, &mut out)?;
    assert_eq!(rt;
        out.as_slice(),
        b"{}\n{\"a\":true,\"b\":[-1,\"x\"]}null\"\\\"\\n\\u0001\xc3\xa9\"".as_slice()
    );
    Ok(())
}

#[test]
fn a_text_is_written_into_room_that_is_there(rt: HostRuntime) -> Result<(), Fail> {
    let mut out = Vec::with_capacity(rt.alloc(), 64)?;
    append_text(rt.alloc(), &built(rt.alloc())?, &mut out)?;
    assert_eq!(rt; out.len(), 23);
    assert_eq!(rt; out.capacity(), 64);
    Ok(())
}

#[test]
fn a_pointer_is_written_name_by_name(rt: HostRuntime) -> Result<(), Fail> {
    let bytes = b"{\"a\":[10,[11],{\"b\":12}],\"\":13,\"~1/\\u00e9\":{\"~\":14}}";
    let Ok(value) = read(rt.alloc(), bytes, DEPTH) else {
        return Err(Fail::from("no value"));
    };
    let cases: [(&[&str], &str, &[u8]); 5] = [
        (&["a", "1", "0"], "/a/1/0", b"11"),
        (&["a", "2", "b"], "/a/2/b", b"12"),
        (&[""], "/", b"13"),
        (&["~1/\u{e9}", "~"], "/~01~1\u{e9}/~0", b"14"),
        (&["a", "3"], "/a/3", b"none"),
    ];
    for (names, want, meant) in cases {
        let mut pointer = String::new(rt.alloc());
        for name in names {
            push_token(rt.alloc(), &mut pointer, name)?;
        }
        assert_eq!(rt; pointer.as_str(), want);
        let got = match at_pointer(&value, &pointer) {
            Some(json) => text(rt.alloc(), json)?.into_vec(),
            None => b"none".to_vec(rt.alloc())?,
        };
        assert_eq!(rt; got.as_slice(), meant, "at {want}");
    }
    written_pointers_find();
    Ok(())
}

#[test]
fn each_fault_of_a_text_is_a_fault_of_reading(rt: HostRuntime) {
    for told in [TextFault::NotJson, TextFault::TooDeep, TextFault::NotWhole] {
        assert_eq!(rt; JsonFault::from(told).text_fault(), Some(told));
    }
    assert_eq!(rt; JsonFault::Memory.text_fault(), None);
}

#[test]
fn numbers_end_at_64_bits(rt: HostRuntime) {
    let low = i128::from(i64::MIN);
    let high = i128::from(u64::MAX);
    for (number, is_number) in [
        (low - 1, false),
        (low, true),
        (0, true),
        (high, true),
        (high + 1, false),
    ] {
        assert_eq!(rt; Num::new(number).is_some(), is_number, "at {number}");
    }
}

#[test]
fn strings_and_bytes_keep_their_contents(rt: HostRuntime) -> Result<(), Fail> {
    let text = Str::of(rt.alloc(), "\u{e9}")?;
    assert_eq!(rt; text.get(), "\u{e9}");
    assert_eq!(rt; Str::from_string(text.into_string()).get(), "\u{e9}");
    let bytes = Bytes::of(rt.alloc(), b"\x00\xff")?;
    assert_eq!(rt; bytes.get(), b"\x00\xff".as_slice());
    assert_eq!(rt; Bytes::from(bytes.into_vec()).get(), b"\x00\xff".as_slice());
    Ok(())
}

#[test]
fn each_fault_has_its_message(rt: HostRuntime) -> Result<(), Fail> {
    let cases = [
        (JsonFault::NotJson, "not JSON"),
        (JsonFault::TooDeep, "nested too deep"),
        (JsonFault::NotWhole, "number is not whole"),
        (JsonFault::Memory, "want of memory"),
    ];
    for (fault, message) in cases {
        let shown = fault.to_string(rt.alloc())?;
        assert_eq!(rt; shown.as_str(), message);
    }
    Ok(())
}
