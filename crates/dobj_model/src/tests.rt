//! What an object keeps, each bound and one past it, and what is shown of it.
use crate::elements::{BOUND, are_small};
use crate::object::{LONGEST_TEXT, is_short};
use crate::{
    Element, Elements, Id, Metadata, Object, ObjectValue, TypeName, append_text, copy_object,
    object_json, object_parts, text_length,
};
use doip_json::{Bytes, Json, JsonMap, Str, read, text};
use doip_segment::Message;
use std::alloc::Global;
use std::test::Fail;

// What an object is made of, as a test varies it.
#[derive(Clone, Copy)]
struct Made<'a> {
    attributes: &'a str,
    element: &'a str,
    by: u64,
    times: (u64, u64),
    revision: u64,
}

fn map_of(alloc: Global, text: &str) -> Result<JsonMap, Fail> {
    match read(alloc, text.as_bytes(), 127)? {
        Json::Table(map) => Ok(map),
        _ => Err(Fail::from("no object")),
    }
}

fn repeated(alloc: Global, letter: char, count: u64) -> Result<String, Fail> {
    let mut text = String::new(alloc);
    for _ in 0..count {
        text.push(letter)?;
    }
    Ok(text)
}

// An object with arrays nested so deep at `content`.
fn nested(alloc: Global, depth: u64) -> Result<String, Fail> {
    let mut text = String::from_str(alloc, "{\"content\":")?;
    text.push_str(repeated(alloc, '[', depth)?.as_str())?;
    text.push_str(repeated(alloc, ']', depth)?.as_str())?;
    text.push('}')?;
    Ok(text)
}

fn element(alloc: Global, id: &str, attributes: &str) -> Result<Element, Fail> {
    Ok(Element {
        id: Id::of(alloc, id)?.ok_or("no identifier")?,
        type_name: Some(Str::of(alloc, "text")?),
        attributes: Some(map_of(alloc, attributes)?),
        bytes: Bytes::of(alloc, b"a\n#\nb".as_slice())?,
    })
}

fn elements_of(alloc: Global, attributes: &str) -> Result<Elements, Fail> {
    let mut items = Vec::new(alloc);
    items.push(element(alloc, "file", attributes)?)?;
    Ok(Elements::of(items).ok_or("no elements")?)
}

fn metadata_of(alloc: Global, made: &Made) -> Result<Metadata, Fail> {
    let by = repeated(alloc, 'a', made.by)?;
    Ok(Metadata {
        created_by: Str::of(alloc, by.as_str())?,
        created_on: made.times.0,
        modified_by: Str::of(alloc, by.as_str())?,
        modified_on: made.times.1,
        revision: made.revision,
    })
}

fn value_of(alloc: Global, made: &Made) -> Result<ObjectValue, Fail> {
    let elements = elements_of(alloc, made.element)?;
    let metadata = metadata_of(alloc, made)?;
    Ok(ObjectValue {
        id: Id::of(alloc, "35.TEST/f")?.ok_or("no identifier")?,
        type_name: TypeName::of(alloc, "0.TYPE/DO")?.ok_or("no type")?,
        attributes: map_of(alloc, made.attributes)?,
        metadata,
        elements,
    })
}

fn may_be_made(alloc: Global, made: &Made) -> Result<bool, Fail> {
    Ok(Object::of(value_of(alloc, made)?).is_some())
}

// Whether an object is made with these attributes.
fn may_have(alloc: Global, attributes: &str) -> Result<bool, Fail> {
    let made = Made {
        attributes,
        element: "{}",
        by: 1,
        times: (0, 7),
        revision: 1,
    };
    may_be_made(alloc, &made)
}

#[test]
fn attributes_are_kept_or_refused(rt: HostRuntime) -> Result<(), Fail> {
    let rows = [
        ("{}", true),
        ("{\"content\":null}", false),
        ("{\"metadata\":{}}", false),
        ("{\"acl\":null}", false),
        ("{\"acl\":{\"x\":null},\"other\":null}", true),
        ("{\"acl\":{\"readers\":null}}", false),
        ("{\"acl\":{\"readers\":[\"a\"],\"writers\":[1]}}", false),
    ];
    for row in &rows {
        assert_eq!(rt; may_have(rt.alloc(), row.0)?, row.1, "{}", row.0);
    }
    Ok(())
}

// Whether an object is made with arrays nested so deep in it and in its element.
fn may_be_nested(
    alloc: Global,
    attributes: u64,
    element: u64,
    by: u64,
    revision: u64,
) -> Result<bool, Fail> {
    let attributes = nested(alloc, attributes)?;
    let element = nested(alloc, element)?;
    let made = Made {
        attributes: attributes.as_str(),
        element: element.as_str(),
        by,
        times: (0, 7),
        revision,
    };
    may_be_made(alloc, &made)
}

#[test]
fn an_object_is_made_at_each_bound_and_not_past_it(rt: HostRuntime) -> Result<(), Fail> {
    let alloc = rt.alloc();
    let rows = [
        (62, 60, 255, 1, true),
        (63, 60, 255, 1, false),
        (62, 61, 255, 1, false),
        (62, 60, 256, 1, false),
        (62, 60, 255, 0, false),
        (1, 1, 0, 0x7fff_ffff_ffff_ffff, true),
        (1, 1, 0, 0x8000_0000_0000_0000, false),
    ];
    for row in &rows {
        assert_eq!(rt; may_be_nested(alloc, row.0, row.1, row.2, row.3)?, row.4);
    }
    Ok(())
}

// Whether elements with these identifiers are made.
fn may_be_elements(alloc: Global, count: u64, last: &str) -> Result<bool, Fail> {
    let mut items = Vec::new(alloc);
    for i in 0..count {
        let id = format!(in alloc; "{i}")?;
        items.push(element(alloc, id.as_str(), "{}")?)?;
    }
    items.push(element(alloc, last, "{}")?)?;
    Ok(Elements::of(items).is_some())
}

#[test]
fn an_object_has_at_most_a_thousand_different_elements(rt: HostRuntime) -> Result<(), Fail> {
    let alloc = rt.alloc();
    assert!(rt; may_be_elements(alloc, 999, "a")?);
    assert!(rt; !may_be_elements(alloc, 1000, "a")?);
    assert!(rt; !may_be_elements(alloc, 1, "0")?);
    Ok(())
}

fn object_of(alloc: Global, made: &Made) -> Result<Object, Fail> {
    match Object::of(value_of(alloc, made)?) {
        Some(object) => Ok(object),
        None => Err(Fail::from("no object")),
    }
}

fn example(alloc: Global) -> Result<Object, Fail> {
    let made = Made {
        attributes: "{\"content\":true,\"zip\":[]}",
        element: "{\"a\":1}",
        by: 1,
        times: (0, 7),
        revision: 1,
    };
    object_of(alloc, &made)
}

// The shown form of the example, as it is written.
fn example_text() -> &'static str {
    "{\"attributes\":{\"content\":true,\"metadata\":{\"createdBy\":\"a\",\"createdOn\":0,\
    \"modifiedBy\":\"a\",\"modifiedOn\":7,\"revision\":1},\"zip\":[]},\
    \"elements\":[{\"attributes\":{\"a\":1},\"id\":\"file\",\"length\":5,\"type\":\"text\"}],\
    \"id\":\"35.TEST/f\",\"type\":\"0.TYPE/DO\"}"
}

fn shown(alloc: Global, object: &Object) -> Result<Vec<u8>, Fail> {
    let mut out = Vec::new(alloc);
    append_text(alloc, object, &mut out)?;
    Ok(out)
}

fn value_text(alloc: Global, object: &Object) -> Result<Bytes, Fail> {
    let json = object_json(alloc, object)?;
    Ok(text(alloc, &json)?)
}

#[test]
fn the_shown_form_is_written_as_text_and_as_a_value(rt: HostRuntime) -> Result<(), Fail> {
    let alloc = rt.alloc();
    let object = example(alloc)?;
    let want = example_text();
    assert!(rt; shown(alloc, &object)?.as_slice() == want.as_bytes());
    assert!(rt; value_text(alloc, &object)?.get() == want.as_bytes());
    assert_eq!(rt; text_length(&object), want.len() as u64);
    Ok(())
}

// The shown form of an object that was created and changed at these times.
fn shown_at(alloc: Global, times: (u64, u64)) -> Result<Vec<u8>, Fail> {
    let made = Made {
        attributes: "{}",
        element: "{}",
        by: 1,
        times,
        revision: 1,
    };
    shown(alloc, &object_of(alloc, &made)?)
}

// No number of 64 bits is past the last time.
#[test]
fn the_last_time_is_kept_and_shown(rt: HostRuntime) -> Result<(), Fail> {
    let last = u64::MAX;
    let text = shown_at(rt.alloc(), (last.saturating_sub(1), last))?;
    let want =
        "{\"attributes\":{\"metadata\":{\"createdBy\":\"a\",\"createdOn\":18446744073709551614,\
        \"modifiedBy\":\"a\",\"modifiedOn\":18446744073709551615,\"revision\":1}},\
        \"elements\":[{\"attributes\":{},\"id\":\"file\",\"length\":5,\"type\":\"text\"}],\
        \"id\":\"35.TEST/f\",\"type\":\"0.TYPE/DO\"}";
    assert!(rt; text.as_slice() == want.as_bytes());
    Ok(())
}

// Whether the example's shown form is short enough where its text may have so many bytes.
fn is_example_short(alloc: Global, longest: u32) -> Result<bool, Fail> {
    let object = example(alloc)?;
    Ok(is_short(object.value(), longest))
}

#[test]
fn a_shown_form_is_short_at_the_bound_and_not_past_it(rt: HostRuntime) -> Result<(), Fail> {
    let alloc = rt.alloc();
    assert_eq!(rt; LONGEST_TEXT, 4_294_967_295);
    assert_eq!(rt; example_text().len(), 237);
    let rows = [(238, true), (237, true), (236, false)];
    for row in &rows {
        assert_eq!(rt; is_example_short(alloc, row.0)?, row.1);
    }
    Ok(())
}

// Whether an element of five bytes is small where each has fewer than the bound.
fn is_element_small(alloc: Global, bound: usize) -> Result<bool, Fail> {
    let elements = elements_of(alloc, "{}")?;
    Ok(are_small(elements.as_slice(), bound))
}

#[test]
fn an_element_is_small_below_the_bound_and_not_at_it(rt: HostRuntime) -> Result<(), Fail> {
    let alloc = rt.alloc();
    assert_eq!(rt; BOUND, 10_000_000_000);
    let rows = [(7, true), (6, true), (5, false)];
    for row in &rows {
        assert_eq!(rt; is_element_small(alloc, row.0)?, row.1);
    }
    Ok(())
}

fn segment(parts: &Message, i: usize) -> &[u8] {
    if i < parts.count() {
        parts.bytes(i)
    } else {
        &[]
    }
}

#[test]
fn the_text_is_written_into_the_room_that_was_taken(rt: HostRuntime) -> Result<(), Fail> {
    let alloc = rt.alloc();
    let object = example(alloc)?;
    let mut out = Vec::new(alloc);
    out.reserve(example_text().len().saturating_add(1))?;
    let room = out.capacity();
    append_text(alloc, &object, &mut out)?;
    assert_eq!(rt; out.capacity(), room);
    Ok(())
}

fn copied_parts(alloc: Global) -> Result<Message, Fail> {
    let object = copy_object(alloc, &example(alloc)?)?;
    Ok(object_parts(alloc, &object)?)
}

#[test]
fn a_copy_and_the_segments_have_the_same(rt: HostRuntime) -> Result<(), Fail> {
    let alloc = rt.alloc();
    let parts = copied_parts(alloc)?;
    assert_eq!(rt; parts.count(), 3);
    assert!(rt; segment(&parts, 0) == example_text().as_bytes());
    assert!(rt; segment(&parts, 1) == "{\"id\":\"file\"}".as_bytes());
    assert!(rt; segment(&parts, 2) == b"a\n#\nb".as_slice());
    Ok(())
}

#[test]
fn a_type_name_has_1_to_255_bytes(rt: HostRuntime) -> Result<(), Fail> {
    let alloc = rt.alloc();
    let longest = repeated(alloc, 'x', 255)?;
    let past = repeated(alloc, 'x', 256)?;
    assert!(rt; TypeName::of(alloc, longest.as_str())?.is_some());
    assert!(rt; TypeName::of(alloc, past.as_str())?.is_none());
    assert!(rt; TypeName::of(alloc, "")?.is_none());
    Ok(())
}
