//! What fields reach in an object, and the tests on it.
use crate::{Scalar, ScalarTest, field_of, first_scalar, reaches};
use dobj_model::{Elements, Id, Metadata, Object, ObjectValue, TypeName};
use doip_json::{JsonMap, Num, Str, read};
use std::alloc::Global;
use std::test::Fail;

const EXAMPLE: &str = r#"{"k":"x","n":[5,true,{"a":"yes"}],"o":{"p":"x"}}"#;

// The helpers return `None` if anything fails.

fn metadata(alloc: Global) -> Option<Metadata> {
    Some(Metadata {
        created_by: Str::of(alloc, "admin").ok()?,
        created_on: 0,
        modified_by: Str::of(alloc, "admin").ok()?,
        modified_on: 0,
        revision: 1,
    })
}

fn attributes(alloc: Global, content: &str) -> Option<JsonMap> {
    let mut attributes = JsonMap::empty(alloc);
    let key = Str::of(alloc, "content").ok()?;
    let content = read(alloc, content.as_bytes(), 64).ok()?;
    attributes.put(key, content).ok()?;
    Some(attributes)
}

// An object with this content.
fn object(alloc: Global, content: &str) -> Option<Object> {
    let id = Id::of(alloc, "35.TEST/a1").ok()??;
    let type_name = TypeName::of(alloc, "0.TYPE/DO").ok()??;
    let attributes = attributes(alloc, content)?;
    let metadata = metadata(alloc)?;
    Object::of(ObjectValue {
        id,
        type_name,
        attributes,
        metadata,
        elements: Elements::none(alloc),
    })
}

// Whether the field that the name spells reaches a value that passes the test.
fn is_reached(alloc: Global, object: &Object, name: &str, test: &ScalarTest) -> Option<bool> {
    let field = field_of(alloc, name).ok()?;
    Some(reaches(object, &field, test))
}

// Whether the field reaches the word, and a text that begins with it, as is told.
fn reaches_word(
    alloc: Global,
    object: &Object,
    name: &str,
    word: &str,
    told: &str,
) -> Option<bool> {
    let equals = ScalarTest::Equals(Str::of(alloc, word).ok()?);
    let begins = ScalarTest::Begins(Str::of(alloc, word).ok()?);
    let whole = is_reached(alloc, object, name, &equals)?;
    let beginning = is_reached(alloc, object, name, &begins)?;
    Some(is_told(whole, beginning, told))
}

fn is_told(whole: bool, beginning: bool, told: &str) -> bool {
    match told {
        "a text" => whole && beginning,
        "a beginning" => !whole && beginning,
        _ => !whole && !beginning,
    }
}

// A field of the example, and whether it reaches the word as a text, as a beginning or not at all.
const WORDS: &str = "id|35.TEST/a1|a text
type|0.TYPE|a beginning
/k|x|a text
/k|xx|nothing
/n/_|5|a text
/n/_|tr|a beginning
/n/_/a|yes|a text
/n/0|5|nothing
/o/_|x|nothing";

fn is_word(alloc: Global, object: &Object, row: &str) -> Option<bool> {
    let (name, rest) = row.split_once('|')?;
    let (word, told) = rest.split_once('|')?;
    reaches_word(alloc, object, name, word, told)
}

fn are_words(alloc: Global, rows: &str) -> Option<bool> {
    let object = object(alloc, EXAMPLE)?;
    for row in rows.split('\n') {
        if !is_word(alloc, &object, row)? {
            return Some(false);
        }
    }
    Some(true)
}

#[test]
fn a_field_reaches_a_text_or_a_beginning(rt: HostRuntime) -> Result<(), Fail> {
    let holds = are_words(rt.alloc(), WORDS);
    assert!(rt; holds.unwrap_or(false));
    Ok(())
}

// Contents of an object, a field, and a text that it reaches.
const CONTENTS: &str = r#"{"k":"x"}|id|35.TEST/a1
{"k":"x"}|/k|x
{"n":1,"see":"35.TEST/n1"}|/see|35.TEST/n1
{"n":5,"see":"35.TEST/n1"}|/n|5
{"name":"Note","schema":{"type":"object","properties":{"n":{"type":"integer","minimum":0},"see":{"type":"string","cordra":{"type":{"handleReference":{"types":["Note"]}}}}}}}|/schema/properties/see/cordra/type/handleReference/types/_|Note"#;

fn is_content(alloc: Global, row: &str) -> Option<bool> {
    let (content, rest) = row.split_once('|')?;
    let (name, word) = rest.split_once('|')?;
    let object = object(alloc, content)?;
    reaches_word(alloc, &object, name, word, "a text")
}

#[test]
fn a_field_reaches_into_any_content(rt: HostRuntime) -> Result<(), Fail> {
    for row in CONTENTS.split('\n') {
        let holds = is_content(rt.alloc(), row);
        assert!(rt; holds.unwrap_or(false), "{row}");
    }
    Ok(())
}

fn reaches_number(alloc: Global, name: &str, low: Option<Num>, high: Option<Num>) -> Option<bool> {
    let object = object(alloc, EXAMPLE)?;
    is_reached(alloc, &object, name, &ScalarTest::Between { low, high })
}

#[test]
fn a_field_reaches_a_number_in_a_range(rt: HostRuntime) -> Result<(), Fail> {
    let alloc = rt.alloc();
    assert!(rt; reaches_number(alloc, "/n/_", Num::new(5), Num::new(5)).unwrap_or(false));
    assert!(rt; !reaches_number(alloc, "/n/_", Num::new(6), None).unwrap_or(true));
    assert!(rt; !reaches_number(alloc, "/n/_", None, Num::new(4)).unwrap_or(true));
    assert!(rt; !reaches_number(alloc, "/k", None, None).unwrap_or(true));
    Ok(())
}

// Whether it is this text, or this number where the text is empty.
fn is_scalar(found: &Option<Scalar>, text: &str, number: i128) -> bool {
    match found {
        Some(Scalar::Text(own)) => *own == text,
        Some(Scalar::Number(own)) => text.is_empty() && own.get() == number,
        _ => false,
    }
}

fn begins_with(alloc: Global, name: &str, text: &str, number: i128) -> Option<bool> {
    let object = object(alloc, EXAMPLE)?;
    let field = field_of(alloc, name).ok()?;
    let found = first_scalar(&object, &field);
    Some(is_scalar(&found, text, number))
}

#[test]
fn the_first_scalar_is_lent(rt: HostRuntime) -> Result<(), Fail> {
    let alloc = rt.alloc();
    assert!(rt; begins_with(alloc, "id", "35.TEST/a1", 0).unwrap_or(false));
    assert!(rt; begins_with(alloc, "/n/_", "", 5).unwrap_or(false));
    assert!(rt; begins_with(alloc, "/n/_/a", "yes", 0).unwrap_or(false));
    assert!(rt; !begins_with(alloc, "/o", "x", 0).unwrap_or(true));
    Ok(())
}
