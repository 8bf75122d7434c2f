//! Each word of JSON Schema draft 4 with a value that passes and one that fails, faults of schemas, references.

use crate::{
    ReferenceTest, Schema, SchemaFault, every_reference, failure_pointer, references, schema_of,
    strings_of, valid,
};
use base_core::Items;
use doip_json::{Json, Str, read};
use std::alloc::Global;
use std::process::Abort;
use std::test::Fail;

// The helpers return `None` if anything fails.

fn fault_shown(alloc: Global, fault: &SchemaFault) -> Option<String> {
    match fault {
        SchemaFault::Word { name } => format!(in alloc; "word {}", name.get()).ok(),
        SchemaFault::Shape { name } => format!(in alloc; "shape {}", name.get()).ok(),
        SchemaFault::Memory => None,
    }
}

// The first failure, by its word and its pointer; `valid` and `failure_pointer` have to agree.
fn failure_shown(alloc: Global, schema: &Schema, value: &Json) -> Option<String> {
    let pointer = failure_pointer(alloc, schema, value).ok()?;
    match (valid(schema, value), pointer) {
        (None, None) => String::from_str(alloc, "valid").ok(),
        (Some(word), Some(pointer)) => {
            format!(in alloc; "{} at \"{}\"", word.word(), pointer.get()).ok()
        }
        _ => None,
    }
}

// `valid`, the first failure, or the fault of the schema.
fn outcome(alloc: Global, schema: &str, value: &str) -> Option<String> {
    let schema = read(alloc, schema.as_bytes(), 127).ok()?;
    let value = read(alloc, value.as_bytes(), 127).ok()?;
    match schema_of(alloc, &schema) {
        Ok(schema) => failure_shown(alloc, &schema, &value),
        Err(fault) => fault_shown(alloc, &fault),
    }
}

fn has_outcome(alloc: Global, schema: &str, value: &str, want: &str) -> bool {
    match outcome(alloc, schema, value) {
        Some(got) => got.as_str() == want,
        None => false,
    }
}

// Whether the row's schema makes of its value what stands at the end.
fn is_row(alloc: Global, row: &str) -> bool {
    let Some((schema, rest)) = row.split_once(" => ") else {
        return false;
    };
    match rest.split_once(" => ") {
        Some((value, want)) => has_outcome(alloc, schema, value, want),
        None => false,
    }
}

fn has_rows(rt: &impl Abort, alloc: Global, rows: &str) {
    for row in rows.split('\n') {
        let holds = is_row(alloc, row);
        assert!(rt; holds, "{row}");
    }
}

// Schemas of one word that is used, each with a value that passes and one that fails.
const USED: &str = r#"{"type":"number"} => 1 => valid
{"type":"boolean"} => 0 => type at ""
{"type":["null","string"]} => "" => valid
{"type":["null","object"]} => [] => type at ""
{"enum":[1,{"a":[2]}]} => {"a":[2]} => valid
{"enum":[1,{"a":[2]}]} => {"a":[3]} => enum at ""
{"enum":[1,[2]]} => 2 => enum at ""
{"minimum":0} => 0 => valid
{"minimum":0} => -1 => minimum at ""
{"minimum":5} => "a" => valid
{"maximum":0} => 0 => valid
{"maximum":0} => 1 => maximum at ""
{"minLength":2} => "\u00e9\ud83d\ude00" => valid
{"minLength":3} => "\u00e9\ud83d\ude00" => minLength at ""
{"maxLength":2} => "\u00e9\ud83d\ude00" => valid
{"maxLength":1} => "\u00e9\ud83d\ude00" => maxLength at ""
{"minItems":1} => [1] => valid
{"minItems":1} => [] => minItems at ""
{"maxItems":1} => [1] => valid
{"maxItems":1} => [1,1] => maxItems at ""
{"required":[]} => {} => valid
{"required":["a","b"]} => {"b":null,"a":0} => valid
{"required":["a","b"]} => {"a":0} => required at ""
{"required":["a"],"properties":{"a":{}}} => {} => required at ""
{"additionalProperties":true} => {"b":1} => valid
{"additionalProperties":false} => {"b":1} => additionalProperties at "/b"
{"additionalProperties":false,"properties":{"b":{}}} => {"b":1} => valid
{"properties":{"a":{"type":"null"}}} => {"a":null,"b":1} => valid
{"properties":{"a":{"type":"null"}}} => {"a":1} => type at "/a"
{"items":{"maximum":3}} => [1,2,3] => valid
{"items":{"maximum":3}} => [1,4,5] => maximum at "/1"
{"cordra":{"type":{"handleReference":{"types":["T"]}}}} => "35.T/1" => valid
{"cordra":{"type":{"handleReference":{"types":["T"]}}}} => 7 => valid"#;

#[test]
fn each_word_that_is_used_passes_and_fails(rt: HostRuntime) -> Result<(), Fail> {
    has_rows(&rt, rt.alloc(), USED);
    Ok(())
}

// Schemas of one word that is refused, each with a value that passes in draft 4 and one that fails there. As a key of
// `properties` such a word is a key as any other.
const REFUSED: &str = r##"{"$ref":"#"} => 1 => word $ref
{"allOf":[{"type":"null"}]} => null => word allOf
{"allOf":[{"type":"null"}]} => 1 => word allOf
{"anyOf":[{"type":"null"}]} => null => word anyOf
{"anyOf":[{"type":"null"}]} => 1 => word anyOf
{"dependencies":{"a":["b"]}} => {} => word dependencies
{"dependencies":{"a":["b"]}} => {"a":1} => word dependencies
{"exclusiveMaximum":true,"maximum":1} => 0 => word exclusiveMaximum
{"exclusiveMaximum":true,"maximum":1} => 1 => word exclusiveMaximum
{"exclusiveMinimum":true,"minimum":1} => 2 => word exclusiveMinimum
{"exclusiveMinimum":true,"minimum":1} => 1 => word exclusiveMinimum
{"maxProperties":1} => {} => word maxProperties
{"maxProperties":1} => {"a":1,"b":1} => word maxProperties
{"minProperties":1} => {"a":1} => word minProperties
{"minProperties":1} => {} => word minProperties
{"multipleOf":2} => 4 => word multipleOf
{"multipleOf":2} => 3 => word multipleOf
{"not":{"type":"null"}} => 1 => word not
{"not":{"type":"null"}} => null => word not
{"oneOf":[{"type":"null"}]} => null => word oneOf
{"oneOf":[{"type":"null"}]} => 1 => word oneOf
{"pattern":"a"} => "a" => word pattern
{"pattern":"a"} => "b" => word pattern
{"patternProperties":{"a":{"type":"null"}}} => {"a":null} => word patternProperties
{"patternProperties":{"a":{"type":"null"}}} => {"a":1} => word patternProperties
{"uniqueItems":true} => [1] => word uniqueItems
{"uniqueItems":true} => [1,1] => word uniqueItems
{"properties":{"not":{"type":"null"}}} => {"not":null} => valid
{"properties":{"not":{"type":"null"}}} => {"not":1} => type at "/not""##;

#[test]
fn each_word_that_is_refused_makes_no_schema(rt: HostRuntime) -> Result<(), Fail> {
    has_rows(&rt, rt.alloc(), REFUSED);
    Ok(())
}

// Schemas of one word that is ignored, also of draft 4's hyper-schema and of later drafts: a value that passes, and one
// that fails if the word counts. No value fails `additionalItems`, `definitions` and the like by themselves.
const IGNORED: &str = r##"{"format":"ipv4"} => "1.2.3.4" => valid
{"format":"ipv4"} => "no address" => valid
{"format":7} => 7 => valid
{"additionalItems":false} => [1] => valid
{"additionalItems":false,"items":{}} => [1,2] => valid
{"definitions":{"a":{"type":"null"}}} => {"a":1} => valid
{"definitions":{"a":{"not":7}}} => 1 => valid
{"default":[]} => "" => valid
{"title":7,"description":7} => null => valid
{"id":"35.T/1","$schema":"http://json-schema.org/draft-04/schema#"} => 1 => valid
{"links":[],"media":{"type":"image/png"}} => 1 => valid
{"readOnly":true,"pathStart":"a","fragmentResolution":"b"} => 1 => valid
{"const":1} => 1 => valid
{"const":1} => 2 => valid
{"contains":{"type":"null"}} => [1] => valid
{"propertyNames":{"maxLength":1}} => {"ab":1} => valid
{"Type":"null","MINIMUM":5} => 1 => valid
{"":{"type":"null"}} => 1 => valid
{"cordra":7} => 1 => valid
{"cordra":{"type":{}}} => 1 => valid"##;

#[test]
fn each_word_that_is_ignored_fails_nothing(rt: HostRuntime) -> Result<(), Fail> {
    has_rows(&rt, rt.alloc(), IGNORED);
    Ok(())
}

// Each kind with a value of it, and a value of the next one.
const KINDS: &str = r#"{"type":"null"} => null => valid
{"type":"null"} => false => type at ""
{"type":"boolean"} => false => valid
{"type":"boolean"} => -7 => type at ""
{"type":"integer"} => -7 => valid
{"type":"integer"} => "7" => type at ""
{"type":"number"} => -7 => valid
{"type":"number"} => "7" => type at ""
{"type":"string"} => "7" => valid
{"type":"string"} => [] => type at ""
{"type":"array"} => [] => valid
{"type":"array"} => {} => type at ""
{"type":"object"} => {} => valid
{"type":"object"} => null => type at ""
{"type":["null","null"]} => null => valid
{"minimum":-9223372036854775808} => -9223372036854775808 => valid
{"maximum":-9223372036854775808} => -9223372036854775807 => maximum at ""
{"maximum":18446744073709551614} => 18446744073709551615 => maximum at ""
{"minimum":18446744073709551615} => 18446744073709551615 => valid
{"minimum":18446744073709551615} => 18446744073709551614 => minimum at ""
{"maxLength":18446744073709551615} => "" => valid"#;

#[test]
fn each_kind_and_the_ends_of_the_numbers(rt: HostRuntime) -> Result<(), Fail> {
    has_rows(&rt, rt.alloc(), KINDS);
    Ok(())
}

// What is earlier counts, keys ascending and however deep it lies; words on a value come before what is inside it.
const FIRST: &str =
    r#"{"properties":{"n":{"type":"integer"},"m":{"maximum":0}}} => {"n":"x","m":1} => maximum at "/m"
{"properties":{"n":{"type":"integer"},"m":{"maximum":0}}} => {"n":"x","m":0} => type at "/n"
{"properties":{"a":{"items":{"minimum":1}}},"additionalProperties":false} => {"a":[1,0],"b":1} => minimum at "/a/1"
{"properties":{"b":{"minimum":1}},"additionalProperties":false} => {"b":0,"a":1} => additionalProperties at "/a"
{"properties":{"~/":{"type":"null"}}} => {"~/":1} => type at "/~0~1"
{"additionalProperties":false} => {"a/b~":1} => additionalProperties at "/a~1b~0"
{"type":"null","enum":[null],"minimum":2} => 1 => type at ""
{"enum":[null],"minimum":2,"maximum":0} => 1 => enum at ""
{"minimum":2,"maximum":0} => 1 => minimum at ""
{"minLength":2,"maxLength":0} => "a" => minLength at ""
{"minItems":2,"maxItems":0,"items":{"type":"null"}} => [1] => minItems at ""
{"maxItems":0,"items":{"type":"null"}} => [1] => maxItems at ""
{"required":["b"],"additionalProperties":false} => {"a":1} => required at """#;

#[test]
fn the_first_failure_is_reported(rt: HostRuntime) -> Result<(), Fail> {
    has_rows(&rt, rt.alloc(), FIRST);
    Ok(())
}

// Wrong shapes, each by its word's name, and the first fault in ascending order of keys.
const FAULTS: &str = r##"[] => null => shape schema
{"type":"text"} => null => shape type
{"type":["null",7]} => null => shape type
{"type":[]} => null => shape type
{"type":{}} => null => shape type
{"enum":[]} => null => shape enum
{"enum":7} => null => shape enum
{"minimum":"1"} => null => shape minimum
{"maximum":null} => null => shape maximum
{"minLength":[]} => null => shape minLength
{"minLength":-1} => null => shape minLength
{"maxLength":-1} => null => shape maxLength
{"minItems":true} => null => shape minItems
{"maxItems":-1} => null => shape maxItems
{"required":"a"} => null => shape required
{"required":[1]} => null => shape required
{"additionalProperties":{}} => null => shape additionalProperties
{"properties":[]} => null => shape properties
{"properties":{"a":7}} => null => shape schema
{"items":7} => null => shape schema
{"items":[{}]} => null => shape schema
{"cordra":{"type":{"handleReference":null}}} => null => shape cordra
{"cordra":{"type":{"handleReference":{"types":[]}}}} => null => shape cordra
{"cordra":{"type":{"handleReference":{"types":[7]}}}} => null => shape cordra
{"pattern":"a","minimum":"a"} => null => shape minimum
{"uniqueItems":false,"type":"text"} => null => shape type
{"items":{"not":{}},"allOf":[]} => null => word allOf
{"items":{"not":{}},"oneOf":[]} => null => word not
{"properties":{"b":{"oneOf":[]},"a":7}} => null => shape schema
{"properties":{"b":7,"a":{"oneOf":[]}}} => null => word oneOf"##;

#[test]
fn the_first_fault_of_a_schema_is_reported(rt: HostRuntime) -> Result<(), Fail> {
    has_rows(&rt, rt.alloc(), FAULTS);
    Ok(())
}

// A text some times over, one in the middle, and another as many times.
fn nested(alloc: Global, before: &str, middle: &str, after: &str, depth: usize) -> Option<String> {
    let mut text = String::new(alloc);
    for _ in 0..depth {
        text.push_str(before).ok()?;
    }
    text.push_str(middle).ok()?;
    for _ in 0..depth {
        text.push_str(after).ok()?;
    }
    Some(text)
}

// Schemas in schemas and arrays in arrays, as deep as content may be.
fn nests(alloc: Global) -> Option<bool> {
    let schema = nested(alloc, "{\"items\":", "{\"maximum\":0}", "}", 63)?;
    let value = nested(alloc, "[", "1", "]", 63)?;
    let pointer = nested(alloc, "/0", "", "", 63)?;
    let want = format!(in alloc; "maximum at \"{}\"", pointer.as_str()).ok()?;
    Some(has_outcome(alloc, &schema, &value, &want))
}

#[test]
fn a_schema_nests_as_deep_as_content_may(rt: HostRuntime) -> Result<(), Fail> {
    assert!(rt; nests(rt.alloc()) == Some(true));
    Ok(())
}

// Adds a reference: its pointer, its identifier and each of its types.
fn add_reference(text: &mut String, pointer: &str, id: &str) -> Option<()> {
    text.push_str(pointer).ok()?;
    text.push_str(" ").ok()?;
    text.push_str(id).ok()?;
    Some(())
}

// The references that a schema lists in a value, each with its pointer, its identifier and its types.
fn listed(alloc: Global, schema: &str, value: &str) -> Option<String> {
    let schema = read(alloc, schema.as_bytes(), 127).ok()?;
    let schema = schema_of(alloc, &schema).ok()?;
    let value = read(alloc, value.as_bytes(), 127).ok()?;
    let found = references(alloc, &schema, &value).ok()?;
    let mut text = String::new(alloc);
    for reference in found.as_slice() {
        add_reference(&mut text, reference.pointer.get(), reference.id.get())?;
        for name in reference.types.as_slice() {
            text.push_str(" ").ok()?;
            text.push_str(name.get()).ok()?;
        }
        text.push_str(";").ok()?;
    }
    Some(text)
}

fn lists(alloc: Global, schema: &str, value: &str, want: &str) -> bool {
    match listed(alloc, schema, value) {
        Some(got) => got.as_str() == want,
        None => false,
    }
}

// `see` is an array of references to objects of two types, `by` a reference to one, `to` none.
const LINKS: &str = r#"{"properties":{
"see":{"items":{"cordra":{"type":{"handleReference":{"types":["N","M"]}}}}},
"by":{"cordra":{"type":{"handleReference":{"types":["P"]}}}}}}"#;

#[test]
fn references_are_listed_in_order(rt: HostRuntime) -> Result<(), Fail> {
    let value = r#"{"see":["35.T/1",7,"35.T/2"],"by":"35.T/3","to":"35.T/4"}"#;
    let want = "/by 35.T/3 P;/see/0 35.T/1 N M;/see/2 35.T/2 N M;";
    assert!(rt; lists(rt.alloc(), LINKS, value, want));
    assert!(rt; lists(rt.alloc(), LINKS, r#"{"by":["35.T/3"],"see":"35.T/1"}"#, ""));
    Ok(())
}

// A test that holds of references to one object.
struct OnlyOne {}

impl ReferenceTest for OnlyOne {
    ghost use Rattle.std.specs.Prelude.{codes, nat_eq};
    ghost use Rattle.std.specs.Cmp.Lexicographic.{pointwise};

    ghost holds_of = { λ _ id types. pointwise nat_eq id (codes "35.T/1") };

    fn holds(&self, id: &str, _: &Items<Str>) -> bool {
        id == "35.T/1"
    }
}

// Whether the test holds of each reference in a value.
fn holds_in(alloc: Global, value: &str) -> Option<bool> {
    let schema = read(alloc, LINKS.as_bytes(), 127).ok()?;
    let schema = schema_of(alloc, &schema).ok()?;
    let value = read(alloc, value.as_bytes(), 127).ok()?;
    Some(every_reference(&schema, &value, &OnlyOne {}))
}

#[test]
fn a_test_is_asked_of_every_reference(rt: HostRuntime) -> Result<(), Fail> {
    let alloc = rt.alloc();
    assert!(rt; holds_in(alloc, r#"{"by":"35.T/1","see":["35.T/1"],"to":"35.T/2"}"#) == Some(true));
    assert!(rt; holds_in(alloc, r#"{"by":"35.T/1","see":["35.T/1","35.T/2"]}"#) == Some(false));
    assert!(rt; holds_in(alloc, "{}") == Some(true));
    Ok(())
}

// How many strings an array has, if it has strings alone.
fn strings_in(alloc: Global, value: &str) -> Option<usize> {
    let value = read(alloc, value.as_bytes(), 127).ok()?;
    Some(strings_of(alloc, &value).ok()??.len())
}

#[test]
fn strings_are_those_of_an_array_of_strings_alone(rt: HostRuntime) -> Result<(), Fail> {
    let alloc = rt.alloc();
    assert!(rt; strings_in(alloc, r#"["a","b"]"#) == Some(2));
    assert!(rt; strings_in(alloc, "[]") == Some(0));
    assert!(rt; strings_in(alloc, r#"["a",7]"#).is_none());
    assert!(rt; strings_in(alloc, r#""a""#).is_none());
    Ok(())
}

// The schema of notes: a number, and another note that is seen.
const NOTE: &str = r#"{"type":"object","properties":{"n":{"type":"integer","minimum":0},
"see":{"type":"string","cordra":{"type":{"handleReference":{"types":["Note"]}}}}}}"#;

// The same with another least number.
const NOTE_FROM_TWO: &str = r#"{"type":"object","properties":{"n":{"type":"integer","minimum":2},
"see":{"type":"string","cordra":{"type":{"handleReference":{"types":["Note"]}}}}}}"#;

#[test]
fn a_note_is_checked(rt: HostRuntime) -> Result<(), Fail> {
    let alloc = rt.alloc();
    let one = r#"{"n":1,"see":"35.TEST/n1"}"#;
    let two = r#"{"n":5,"see":"35.TEST/n1"}"#;
    assert!(rt; has_outcome(alloc, NOTE, one, "valid"));
    assert!(rt; has_outcome(alloc, NOTE, two, "valid"));
    assert!(rt; has_outcome(alloc, NOTE_FROM_TWO, one, "minimum at \"/n\""));
    assert!(rt; has_outcome(alloc, NOTE_FROM_TWO, two, "valid"));
    assert!(rt; has_outcome(alloc, NOTE, r#"{"n":-1}"#, "minimum at \"/n\""));
    assert!(rt; has_outcome(alloc, NOTE, r#"{"see":"35.TEST/zz"}"#, "valid"));
    assert!(rt; has_outcome(alloc, NOTE, r#"{"see":7}"#, "type at \"/see\""));
    assert!(rt; has_outcome(alloc, NOTE, "null", "type at \"\""));
    let pattern = r#"{"type":"string","pattern":"a"}"#;
    assert!(rt; has_outcome(alloc, pattern, "null", "word pattern"));
    Ok(())
}

#[test]
fn the_references_of_a_note_are_listed(rt: HostRuntime) -> Result<(), Fail> {
    let alloc = rt.alloc();
    let one = r#"{"n":1,"see":"35.TEST/n1"}"#;
    let two = r#"{"n":5,"see":"35.TEST/n1"}"#;
    assert!(rt; lists(alloc, NOTE, one, "/see 35.TEST/n1 Note;"));
    assert!(rt; lists(alloc, NOTE, two, "/see 35.TEST/n1 Note;"));
    assert!(rt;
        lists(
            alloc,
            NOTE,
            r#"{"see":"35.TEST/zz"}"#,
            "/see 35.TEST/zz Note;"
        )
    );
    assert!(rt; lists(alloc, NOTE, r#"{"n":-1}"#, ""));
    Ok(())
}
