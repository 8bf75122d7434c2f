//! Each fault with an input, alone and before the next; what comes in, and what is shown of the object that is made.
use crate::{Draft, DraftElement, DraftElements, ObjectFault, ObjectField, draft_of};
use dobj_model::{Element, Elements, Metadata, Object, ObjectValue, append_text};
use doip_json::{Bytes, Json, Str, TextFault, read, text};
use doip_segment::{Kind, Message};
use std::alloc::Global;
use std::test::Fail;

// The helpers return `None` if anything fails.

// The segments that the row names, with a `|` between them: those of JSON begin with a `j`, and an empty row has none.
fn parts_of(alloc: Global, row: &str) -> Option<Message> {
    let mut parts = Message::empty(alloc);
    for part in row.split('|') {
        match part.strip_prefix('j') {
            Some(json) => parts.push(Kind::Json, json.as_bytes()).ok()?,
            None => {
                if !part.is_empty() {
                    parts.push(Kind::Bytes, part.as_bytes()).ok()?;
                }
            }
        }
    }
    Some(parts)
}

// What a row brings: a value after a `v`, or else segments.
fn draft_in(alloc: Global, row: &str) -> Option<Result<Draft, ObjectFault>> {
    match row.strip_prefix('v') {
        Some(value) => {
            let value = read(alloc, value.as_bytes(), 64).ok()?;
            Some(draft_of(alloc, Some(value), &Message::empty(alloc)))
        }
        None => {
            let parts = parts_of(alloc, row)?;
            Some(draft_of(alloc, None, &parts))
        }
    }
}

fn field_word(field: ObjectField) -> &'static str {
    match field {
        ObjectField::Id => "id",
        ObjectField::Type => "type",
        ObjectField::Attributes => "attributes",
        ObjectField::Acl => "acl",
        ObjectField::Elements => "elements",
        ObjectField::ElementId => "element id",
        ObjectField::ElementType => "element type",
        ObjectField::ElementAttributes => "element attributes",
    }
}

fn text_word(fault: TextFault) -> &'static str {
    match fault {
        TextFault::NotJson => "not JSON ",
        TextFault::TooDeep => "too deep ",
        TextFault::NotWhole => "not whole ",
    }
}

// Whether it is the word and then the number.
fn is_numbered(told: &str, word: &str, number: u64) -> bool {
    match told.strip_prefix(word) {
        Some(digits) => is_number(digits, number),
        None => false,
    }
}

fn is_number(digits: &str, number: u64) -> bool {
    match digits.parse::<u64>() {
        Ok(read) => read == number,
        Err(_) => false,
    }
}

// Whether it is the word and then the identifier.
fn is_named(told: &str, word: &str, id: &str) -> bool {
    match told.strip_prefix(word) {
        Some(name) => name == id,
        None => false,
    }
}

// Whether the fault is what a row tells.
fn is_fault(fault: &ObjectFault, told: &str) -> bool {
    match fault {
        ObjectFault::Missing => told == "missing",
        ObjectFault::Segment { number } => is_numbered(told, "segment ", *number),
        ObjectFault::Json { number, fault } => is_numbered(told, text_word(*fault), *number),
        ObjectFault::NotObject => told == "not object",
        ObjectFault::Signatures => told == "signatures",
        ObjectFault::BadField { name } => told == field_word(*name),
        ObjectFault::TooMany => told == "too many",
        ObjectFault::TwiceElement { id } => is_named(told, "twice ", id.get()),
        ObjectFault::Stranger { id } => is_named(told, "stranger ", id.get()),
        ObjectFault::Memory => false,
    }
}

// The same, or a draft with so many elements.
fn is_told(outcome: &Result<Draft, ObjectFault>, told: &str) -> bool {
    match outcome {
        Ok(draft) => is_numbered(told, "draft ", draft.elements.len() as u64),
        Err(fault) => is_fault(fault, told),
    }
}

fn push_times(text: &mut String, letter: char, count: u64) -> Option<()> {
    for _ in 0..count {
        text.push(letter).ok()?;
    }
    Some(())
}

// 999 elements whose identifiers are numbers, each with a comma after it.
fn push_elements(alloc: Global, text: &mut String) -> Option<()> {
    for i in 0..999_u64 {
        let item = format!(in alloc; "{{\"id\":\"{i}\"}},").ok()?;
        text.push_str(item.as_str()).ok()?;
    }
    Some(())
}

fn push_letter(alloc: Global, text: &mut String, letter: char) -> Option<()> {
    if letter == '<' {
        return push_times(text, '[', 62);
    }
    if letter == '>' {
        return push_times(text, ']', 62);
    }
    if letter == '^' {
        return push_elements(alloc, text);
    }
    text.push(letter).ok()
}

// The row with 62 brackets for each `<` and each `>`, and 999 elements for each `^`.
fn expanded(alloc: Global, row: &str) -> Option<String> {
    let mut text = String::new(alloc);
    for letter in row.chars() {
        push_letter(alloc, &mut text, letter)?;
    }
    Some(text)
}

// Each kind of fault alone, in the order in which they count; each beside the next, of which the earlier counts; and
// what has none. Some neighbours never meet: what comes beside no input, the text of a segment of bytes, the properties
// of what is no object, the `acl` of what is no `attributes`, a stranger without a name, and a segment that is missing
// and of the wrong kind.
const FAULTS: &str = r#" => missing
x => segment 1
jx => not JSON 1
j<[[[]]]> => too deep 1
j1.5 => not whole 1
j[] => not object
v[] => not object
v{"signatures":[1]} => signatures
v{"signatures":0} => signatures
v{"id":""} => id
v{"type":1} => type
v{"attributes":1} => attributes
v{"attributes":{"acl":1}} => acl
v{"attributes":{"acl":{"readers":[1]}}} => acl
v{"attributes":{"acl":{"writers":"a"}}} => acl
v{"elements":1} => elements
v{"elements":[{"id":"a"},1]} => elements
v{"elements":[^{"id":"a"},{"id":"b"}]} => too many
v{"elements":[{}]} => element id
v{"elements":[{"id":"a","type":1}]} => element type
v{"elements":[{"id":"a","attributes":1}]} => element attributes
v{"elements":[{"id":"abc"},{"id":"abc"}]} => twice abc
j{"elements":[{"id":"a"}]}|x|x => segment 2
j{"elements":[{"id":"a"}]}|jx|x => not JSON 2
j{"elements":[{"id":"a"}]}|j<[[[]]]>|x => too deep 2
j{"elements":[{"id":"a"}]}|j1.5|x => not whole 2
j{"elements":[{"id":"a"}]}|j1|x => segment 2
j{"elements":[{"id":"a"}]}|j{"id":1}|x => segment 2
j{"elements":[{"id":"a"}]}|j{"id":"ab"}|x => stranger ab
j{"elements":[{"id":"a"}]}|j{"id":"a"}|x|j{"id":"a"}|x => stranger a
j{"elements":[{"id":"a"}]}|j{"id":"a"} => segment 3
j{"elements":[{"id":"a"}]}|j{"id":"a"}|j1 => segment 3
j{"elements":[{"id":"a"}]}|j{"id":"a"}|x|x => segment 4
j<[[[]]]>x => not JSON 1
j<[[[1.5]]]> => too deep 1
j[1.5] => not whole 1
j[]|x => not object
v{"signatures":[1],"id":1} => signatures
v{"id":"","type":1} => id
v{"type":1,"attributes":1} => type
v{"attributes":1,"elements":1} => attributes
v{"attributes":{"acl":1},"elements":1} => acl
v{"elements":[^{"id":"a"},1]} => elements
v{"elements":[^{"id":"a"},{}]} => too many
v{"elements":[{"type":1}]} => element id
v{"elements":[{"id":"a","type":1,"attributes":1}]} => element type
v{"elements":[{"id":"a"},{"id":"a","attributes":1}]} => element attributes
v{"elements":[{"id":"abc"},{"id":"abc"},{}]} => twice abc
j{"elements":[{"id":"abc"},{"id":"abc"}]}|x => twice abc
j{"elements":[{}]}|x => element id
j{}|x|x => segment 2
j{}|j<[[[]]]>x => not JSON 2
j{}|j<[[[1.5]]]> => too deep 2
j{}|j[1.5] => not whole 2
j{}|j{} => segment 2
j{}|j{"id":"ab"} => stranger ab
j{"elements":[{"id":"a"}]}|j{"id":"a"}|x|j{"id":"a"}|j1 => stranger a
j{"elements":[{"id":"a"}]}|j{"id":"a"}|j1|x => segment 3
v{"id":null,"signatures":[],"elements":[{"id":"a","length":"x"},{"id":"b"}]} => draft 2
v{"elements":[^{"id":"a"}]} => draft 1000
j{"attributes":{"content":<>}} => draft 0
j{"attributes":{"content":[<>]}} => too deep 1
j{}|j[[<>]] => segment 2
j{}|j[[[<>]]] => too deep 2"#;

fn is_row(alloc: Global, row: &str) -> Option<bool> {
    let (input, told) = row.split_once(" => ")?;
    let input = expanded(alloc, input)?;
    let outcome = draft_in(alloc, input.as_str())?;
    Some(is_told(&outcome, told))
}

#[test]
fn each_fault_comes_before_those_after_it(rt: HostRuntime) -> Result<(), Fail> {
    for row in FAULTS.split('\n') {
        let holds = is_row(rt.alloc(), row);
        assert!(rt; holds.unwrap_or(false), "{row}");
    }
    Ok(())
}

fn draft(alloc: Global, row: &str) -> Option<Draft> {
    draft_in(alloc, row)?.ok()
}

// Whether a draft has neither identifier nor type.
fn is_nameless(draft: &Draft) -> bool {
    draft.id.is_none() && draft.type_name.is_none()
}

fn attributes_text(alloc: Global, draft: Draft) -> Option<Bytes> {
    text(alloc, &Json::Table(draft.attributes)).ok()
}

// Whether the draft in a row has neither identifier nor type, and these attributes.
fn keeps(alloc: Global, row: &str, attributes: &str) -> Option<bool> {
    let draft = draft(alloc, row)?;
    let nameless = is_nameless(&draft);
    let written = attributes_text(alloc, draft)?;
    Some(nameless && written.get() == attributes.as_bytes())
}

#[test]
fn null_and_metadata_are_not_kept(rt: HostRuntime) -> Result<(), Fail> {
    let row =
        r#"v{"attributes":{"acl":{"readers":null,"writers":["a"],"x":null},"content":null,"metadata":1,"other":null},"type":null}"#;
    let kept = keeps(
        rt.alloc(),
        row,
        r#"{"acl":{"writers":["a"],"x":null},"other":null}"#,
    );
    assert!(rt; kept.unwrap_or(false));
    Ok(())
}

// An element whose bytes came.
fn element_of(element: DraftElement) -> Option<Element> {
    let DraftElement {
        id,
        type_name,
        attributes,
        bytes,
    } = element;
    match bytes {
        Some(bytes) => Some(Element {
            id,
            type_name,
            attributes,
            bytes,
        }),
        None => None,
    }
}

fn elements_of(alloc: Global, drafted: DraftElements) -> Option<Elements> {
    let mut elements = Vec::new(alloc);
    for element in drafted.into_vec() {
        elements.push(element_of(element)?).ok()?;
    }
    Elements::of(elements)
}

// Created by admin at the time 0.
fn metadata(alloc: Global) -> Option<Metadata> {
    Some(Metadata {
        created_by: Str::of(alloc, "admin").ok()?,
        created_on: 0,
        modified_by: Str::of(alloc, "admin").ok()?,
        modified_on: 0,
        revision: 1,
    })
}

// The object that admin creates of a draft.
fn created(alloc: Global, draft: Draft) -> Option<Object> {
    let elements = elements_of(alloc, draft.elements)?;
    let metadata = metadata(alloc)?;
    Object::of(ObjectValue {
        id: draft.id?,
        type_name: draft.type_name?,
        attributes: draft.attributes,
        metadata,
        elements,
    })
}

fn object(alloc: Global, row: &str) -> Option<Object> {
    created(alloc, draft(alloc, row)?)
}

// The shown form, and a line feed.
fn shown(alloc: Global, object: &Object) -> Option<Vec<u8>> {
    let mut written = Vec::new(alloc);
    append_text(alloc, object, &mut written).ok()?;
    written.push(b'\n').ok()?;
    Some(written)
}

// A file of five bytes, sent with its object, and the same with a length of nine; a type, and two notes of it, of which
// each refers to the first; and two objects that a search looks at, without and with an `acl`. Each row is the input and
// what is shown of its object, with a `%` before the next.
const SHOWN: &str =
    r#"j{"id":"35.TEST/f","type":"0.TYPE/DO","elements":[{"id":"file"}]}|j{"id":"file"}|a
#
b
=> {"attributes":{"metadata":{"createdBy":"admin","createdOn":0,"modifiedBy":"admin","modifiedOn":0,"revision":1}},"elements":[{"id":"file","length":5}],"id":"35.TEST/f","type":"0.TYPE/DO"}
%j{"id":"35.TEST/f","type":"0.TYPE/DO","elements":[{"id":"file","length":9}]}|j{"id":"file"}|a
#
b
=> {"attributes":{"metadata":{"createdBy":"admin","createdOn":0,"modifiedBy":"admin","modifiedOn":0,"revision":1}},"elements":[{"id":"file","length":5}],"id":"35.TEST/f","type":"0.TYPE/DO"}
%v{"id":"35.TEST/t","type":"Schema","attributes":{"content":{"name":"Note","schema":{"type":"object","properties":{"n":{"type":"integer","minimum":0},"see":{"type":"string","cordra":{"type":{"handleReference":{"types":["Note"]}}}}}}}}}
=> {"attributes":{"content":{"name":"Note","schema":{"properties":{"n":{"minimum":0,"type":"integer"},"see":{"cordra":{"type":{"handleReference":{"types":["Note"]}}},"type":"string"}},"type":"object"}},"metadata":{"createdBy":"admin","createdOn":0,"modifiedBy":"admin","modifiedOn":0,"revision":1}},"id":"35.TEST/t","type":"Schema"}
%v{"id":"35.TEST/n1","type":"Note","attributes":{"content":{"n":1,"see":"35.TEST/n1"}}}
=> {"attributes":{"content":{"n":1,"see":"35.TEST/n1"},"metadata":{"createdBy":"admin","createdOn":0,"modifiedBy":"admin","modifiedOn":0,"revision":1}},"id":"35.TEST/n1","type":"Note"}
%v{"id":"35.TEST/n2","type":"Note","attributes":{"content":{"n":5,"see":"35.TEST/n1"}}}
=> {"attributes":{"content":{"n":5,"see":"35.TEST/n1"},"metadata":{"createdBy":"admin","createdOn":0,"modifiedBy":"admin","modifiedOn":0,"revision":1}},"id":"35.TEST/n2","type":"Note"}
%v{"id":"35.TEST/a1","type":"0.TYPE/DO","attributes":{"content":{"k":"x"}}}
=> {"attributes":{"content":{"k":"x"},"metadata":{"createdBy":"admin","createdOn":0,"modifiedBy":"admin","modifiedOn":0,"revision":1}},"id":"35.TEST/a1","type":"0.TYPE/DO"}
%v{"id":"35.TEST/a2","type":"0.TYPE/DO","attributes":{"content":{"k":"x"},"acl":{"readers":["admin"]}}}
=> {"attributes":{"acl":{"readers":["admin"]},"content":{"k":"x"},"metadata":{"createdBy":"admin","createdOn":0,"modifiedBy":"admin","modifiedOn":0,"revision":1}},"id":"35.TEST/a2","type":"0.TYPE/DO"}
"#;

fn is_shown(alloc: Global, row: &str) -> Option<bool> {
    let (input, want) = row.split_once("\n=> ")?;
    let object = object(alloc, input)?;
    let written = shown(alloc, &object)?;
    Some(written.as_slice() == want.as_bytes())
}

#[test]
fn what_comes_in_is_shown(rt: HostRuntime) -> Result<(), Fail> {
    for row in SHOWN.split('%') {
        let holds = is_shown(rt.alloc(), row);
        assert!(rt; holds.unwrap_or(false), "{row}");
    }
    Ok(())
}

// The bytes of an element, none where it isn't there.
fn bytes_of<'a>(object: &'a Object, id: &str) -> &'a [u8] {
    match object.elements().get(id) {
        Some(element) => element.bytes.get(),
        None => &[],
    }
}

// Whether the object in a row has an element of these bytes.
fn brings(alloc: Global, row: &str, id: &str, bytes: &str) -> Option<bool> {
    let object = object(alloc, row)?;
    Some(bytes_of(&object, id) == bytes.as_bytes())
}

#[test]
fn an_element_has_the_bytes_that_came(rt: HostRuntime) -> Result<(), Fail> {
    let row =
        "j{\"id\":\"35.TEST/f\",\"type\":\"0.TYPE/DO\",\"elements\":[{\"id\":\"file\",\"length\":9}]}\
        |j{\"id\":\"file\"}|a\n#\nb";
    let brought = brings(rt.alloc(), row, "file", "a\n#\nb");
    assert!(rt; brought.unwrap_or(false));
    Ok(())
}
