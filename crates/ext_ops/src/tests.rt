//! Closures that are added, called and refused, and one that a program adds under a name of its own.

ghost use Rattle.std.specs.Prelude.{◌≡◌, IfOk};
ghost use Rattle.ext_ops.specs.declared.code.ExtCode.TheVariants.{Digest};
ghost use Rattle.ext_ops.specs.Extended.{answer_of, ext};

use crate::{
    ExtAnswer, ExtCode, ExtFault, Extension, Extensions, HookAnswer, HookCode, WriteHook, count,
    digest, pick, trim,
};
use base_core::Bytes;
use dobj_model::{Element, Elements, Id, Metadata, Object, ObjectValue, TypeName};
use doip_json::{Json, JsonMap, Str, read, text};
use std::alloc::{AllocError, Global};
use std::test::Fail;

// The answer for the bytes `abc`, whose SHA-256 is an example of FIPS 180-4.
const DIGEST: &str = "{\"element\":\"e\",\"length\":3,\"sha256\":\
    \"ba7816bf8f01cfea414140de5dae2223b00361a396177a9cb410ff61f20015ad\"}";

// The helpers return `None` if anything fails.

fn id(alloc: Global, text: &str) -> Option<Id> {
    match Id::of(alloc, text) {
        Ok(id) => id,
        Err(_) => None,
    }
}

fn json(alloc: Global, text: &str) -> Option<Json> {
    read(alloc, text.as_bytes(), 64).ok()
}

fn arguments(alloc: Global, text: &str) -> Option<JsonMap> {
    match json(alloc, text)? {
        Json::Table(arguments) => Some(arguments),
        _ => None,
    }
}

// One element, `e`, of the bytes `abc`.
fn elements(alloc: Global) -> Option<Elements> {
    let element = Element {
        id: id(alloc, "e")?,
        type_name: None,
        attributes: None,
        bytes: Bytes::of(alloc, b"abc").ok()?,
    };
    let mut elements = Vec::new(alloc);
    elements.push(element).ok()?;
    Elements::of(elements)
}

// An object with the element, and a content.
fn object(alloc: Global) -> Option<Object> {
    let metadata = Metadata {
        created_by: Str::of(alloc, "admin").ok()?,
        created_on: 0,
        modified_by: Str::of(alloc, "admin").ok()?,
        modified_on: 0,
        revision: 1,
    };
    let id = id(alloc, "35.TEST/1")?;
    let type_name = TypeName::of(alloc, "0.TYPE/DO").ok()??;
    let attributes = arguments(alloc, r#"{"content":{"k":"x","a/b":[7]}}"#)?;
    let elements = elements(alloc)?;
    Object::of(ObjectValue {
        id,
        type_name,
        attributes,
        metadata,
        elements,
    })
}

// What an operation answers on the object: the text of the output or of the refusal, or `nothing`.
fn answer_to(
    alloc: Global,
    extensions: &Extensions,
    operation: &str,
    given: &str,
) -> Option<Bytes> {
    let given = arguments(alloc, given)?;
    let object = object(alloc)?;
    let told = match extensions.call(operation, &object, &given).ok()? {
        Some(ExtAnswer::Answer(value)) => text(alloc, &value),
        Some(ExtAnswer::Refused(reason)) => Bytes::of(alloc, reason.get().as_bytes()),
        None => Bytes::of(alloc, b"nothing"),
    };
    told.ok()
}

// What a hook makes of content, in the same way.
fn change_of(alloc: Global, extensions: &Extensions, name: &str, content: &str) -> Option<Bytes> {
    let content = json(alloc, content)?;
    let told = match extensions.hook(name, &content).ok()? {
        Some(HookAnswer::Content(value)) => text(alloc, &value),
        Some(HookAnswer::Refused(reason)) => Bytes::of(alloc, reason.get().as_bytes()),
        None => Bytes::of(alloc, b"nothing"),
    };
    told.ok()
}

// An extension of a program's own, as docs/EXTENDING.md shows it: the digest under another name.
fn sum_of(alloc: Global, object: &Object, arguments: &JsonMap) -> Result<ExtAnswer, AllocError>
    ensures { IfOk result (λ answer. answer_of answer ≡ ext Digest object.now arguments.now) }
{
    digest(alloc, object, arguments)
}

// Whether it was refused because the name is there.
fn is_twice(added: Result<(), ExtFault>, name: &str) -> bool {
    match added {
        Err(ExtFault::Twice { operation }) => operation.get() == name,
        _ => false,
    }
}

// What may cross threads.
fn crosses<T: Send>(_: &T) {}

#[test]
fn an_element_is_digested(rt: HostRuntime) -> Result<(), Fail> {
    let alloc = rt.alloc();
    let mut extensions = Extensions::none(alloc);
    let digests = Extension {
        code: ExtCode::Digest,
        operation: id(alloc, "ext/Op.Digest").expect(&rt, "memory"),
        call: Box::new(
            alloc,
            move |object: &Object, arguments: &JsonMap| digest(alloc, object, arguments),
        )
        .expect(&rt, "memory"),
    };
    extensions.add(digests).expect(&rt, "added");
    let sums = Extension {
        code: ExtCode::Digest,
        operation: id(alloc, "ext/Op.Sum").expect(&rt, "an identifier"),
        call: Box::new(
            alloc,
            move |object: &Object, arguments: &JsonMap| sum_of(alloc, object, arguments),
        )
        .expect(&rt, "memory"),
    };
    extensions.add(sums).expect(&rt, "added");
    crosses(&extensions);
    let rows = [
        ("ext/Op.Digest", r#"{"element":"e"}"#, DIGEST),
        ("ext/Op.Digest", "{}", "element"),
        ("ext/Op.Digest", r#"{"element":"z"}"#, "element"),
        ("ext/Op.Sum", r#"{"element":"e"}"#, DIGEST),
        ("ext/Op.Other", "{}", "nothing"),
    ];
    for (operation, given, want) in rows {
        let got = answer_to(alloc, &extensions, operation, given).expect(&rt, "answered");
        assert_eq!(rt; got.get(), want.as_bytes(), "at {operation} {given}");
    }
    Ok(())
}

#[test]
fn a_value_is_picked_and_no_second_pick_is_added(rt: HostRuntime) -> Result<(), Fail> {
    let alloc = rt.alloc();
    let mut extensions = Extensions::none(alloc);
    let picks = Extension {
        code: ExtCode::Pick,
        operation: id(alloc, "ext/Op.Pick").expect(&rt, "an identifier"),
        call: Box::new(
            alloc,
            move |object: &Object, arguments: &JsonMap| pick(alloc, object, arguments),
        )
        .expect(&rt, "memory"),
    };
    extensions.add(picks).expect(&rt, "added");
    let again = Extension {
        code: ExtCode::Digest,
        operation: id(alloc, "ext/Op.Pick").expect(&rt, "an identifier"),
        call: Box::new(
            alloc,
            move |object: &Object, arguments: &JsonMap| digest(alloc, object, arguments),
        )
        .expect(&rt, "memory"),
    };
    assert!(rt; is_twice(extensions.add(again), "ext/Op.Pick"));
    assert_eq!(rt; extensions.operations().len(), 1);
    assert_eq!(rt; extensions.operations().name(0), "ext/Op.Pick");
    // The repository has this operation itself; it is kept all the same.
    let own = Extension {
        code: ExtCode::Digest,
        operation: id(alloc, "0.DOIP/Op.Hello").expect(&rt, "an identifier"),
        call: Box::new(
            alloc,
            move |object: &Object, arguments: &JsonMap| digest(alloc, object, arguments),
        )
        .expect(&rt, "memory"),
    };
    extensions.add(own).expect(&rt, "added");
    assert_eq!(rt; extensions.operations().name(1), "0.DOIP/Op.Hello");
    let rows = [
        (r#"{"pointer":"/k"}"#, r#"{"value":"x"}"#),
        (r#"{"pointer":"/a~1b/0"}"#, r#"{"value":7}"#),
        (r#"{"pointer":"/a~2b"}"#, "pointer"),
    ];
    for (given, want) in rows {
        let got = answer_to(alloc, &extensions, "ext/Op.Pick", given).expect(&rt, "answered");
        assert_eq!(rt; got.get(), want.as_bytes(), "at {given}");
    }
    Ok(())
}

#[test]
fn strings_are_trimmed_and_no_second_trim_is_added(rt: HostRuntime) -> Result<(), Fail> {
    let alloc = rt.alloc();
    let mut extensions = Extensions::none(alloc);
    let trims = WriteHook {
        code: HookCode::Trim,
        name: id(alloc, "trim").expect(&rt, "an identifier"),
        call: Box::new(alloc, move |content: &Json| trim(alloc, content)).expect(&rt, "memory"),
    };
    extensions.add_hook(trims).expect(&rt, "added");
    let again = WriteHook {
        code: HookCode::Trim,
        name: id(alloc, "trim").expect(&rt, "an identifier"),
        call: Box::new(alloc, move |content: &Json| trim(alloc, content)).expect(&rt, "memory"),
    };
    assert!(rt; is_twice(extensions.add_hook(again), "trim"));
    let rows = [
        (r#"{"t":"  a b "}"#, r#"{"t":"a b"}"#),
        (
            r#"{"t":"\t a\f ","u":[" b "]}"#,
            r#"{"t":"a\f","u":[" b "]}"#,
        ),
        (r#"" a ""#, r#"" a ""#),
    ];
    for (content, want) in rows {
        let got = change_of(alloc, &extensions, "trim", content).expect(&rt, "answered");
        assert_eq!(rt; got.get(), want.as_bytes(), "at {content}");
    }
    Ok(())
}

#[test]
fn keys_are_counted(rt: HostRuntime) -> Result<(), Fail> {
    let alloc = rt.alloc();
    let mut extensions = Extensions::none(alloc);
    let counts = WriteHook {
        code: HookCode::Count,
        name: id(alloc, "count").expect(&rt, "an identifier"),
        call: Box::new(alloc, move |content: &Json| count(alloc, content)).expect(&rt, "memory"),
    };
    extensions.add_hook(counts).expect(&rt, "added");
    let rows = [
        ("count", r#"{"count":9,"a":1}"#, r#"{"a":1,"count":1}"#),
        ("count", "[1]", "content"),
        ("x", "{}", "nothing"),
    ];
    for (name, content, want) in rows {
        let got = change_of(alloc, &extensions, name, content).expect(&rt, "answered");
        assert_eq!(rt; got.get(), want.as_bytes(), "at {name} {content}");
    }
    Ok(())
}
