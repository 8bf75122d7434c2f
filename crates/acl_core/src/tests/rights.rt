//! Whom each word grants what, at objects and at types.

use crate::{Caller, Groups, Right, TypeLists, may, may_create};
use base_core::Items;
use dobj_model::{Elements, Id, Metadata, Object, ObjectValue, TypeName};
use doip_json::{JsonMap, Str, read};
use std::alloc::{AllocError, Global};
use std::test::Fail;

// One group, `g`, with one user, `alice`.
#[derive(Clone, Copy)]
struct OneGroup;

impl Groups for OneGroup {
    ghost use Rattle.acl_core.specs.Example.{is_alice_in_g};

    ghost is_in = { λ _. is_alice_in_g };

    fn has(&self, group: &str, user: &str) -> bool {
        group == "g" && user == "alice"
    }
}

// The same once the group is removed.
#[derive(Clone, Copy)]
struct NoGroup;

impl Groups for NoGroup {
    ghost use Rattle.acl_core.specs.Example.{is_in_none};

    ghost is_in = { λ _. is_in_none };

    fn has(&self, _group: &str, _user: &str) -> bool {
        false
    }
}

// The callers, each with the letter that stands for it below: `-` is anonymous, `r` the admin.
const CALLERS: [(&str, &str); 6] = [
    ("-", ""),
    ("a", "alice"),
    ("b", "bob"),
    ("c", "carol"),
    ("p", "35.TEST/p"),
    ("r", "admin"),
];

fn caller(alloc: Global, id: &str) -> Result<Caller, AllocError> {
    if id.is_empty() {
        return Ok(Caller::Anonymous);
    }
    Ok(Caller::Known {
        id: Str::of(alloc, id)?,
        admin: id == "admin",
    })
}

// The object `35.TEST/p` that carol created, with this `acl`.
fn object(alloc: Global, acl: &str) -> Result<Object, Fail> {
    let mut attributes = JsonMap::empty(alloc);
    if !acl.is_empty() {
        attributes.put(Str::of(alloc, "acl")?, read(alloc, acl.as_bytes(), 64)?)?;
    }
    let value = ObjectValue {
        id: Id::of(alloc, "35.TEST/p")?.ok_or("no identifier")?,
        type_name: TypeName::of(alloc, "0.TYPE/DO")?.ok_or("no type")?,
        attributes,
        metadata: Metadata {
            created_by: Str::of(alloc, "carol")?,
            created_on: 1,
            modified_by: Str::of(alloc, "carol")?,
            modified_on: 1,
            revision: 1,
        },
        elements: Elements::none(alloc),
    };
    match Object::of(value) {
        Some(object) => Ok(object),
        None => Err(Fail::from("no object")),
    }
}

fn words(alloc: Global, word: &str) -> Result<Items<Str>, AllocError> {
    let mut words = Items::new(alloc);
    words.push(Str::of(alloc, word)?)?;
    Ok(words)
}

fn lists(alloc: Global, read: &str, write: &str, create: &str) -> Result<TypeLists, AllocError> {
    Ok(TypeLists {
        read: words(alloc, read)?,
        write: words(alloc, write)?,
        create: words(alloc, create)?,
    })
}

// The letters of those who have the right.
fn who_may(
    alloc: Global,
    right: Right,
    object: &Object,
    lists: &TypeLists,
) -> Result<String, AllocError> {
    let mut letters = String::new(alloc);
    for (letter, id) in CALLERS {
        if may(&caller(alloc, id)?, right, object, lists, &OneGroup) {
            letters.push_str(letter)?;
        }
    }
    Ok(letters)
}

// The letters of those who may create.
fn who_may_create(alloc: Global, lists: &TypeLists) -> Result<String, AllocError> {
    let mut letters = String::new(alloc);
    for (letter, id) in CALLERS {
        if may_create(&caller(alloc, id)?, lists, &OneGroup) {
            letters.push_str(letter)?;
        }
    }
    Ok(letters)
}

// Whether those who may read an object with this word among its readers are these.
fn are_readers(alloc: Global, word: &str, want: &str) -> Result<bool, Fail> {
    let acl = format!(in alloc; "{{\"readers\":[\"x\",\"{word}\"],\"writers\":[]}}")?;
    let object = object(alloc, acl.as_str())?;
    let lists = lists(alloc, "x", "x", "x")?;
    let letters = who_may(alloc, Right::Read, &object, &lists)?;
    Ok(letters.as_str() == want)
}

// The same of those who may write an object without lists, of a type with this word in its list of writers.
fn are_writers(alloc: Global, word: &str, want: &str) -> Result<bool, Fail> {
    let object = object(alloc, "")?;
    let lists = lists(alloc, "x", word, "x")?;
    let letters = who_may(alloc, Right::Write, &object, &lists)?;
    Ok(letters.as_str() == want)
}

// The same of those who may create objects of a type with this word in its list.
fn are_creators(alloc: Global, word: &str, want: &str) -> Result<bool, Fail> {
    let lists = lists(alloc, "x", "x", word)?;
    let letters = who_may_create(alloc, &lists)?;
    Ok(letters.as_str() == want)
}

// A word, those whom it grants an object, and those whom it grants to create.
const WORDS: &str = "public|-abcpr|-abcpr
authenticated|abcpr|abcpr
creator|cr|r
self|pr|r
bob|br|br
g|ar|ar
anonymous|r|r
Public|r|r";

fn grants(alloc: Global, row: &str) -> Result<bool, Fail> {
    let (word, rest) = row.split_once('|').ok_or("a word")?;
    let (of_object, of_type) = rest.split_once('|').ok_or("callers")?;
    Ok(
        are_readers(alloc, word, of_object)?
            && are_writers(alloc, word, of_object)?
            && are_creators(alloc, word, of_type)?,
    )
}

#[test]
fn each_word_grants_to_whom_it_says(rt: HostRuntime) -> Result<(), Fail> {
    for row in WORDS.split('\n') {
        assert!(rt; grants(rt.alloc(), row)?, "{row}");
    }
    Ok(())
}

// An `acl`, and those who may read and who may write an object with it.
const LISTS: &str = r#"|-abcpr|cr
{}|-abcpr|cr
{"readers":["g"]}|acr|cr
{"readers":[]}|cr|cr
{"writers":["g"]}|-abcpr|ar"#;

// Whether those who have the right at an object with this `acl` are these.
fn may_with(alloc: Global, acl: &str, right: Right, want: &str) -> Result<bool, Fail> {
    let usual = lists(alloc, "public", "creator", "authenticated")?;
    let object = object(alloc, acl)?;
    let letters = who_may(alloc, right, &object, &usual)?;
    Ok(letters.as_str() == want)
}

fn hides(alloc: Global, row: &str) -> Result<bool, Fail> {
    let (acl, rest) = row.split_once('|').ok_or("an acl")?;
    let (readers, writers) = rest.split_once('|').ok_or("callers")?;
    Ok(may_with(alloc, acl, Right::Read, readers)? && may_with(alloc, acl, Right::Write, writers)?)
}

#[test]
fn the_lists_of_an_object_hide_those_of_its_type(rt: HostRuntime) -> Result<(), Fail> {
    for row in LISTS.split('\n') {
        assert!(rt; hides(rt.alloc(), row)?, "{row}");
    }
    Ok(())
}

// Whether alice may read an object whose readers are the group `g`.
fn may_alice(alloc: Global, removed: bool) -> Result<bool, Fail> {
    let usual = lists(alloc, "public", "creator", "authenticated")?;
    let object = object(alloc, "{\"readers\":[\"g\"]}")?;
    let alice = caller(alloc, "alice")?;
    if removed {
        Ok(may(&alice, Right::Read, &object, &usual, &NoGroup))
    } else {
        Ok(may(&alice, Right::Read, &object, &usual, &OneGroup))
    }
}

#[test]
fn a_group_that_is_removed_grants_nothing(rt: HostRuntime) -> Result<(), Fail> {
    assert!(rt; may_alice(rt.alloc(), false)?);
    assert!(rt; !may_alice(rt.alloc(), true)?);
    Ok(())
}
