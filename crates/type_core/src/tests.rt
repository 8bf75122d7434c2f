//! Type objects with each fault, failures of content, references, and the names that are given.
ghost use Rattle.std.specs.Prelude.{◌≡◌};

use crate::{
    Failure, TypeContent, TypeFault, Typed, Types, default_lists, first_failing, first_unmet, fits,
    is_type_object, leans_on, makes, name_given, schema_lists, type_of,
};
use acl_core::TypeLists;
use dobj_model::{Elements, Id, Metadata, Object, ObjectValue, TypeName};
use doip_json::{Json, JsonMap, Str, read};
use schema_core::{Schema, schema_of};
use std::alloc::Global;
use std::process::Abort;
use std::test::Fail;

// The helpers return `None` if anything fails.

fn metadata(alloc: Global) -> Option<Metadata> {
    Some(Metadata {
        created_by: Str::of(alloc, "admin").ok()?,
        created_on: 0,
        modified_by: Str::of(alloc, "admin").ok()?,
        modified_on: 0,
        revision: 1,
    })
}

fn map_of(alloc: Global, text: &str) -> Option<JsonMap> {
    match read(alloc, text.as_bytes(), 60).ok()? {
        Json::Table(map) => Some(map),
        _ => None,
    }
}

// An object with the identifier `o`, of this type and with these attributes.
fn object(alloc: Global, type_name: &str, attributes: &str) -> Option<Object> {
    object_at(alloc, "o", type_name, attributes)
}

// The same with this identifier.
fn object_at(alloc: Global, id: &str, type_name: &str, attributes: &str) -> Option<Object> {
    let id = Id::of(alloc, id).ok()??;
    let type_name = TypeName::of(alloc, type_name).ok()??;
    let attributes = map_of(alloc, attributes)?;
    let metadata = metadata(alloc)?;
    let elements = Elements::of(Vec::new(alloc))?;
    Object::of(ObjectValue {
        id,
        type_name,
        attributes,
        metadata,
        elements,
    })
}

fn schema(alloc: Global, text: &str) -> Option<Schema> {
    let value = read(alloc, text.as_bytes(), 60).ok()?;
    schema_of(alloc, &value).ok()
}

// The name of a type, the first word of each of its lists, and its hook.
fn type_shown(alloc: Global, content: &TypeContent) -> Option<String> {
    let hook = match &content.hook {
        Some(hook) => hook.get(),
        None => "-",
    };
    let name = content.name.get();
    let lists = lists_shown(alloc, &content.lists)?;
    format!(in alloc; "{name} {} {hook}", lists.as_str()).ok()
}

// The first word of each list.
fn lists_shown(alloc: Global, lists: &TypeLists) -> Option<String> {
    let read = first_word(lists.read.as_slice());
    let write = first_word(lists.write.as_slice());
    let create = first_word(lists.create.as_slice());
    format!(in alloc; "{read} {write} {create}").ok()
}

fn first_word(words: &[Str]) -> &str {
    match words.first() {
        Some(word) => word.get(),
        None => "-",
    }
}

fn fault_shown(alloc: Global, fault: &TypeFault) -> Option<String> {
    match fault {
        TypeFault::Name => String::from_str(alloc, "name").ok(),
        TypeFault::Word { name } => format!(in alloc; "word {}", name.get()).ok(),
        TypeFault::Shape { name } => format!(in alloc; "shape {}", name.get()).ok(),
        TypeFault::AuthConfig => String::from_str(alloc, "authConfig").ok(),
        TypeFault::Memory => None,
    }
}

// What a type object with these attributes states.
fn stated(alloc: Global, attributes: &str) -> Option<String> {
    let object = object(alloc, "Schema", attributes)?;
    match type_of(alloc, &object) {
        Ok(content) => type_shown(alloc, &content),
        Err(fault) => fault_shown(alloc, &fault),
    }
}

// Attributes of a type object, and what they state.
const TYPES: &str =
    r#"{"content":{"name":"Card","schema":{}}} => Card public creator authenticated -
{"content":{"name":"Card","schema":{},"hook":"trim"}} => Card public creator authenticated trim
{"content":{"name":"Card","schema":{},"hook":7}} => Card public creator authenticated -
{"content":{"name":"C","schema":{},"authConfig":{}}} => C public creator authenticated -
{"content":{"name":"C","schema":{},"authConfig":{"aclCreate":[]}}} => C public creator - -
{"content":{"name":"C","schema":{},"authConfig":{"defaultAclRead":["a","b"]}}} => C a creator authenticated -
{"content":{"name":"C","schema":{},"authConfig":{"defaultAclWrite":["self"]}}} => C public self authenticated -
{} => name
{"content":[]} => name
{"content":{"schema":{}}} => name
{"content":{"name":7,"schema":{}}} => name
{"content":{"name":"","schema":{}}} => name
{"content":{"name":"0.TYPE/DO","schema":{}}} => name
{"content":{"name":"Schema","schema":7,"authConfig":7}} => name
{"content":{"name":"C"}} => shape schema
{"content":{"name":"C","schema":7,"authConfig":7}} => shape schema
{"content":{"name":"C","schema":{"type":"whole"}}} => shape type
{"content":{"name":"C","schema":{"allOf":[],"type":"whole"}}} => word allOf
{"content":{"name":"C","schema":{},"authConfig":null}} => authConfig
{"content":{"name":"C","schema":{},"authConfig":{"aclCreate":"a"}}} => authConfig
{"content":{"name":"C","schema":{},"authConfig":{"defaultAclRead":[1]}}} => authConfig
{"content":{"name":"C","schema":{},"authConfig":{"defaultAclWrite":null}}} => authConfig"#;

// Whether the row's attributes state what stands after them.
fn is_row(alloc: Global, row: &str) -> bool {
    let Some((attributes, outcome)) = row.split_once(" => ") else {
        return false;
    };
    match stated(alloc, attributes) {
        Some(text) => text.as_str() == outcome,
        None => false,
    }
}

#[test]
fn each_part_of_a_type_object_is_stated_or_has_its_fault(rt: HostRuntime) -> Result<(), Fail> {
    let alloc = rt.alloc();
    for row in TYPES.split('\n') {
        let holds = is_row(alloc, row);
        assert!(rt; holds, "{row}");
    }
    Ok(())
}

// The lists of the types that are built in.
fn built_in_lists(alloc: Global) -> Option<String> {
    let plain = lists_shown(alloc, &default_lists(alloc).ok()?)?;
    let schema = lists_shown(alloc, &schema_lists(alloc).ok()?)?;
    format!(in alloc; "{}; {}", plain.as_str(), schema.as_str()).ok()
}

#[test]
fn types_that_are_built_in_have_their_lists(rt: HostRuntime) -> Result<(), Fail> {
    let lists = built_in_lists(rt.alloc()).ok_or("lists")?;
    assert_eq!(rt;
        lists.as_str(),
        "public creator authenticated; public creator -"
    );
    Ok(())
}

fn failure_shown(alloc: Global, failure: &Failure) -> Option<String> {
    let word = failure.word.word();
    let pointer = failure.pointer.get();
    format!(in alloc; "{word} at {pointer}").ok()
}

// The first failure of an object with these attributes.
fn failed(alloc: Global, rules: &str, attributes: &str) -> Option<String> {
    let object = object(alloc, "Card", attributes)?;
    let rules = schema(alloc, rules)?;
    match first_failing(alloc, &rules, &object).ok()? {
        Some(failure) => failure_shown(alloc, &failure),
        None => String::from_str(alloc, "none").ok(),
    }
}

fn fails_as(alloc: Global, rules: &str, attributes: &str, outcome: &str) -> bool {
    match failed(alloc, rules, attributes) {
        Some(text) => text.as_str() == outcome,
        None => false,
    }
}

#[test]
fn the_first_failure_is_told_by_word_and_pointer(rt: HostRuntime) -> Result<(), Fail> {
    let alloc = rt.alloc();
    let rules = r#"{"properties":{"n":{"type":"integer"},"m":{"maximum":0}}}"#;
    let attributes = r#"{"content":{"n":"x","m":1}}"#;
    assert!(rt; fails_as(alloc, rules, attributes, "maximum at /m"));
    let attributes = r#"{"content":{"n":"x","m":0}}"#;
    assert!(rt; fails_as(alloc, rules, attributes, "type at /n"));
    assert!(rt; fails_as(alloc, rules, r#"{"content":{"n":1}}"#, "none"));
    let rules = r#"{"type":"object"}"#;
    assert!(rt; fails_as(alloc, rules, "{}", "type at "));
    let rules = r#"{"type":"null"}"#;
    assert!(rt; fails_as(alloc, rules, "{}", "none"));
    Ok(())
}

// One object besides, with the identifier `p` and the type `Box`.
struct Beside {}

impl Typed for Beside {
    ghost use Rattle.std.specs.Prelude.{codes, ◌&&◌};
    ghost use Rattle.type_core.specs.Names.{is_text};

    ghost is_of = { λ _ id name. is_text id (codes "p") && is_text name (codes "Box") };

    fn has_type(&self, id: &str, type_name: &str) -> bool {
        id == "p" && type_name == "Box"
    }
}

// The pointer of the first reference that isn't met, of an object `o` of the type `Card`, beside `p`.
fn unmet(alloc: Global, attributes: &str) -> Option<String> {
    let rules =
        r#"{"properties":{"r":{"items":{"cordra":{"type":{"handleReference":{"types":["Box","Card"]}}}}}}}"#;
    let object = object(alloc, "Card", attributes)?;
    let rules = schema(alloc, rules)?;
    match first_unmet(alloc, &rules, &object, &Beside {}).ok()? {
        Some(pointer) => Some(pointer.into_string()),
        None => String::from_str(alloc, "none").ok(),
    }
}

fn is_unmet(rt: &impl Abort, alloc: Global, attributes: &str, outcome: &str) -> Result<(), Fail> {
    match unmet(alloc, attributes) {
        Some(text) => assert_eq!(rt; text.as_str(), outcome),
        None => return Err(Fail::from("out of memory")),
    }
    Ok(())
}

#[test]
fn a_reference_is_met_by_the_object_itself_and_by_others(rt: HostRuntime) -> Result<(), Fail> {
    let alloc = rt.alloc();
    is_unmet(&rt, alloc, r#"{"content":{"r":["p","o"]}}"#, "none")?;
    is_unmet(&rt, alloc, r#"{"content":{"r":["p","q","o"]}}"#, "/r/1")?;
    is_unmet(&rt, alloc, "{}", "none")?;
    Ok(())
}

// References to objects of two types.
const LINKS: &str =
    r#"{"type":"object","properties":{"r":{"items":{"cordra":{"type":{"handleReference":{"types":["Box","Card"]}}}}}}}"#;

// Whether an object `o` with these attributes fits the schema of links, beside `p`.
fn is_fit(alloc: Global, attributes: &str) -> Option<bool> {
    let object = object(alloc, "Card", attributes)?;
    let rules = schema(alloc, LINKS)?;
    Some(fits(&rules, &object, &Beside {}))
}

#[test]
fn an_object_fits_by_its_content_and_its_references(rt: HostRuntime) -> Result<(), Fail> {
    let alloc = rt.alloc();
    assert!(rt; is_fit(alloc, r#"{"content":{"r":["p"]}}"#) == Some(true));
    assert!(rt; is_fit(alloc, r#"{"content":{"r":["p","q"]}}"#) == Some(false));
    assert!(rt; is_fit(alloc, r#"{"content":[]}"#) == Some(false));
    assert!(rt; is_fit(alloc, "{}") == Some(false));
    Ok(())
}

// Whether an object of the type `Card` with these attributes leans on another one.
fn leans(alloc: Global, other: &Object, attributes: &str) -> Option<bool> {
    let object = object_at(alloc, "q", "Card", attributes)?;
    let rules = schema(alloc, LINKS)?;
    Some(leans_on(other, &rules, &object))
}

// Whether it leans on a type object `o` that gives this name.
fn leans_on_type(alloc: Global, given: &str, attributes: &str) -> Option<bool> {
    let other = object(alloc, "Schema", given)?;
    leans(alloc, &other, attributes)
}

#[test]
fn an_object_leans_on_its_type_and_on_what_it_refers_to(rt: HostRuntime) -> Result<(), Fail> {
    let alloc = rt.alloc();
    let card = r#"{"content":{"name":"Card"}}"#;
    let pack = r#"{"content":{"name":"Box"}}"#;
    assert!(rt; leans_on_type(alloc, card, "{}") == Some(true));
    assert!(rt; leans_on_type(alloc, pack, "{}") == Some(false));
    assert!(rt; leans_on_type(alloc, pack, r#"{"content":{"r":["p","o"]}}"#) == Some(true));
    assert!(rt; leans_on_type(alloc, pack, r#"{"content":{"r":["p"],"s":["o"]}}"#) == Some(false));
    Ok(())
}

// Whether an object of this type and with these attributes makes the type `Card`.
fn makes_card(alloc: Global, type_name: &str, attributes: &str) -> Option<bool> {
    let object = object(alloc, type_name, attributes)?;
    Some(makes(&object, "Card"))
}

#[test]
fn a_type_object_makes_the_type_that_it_names(rt: HostRuntime) -> Result<(), Fail> {
    let alloc = rt.alloc();
    let card = r#"{"content":{"name":"Card"}}"#;
    assert!(rt; makes_card(alloc, "Schema", card) == Some(true));
    assert!(rt; makes_card(alloc, "0.TYPE/DO", card) == Some(false));
    assert!(rt; makes_card(alloc, "Schema", r#"{"content":{"name":"card"}}"#) == Some(false));
    assert!(rt; makes_card(alloc, "Schema", "{}") == Some(false));
    Ok(())
}

// Whether an object of this type is a type object.
fn is_type(alloc: Global, type_name: &str) -> Option<bool> {
    let object = object(alloc, type_name, "{}")?;
    Some(is_type_object(&object))
}

#[test]
fn type_objects_are_those_of_the_type_schema(rt: HostRuntime) -> Result<(), Fail> {
    assert!(rt; is_type(rt.alloc(), "Schema") == Some(true));
    assert!(rt; is_type(rt.alloc(), "schema") == Some(false));
    Ok(())
}

// Whether the name that is given is this one.
fn gives(alloc: Global, type_name: &str, attributes: &str, name: Option<&str>) -> bool {
    match object(alloc, type_name, attributes) {
        Some(object) => name_given(&object) == name,
        None => false,
    }
}

#[test]
fn type_objects_alone_give_names(rt: HostRuntime) -> Result<(), Fail> {
    let alloc = rt.alloc();
    let attributes = r#"{"content":{"name":"Card"}}"#;
    assert!(rt; gives(alloc, "Schema", attributes, Some("Card")));
    assert!(rt; gives(alloc, "0.TYPE/DO", attributes, None));
    assert!(rt; gives(alloc, "Schema", "{}", None));
    assert!(rt; gives(alloc, "Schema", r#"{"content":{"name":7}}"#, None));
    Ok(())
}

// Keeps what a type object with these attributes states.
fn keep(alloc: Global, types: &mut Types, attributes: &str) -> Option<()> {
    let object = object(alloc, "Schema", attributes)?;
    let content = type_of(alloc, &object).ok()?;
    let name = String::from_str(alloc, content.name.get()).ok()?;
    types.reserve().ok()?;
    types.put(name, content);
    Some(())
}

#[test]
fn what_was_read_is_kept_by_name(rt: HostRuntime) -> Result<(), Fail> {
    let alloc = rt.alloc();
    let mut types = Types::new(alloc);
    let card = r#"{"content":{"name":"Card","schema":{},"hook":"trim"}}"#;
    keep(alloc, &mut types, card).ok_or("kept")?;
    let other = r#"{"content":{"name":"Box","schema":{},"hook":"count"}}"#;
    keep(alloc, &mut types, other).ok_or("kept")?;
    assert!(rt; types.hook("Card") == Some("trim"));
    assert!(rt; types.hook("Box") == Some("count"));
    assert!(rt; types.get("card").is_none());
    assert!(rt; types.hook("card").is_none());
    assert!(rt; types.hook("Schema").is_none());
    types.remove("Card");
    assert!(rt; types.get("Card").is_none());
    assert!(rt; types.hook("Box") == Some("count"));
    Ok(())
}
