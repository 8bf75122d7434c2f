//! What a type object states.
ghost use Rattle.std.specs.Prelude.{◌≡◌, option_map, codes, IfOk};
ghost use Rattle.doip_json.specs.Meaning.{value_of};
ghost use Rattle.doip_json.specs.Look.{field_of};
ghost use Rattle.type_core.specs.Names.{string_at, checked_content};
ghost use Rattle.type_core.specs.Content.{Reads, name_in, rules_of, schema_in, type_in};

use crate::lists::lists_of;
use crate::names::{may_name, string_at};
use acl_core::TypeLists;
use dobj_model::Object;
use doip_json::{Json, Str, get};
use schema_core::{Schema, SchemaFault, schema_of};
use std::alloc::{AllocError, Global};

/// What the content of a type object states.
#[derive(Debug, Drop)]
pub struct TypeContent {
    /// The name of the type.
    pub name: Str,
    /// What the content of its objects is valid to.
    pub schema: Schema,
    /// Who may read, write and create its objects, where they don't say so themselves.
    pub lists: TypeLists,
    /// The name of the hook that changes content before it is checked, if the type has one.
    pub hook: Option<Str>,
}

/// Why the content of a type object makes no type.
#[derive(Debug, Drop)]
pub enum TypeFault {
    /// It is no JSON object, or its `name` is no string of 1 to 255 bytes, or names a type that is built in.
    Name,
    /// Its `schema` has a word that is not supported.
    Word {
        /// The word.
        name: Str,
    },
    /// Its `schema` has a value of another shape than its word asks for.
    Shape {
        /// The word; `schema` for a schema that is no JSON object or is missing.
        name: Str,
    },
    /// Its `authConfig` is no JSON object, or has a list that is no array of strings.
    AuthConfig,
    /// An allocation was refused.
    Memory,
}

impl From<AllocError> for TypeFault {
    ghost use Rattle.std.specs.Prelude.{◌≡◌};
    ghost use Rattle.type_core.specs.declared.content.TypeFault.TheVariants.{Memory};

    ghost from_gives = { λ _ fault. fault ≡ Memory };

    fn from(_: AllocError) -> TypeFault {
        TypeFault::Memory
    }
}

/// What the object states as a type object: `content.name`, `content.schema`, the lists of `content.authConfig` and
/// `content.hook`. Its type is not asked.
///
/// # Errors
/// The first of these that holds, in this order: `Name`, `Word` or `Shape` as the first fault of the schema, and
/// `AuthConfig`. The lists are `defaultAclRead`, `defaultAclWrite` and `aclCreate`; one that is absent has the word
/// `public`, `creator` or `authenticated`. `Memory` comes only if an allocation was refused.
#[tactic(auto, unfolding(crate::specs::Content::type_in))]
pub fn type_of(alloc: Global, object: &Object) -> Result<TypeContent, TypeFault>
    ensures { Reads result (type_in (checked_content object.now)) }
{
    match object.content() {
        Some(content) => type_in(alloc, content),
        None => Err(TypeFault::Name),
    }
}

#[tactic(auto, unfolding(crate::specs::Content::type_in))]
fn type_in(alloc: Global, content: &Json) -> Result<TypeContent, TypeFault>
    ensures { Reads result (type_in (value_of content.now)) }
{
    let name = name_in(alloc, content)?;
    let schema = schema_in(alloc, content)?;
    let lists = lists_of(alloc, get(content, "authConfig"))?;
    let hook = hook_in(alloc, content)?;
    Ok(TypeContent {
        name,
        schema,
        lists,
        hook,
    })
}

fn name_in(alloc: Global, content: &Json) -> Result<Str, TypeFault>
    ensures { Reads result (name_in (value_of content.now)) }
{
    match string_at(content, "name") {
        Some(name) => if may_name(name) {
            Ok(Str::of(alloc, name)?)
        } else {
            Err(TypeFault::Name)
        },
        None => Err(TypeFault::Name),
    }
}

fn schema_in(alloc: Global, content: &Json) -> Result<Schema, TypeFault>
    ensures { Reads result (schema_in (value_of content.now)) }
{
    match get(content, "schema") {
        Some(schema) => rules_of(alloc, schema),
        None => rules_of(alloc, &Json::Null),
    }
}

fn rules_of(alloc: Global, value: &Json) -> Result<Schema, TypeFault>
    ensures { Reads result (rules_of (value_of value.now)) }
{
    match schema_of(alloc, value) {
        Ok(schema) => Ok(schema),
        Err(SchemaFault::Word { name }) => Err(TypeFault::Word { name }),
        Err(SchemaFault::Shape { name }) => Err(TypeFault::Shape { name }),
        Err(SchemaFault::Memory) => Err(TypeFault::Memory),
    }
}

fn hook_in(alloc: Global, content: &Json) -> Result<Option<Str>, AllocError>
    ensures { IfOk result (λ hook. hook ≡ string_at (codes "hook") (value_of content.now)) }
{
    match string_at(content, "hook") {
        Some(name) => Ok(Some(Str::of(alloc, name)?)),
        None => Ok(None),
    }
}
