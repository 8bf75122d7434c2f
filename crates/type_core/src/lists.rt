//! The lists of a type.
ghost use Rattle.std.specs.Prelude.{◌≡◌, [], ◌∷◌, option_map, IfOk};
ghost use Rattle.doip_json.specs.Value.{entries_from};
ghost use Rattle.doip_json.specs.Meaning.{value_of};
ghost use Rattle.type_core.specs.declared.content.TypeFault.TheVariants as faults;
ghost use Rattle.schema_core.specs.Shapes.{names_in};
ghost use Rattle.type_core.specs.Content.{Reads, or_fault, words_at, lists_in, lists_of, default_lists, schema_lists};

use crate::content::TypeFault;
use acl_core::TypeLists;
use base_core::Items;
use doip_json::{Json, JsonMap, Str};
use schema_core::strings_of;
use std::alloc::{AllocError, Global};

/// The lists that an `authConfig` states, or those of a type that has none.
pub(crate) fn lists_of(alloc: Global, config: Option<&Json>) -> Result<TypeLists, TypeFault>
    ensures { Reads result (lists_of (option_map (λ v. value_of v.now) config.entry)) }
{
    match config {
        None => Ok(default_lists(alloc)?),
        Some(Json::Table(map)) => lists_in(alloc, map),
        Some(_) => Err(TypeFault::AuthConfig),
    }
}

/// The lists of the type of plain objects, and of a type whose type object has no `authConfig`: everybody may read,
/// the creator of an object write it, and every known caller create one.
pub fn default_lists(alloc: Global) -> Result<TypeLists, AllocError>
    ensures { IfOk result (λ lists. lists ≡ default_lists) }
{
    Ok(TypeLists {
        read: one(alloc, "public")?,
        write: one(alloc, "creator")?,
        create: one(alloc, "authenticated")?,
    })
}

/// The lists of the type of type objects: everybody may read, the creator write, and nobody but the admin create one.
pub fn schema_lists(alloc: Global) -> Result<TypeLists, AllocError>
    ensures { IfOk result (λ lists. lists ≡ schema_lists) }
{
    Ok(TypeLists {
        read: one(alloc, "public")?,
        write: one(alloc, "creator")?,
        create: Items::new(alloc),
    })
}

#[tactic(auto, unfolding(crate::specs::Content::lists_in))]
fn lists_in(alloc: Global, map: &JsonMap) -> Result<TypeLists, TypeFault>
    ensures { Reads result (lists_in (entries_from map.now)) }
{
    let read = words_at(alloc, map, "defaultAclRead", "public")?;
    let write = words_at(alloc, map, "defaultAclWrite", "creator")?;
    let create = words_at(alloc, map, "aclCreate", "authenticated")?;
    Ok(TypeLists {
        read,
        write,
        create,
    })
}

// The list at the key, or that of the word.
fn words_at(alloc: Global, map: &JsonMap, key: &str, word: &str) -> Result<Items<Str>, TypeFault>
    ensures { Reads result (words_at key.now word.now (entries_from map.now)) }
{
    match map.get(key) {
        Some(value) => words_in(alloc, value),
        None => Ok(one(alloc, word)?),
    }
}

fn words_in(alloc: Global, value: &Json) -> Result<Items<Str>, TypeFault>
    ensures { Reads result (or_fault (names_in (value_of value.now)) faults.AuthConfig) }
{
    match strings_of(alloc, value)? {
        Some(words) => Ok(words),
        None => Err(TypeFault::AuthConfig),
    }
}

// The list of one word.
fn one(alloc: Global, word: &str) -> Result<Items<Str>, AllocError>
    ensures { IfOk result (λ list. list ≡ word.now ∷ []) }
{
    let mut list = Items::new(alloc);
    list.push(Str::of(alloc, word)?)?;
    Ok(list)
}
