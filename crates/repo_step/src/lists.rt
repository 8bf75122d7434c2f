//! The lists of the built-in type.
ghost use Rattle.std.specs.Prelude.{◌≡◌, ◌∷◌, [], IfOk};
ghost use Rattle.repo_state.specs.Types.{plain_lists, no_lists};

use acl_core::TypeLists;
use base_core::Items;
use doip_json::Str;
use std::alloc::{AllocError, Global};

/// Who may read, write and create plain objects.
pub(crate) fn plain_lists(alloc: Global) -> Result<TypeLists, AllocError>
    ensures { IfOk result (λ lists. lists ≡ plain_lists) }
{
    Ok(TypeLists {
        read: one(alloc, "public")?,
        write: one(alloc, "creator")?,
        create: one(alloc, "authenticated")?,
    })
}

/// No list grants anything. It takes no memory.
pub(crate) fn no_lists(alloc: Global) -> TypeLists
    ensures { result ≡ no_lists }
{
    TypeLists {
        read: Items::new(alloc),
        write: Items::new(alloc),
        create: Items::new(alloc),
    }
}

// A list of one word.
fn one(alloc: Global, word: &str) -> Result<Items<Str>, AllocError>
    ensures { IfOk result (λ list. list ≡ word.now ∷ []) }
{
    let mut list = Items::new(alloc);
    list.push(Str::of(alloc, word)?)?;
    Ok(list)
}
