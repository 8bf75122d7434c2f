//! What a caller may do.
ghost use Rattle.std.specs.Prelude.{◌≡◌, ◌↔◌, ◌||◌, codes, Some, None, IsTrue, option_map};
ghost use Rattle.std.specs.List.{list_any};
ghost use Rattle.doip_json.specs.Value.{list, values_from};
ghost use Rattle.dobj_model.specs.Object.{access_list};
ghost use Rattle.acl_core.specs.Granting.{texts_in, words_of, is_the_admin, HasRight, MayCreate};
ghost use Rattle.acl_core.specs.Rights.{is_named, grants_known, grants, any_grants, may_do, may_make};

use crate::caller::Caller;
use crate::groups::Groups;
use base_core::Items;
use dobj_model::Object;
use doip_json::{Json, JsonList, Str};

/// What a caller asks to do with an object.
#[derive(Clone, Copy, Debug, PartialEq, Eq)]
pub enum Right {
    /// To see it.
    Read,
    /// To change or remove it.
    Write,
}

/// The lists of a type: who may read, write and create its objects, where they don't say so themselves.
#[derive(Debug, Drop)]
pub struct TypeLists {
    /// Who may read.
    pub read: Items<Str>,
    /// Who may write.
    pub write: Items<Str>,
    /// Who may create.
    pub create: Items<Str>,
}

/// Whether the caller has the right on the object.
///
/// The admin may do all. An object's writers are those of its `acl`, or its type's list if it has none; readers
/// likewise. A word of the writers grants to write and to read, one of the readers to read: `public` to everybody,
/// `authenticated` to every known caller, `creator` to the one who created the object, `self` to the one whose
/// identifier is the object's, and any other word to the caller of this identifier and to each who is in the group of
/// this identifier. It takes no memory, and time linear in the lists, but for what the groups take.
pub fn may<G: Groups>(
    caller: &Caller,
    right: Right,
    object: &Object,
    lists: &TypeLists,
    groups: &G,
) -> bool
    ensures granted { IsTrue result ↔ HasRight (G.is_in groups.now) caller.now object.now lists.now right }

    // The same as a function, for a contract above that computes.
    ensures value { result ≡ may_do (G.is_in groups.now) caller.now right object.now lists.now }
{
    if is_admin(caller) {
        return true;
    }
    if grants_any(caller, object, object.writers(), &lists.write, groups) {
        return true;
    }
    match right {
        Right::Write => false,
        Right::Read => grants_any(caller, object, object.readers(), &lists.read, groups),
    }
}

/// Whether the caller may create an object of the type: the admin may, and whoever a word of the list grants it to, as
/// [`may`] says. `creator` and `self` grant nothing here. It takes no memory.
pub fn may_create<G: Groups>(caller: &Caller, lists: &TypeLists, groups: &G) -> bool
    ensures granted { IsTrue result ↔ MayCreate (G.is_in groups.now) caller.now lists.now }
    ensures value { result ≡ may_make (G.is_in groups.now) caller.now lists.now }
{
    is_admin(caller) || names_grant(&lists.create, caller, None, None, groups)
}

fn is_admin(caller: &Caller) -> bool
    ensures { result ≡ is_the_admin caller.now }
{
    match caller {
        Caller::Anonymous => false,
        Caller::Known { admin, .. } => *admin,
    }
}

// Whether a word of the object's list grants, or of its type's where it has none.
fn grants_any<G: Groups>(
    caller: &Caller,
    object: &Object,
    own: Option<&JsonList>,
    otherwise: &Items<Str>,
    groups: &G,
) -> bool
    ensures { result ≡ any_grants (G.is_in groups.now) caller.now object.now
        (option_map (λ words. list (values_from words.now)) own.entry) otherwise.now }
{
    let creator = Some(object.metadata().created_by.get());
    let id = Some(object.id().get());
    match own {
        Some(words) => words_grant(words, caller, creator, id, groups),
        None => names_grant(otherwise, caller, creator, id, groups),
    }
}

fn words_grant<G: Groups>(
    words: &JsonList,
    caller: &Caller,
    creator: Option<&str>,
    own: Option<&str>,
    groups: &G,
) -> bool
    ensures { result ≡ list_any (grants (G.is_in groups.now) (option_map (λ name. name.now) creator.entry)
        (option_map (λ name. name.now) own.entry) caller.now) (texts_in (values_from words.now)) }
{
    for i in 0..words.len() {
        if let Json::Text(word) = words.item(i) {
            if word_grants(word.get(), caller, creator, own, groups) {
                return true;
            }
        }
    }
    false
}

fn names_grant<G: Groups>(
    names: &Items<Str>,
    caller: &Caller,
    creator: Option<&str>,
    own: Option<&str>,
    groups: &G,
) -> bool
    ensures { result ≡ list_any (grants (G.is_in groups.now) (option_map (λ name. name.now) creator.entry)
        (option_map (λ name. name.now) own.entry) caller.now) names.now }
{
    for i in 0..names.len() {
        if word_grants(names.item(i).get(), caller, creator, own, groups) {
            return true;
        }
    }
    false
}

fn word_grants<G: Groups>(
    word: &str,
    caller: &Caller,
    creator: Option<&str>,
    own: Option<&str>,
    groups: &G,
) -> bool
    ensures { result ≡ grants (G.is_in groups.now) (option_map (λ name. name.now) creator.entry)
        (option_map (λ name. name.now) own.entry) caller.now word.now }
{
    match caller {
        Caller::Anonymous => word == "public",
        Caller::Known { id, .. } => known_grants(word, id.get(), creator, own, groups),
    }
}

fn known_grants<G: Groups>(
    word: &str,
    id: &str,
    creator: Option<&str>,
    own: Option<&str>,
    groups: &G,
) -> bool
    ensures { result ≡ grants_known (G.is_in groups.now) (option_map (λ name. name.now) creator.entry)
        (option_map (λ name. name.now) own.entry) id.now word.now }
{
    match word {
        "public" => true,
        "authenticated" => true,
        "creator" => is_called(creator, id),
        "self" => is_called(own, id),
        _ => word == id || groups.has(word, id),
    }
}

fn is_called(name: Option<&str>, id: &str) -> bool
    ensures { result ≡ is_named (option_map (λ name. name.now) name.entry) id.now }
{
    match name {
        Some(name) => name == id,
        None => false,
    }
}
