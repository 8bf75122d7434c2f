//! Who is in which group.
ghost use Rattle.std.specs.Prelude.{◌≡◌};
ghost use Rattle.std.specs.List.{list_any};
ghost use Rattle.doip_json.specs.Meaning.{value_of};
ghost use Rattle.repo_state.specs.Groups.{has_user, lists_string, is_string};

use crate::Table;
use acl_core::Groups;
use dobj_model::Object;
use doip_json::{Json, JsonList, get};

/// The type of groups.
const GROUP: &str = "Group";

impl Groups for Table {
    ghost use Rattle.repo_state.specs.Groups.{is_in_group};

    ghost is_in = { λ t group user. is_in_group t.contents.objects group user };

    fn has(&self, group: &str, user: &str) -> bool {
        match self.get(group) {
            Some(object) => has_user(object, user),
            None => false,
        }
    }
}

// Whether the object is a group that has the user.
fn has_user(object: &Object, user: &str) -> bool
    ensures { result ≡ has_user user.now object.now }
{
    if object.type_name().get() != GROUP {
        return false;
    }
    let Some(content) = object.content() else {
        return false;
    };
    match get(content, "users") {
        Some(users) => lists(users, user),
        None => false,
    }
}

// Whether the value is an array that has the string.
fn lists(value: &Json, word: &str) -> bool
    ensures { result ≡ lists_string word.now (value_of value.now) }
{
    match value {
        Json::Items(items) => has_string(items, word),
        _ => false,
    }
}

// Whether an item is the string.
fn has_string(items: &JsonList, word: &str) -> bool
    ensures { result ≡ list_any (is_string word.now) items.now }
{
    for i in 0..items.len() {
        if is(items.item(i), word) {
            return true;
        }
    }
    false
}

// Whether the value is the string.
fn is(value: &Json, word: &str) -> bool
    ensures { result ≡ is_string word.now (value_of value.now) }
{
    match value {
        Json::Text(text) => text.get() == word,
        _ => false,
    }
}
