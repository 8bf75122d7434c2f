//! What was read of type objects, by the names of their types.
ghost use Rattle.std.specs.Prelude.{◌≡◌, ◌<◌, OnOk, option_map, string_bytes};
ghost use Rattle.std.specs.FinMap as finite;
ghost use Rattle.type_core.specs.Kept.{hook_of};

use crate::content::TypeContent;
use crate::names::is_built_in;
use indexmap::IndexMap;
use std::alloc::{AllocError, Global};
use std::marker::Model;

/// What type objects state, by the names of their types, in no order that means anything. A contract sees a finite map,
/// and how many more find room.
#[derive(Drop)]
pub struct Types {
    contents: IndexMap<String, TypeContent>,
}

impl Model for Types {
    ghost use Rattle.indexmap.specs.IndexMap.{spare};
    ghost use Rattle.type_core.specs.Types.{Stated, map_in, stated_code};

    ghost Value = { Stated };

    ghost use Rattle.type_core.specs.contracts.content.TypeContent as content;

    ghost coded = { stated_code content.the_row.coded };

    ghost view = { λ t. record { contents = map_in t.contents.entries; spare = spare t.contents } };
}

impl Types {
    /// Nothing of any name. It takes no memory.
    pub fn new(alloc: Global) -> Types
        ensures { result.contents ≡ finite.empty }
    {
        Types {
            contents: IndexMap::new(alloc),
        }
    }

    /// What is stated of the name, if something is.
    pub fn get(&self, name: &str) -> Option<&TypeContent>
        ensures { option_map (λ found. found.now) result ≡ finite.get self.now.contents name.now }
    {
        self.contents.get(name)
    }

    /// The name of the hook of a type, if something is stated of the type and it has a hook. A type that is built in has
    /// none.
    pub fn hook(&self, name: &str) -> Option<&str>
        ensures { option_map (λ hook. hook.now) result ≡ hook_of name.now (finite.get self.now.contents name.now) }
    {
        if is_built_in(name) {
            return None;
        }
        match self.get(name) {
            Some(content) => hook_in(content),
            None => None,
        }
    }

    /// Makes room for one more. The room at least doubles when it grows.
    ///
    /// # Errors
    /// Out of memory alone.
    pub fn reserve(&mut self) -> Result<(), AllocError>
        ensures contents { self.new.contents ≡ self.old.contents }
        ensures room { OnOk result (0 < self.new.spare) }
    {
        self.contents.reserve(1)
    }

    /// Keeps what is stated of the name, in the place of what was stated before. It takes no memory.
    pub fn put(&mut self, name: String, content: TypeContent)
        requires room { 0 < self.old.spare }
        ensures { self.new.contents ≡ finite.insert self.old.contents (string_bytes name) content }
    {
        match self.contents.insert(name, content) {
            Ok(_) => {}
            Err(_) => unreachable!(),
        }
    }

    /// Forgets what is stated of the name. It takes no memory.
    pub fn remove(&mut self, name: &str)
        ensures { self.new.contents ≡ finite.remove self.old.contents name.now }
    {
        self.contents.swap_remove(name);
    }
}

// The hook that a type object states.
fn hook_in(content: &TypeContent) -> Option<&str>
    ensures { option_map (λ hook. hook.now) result ≡ content.now.hook }
{
    match &content.hook {
        Some(hook) => Some(hook.get()),
        None => None,
    }
}
