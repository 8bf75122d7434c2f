//! Names with codes.
ghost use Rattle.std.specs.Prelude.{◌≡◌, ◌≢◌, ◌<◌, [], ◌∷◌, ◌++◌, AllPairs, length, slice_get, Some, None, IfSome, IfNone, OnOk, OnErr, option_map};
ghost use Rattle.std.specs.Map.{keys_of, values_of};
ghost use Rattle.ext_ops.specs.Offered.{code_at};

use dobj_model::Id;
use indexmap::IndexMap;
use std::alloc::{AllocError, Global};
use std::marker::Model;

/// Names, each with a code, in the order in which they were added. A contract sees the list of names and codes.
#[derive(Drop)]
pub struct Names<C> {
    table: IndexMap<String, C>,
}

impl<C> Model for Names<C> {
    ghost use Rattle.std.specs.Prelude.{List, ℕ};
    ghost use Rattle.std.specs.Coded.{coded_list, coded×, coded_ℕ};
    ghost use Rattle.ext_ops.specs.Offered.{named};

    ghost Value = { List (List ℕ × C) };

    ghost coded = { coded_list (coded× (coded_list coded_ℕ) C.code) };

    ghost view = { λ names. named names.table.entries };
}

impl<C> Names<C> {
    // No names.
    pub(crate) fn none(alloc: Global) -> Names<C>
        ensures { result ≡ [] }
    {
        Names {
            table: IndexMap::new(alloc),
        }
    }

    /// How many names there are, all of them different.
    pub fn len(&self) -> usize
        ensures len { result ≡ length self.now }
        ensures differ { AllPairs (λ a b. a ≢ b) (keys_of self.now) }
    {
        self.table.len()
    }

    /// The name at this place, from 0.
    pub fn name(&self, place: usize) -> &str
        requires { place < length self.now }
        ensures { slice_get (keys_of self.now) place ≡ Some result.now }
    {
        match self.table.get_index(place) {
            Some((name, _)) => name.as_str(),
            None => unreachable!(),
        }
    }

    /// The code of a name, `None` exactly when the name isn't there. It is found by a hash.
    pub fn code(&self, name: &str) -> Option<&C>
        ensures { option_map (λ code. code.now) result ≡ code_at name.now self.now }
    {
        self.table.get(name)
    }

    // The place of a name.
    pub(crate) fn place_of(&self, name: &str) -> Option<usize>
        ensures some { IfSome result (λ place. slice_get (values_of self.now) place ≡ code_at name.now self.now) }
        ensures within { IfSome result (λ place. place < length self.now) }
        ensures none { IfNone result (code_at name.now self.now ≡ None) }
    {
        self.table.get_index_of(name)
    }
}

impl<C: Drop> Names<C> {
    // Adds a name that isn't there.
    pub(crate) fn push(&mut self, name: Id, code: C) -> Result<(), AllocError>
        requires { code_at name self.old ≡ None }
        ensures ok { OnOk result (self.new ≡ self.old ++ (name, code) ∷ []) }
        ensures err { OnErr result (self.new ≡ self.old) }
    {
        let name = name.into_text().into_string();
        self.table.insert(name, code)?;
        Ok(())
    }
}
