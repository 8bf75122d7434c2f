//! The objects of a table, which are handed out by identifier or by place, and in no other way.
ghost use Rattle.std.specs.Prelude.{◌≡◌, ◌<◌, ◌≤◌, [], length, slice_get, Some, OnOk, OnErr, nat_eq, option_map, string_bytes};
ghost use Rattle.std.specs.Cmp.Lexicographic.{pointwise};
ghost use Rattle.std.specs.List.{IsDistinct};
ghost use Rattle.std.specs.Map.{keys_of};
ghost use Rattle.std.specs.FinMap as finite;
ghost use Rattle.repo_state.specs.Rows.{objects_in};
ghost use Rattle.repo_state.specs.Sound.{AreNamed};

use dobj_model::Object;
use indexmap::IndexMap;
use std::alloc::{AllocError, Global};
use std::marker::Model;

/// Objects by identifier, in no order that means anything. A contract sees the rows of identifier and object, and how
/// many more find room.
#[derive(Drop)]
pub struct Rows {
    objects: IndexMap<String, Object>,
}

impl Model for Rows {
    ghost use Rattle.indexmap.specs.IndexMap.{spare};
    ghost use Rattle.repo_state.specs.Rows.{Kept, rows_in};

    ghost Value = { Kept };

    ghost use Rattle.dobj_model.specs.contracts.object.ObjectValue as object;
    ghost use Rattle.repo_state.specs.Codes.{kept_code};

    ghost coded = { kept_code object.the_row.coded };

    ghost view = { λ r. record { rows = rows_in r.objects.entries; spare = spare r.objects } };

    ghost use Rattle.repo_state.specs.Rows.{objects_in};
    ghost use Rattle.repo_state.specs.Sound.{AreNamed};

    ghost invariant = { λ r. AreNamed (objects_in (rows_in r.objects.entries)) };
}

impl Rows {
    /// No rows. It takes no memory.
    pub fn new(alloc: Global) -> Rows
        ensures { result.rows ≡ [] }
    {
        Rows {
            objects: IndexMap::new(alloc),
        }
    }

    /// How many rows there are. No identifier stands twice.
    pub fn len(&self) -> usize
        ensures length { result ≡ length self.now.rows }
        ensures distinct { IsDistinct (pointwise nat_eq) (keys_of self.now.rows) }
    {
        self.objects.len()
    }

    /// The object in the row at this place, from 0.
    pub fn look(&self, place: usize) -> &Object
        requires { place < length self.now.rows }
        ensures { slice_get self.now.rows place ≡ Some (result.now.id, result.now) }
    {
        match self.objects.get_index(place) {
            Some((_, object)) => object,
            None => unreachable!(),
        }
    }

    /// The object of the identifier, if there is one.
    pub fn get(&self, id: &str) -> Option<&Object>
        ensures found { option_map (λ found. found.now) result ≡ finite.get (objects_in self.now.rows) id.now }
        ensures named { AreNamed (objects_in self.now.rows) }
    {
        self.objects.get(id)
    }

    /// Makes room for one more row. The room at least doubles when it grows.
    pub fn reserve(&mut self) -> Result<(), AllocError>
        ensures rows { self.new.rows ≡ self.old.rows }
        ensures room { OnOk result (0 < self.new.spare) }
    {
        self.objects.reserve(1)
    }

    /// Puts the object in the row of its identifier. It takes no memory.
    pub fn put(&mut self, id: String, object: Object)
        requires room { 0 < self.old.spare }
        requires id { string_bytes id ≡ object.id }
        ensures { objects_in self.new.rows ≡ finite.insert (objects_in self.old.rows) object.id object }
    {
        match self.objects.insert(id, object) {
            Ok(_) => {}
            Err(_) => unreachable!(),
        }
    }

    /// Takes the row of the identifier away, if there is one. It takes no memory.
    pub fn remove(&mut self, id: &str)
        ensures { objects_in self.new.rows ≡ finite.remove (objects_in self.old.rows) id.now }
    {
        self.objects.swap_remove(id);
    }
}
