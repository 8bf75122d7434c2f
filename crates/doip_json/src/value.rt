//! A JSON value, its arrays and its objects.
ghost use Rattle.std.specs.Prelude.{◌≡◌, ◌≢◌, ◌<◌, List, ℕ, nat_eq, [], ◌∷◌, ◌++◌, length, slice_get, OnOk, OnErr, IfOk, IfErr, IsSome, IsNone, Some, None, map, option_map};
ghost use Rattle.std.specs.Ordering.{nat_cmp};
ghost use Rattle.std.specs.Cmp.Lexicographic.{slice_cmp, pointwise};
ghost use Rattle.std.specs.BTreeMap.{insert_entry};
ghost use Rattle.std.specs.Map.{keys_of, values_of, remove_entry};
ghost use Rattle.doip_json.specs.Places.{IsPlaceOf, IsGapFor};
ghost use Rattle.doip_json.specs.Sound.{IsAscending};

use crate::leaf::{Num, Str};
use std::alloc::{AllocError, Global};
use std::cmp::Ordering;
use std::marker::Model;
use std::mem;

/// A JSON value.
#[cycle(json)]
#[derive(Debug, Drop)]
pub enum Json {
    /// `null`.
    Null,
    /// `true` or `false`.
    Truth(bool),
    /// A number.
    Whole(Num),
    /// A string.
    Text(Str),
    /// An array.
    Items(JsonList),
    /// An object.
    Table(JsonMap),
}

/// The items of an array, seen as the list of their meanings.
#[cycle(json)]
#[derive(Debug, Drop)]
pub struct JsonList {
    items: Vec<Json>,
}

/// The entries of an object, seen as the list of keys and meanings, ascending by the keys' bytes.
#[cycle(json)]
#[derive(Debug, Drop)]
pub struct JsonMap {
    entries: Vec<(Str, Json)>,
}

impl Model for JsonList {
    ghost use Rattle.std.specs.Prelude.{List, map};
    ghost use Rattle.std.specs.Coded.{coded_list};
    ghost use Rattle.doip_json.specs.Value.{Value as Meaning, deepest_value, values_from};
    ghost use Rattle.doip_json.specs.Stored.{value_code};

    ghost Value = { List Meaning };

    ghost coded = { coded_list value_code };

    ghost use Rattle.doip_json.specs.Meaning.{value_of};
    ghost use Rattle.doip_json.specs.Sound.{AreSound};

    ghost view = { λ l. map value_of l.items.items };

    ghost invariant = { λ l. AreSound (values_from (map value_of l.items.items)) };

    ghost size = { λ vs. deepest_value (values_from vs) };

    ghost use Rattle.doip_json.specs.Falls.{items_fall};

    ghost size_decreases = { λ l h. items_fall l.items.items };
}

impl Model for JsonMap {
    ghost use Rattle.std.specs.Prelude.{List, ℕ};
    ghost use Rattle.std.specs.Coded.{coded_list, coded×, coded_ℕ};
    ghost use Rattle.doip_json.specs.Value.{Value as Meaning, deepest_entry, entries_from};
    ghost use Rattle.doip_json.specs.Stored.{value_code};

    ghost Value = { List (List ℕ × Meaning) };

    ghost coded = { coded_list (coded× (coded_list coded_ℕ) value_code) };

    ghost use Rattle.doip_json.specs.Meaning.{pairs_of};
    ghost use Rattle.doip_json.specs.Sound.{IsSound};
    ghost use Rattle.doip_json.specs.Value.{table};

    ghost view = { λ m. pairs_of m.entries.items };

    ghost invariant = { λ m. IsSound (table (entries_from (pairs_of m.entries.items))) };

    ghost size = { λ es. deepest_entry (entries_from es) };

    ghost use Rattle.doip_json.specs.Falls.{entries_fall};

    ghost size_decreases = { λ m h. entries_fall m.entries.items };
}

impl Json {
    ghost use Rattle.doip_json.specs.Meaning.{value_of};
    ghost use Rattle.doip_json.specs.Sound.{IsSound};

    // It does nothing when it runs: a proof learns here what every value keeps.
    pub(crate) fn recall(&self)
        ensures { IsSound (value_of self.now) }
    {
        match self {
            Json::Null | Json::Truth(_) => {}
            Json::Whole(number) => {
                let _ = number.get();
            }
            Json::Text(text) => {
                let _ = text.get();
            }
            Json::Items(list) => {
                let _ = &list.items;
            }
            Json::Table(map) => {
                let _ = &map.entries;
            }
        }
    }
}

impl JsonList {
    ghost use Rattle.doip_json.specs.Meaning.{value_of};

    /// An array with no items, which takes no memory.
    pub fn empty(alloc: Global) -> JsonList
        ensures { result ≡ [] }
    {
        JsonList {
            items: Vec::new(alloc),
        }
    }

    /// Adds the item at the end. Out of memory the array stays as it was.
    pub fn push(&mut self, item: Json) -> Result<(), AllocError>
        ensures ok { OnOk result (self.new ≡ self.old ++ value_of item ∷ []) }
        ensures err { OnErr result (self.new ≡ self.old) }
    {
        item.recall();
        self.items.push(item)?;
        Ok(())
    }

    /// How many items there are.
    pub fn len(&self) -> usize
        ensures { result ≡ length self.now }
    {
        self.items.len()
    }

    /// The item of this number, from 0.
    pub fn item(&self, i: usize) -> &Json
        requires { i < length self.now }
        ensures { slice_get self.now i ≡ Some (value_of result.now) }
    {
        &self.items[i]
    }

    /// The items, in order.
    pub fn items(&self) -> &[Json]
        ensures { map value_of result.now ≡ self.now }
    {
        &self.items
    }
}

impl JsonMap {
    ghost use Rattle.doip_json.specs.Meaning.{value_of, pairs_of};
    ghost use Rattle.doip_json.specs.Value.{entries_from, null};
    ghost use Rattle.doip_json.specs.Look.{entry_of};

    /// An object with no entries, which takes no memory.
    pub fn empty(alloc: Global) -> JsonMap
        ensures { result ≡ [] }
    {
        JsonMap {
            entries: Vec::new(alloc),
        }
    }

    /// Puts the value at the key, in place of one that is there. Out of memory the object stays as it was.
    ///
    /// The key is found by binary search. A new key moves the entries after it by one place, so keys that come in their
    /// order are added at the end.
    pub fn put(&mut self, key: Str, value: Json) -> Result<(), AllocError>
        ensures ok { OnOk result
            (self.new ≡ insert_entry (slice_cmp nat_cmp) self.old key (value_of value)) }
        ensures err { OnErr result (self.new ≡ self.old) }
    {
        let _ = key.get();
        value.recall();
        match self.place_of(key.get()) {
            Ok(at) => {
                self.entries[at].1 = value;
                Ok(())
            }
            Err(at) => {
                self.entries.insert(at, (key, value))?;
                Ok(())
            }
        }
    }

    // Adds a key that is above each key that is there.
    pub(crate) fn push_last(&mut self, key: Str, value: Json) -> Result<(), AllocError>
        requires { IsAscending (keys_of (self.old ++ (key, value_of value) ∷ [])) }
        ensures ok { OnOk result (self.new ≡ self.old ++ (key, value_of value) ∷ []) }
        ensures err { OnErr result (self.new ≡ self.old) }
    {
        let _ = key.get();
        value.recall();
        self.entries.push((key, value))?;
        Ok(())
    }

    /// Takes the value at the key, with no copy, and leaves null in its place. `None` exactly when the object lacks the
    /// key, and then it stays as it was.
    pub fn take(&mut self, key: &str) -> Option<Json>
        ensures value { option_map value_of result ≡ entry_of key.now (entries_from self.old) }
        ensures some { IsSome result → self.new ≡ insert_entry (slice_cmp nat_cmp) self.old key.now null }
        ensures none { IsNone result → self.new ≡ self.old }
        ensures others { (other : List ℕ) → other ≢ key.now →
            entry_of other (entries_from self.new) ≡ entry_of other (entries_from self.old) }
    {
        match self.place_of(key) {
            Ok(at) => Some(mem::replace(&mut self.entries[at].1, Json::Null)),
            Err(_) => None,
        }
    }

    /// Removes the key, and returns its value with no copy. `None` exactly when the object lacks the key, and then it
    /// stays as it was. The entries after it move by one place.
    pub fn remove(&mut self, key: &str) -> Option<Json>
        ensures value { option_map value_of result ≡ entry_of key.now (entries_from self.old) }
        ensures rest { self.new ≡ remove_entry (pointwise nat_eq key.now) self.old }
        ensures gone { entry_of key.now (entries_from self.new) ≡ None }
        ensures others { (other : List ℕ) → other ≢ key.now →
            entry_of other (entries_from self.new) ≡ entry_of other (entries_from self.old) }
    {
        match self.place_of(key) {
            Ok(at) => {
                let (_, value) = self.entries.remove(at);
                Some(value)
            }
            Err(_) => None,
        }
    }

    /// The value at the key, `None` exactly when the object lacks the key. It is found by binary search.
    pub fn get(&self, key: &str) -> Option<&Json>
        ensures { option_map (λ found. value_of found.now) result ≡ entry_of key.now (entries_from self.now) }
    {
        match self.place_of(key) {
            Ok(at) => Some(self.value_at(at)),
            Err(_) => None,
        }
    }

    /// The keys and their values, ascending by the keys' bytes.
    pub fn entries(&self) -> &[(Str, Json)]
        ensures { pairs_of result.now ≡ self.now }
    {
        &self.entries
    }

    /// How many keys there are.
    pub fn len(&self) -> usize
        ensures len { result ≡ length self.now }
        ensures ascending { IsAscending (keys_of self.now) }
    {
        self.entries.len()
    }

    /// The key of this number, from 0.
    pub fn key_at(&self, i: usize) -> &Str
        requires { i < length self.now }
        ensures { slice_get (keys_of self.now) i ≡ Some result.now }
    {
        &self.entries[i].0
    }

    /// The value of this number, from 0.
    pub fn value_at(&self, i: usize) -> &Json
        requires { i < length self.now }
        ensures { slice_get (values_of self.now) i ≡ Some (value_of result.now) }
    {
        &self.entries[i].1
    }

    // Where the key is, or where it would go.
    pub(crate) fn place_of(&self, key: &str) -> Result<usize, usize>
        ensures found { IfOk result (IsPlaceOf key.now self.now) }
        ensures absent { IfErr result (IsGapFor key.now self.now) }
        ensures ascends { IsAscending (keys_of self.now) }
    {
        let mut low = 0;
        let mut high = self.entries.len();
        while low < high {
            let middle = low + (high - low) / 2;
            match self.entries[middle].0.get().cmp(key) {
                Ordering::Less => low = middle + 1,
                Ordering::Equal => return Ok(middle),
                Ordering::Greater => high = middle,
            }
        }
        Err(low)
    }
}
