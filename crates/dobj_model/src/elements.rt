//! The elements of an object.
ghost use Rattle.std.specs.Prelude.{◌≡◌, ◌≢◌, ◌<◌, ◌↔◌, [], List, All, AllPairs, Any, Option, map, find, length};
ghost use Rattle.std.specs.Prelude.{slice_get, Some, IsTrue, nat_eq, option_map};
ghost use Rattle.std.specs.Option.{SomeIff};
ghost use Rattle.std.specs.Cmp.Lexicographic.{pointwise};
ghost use Rattle.dobj_model.specs.Elements.{AreElements, ids_of};

use crate::id::Id;
use base_core::Bytes;
use doip_json::{JsonMap, Str};
use std::alloc::Global;
use std::marker::Model;

/// The most elements of an object.
const MOST: usize = 1000;
/// An element has fewer bytes.
pub(crate) const BOUND: usize = 10_000_000_000;

/// An element of an object: bytes, and what describes them.
#[derive(Debug, Drop)]
pub struct Element {
    /// It differs from those of the object's other elements.
    pub id: Id,
    /// The text of its `type`, if it has one.
    pub type_name: Option<Str>,
    /// Its `attributes`, if it has some.
    pub attributes: Option<JsonMap>,
    /// The bytes, fewer than 10^10.
    pub bytes: Bytes,
}

/// The elements of an object, in order: at most 1,000, with different identifiers, each of fewer than 10^10 bytes. A
/// contract sees them as their list.
#[derive(Debug, Drop)]
pub struct Elements {
    items: Vec<Element>,
}

impl Model for Elements {
    ghost use Rattle.std.specs.Prelude.{List};
    ghost use Rattle.std.specs.Coded.{coded_list};
    ghost use Rattle.dobj_model.specs.declared.elements.Element.{Element};
    ghost use Rattle.dobj_model.specs.contracts.elements.Element as element;

    ghost Value = { List Element };

    ghost coded = { coded_list element.the_row.coded };

    ghost use Rattle.dobj_model.specs.Elements.{AreElements};

    ghost view = { λ e. e.items.items };

    ghost invariant = { λ e. AreElements e.items.items };
}

impl Elements {
    /// The elements of an object, `None` exactly when there are more than 1,000, two have one identifier, or one has
    /// 10^10 bytes or more. It takes no memory and copies nothing.
    pub fn of(items: Vec<Element>) -> Option<Elements>
        ensures { SomeIff result (AreElements items.items) items.items }
    {
        if fits(items.as_slice()) {
            Some(Elements { items })
        } else {
            None
        }
    }

    /// No elements. It takes no memory.
    pub fn none(alloc: Global) -> Elements
        ensures { result ≡ [] }
    {
        Elements {
            items: Vec::new(alloc),
        }
    }

    /// How many there are.
    pub fn len(&self) -> usize
        ensures { result ≡ length self.now }
    {
        self.items.len()
    }

    /// Whether there is none.
    pub fn is_empty(&self) -> bool
        ensures { IsTrue result ↔ (self.now ≡ []) }
    {
        self.items.is_empty()
    }

    /// The element at this place, from 0.
    pub fn item(&self, index: usize) -> &Element
        requires { index < length self.now }
        ensures { slice_get self.now index ≡ Some result.now }
    {
        &self.items[index]
    }

    /// All of them, lent.
    pub fn as_slice(&self) -> &[Element]
        ensures items { result.now ≡ self.now }
        ensures elements { AreElements self.now }
    {
        self.items.as_slice()
    }

    /// All of them. It takes no memory.
    pub fn into_vec(self) -> Vec<Element>
        ensures items { result.items ≡ self }
        ensures elements { AreElements self }
    {
        let Elements { items } = self;
        items
    }

    /// The element with this identifier, `None` exactly when there is none. It compares one after another.
    pub fn get(&self, id: &str) -> Option<&Element>
        ensures { option_map (λ found. found.now) result ≡ find (λ e. pointwise nat_eq e.id id.now) self.now }
    {
        self.items.iter().find(|element| element.id.get() == id)
    }
}

// Whether one object may have these elements.
fn fits(items: &[Element]) -> bool
    ensures { IsTrue result ↔ AreElements items.now }
{
    if items.len() > MOST {
        return false;
    }
    if !are_small(items, BOUND) {
        return false;
    }
    differ(items)
}

/// Whether each element has fewer bytes than the bound. The bound is an argument, so that a test can meet it.
pub(crate) fn are_small(items: &[Element], bound: usize) -> bool
    ensures { IsTrue result ↔ All (λ e. length e.bytes < bound) items.now }
{
    items
        .iter()
        .all(|element| element.bytes.get().len() < bound)
}

// Whether no two elements have one identifier.
fn differ(items: &[Element]) -> bool
    ensures { IsTrue result ↔ AllPairs (λ a b. a ≢ b) (ids_of items.now) }
{
    for i in 0..items.len() {
        if has_id(&items[..i], &items[i].id) {
            return false;
        }
    }
    true
}

// Whether one of the elements has the identifier.
fn has_id(items: &[Element], id: &Id) -> bool
    ensures { IsTrue result ↔ Any (λ e. e.id ≡ id.now) items.now }
{
    items.iter().any(|element| element.id == *id)
}
