//! An object, and what it is made of.
ghost use Rattle.std.specs.Prelude.{◌≡◌, ◌≤◌, ◌↔◌, IsTrue, None, codes, length, option_map};
ghost use Rattle.std.specs.Option.{SomeIff};
ghost use Rattle.doip_json.specs.Sound.{IsSound};
ghost use Rattle.doip_json.specs.Value.{list, entries_from, values_from};
ghost use Rattle.doip_json.specs.Meaning.{value_of};
ghost use Rattle.doip_json.specs.Look.{entry_of, field_of};
ghost use Rattle.doip_json.specs.Text.{text_of};
ghost use Rattle.dobj_model.specs.Object.{IsObject, IsMetadata, IfThere, IsTextList, access_list};
ghost use Rattle.dobj_model.specs.Shown.{shown_form};

use crate::attributes::are_attributes;
use crate::elements::{Element, Elements};
use crate::id::Id;
use crate::measure::{nests, shown_length};
use crate::metadata::Metadata;
use crate::type_name::TypeName;
use doip_json::{Json, JsonList, JsonMap, get};
use std::marker::Model;

/// The most bytes of the text of a shown form.
pub(crate) const LONGEST_TEXT: u32 = 0xffff_ffff;

/// What an object is made of. Contracts see an object as this.
#[derive(Debug, Drop)]
pub struct ObjectValue {
    /// The identifier.
    pub id: Id,
    /// The name of its type.
    pub type_name: TypeName,
    /// The `attributes` without `metadata`.
    pub attributes: JsonMap,
    /// The `metadata`.
    pub metadata: Metadata,
    /// The elements, in order.
    pub elements: Elements,
}

/// A digital object. A contract sees it as its [`ObjectValue`], of which `IsObject` holds.
#[derive(Debug, Drop)]
pub struct Object {
    inside: ObjectValue,
}

impl Model for Object {
    ghost use Rattle.dobj_model.specs.declared.object.ObjectValue.{ObjectValue};
    ghost use Rattle.dobj_model.specs.contracts.object.ObjectValue as made_of;

    ghost Value = { ObjectValue };

    ghost coded = { made_of.the_row.coded };

    ghost use Rattle.doip_json.specs.Sound.{IsSound};
    ghost use Rattle.dobj_model.specs.Object.{IsObject};
    ghost use Rattle.dobj_model.specs.Shown.{shown_form};

    ghost view = { λ o. o.inside };

    ghost invariant = { λ o. IsObject o.inside × IsSound (shown_form o.inside) };
}

impl Object {
    /// The object that is made of this, `None` exactly when `IsObject` doesn't hold of it. It takes no memory, and time
    /// linear in the shown form, of which it builds nothing.
    pub fn of(value: ObjectValue) -> Option<Object>
        ensures { SomeIff result (IsObject value) value }
    {
        if fits(&value) {
            Some(Object { inside: value })
        } else {
            None
        }
    }

    /// What the object is made of, lent.
    pub fn value(&self) -> &ObjectValue
        ensures value { result.now ≡ self.now }
        ensures object { IsObject self.now }
        ensures sound { IsSound (shown_form self.now) }
    {
        &self.inside
    }

    /// What the object is made of. It takes no memory.
    pub fn into_value(self) -> ObjectValue
        ensures value { result ≡ self }
        ensures object { IsObject self }
        ensures sound { IsSound (shown_form self) }
    {
        let Object { inside } = self;
        inside
    }

    /// The identifier.
    pub fn id(&self) -> &Id
        ensures { result.now ≡ self.now.id }
    {
        &self.inside.id
    }

    /// The name of the type.
    pub fn type_name(&self) -> &TypeName
        ensures { result.now ≡ self.now.type_name }
    {
        &self.inside.type_name
    }

    /// The `attributes` without `metadata`.
    pub fn attributes(&self) -> &JsonMap
        ensures { result.now ≡ self.now.attributes }
    {
        &self.inside.attributes
    }

    /// The `metadata`.
    pub fn metadata(&self) -> &Metadata
        ensures { result.now ≡ self.now.metadata }
    {
        &self.inside.metadata
    }

    /// The elements, in order.
    pub fn elements(&self) -> &Elements
        ensures { result.now ≡ self.now.elements }
    {
        &self.inside.elements
    }

    /// The `content` of the attributes, which is never null.
    pub fn content(&self) -> Option<&Json>
        ensures { option_map (λ found. value_of found.now) result
            ≡ entry_of (codes "content") (entries_from self.now.attributes) }
    {
        self.inside.attributes.get("content")
    }

    /// The `readers` of the object's `acl`, all of them strings; `None` exactly when it has none.
    pub fn readers(&self) -> Option<&JsonList>
        ensures { option_map (λ names. list (values_from names.now)) result ≡ access_list (codes "readers") self.now }
    {
        list_of(self.inside.attributes.get("acl")?, "readers")
    }

    /// The `writers` of the object's `acl`, all of them strings; `None` exactly when it has none.
    pub fn writers(&self) -> Option<&JsonList>
        ensures { option_map (λ names. list (values_from names.now)) result ≡ access_list (codes "writers") self.now }
    {
        list_of(self.inside.attributes.get("acl")?, "writers")
    }
}

// Whether an object may be made of this.
fn fits(value: &ObjectValue) -> bool
    ensures fits { IsTrue result ↔ IsObject value.now }
    ensures sound { IsTrue result → IsSound (shown_form value.now) }
{
    // Elements keep their own part.
    let _ = value.elements.as_slice();
    if !are_attributes(&value.attributes) {
        return false;
    }
    if !value.metadata.fits() {
        return false;
    }
    if !nests(value) {
        return false;
    }
    is_short(value, LONGEST_TEXT)
}

/// Whether the text of the shown form has at most so many bytes. The bound is an argument, so that a test can meet it.
pub(crate) fn is_short(value: &ObjectValue, longest: u32) -> bool
    requires apart { entry_of (codes "metadata") (entries_from value.now.attributes) ≡ None }
    requires metadata { IsMetadata value.now.metadata }
    ensures short { IsTrue result ↔ (length (text_of (shown_form value.now)) ≤ longest) }
    ensures sound { IsSound (shown_form value.now) }
{
    shown_length(value) <= longest as u64
}

// The array at the key, of an object that has nothing else there.
fn list_of<'a>(acl: &'a Json, key: &str) -> Option<&'a JsonList>
    requires { IfThere IsTextList (field_of key.now (value_of acl.now)) }
    ensures { option_map (λ names. list (values_from names.now)) result ≡ field_of key.now (value_of acl.now) }
{
    match get(acl, key)? {
        Json::Items(names) => Some(names),
        _ => None,
    }
}
