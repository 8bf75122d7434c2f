//! Reading the properties of an object.
ghost use Rattle.std.specs.Prelude.{◌≡◌, ◌≢◌, List, ℕ, codes, option_map};
ghost use Rattle.doip_json.specs.Value.{entries_from, values_from};
ghost use Rattle.doip_json.specs.Meaning.{value_of};
ghost use Rattle.doip_json.specs.Look.{entry_of, field_of};
ghost use Rattle.dobj_draft.specs.declared.draft.ObjectField.TheVariants as fields;
ghost use Rattle.dobj_draft.specs.Draft.{unless_null, property, unsigned, optional_name, required_name, name_of};
ghost use Rattle.dobj_draft.specs.Draft.{attributes_in, attributes_kept, with_acl, lists_in, is_access_list};
ghost use Rattle.dobj_draft.specs.Draft.{unless_nulled, without, Reads};

use crate::draft::{ObjectFault, ObjectField};
use dobj_model::{Id, TypeName, are_texts};
use doip_json::{Json, JsonMap, Str, get};
use std::alloc::Global;

/// The value of a property, which is taken out of the object. `null` counts as absent.
pub(crate) fn take_property(object: &mut JsonMap, key: &str) -> Option<Json>
    ensures value { option_map value_of result ≡ unless_null (entry_of key.now (entries_from object.old)) }
    ensures others { (other : List ℕ) → other ≢ key.now →
        entry_of other (entries_from object.new) ≡ entry_of other (entries_from object.old) }
{
    match object.take(key) {
        None | Some(Json::Null) => None,
        Some(value) => Some(value),
    }
}

/// The value of a property, lent. `null` counts as absent.
pub(crate) fn property_of<'a>(value: &'a Json, key: &str) -> Option<&'a Json>
    ensures { option_map (λ found. value_of found.now) result ≡ property key.now (value_of value.now) }
{
    match get(value, key) {
        None | Some(Json::Null) => None,
        Some(found) => Some(found),
    }
}

/// Whether there is no signature.
pub(crate) fn signatures_of(signatures: Option<Json>) -> Result<(), ObjectFault>
    ensures { Reads (λ u. u) result (unsigned (option_map value_of signatures)) }
{
    match signatures {
        None => Ok(()),
        Some(Json::Items(items)) => {
            if items.len() == 0 {
                Ok(())
            } else {
                Err(ObjectFault::Signatures)
            }
        }
        Some(_) => Err(ObjectFault::Signatures),
    }
}

/// The identifier, if there is one.
pub(crate) fn id_of(id: Option<Json>) -> Result<Option<Id>, ObjectFault>
    ensures { Reads (λ i. i) result (optional_name fields.Id (option_map value_of id)) }
{
    match id {
        None => Ok(None),
        Some(Json::Text(text)) => match Id::from_text(text) {
            Some(id) => Ok(Some(id)),
            None => Err(ObjectFault::BadField {
                name: ObjectField::Id,
            }),
        },
        Some(_) => Err(ObjectFault::BadField {
            name: ObjectField::Id,
        }),
    }
}

/// The name of the type, if there is one.
pub(crate) fn type_of(type_name: Option<Json>) -> Result<Option<TypeName>, ObjectFault>
    ensures { Reads (λ t. t) result (optional_name fields.Type (option_map value_of type_name)) }
{
    match type_name {
        None => Ok(None),
        Some(Json::Text(text)) => match TypeName::from_text(text) {
            Some(type_name) => Ok(Some(type_name)),
            None => Err(ObjectFault::BadField {
                name: ObjectField::Type,
            }),
        },
        Some(_) => Err(ObjectFault::BadField {
            name: ObjectField::Type,
        }),
    }
}

/// The attributes as they are kept, empty where they are absent. Values are moved and not copied.
pub(crate) fn attributes_of(alloc: Global, attributes: Option<Json>) -> Result<JsonMap, ObjectFault>
    ensures { Reads (λ m. m) result (attributes_in (option_map value_of attributes)) }
{
    match attributes {
        None => Ok(JsonMap::empty(alloc)),
        Some(Json::Table(attributes)) => keep_attributes(alloc, attributes),
        Some(_) => Err(ObjectFault::BadField {
            name: ObjectField::Attributes,
        }),
    }
}

fn keep_attributes(alloc: Global, mut attributes: JsonMap) -> Result<JsonMap, ObjectFault>
    ensures { Reads (λ m. m) result (attributes_kept attributes) }
{
    let _ = attributes.remove("metadata");
    drop_null(&mut attributes, "content");
    keep_acl(alloc, attributes)
}

// Removes the key if it has `null`.
fn drop_null(entries: &mut JsonMap, key: &str)
    ensures { entries.new ≡ unless_nulled key.now entries.old }
{
    if matches!(entries.get(key), Some(Json::Null)) {
        let _ = entries.remove(key);
    }
}

fn keep_acl(alloc: Global, mut attributes: JsonMap) -> Result<JsonMap, ObjectFault>
    ensures { Reads (λ m. m) result
        (with_acl (entry_of (codes "acl") (entries_from attributes)) (without (codes "acl") attributes)) }
{
    match attributes.remove("acl") {
        None | Some(Json::Null) => Ok(attributes),
        Some(Json::Table(lists)) => {
            let kept = keep_lists(lists)?;
            attributes.put(Str::of(alloc, "acl")?, Json::Table(kept))?;
            Ok(attributes)
        }
        Some(_) => Err(ObjectFault::BadField {
            name: ObjectField::Acl,
        }),
    }
}

fn keep_lists(mut lists: JsonMap) -> Result<JsonMap, ObjectFault>
    ensures { Reads (λ m. m) result (lists_in lists) }
{
    if !is_list_at(&lists, "readers") || !is_list_at(&lists, "writers") {
        return Err(ObjectFault::BadField {
            name: ObjectField::Acl,
        });
    }
    drop_null(&mut lists, "readers");
    drop_null(&mut lists, "writers");
    Ok(lists)
}

// Whether the value at the key is an access list, or absent.
fn is_list_at(lists: &JsonMap, key: &str) -> bool
    ensures { result ≡ is_access_list (entry_of key.now (entries_from lists.now)) }
{
    match lists.get(key) {
        None | Some(Json::Null) => true,
        Some(Json::Items(items)) => are_texts(items),
        Some(_) => false,
    }
}
