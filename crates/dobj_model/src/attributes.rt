//! What the attributes of an object may hold.
ghost use Rattle.std.specs.Prelude.{◌≢◌, ◌↔◌, IsTrue, Some, codes};
ghost use Rattle.doip_json.specs.Value.{entries_from, values_from, null};
ghost use Rattle.doip_json.specs.Meaning.{value_of};
ghost use Rattle.doip_json.specs.Look.{entry_of};
ghost use Rattle.dobj_model.specs.Object.{AreAttributes, AreTexts, IfThere, IsAcl, IsText, IsTextList};

use doip_json::{Json, JsonList, JsonMap};

/// Whether an object may have these attributes beside its `metadata`.
pub(crate) fn are_attributes(attributes: &JsonMap) -> bool
    ensures { IsTrue result ↔ AreAttributes attributes.now }
{
    if !keeps_content(attributes) {
        return false;
    }
    if attributes.get("metadata").is_some() {
        return false;
    }
    keeps_acl(attributes)
}

fn keeps_content(attributes: &JsonMap) -> bool
    ensures { IsTrue result ↔ (entry_of (codes "content") (entries_from attributes.now) ≢ Some null) }
{
    !matches!(attributes.get("content"), Some(Json::Null))
}

fn keeps_acl(attributes: &JsonMap) -> bool
    ensures { IsTrue result ↔ IfThere IsAcl (entry_of (codes "acl") (entries_from attributes.now)) }
{
    match attributes.get("acl") {
        None => true,
        Some(Json::Table(lists)) => {
            keeps_texts(lists, "readers") && keeps_texts(lists, "writers")
        }
        Some(_) => false,
    }
}

fn keeps_texts(lists: &JsonMap, key: &str) -> bool
    ensures { IsTrue result ↔ IfThere IsTextList (entry_of key.now (entries_from lists.now)) }
{
    match lists.get(key) {
        None => true,
        Some(Json::Items(items)) => are_texts(items),
        Some(_) => false,
    }
}

/// Whether the items are strings.
pub fn are_texts(items: &JsonList) -> bool
    ensures { IsTrue result ↔ AreTexts (values_from items.now) }
{
    for i in 0..items.len() {
        if !is_text(items.item(i)) {
            return false;
        }
    }
    true
}

fn is_text(value: &Json) -> bool
    ensures { IsTrue result ↔ IsText (value_of value.now) }
{
    matches!(value, Json::Text(_))
}
