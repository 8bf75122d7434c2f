//! Types by their names.
ghost use Rattle.std.specs.Prelude.{◌≡◌, option_map, codes};
ghost use Rattle.doip_json.specs.Meaning.{value_of};
ghost use Rattle.type_core.specs.Names.{is_built_in, may_name, string_at, is_type_object, name_given, checked_content};

use dobj_model::Object;
use doip_json::{Json, get};

/// The type of plain digital objects, which is built in.
const PLAIN: &str = "0.TYPE/DO";

/// The type of type objects, which is built in.
const SCHEMA: &str = "Schema";

/// The most bytes of a name.
const LONGEST: usize = 255;

/// Whether a type of this name is built in: `0.TYPE/DO` and `Schema` are.
pub fn is_built_in(name: &str) -> bool
    ensures { result ≡ is_built_in name.now }
{
    name == PLAIN || name == SCHEMA
}

/// Whether the object is of the type `Schema`, and so makes a type. It takes no memory.
pub fn is_type_object(object: &Object) -> bool
    ensures { result ≡ is_type_object object.now }
{
    object.type_name().get() == SCHEMA
}

/// Whether a type object may give this name.
pub(crate) fn may_name(name: &str) -> bool
    ensures { result ≡ may_name name.now }
{
    1 <= name.len() && name.len() <= LONGEST && !is_built_in(name)
}

/// The string at the key, of an object that has one there.
pub(crate) fn string_at<'a>(value: &'a Json, key: &str) -> Option<&'a str>
    ensures { option_map (λ found. found.now) result ≡ string_at key.now (value_of value.now) }
{
    match get(value, key) {
        Some(Json::Text(text)) => Some(text.get()),
        _ => None,
    }
}

/// The name that a type object gives to its type: the string at `name` of its content.
///
/// `None` comes exactly if the object isn't of the type `Schema`, or has no string there. It takes no memory. That the
/// name is one that a type object may give is not asked; [`type_of`](crate::type_of) asks it.
pub fn name_given(object: &Object) -> Option<&str>
    ensures { option_map (λ found. found.now) result ≡ name_given object.now }
{
    if !is_type_object(object) {
        return None;
    }
    match object.content() {
        Some(content) => string_at(content, "name"),
        None => None,
    }
}
