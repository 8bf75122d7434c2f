//! Looking up a key.
ghost use Rattle.std.specs.Prelude.{◌≡◌, option_map};
ghost use Rattle.doip_json.specs.Look.{field_of};
ghost use Rattle.doip_json.specs.Meaning.{value_of};

use crate::value::Json;

/// The value at the key, `None` exactly when the value is no JSON object or lacks the key.
///
/// It is found by binary search.
pub fn get<'a>(value: &'a Json, key: &str) -> Option<&'a Json>
    ensures { option_map (λ found. value_of found.now) result ≡ field_of key.now (value_of value.now) }
{
    match value {
        Json::Table(map) => map.get(key),
        _ => None,
    }
}
