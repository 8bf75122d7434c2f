//! How deep JSON values nest.
ghost use Rattle.std.specs.Prelude.{◌≤◌, ◌↔◌, IsTrue};
ghost use Rattle.doip_json.specs.Value.{depth_of, deepest_value, deepest_entry, values_from, entries_from};
ghost use Rattle.doip_json.specs.Meaning.{value_of};

use doip_json::{Json, JsonList, JsonMap};

// It calls itself no deeper than asked, however deep the value nests.
#[cycle(nests)]
fn nests_within(value: &Json, depth: u8) -> bool
    ensures { IsTrue result ↔ (depth_of (value_of value.now) ≤ depth) }
{
    match value {
        Json::Items(list) => depth > 0 && items_within(list, depth - 1),
        Json::Table(map) => depth > 0 && entries_within(map, depth - 1),
        _ => true,
    }
}

#[cycle(nests)]
fn items_within(list: &JsonList, depth: u8) -> bool
    ensures { IsTrue result ↔ (deepest_value (values_from list.now) ≤ depth) }
{
    for i in 0..list.len() {
        if !nests_within(list.item(i), depth) {
            return false;
        }
    }
    true
}

/// Whether the value of each entry nests at most so deep.
#[cycle(nests)]
pub(crate) fn entries_within(map: &JsonMap, depth: u8) -> bool
    ensures { IsTrue result ↔ (deepest_entry (entries_from map.now) ≤ depth) }
{
    for i in 0..map.len() {
        if !nests_within(map.value_at(i), depth) {
            return false;
        }
    }
    true
}
