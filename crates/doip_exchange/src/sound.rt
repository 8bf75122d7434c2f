//! What every value keeps: its strings are UTF-8, its numbers in range, and the keys of its objects ascend.
ghost use Rattle.doip_json.specs.Value.{list, table, values_from, entries_from};
ghost use Rattle.doip_json.specs.Meaning.{value_of};
ghost use Rattle.doip_json.specs.Sound.{IsSound};

use doip_json::{Json, JsonList, JsonMap};

// A proof learns here that the value is sound. It looks at each value once, and changes nothing.
#[cycle(recall)]
pub(crate) fn recall(value: &Json)
    ensures { IsSound (value_of value.now) }
{
    match value {
        Json::Null | Json::Truth(_) => {}
        Json::Whole(number) => {
            let _ = number.get();
        }
        Json::Text(text) => {
            let _ = text.get();
        }
        Json::Items(items) => recall_list(items),
        Json::Table(entries) => recall_map(entries),
    }
}

// The same of an array.
#[cycle(recall)]
fn recall_list(items: &JsonList)
    ensures { IsSound (list (values_from items.now)) }
{
    for i in 0..items.len() {
        recall(items.item(i));
    }
}

// The same of an object.
#[cycle(recall)]
pub(crate) fn recall_map(entries: &JsonMap)
    ensures { IsSound (table (entries_from entries.now)) }
{
    for i in 0..entries.len() {
        let _ = entries.key_at(i).get();
        recall(entries.value_at(i));
    }
}
