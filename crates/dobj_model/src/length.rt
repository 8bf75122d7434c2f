//! How long the text of a JSON value is, found in one pass that takes no memory.
ghost use Rattle.std.specs.Prelude.{◌≡◌, ◌<◌, ◌-◌, ◌^◌, min, length, nat_lt, pos};
ghost use Rattle.std.specs.Fmt.{signed_decimal};
ghost use Rattle.doip_json.specs.Value.{list, table, values_from, entries_from};
ghost use Rattle.doip_json.specs.Meaning.{value_of};
ghost use Rattle.doip_json.specs.Text.{text_of, string_of, escaped, letter_of};
ghost use Rattle.doip_json.specs.Sound.{IsSound, AreSound, IsWhole};
ghost use Rattle.dobj_model.specs.Lengths.{entries_total};

use doip_json::{Json, JsonList, JsonMap, Num};

// Each length is the highest number of 64 bits if it is more than that. The pass also shows what a proof has to know of
// the value: its strings are UTF-8, and the keys of its objects ascend.

#[cycle(length)]
fn value_length(value: &Json) -> u64
    ensures length { result ≡ min (length (text_of (value_of value.now))) (2 ^ 64 - 1) }
    ensures sound { IsSound (value_of value.now) }
{
    match value {
        Json::Null | Json::Truth(true) => 4,
        Json::Truth(false) => 5,
        Json::Whole(number) => number_length(*number),
        Json::Text(text) => string_length(text.get()),
        Json::Items(list) => list_length(list),
        Json::Table(map) => map_length(map),
    }
}

/// In how many bytes a number from 0 is written.
pub(crate) fn digits_of(number: u64) -> u64
    ensures digits { result ≡ length (signed_decimal (pos number)) }
    ensures few { result < 41 }
    ensures range { number < 2 ^ 64 }
{
    let mut buffer = itoa::Buffer::new();
    buffer.format(number as i128).len() as u64
}

// In how many bytes the number is written.
fn number_length(number: Num) -> u64
    ensures digits { result ≡ length (signed_decimal number) }
    ensures few { result < 41 }
    ensures range { IsWhole number }
{
    let mut buffer = itoa::Buffer::new();
    buffer.format(number.get()).len() as u64
}

/// In how many bytes the string is written.
pub(crate) fn string_length(text: &str) -> u64
    ensures { result ≡ min (length (string_of text.now)) (2 ^ 64 - 1) }
{
    let mut total = 2_u64;
    for byte in text.as_bytes() {
        total = total.saturating_add(escape_length(*byte));
    }
    total
}

// In how many bytes a byte of a string is written.
fn escape_length(byte: u8) -> u64
    ensures { result ≡ length (escaped byte) }
{
    if has_letter(byte) {
        2
    } else if byte < 0x20 {
        6
    } else {
        1
    }
}

// Whether a backslash and a letter stand for the byte.
fn has_letter(byte: u8) -> bool
    ensures { result ≡ nat_lt 0 (letter_of byte) }
{
    match byte {
        b'"' | b'\\' | 8 | 9 | 10 | 12 | 13 => true,
        _ => false,
    }
}

#[cycle(length)]
fn list_length(items: &JsonList) -> u64
    ensures length { result ≡ min (length (text_of (list (values_from items.now)))) (2 ^ 64 - 1) }
    ensures sound { AreSound (values_from items.now) }
{
    let mut total = 0_u64;
    for i in 0..items.len() {
        total = total.saturating_add(value_length(items.item(i)).saturating_add(1));
    }
    total.max(1).saturating_add(1)
}

/// In how many bytes the object is written.
#[cycle(length)]
pub(crate) fn map_length(map: &JsonMap) -> u64
    ensures length { result ≡ min (length (text_of (table (entries_from map.now)))) (2 ^ 64 - 1) }
    ensures sound { IsSound (table (entries_from map.now)) }
{
    entries_length(map).max(1).saturating_add(1)
}

/// In how many bytes the entries are written, each with a byte beside it.
#[cycle(length)]
pub(crate) fn entries_length(map: &JsonMap) -> u64
    ensures length { result ≡ min (entries_total map.now) (2 ^ 64 - 1) }
    ensures sound { IsSound (table (entries_from map.now)) }
{
    let mut total = 0_u64;
    for i in 0..map.len() {
        let key = string_length(map.key_at(i).get()).saturating_add(2);
        total = total
            .saturating_add(key)
            .saturating_add(value_length(map.value_at(i)));
    }
    total
}
