//! The room in which a value's text is written, found in one pass that takes no memory.
ghost use Rattle.std.specs.Prelude.{◌≡◌, ◌<◌, ◌-◌, ◌^◌, ◌∷◌, [], ◌++◌, min, length, nat_lt};
ghost use Rattle.std.specs.Fmt.{signed_decimal};
ghost use Rattle.json.specs.Token.{begin_array, end_array, begin_object, end_object, key, string};
ghost use Rattle.doip_json.specs.Value.{values_from, entries_from};
ghost use Rattle.doip_json.specs.Meaning.{value_of};
ghost use Rattle.doip_json.specs.Text.{escaped, letter_of};
ghost use Rattle.doip_json.specs.Tokens.{item_tokens, entry_tokens};
ghost use Rattle.doip_json.specs.Room.{tokens_room, room_of};

use crate::leaf::Num;
use crate::value::{Json, JsonList, JsonMap};

/// The room of the value, or the highest `usize` if that is less. No vector has so much.
#[cycle(room)]
pub(crate) fn room_of(value: &Json) -> usize
    ensures { result ≡ min (room_of (value_of value.now)) (2 ^ 64 - 1) }
{
    match value {
        Json::Null | Json::Truth(true) => 5,
        Json::Truth(false) => 6,
        Json::Whole(number) => digits_of(*number) + 1,
        Json::Text(text) => string_room(text.get()),
        Json::Items(list) => list_room(list),
        Json::Table(map) => map_room(map),
    }
}

// How many bytes the number is written in.
fn digits_of(number: Num) -> usize
    ensures digits { result ≡ length (signed_decimal number) }
    ensures few { result < 41 }
{
    let mut buffer = itoa::Buffer::new();
    buffer.format(number.get()).len()
}

fn string_room(text: &str) -> usize
    ensures { result ≡ min (tokens_room (string text.now ∷ [])) (2 ^ 64 - 1) }
{
    let mut room = 3_usize;
    for byte in text.as_bytes() {
        room = room.saturating_add(escape_length(*byte));
    }
    room
}

// How many bytes a byte of a string is written in.
fn escape_length(byte: u8) -> usize
    ensures { result ≡ length (escaped byte) }
{
    if has_letter(byte) {
        2
    } else if byte < 0x20 {
        6
    } else {
        1
    }
}

// Whether a backslash and a letter stand for the byte.
fn has_letter(byte: u8) -> bool
    ensures { result ≡ nat_lt 0 (letter_of byte) }
{
    match byte {
        b'"' | b'\\' | 8 | 9 | 10 | 12 | 13 => true,
        _ => false,
    }
}

#[cycle(room)]
fn list_room(list: &JsonList) -> usize
    ensures { result
        ≡ min (tokens_room (begin_array ∷ (item_tokens (values_from list.now) ++ end_array ∷ []))) (2 ^ 64 - 1) }
{
    let mut room = 4_usize;
    for i in 0..list.len() {
        room = room.saturating_add(room_of(list.item(i)));
    }
    room
}

#[cycle(room)]
fn map_room(map: &JsonMap) -> usize
    ensures { result
        ≡ min (tokens_room (begin_object ∷ (entry_tokens (entries_from map.now) ++ end_object ∷ []))) (2 ^ 64 - 1) }
{
    let mut room = 4_usize;
    for i in 0..map.len() {
        let key = string_room(map.key_at(i).get()).saturating_add(1);
        room = room
            .saturating_add(key)
            .saturating_add(room_of(map.value_at(i)));
    }
    room
}
