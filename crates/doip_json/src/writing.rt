//! Writing a value as its canonical text.
ghost use Rattle.std.specs.Prelude.{◌≡◌, ◌<◌, ◌+◌, ◌∷◌, [], ◌++◌, OnOk, OnErr, IfOk, vec_len, vec_capacity};
ghost use Rattle.std.specs.Fmt.{signed_decimal};
ghost use Rattle.json.specs.Token.{begin_array, end_array, begin_object, end_object, number as json_number};
ghost use Rattle.doip_json.specs.Value.{values_from, entries_from};
ghost use Rattle.doip_json.specs.Meaning.{value_of};
ghost use Rattle.doip_json.specs.Text.{text_of, IsOneLine};
ghost use Rattle.doip_json.specs.Room.{room_of, tokens_room, TakesRoom};
ghost use Rattle.doip_json.specs.Tokens.{tokens_of, item_tokens, entry_tokens};

use crate::leaf::Num;
use crate::room::room_of;
use crate::value::{Json, JsonList, JsonMap};
use base_core::Bytes;
use json::Writer;
use std::alloc::{AllocError, Global};
use std::mem;

/// The canonical text of the value: compact, keys ascending by their bytes, numbers in decimal, and no escape but those
/// that RFC 8259 asks for, each in its shortest form.
///
/// It takes memory once, as [`append_text`] does.
pub fn text(alloc: Global, value: &Json) -> Result<Bytes, AllocError>
    ensures value { IfOk result (λ bytes. bytes ≡ text_of (value_of value.now)) }
    ensures one_line { IfOk result IsOneLine }
{
    value.recall();
    let mut out = Vec::new(alloc);
    append_text(alloc, value, &mut out)?;
    Ok(Bytes::from(out))
}

/// Adds the canonical text of the value at the end of the buffer. Out of memory the buffer stays as it was.
///
/// Memory is taken at most once, and none if the buffer has room for the text and a byte beside each token of it (a
/// bracket, a key, or a value that is neither array nor object). One pass finds this room, and a second one writes,
/// copying the bytes between escapes in bulk.
pub fn append_text(alloc: Global, value: &Json, out: &mut Vec<u8>) -> Result<(), AllocError>
    ensures ok { OnOk result (out.new.items ≡ out.old.items ++ text_of (value_of value.now)) }
    ensures err { OnErr result (out.new.items ≡ out.old.items) }
    ensures full { OnErr result (vec_capacity out.old < vec_len out.old + room_of (value_of value.now)) }
{
    out.reserve(room_of(value))?;
    let mut writer = Writer::new(mem::replace(out, Vec::new(alloc)));
    let written = write(value, &mut writer);
    *out = writer.into_inner();
    written
}

#[cycle(write)]
fn write(value: &Json, out: &mut Writer) -> Result<(), AllocError>
    ensures ok { OnOk result (out.new.tokens ≡ out.old.tokens ++ tokens_of (value_of value.now)) }
    ensures before { out.new.before ≡ out.old.before }
    ensures room { TakesRoom result out.old.spare out.new.spare (room_of (value_of value.now)) }
{
    match value {
        Json::Null => out.null(),
        Json::Truth(truth) => out.boolean(*truth),
        Json::Whole(number) => write_number(*number, out),
        Json::Text(text) => out.string(text.get()),
        Json::Items(list) => write_list(list, out),
        Json::Table(map) => write_map(map, out),
    }
}

fn write_number(number: Num, out: &mut Writer) -> Result<(), AllocError>
    ensures ok { OnOk result
        (out.new.tokens ≡ out.old.tokens ++ json_number (signed_decimal number) ∷ []) }
    ensures before { out.new.before ≡ out.old.before }
    ensures room { TakesRoom result out.old.spare out.new.spare
        (tokens_room (json_number (signed_decimal number) ∷ [])) }
{
    let n = number.get();
    if n < 0 {
        out.i64(n as i64)
    } else {
        out.u64(n as u64)
    }
}

#[cycle(write)]
fn write_list(list: &JsonList, out: &mut Writer) -> Result<(), AllocError>
    ensures ok { OnOk result (out.new.tokens
        ≡ out.old.tokens ++ begin_array ∷ (item_tokens (values_from list.now) ++ end_array ∷ [])) }
    ensures before { out.new.before ≡ out.old.before }
    ensures room { TakesRoom result out.old.spare out.new.spare
        (tokens_room (begin_array ∷ (item_tokens (values_from list.now) ++ end_array ∷ []))) }
{
    out.begin_array()?;
    for i in 0..list.len() {
        write(list.item(i), out)?;
    }
    out.end_array()
}

#[cycle(write)]
fn write_map(map: &JsonMap, out: &mut Writer) -> Result<(), AllocError>
    ensures ok { OnOk result (out.new.tokens
        ≡ out.old.tokens ++ begin_object ∷ (entry_tokens (entries_from map.now) ++ end_object ∷ [])) }
    ensures before { out.new.before ≡ out.old.before }
    ensures room { TakesRoom result out.old.spare out.new.spare
        (tokens_room (begin_object ∷ (entry_tokens (entries_from map.now) ++ end_object ∷ []))) }
{
    out.begin_object()?;
    for i in 0..map.len() {
        out.key(map.key_at(i).get())?;
        write(map.value_at(i), out)?;
    }
    out.end_object()
}
