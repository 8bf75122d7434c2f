//! JSON values as the tokens of their text.
ghost use Rattle.std.specs.Prelude.{◌≡◌, ◌≤◌, ◌∷◌, [], ◌++◌, drop, length, take, OnOk};
ghost use Rattle.std.specs.Fmt.{signed_decimal};
ghost use Rattle.json.specs.Token.{begin_array, end_array, begin_object, end_object, number as json_number};
ghost use Rattle.doip_json.specs.Value.{values_from, entries_from};
ghost use Rattle.doip_json.specs.Meaning.{value_of};
ghost use Rattle.doip_json.specs.Tokens.{tokens_of, item_tokens, entry_tokens};

use doip_json::{Json, JsonList, JsonMap, Num};
use json::Writer;
use std::alloc::AllocError;

#[cycle(write)]
fn write_value(value: &Json, out: &mut Writer) -> Result<(), AllocError>
    ensures ok { OnOk result (out.new.tokens ≡ out.old.tokens ++ tokens_of (value_of value.now)) }
    ensures before { out.new.before ≡ out.old.before }
{
    match value {
        Json::Null => out.null(),
        Json::Truth(truth) => out.boolean(*truth),
        Json::Whole(number) => write_number(*number, out),
        Json::Text(text) => out.string(text.get()),
        Json::Items(list) => write_list(list, out),
        Json::Table(map) => write_map(map, out),
    }
}

fn write_number(number: Num, out: &mut Writer) -> Result<(), AllocError>
    ensures ok { OnOk result
        (out.new.tokens ≡ out.old.tokens ++ json_number (signed_decimal number) ∷ []) }
    ensures before { out.new.before ≡ out.old.before }
{
    let n = number.get();
    if n < 0 {
        out.i64(n as i64)
    } else {
        out.u64(n as u64)
    }
}

#[cycle(write)]
fn write_list(list: &JsonList, out: &mut Writer) -> Result<(), AllocError>
    ensures ok { OnOk result (out.new.tokens
        ≡ out.old.tokens ++ begin_array ∷ (item_tokens (values_from list.now) ++ end_array ∷ [])) }
    ensures before { out.new.before ≡ out.old.before }
{
    out.begin_array()?;
    for i in 0..list.len() {
        write_value(list.item(i), out)?;
    }
    out.end_array()
}

/// Writes the object.
#[cycle(write)]
pub(crate) fn write_map(map: &JsonMap, out: &mut Writer) -> Result<(), AllocError>
    ensures ok { OnOk result (out.new.tokens
        ≡ out.old.tokens ++ begin_object ∷ (entry_tokens (entries_from map.now) ++ end_object ∷ [])) }
    ensures before { out.new.before ≡ out.old.before }
{
    out.begin_object()?;
    write_entries(map, 0, map.len(), out)?;
    out.end_object()
}

/// Writes the entries from one place to before another.
#[cycle(write)]
pub(crate) fn write_entries(
    map: &JsonMap,
    from: usize,
    to: usize,
    out: &mut Writer,
) -> Result<(), AllocError>
    requires order { from ≤ to }
    requires within { to ≤ length map.now }
    ensures ok { OnOk result
        (out.new.tokens ≡ out.old.tokens ++ entry_tokens (entries_from (drop from (take to map.now)))) }
    ensures before { out.new.before ≡ out.old.before }
{
    for i in from..to {
        out.key(map.key_at(i).get())?;
        write_value(map.value_at(i), out)?;
    }
    Ok(())
}
