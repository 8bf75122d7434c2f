//! The service's information.
ghost use Rattle.std.specs.Prelude.{◌≡◌, pos, codes, IfOk, OnOk};
ghost use Rattle.std.specs.Ordering.{nat_cmp};
ghost use Rattle.std.specs.Cmp.Lexicographic.{slice_cmp};
ghost use Rattle.std.specs.BTreeMap.{insert_entry};
ghost use Rattle.doip_json.specs.Value as values;
ghost use Rattle.doip_json.specs.Meaning.{value_of};
ghost use Rattle.repo_step.specs.Information.{addresses, information};

use doip_json::{Json, JsonMap, Num, Str};
use std::alloc::{AllocError, Global};

// Puts a copy of the text at the key.
fn add_text(alloc: Global, entries: &mut JsonMap, key: &str, text: &str) -> Result<(), AllocError>
    ensures { OnOk result (entries.new ≡ insert_entry (slice_cmp nat_cmp) entries.old key.now (values.text text.now)) }
{
    let value = Json::Text(Str::of(alloc, text)?);
    entries.put(Str::of(alloc, key)?, value)
}

// A port as a value: every number of 16 bits is one of JSON.
fn number(port: u16) -> Json
    ensures { value_of result ≡ values.whole (pos port) }
{
    match Num::new(i128::from(port)) {
        Some(number) => Json::Whole(number),
        None => unreachable!(),
    }
}

// How to reach the service.
fn addresses(alloc: Global, address: &str, port: u16) -> Result<JsonMap, AllocError>
    ensures { IfOk result (λ entries. entries ≡ addresses address.now port) }
{
    let mut entries = JsonMap::empty(alloc);
    add_text(alloc, &mut entries, "ipAddress", address)?;
    entries.put(Str::of(alloc, "port")?, number(port))?;
    add_text(alloc, &mut entries, "protocol", "TCP")?;
    add_text(alloc, &mut entries, "protocolVersion", "2.0")?;
    Ok(entries)
}

/// The service's information, which is the output of Hello.
pub(crate) fn information(
    alloc: Global,
    service: &str,
    address: &str,
    port: u16,
) -> Result<Json, AllocError>
    ensures { IfOk result (λ json. value_of json ≡ information service.now address.now port) }
{
    let attributes = addresses(alloc, address, port)?;
    let mut entries = JsonMap::empty(alloc);
    entries.put(Str::of(alloc, "attributes")?, Json::Table(attributes))?;
    add_text(alloc, &mut entries, "id", service)?;
    add_text(alloc, &mut entries, "type", "0.TYPE/DOIPServiceInfo")?;
    Ok(Json::Table(entries))
}
