//! Content whose strings are trimmed.
ghost use Rattle.std.specs.Prelude.{◌≡◌, map, IfOk};
ghost use Rattle.doip_json.specs.Meaning.{value_of};
ghost use Rattle.ext_ops.specs.declared.code.HookCode.TheVariants.{Trim};
ghost use Rattle.ext_ops.specs.Hook.{content_of, trimmed_value, trimmed_entry, hook};

use crate::answer::HookAnswer;
use crate::white::trimmed;
use doip_json::{Json, JsonMap, Str, copy};
use std::alloc::{AllocError, Global};

/// The content with each string that stands directly under a key of it without the white bytes at its start and end:
/// spaces, tabs, CR and LF. Strings that lie deeper stay, and so does content that is no JSON object. Each string is
/// copied once.
pub fn trim(alloc: Global, content: &Json) -> Result<HookAnswer, AllocError>
    ensures { IfOk result (λ answer. content_of answer ≡ hook Trim (value_of content.now)) }
{
    match content {
        Json::Table(entries) => {
            Ok(HookAnswer::Content(Json::Table(trimmed_entries(alloc, entries)?)))
        }
        _ => Ok(HookAnswer::Content(copy(alloc, content)?)),
    }
}

fn trimmed_entries(alloc: Global, entries: &JsonMap) -> Result<JsonMap, AllocError>
    ensures { IfOk result (λ made. made ≡ map trimmed_entry entries.now) }
{
    let mut made = JsonMap::empty(alloc);
    for i in 0..entries.len() {
        let key = Str::of(alloc, entries.key_at(i).get())?;
        made.put(key, trimmed_value(alloc, entries.value_at(i))?)?;
    }
    Ok(made)
}

fn trimmed_value(alloc: Global, value: &Json) -> Result<Json, AllocError>
    ensures { IfOk result (λ made. value_of made ≡ trimmed_value (value_of value.now)) }
{
    match value {
        Json::Text(text) => Ok(Json::Text(Str::of(alloc, trimmed(text.get()))?)),
        _ => copy(alloc, value),
    }
}
