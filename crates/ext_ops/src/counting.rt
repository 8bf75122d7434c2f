//! Content that says how many keys it has.
ghost use Rattle.std.specs.Prelude.{◌≡◌, length, IfOk};
ghost use Rattle.doip_json.specs.Meaning.{value_of};
ghost use Rattle.ext_ops.specs.declared.code.HookCode.TheVariants.{Count};
ghost use Rattle.ext_ops.specs.Hook.{content_of, other_keys, with_count, hook};

use crate::answer::HookAnswer;
use crate::common::{declined, number_of};
use doip_json::{Json, JsonMap, Str, copy_map};
use std::alloc::{AllocError, Global};

/// The content with the number of its keys but `count` at the key `count`. Content that is no JSON object is refused
/// with `content`.
pub fn count(alloc: Global, content: &Json) -> Result<HookAnswer, AllocError>
    ensures { IfOk result (λ answer. content_of answer ≡ hook Count (value_of content.now)) }
{
    match content {
        Json::Table(entries) => { Ok(HookAnswer::Content(Json::Table(counted(alloc, entries)?))) }
        _ => declined(alloc, "content"),
    }
}

fn counted(alloc: Global, entries: &JsonMap) -> Result<JsonMap, AllocError>
    ensures { IfOk result (λ made. made ≡ with_count entries.now) }
{
    let number = Json::Whole(number_of(others(entries)));
    let mut made = copy_map(alloc, entries)?;
    made.put(Str::of(alloc, "count")?, number)?;
    Ok(made)
}

// How many keys but `count` there are.
fn others(entries: &JsonMap) -> usize
    ensures { result ≡ length (other_keys entries.now) }
{
    let mut others = 0;
    for i in 0..entries.len() {
        if entries.key_at(i).get() != "count" {
            others += 1;
        }
    }
    others
}
