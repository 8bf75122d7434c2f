//! What the answers have in common: a string among the arguments, numbers and refusals.
ghost use Rattle.std.specs.Prelude.{◌≡◌, pos, Err, IfOk, option_map};
ghost use Rattle.ext_ops.specs.Extended.{answer_of, string_at};
ghost use Rattle.ext_ops.specs.Hook.{content_of};

use crate::answer::{ExtAnswer, HookAnswer};
use doip_json::{Json, JsonMap, Num, Str};
use std::alloc::{AllocError, Global};

// The string at a key of the arguments.
pub(crate) fn string_in<'a>(arguments: &'a JsonMap, key: &str) -> Option<&'a str>
    ensures { option_map (λ text. text.now) result ≡ string_at key.now arguments.now }
{
    match arguments.get(key) {
        Some(Json::Text(text)) => Some(text.get()),
        _ => None,
    }
}

// The refusal of an extended operation.
pub(crate) fn refused(alloc: Global, text: &str) -> Result<ExtAnswer, AllocError>
    ensures { IfOk result (λ answer. answer_of answer ≡ Err text.now) }
{
    Ok(ExtAnswer::Refused(Str::of(alloc, text)?))
}

// The refusal of a hook.
pub(crate) fn declined(alloc: Global, text: &str) -> Result<HookAnswer, AllocError>
    ensures { IfOk result (λ answer. content_of answer ≡ Err text.now) }
{
    Ok(HookAnswer::Refused(Str::of(alloc, text)?))
}

// The number as JSON has it.
pub(crate) fn number_of(number: usize) -> Num
    ensures { result ≡ pos number }
{
    match Num::new(number as i128) {
        Some(number) => number,
        None => unreachable!(),
    }
}
