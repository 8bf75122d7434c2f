//! What the program's own extensions and hooks answer. `main` boxes each function here and adds it; another one is a
//! function here and a few lines there.
ghost use Rattle.std.specs.Prelude.{◌≡◌, IfOk};
ghost use Rattle.doip_json.specs.Meaning.{value_of};
ghost use Rattle.ext_ops.specs.declared.code.ExtCode.TheVariants.{Digest, Pick};
ghost use Rattle.ext_ops.specs.declared.code.HookCode.TheVariants.{Trim, Count};
ghost use Rattle.ext_ops.specs.Extended.{answer_of, ext};
ghost use Rattle.ext_ops.specs.Hook.{content_of, hook};

use dobj_model::Object;
use doip_json::{Json, JsonMap};
use ext_ops::{ExtAnswer, HookAnswer, count, digest, pick, trim};
use std::alloc::{AllocError, Global};

/// `ext/Op.Digest`: the length and the SHA-256 of an element.
pub fn digest_element(
    alloc: Global,
    object: &Object,
    arguments: &JsonMap,
) -> Result<ExtAnswer, AllocError>
    ensures { IfOk result (λ answer. answer_of answer ≡ ext Digest object.now arguments.now) }
{
    digest(alloc, object, arguments)
}

/// `ext/Op.Pick`: the value that a pointer names in the object's content.
pub fn pick_value(
    alloc: Global,
    object: &Object,
    arguments: &JsonMap,
) -> Result<ExtAnswer, AllocError>
    ensures { IfOk result (λ answer. answer_of answer ≡ ext Pick object.now arguments.now) }
{
    pick(alloc, object, arguments)
}

/// The hook `trim`: strings under the keys of content lose the white bytes at their ends.
pub fn trim_content(alloc: Global, content: &Json) -> Result<HookAnswer, AllocError>
    ensures { IfOk result (λ answer. content_of answer ≡ hook Trim (value_of content.now)) }
{
    trim(alloc, content)
}

/// The hook `count`: content gets the number of its other keys.
pub fn count_keys(alloc: Global, content: &Json) -> Result<HookAnswer, AllocError>
    ensures { IfOk result (λ answer. content_of answer ≡ hook Count (value_of content.now)) }
{
    count(alloc, content)
}
