//! The digest of an element's bytes.
ghost use Rattle.std.specs.Prelude.{◌≡◌, IfOk, option_map};
ghost use Rattle.sha2.specs.Sha256.{sha256};
ghost use Rattle.hex.specs.Hex.{encode_lower};
ghost use Rattle.doip_json.specs.Meaning.{value_of};
ghost use Rattle.ext_ops.specs.declared.code.ExtCode.TheVariants.{Digest as OfDigest};
ghost use Rattle.ext_ops.specs.Extended.{answer_of, element_named, digested, ext};

use crate::answer::ExtAnswer;
use crate::common::{number_of, refused, string_in};
use dobj_model::{Element, Object};
use doip_json::{Json, JsonMap, Str};
use sha2::{Digest, Sha256};
use std::alloc::{AllocError, Global};

/// The digest of an element's bytes: `{"element":ID,"length":N,"sha256":HEX}`, the digits in lower case.
///
/// The argument `element` is a string that names one of the object's elements. Else it is refused with `element`. The
/// bytes are read in place, once.
pub fn digest(alloc: Global, object: &Object, arguments: &JsonMap) -> Result<ExtAnswer, AllocError>
    ensures { IfOk result (λ answer. answer_of answer ≡ ext OfDigest object.now arguments.now) }
{
    match named_in(object, arguments) {
        Some(element) => Ok(ExtAnswer::Answer(digest_of(alloc, element)?)),
        None => refused(alloc, "element"),
    }
}

// The element that the arguments name.
fn named_in<'a>(object: &'a Object, arguments: &JsonMap) -> Option<&'a Element>
    ensures { option_map (λ found. found.now) result ≡ element_named object.now arguments.now }
{
    let id = string_in(arguments, "element")?;
    object.elements().get(id)
}

fn digest_of(alloc: Global, element: &Element) -> Result<Json, AllocError>
    ensures { IfOk result (λ json. value_of json ≡ digested element.now) }
{
    let bytes = element.bytes.get();
    let mut digest = JsonMap::empty(alloc);
    let id = Json::Text(Str::of(alloc, element.id.get())?);
    digest.put(Str::of(alloc, "element")?, id)?;
    let length = Json::Whole(number_of(bytes.len()));
    digest.put(Str::of(alloc, "length")?, length)?;
    let digits = Json::Text(digits_of(alloc, bytes)?);
    digest.put(Str::of(alloc, "sha256")?, digits)?;
    Ok(Json::Table(digest))
}

// The SHA-256 of the bytes, in hexadecimal digits of lower case.
fn digits_of(alloc: Global, bytes: &[u8]) -> Result<Str, AllocError>
    ensures { IfOk result (λ digits. digits ≡ encode_lower (sha256 bytes.now)) }
{
    let mut hasher = Sha256::new();
    hasher.update(bytes);
    let digest = hasher.finalize();
    Ok(Str::from_string(hex::encode(alloc, digest.as_slice())?))
}
