//! Reading the keys by which hits are sorted.
ghost use Rattle.std.specs.Prelude.{◌≡◌, IfOk, IsErrOf, IsUtf8, List};
ghost use Rattle.query_core.specs.declared.order.SortKey.{SortKey};
ghost use Rattle.dobj_field.specs.Field.{IsField, NamesField};
ghost use Rattle.query_core.specs.Sorting.{direction_in, is_word, IsSortPart, NamesKeys, AreSortParts};

use crate::order::{Order, SortKey};
use dobj_field::{Field, FieldFault, field_of};
use query_text::parts::{Stop, all_white, untaken, white_len};
use std::alloc::{AllocError, AllocFailed, Global};
use std::str::from_utf8;

/// Why a text names no keys.
#[derive(Clone, Copy, Debug, PartialEq, Eq, Drop)]
pub enum OrderFault {
    /// A part of it is no field with a direction.
    Refused,
    /// An allocation was refused.
    Memory,
}

impl From<AllocError> for OrderFault {
    ghost use Rattle.std.specs.Prelude.{◌≡◌};
    ghost use Rattle.query_core.specs.declared.sorting.OrderFault.TheVariants.{Memory};

    ghost from_gives = { λ _ fault. fault ≡ Memory };

    fn from(_: AllocError) -> OrderFault {
        OrderFault::Memory
    }
}

impl<T: Drop> From<AllocFailed<T>> for OrderFault {
    ghost use Rattle.std.specs.Prelude.{◌≡◌};
    ghost use Rattle.query_core.specs.declared.sorting.OrderFault.TheVariants.{Memory};

    ghost from_gives = { λ _ fault. fault ≡ Memory };

    fn from(_: AllocFailed<T>) -> OrderFault {
        OrderFault::Memory
    }
}

/// The keys that a text names: parts between commas, each a field and `ASC` or `DESC` after it, or neither for `ASC`.
///
/// White bytes may stand round each part. A `\` in a field takes the byte after it, a comma too. An empty text names no
/// keys. Linear in the text.
pub fn order_of(alloc: Global, text: &str) -> Result<Order, OrderFault>
    ensures keys { IfOk result (NamesKeys text.now) }
    ensures refused { IsErrOf result OrderFault.Refused → (keys : List SortKey) → NamesKeys text.now keys → ⊥ }
{
    let bytes = text.as_bytes();
    if bytes.is_empty() {
        return Ok(Order::none(alloc));
    }
    let mut keys = Vec::new(alloc);
    let mut at = 0;
    'parts: loop {
        let rest = &bytes[at..];
        let len = untaken(rest, Stop::Comma);
        match key_of(alloc, &rest[..len]) {
            Ok(key) => keys.push(key)?,
            Err(fault) => return Err(fault),
        }
        if len == rest.len() {
            return Ok(Order::of(keys));
        }
        at += len + 1;
    }
}

// The key that one part names.
fn key_of(alloc: Global, part: &[u8]) -> Result<SortKey, OrderFault>
    requires { IsUtf8 part.now }
    ensures key { IfOk result (IsSortPart part.now) }
    ensures refused { IsErrOf result OrderFault.Refused → (key : SortKey) → IsSortPart part.now key → ⊥ }
{
    let body = &part[white_len(part)..];
    let len = untaken(body, Stop::White);
    let Some(descending) = direction_of(&body[len..]) else {
        return Err(OrderFault::Refused);
    };
    match field_in(alloc, &body[..len]) {
        Ok(field) => Ok(SortKey { field, descending }),
        Err(fault) => Err(fault),
    }
}

// The field that the bytes name.
fn field_in(alloc: Global, bytes: &[u8]) -> Result<Field, OrderFault>
    requires { IsUtf8 bytes.now }
    ensures field { IfOk result (IsField bytes.now) }
    ensures refused { IsErrOf result OrderFault.Refused → NamesField bytes.now → ⊥ }
{
    match field_of(alloc, from_utf8(bytes).unwrap()) {
        Ok(field) => Ok(field),
        Err(FieldFault::At { place: _ }) => Err(OrderFault::Refused),
        Err(FieldFault::Memory) => Err(OrderFault::Memory),
    }
}

// Whether the highest key comes first, by what stands after the field.
fn direction_of(rest: &[u8]) -> Option<bool>
    ensures { result ≡ direction_in rest.now }
{
    if all_white(rest) {
        return Some(false);
    }
    let word = &rest[white_len(rest)..];
    if is_word(word, b"ASC") {
        Some(false)
    } else if is_word(word, b"DESC") {
        Some(true)
    } else {
        None
    }
}

// Whether the word stands at the head, and only white bytes after it.
fn is_word(bytes: &[u8], word: &[u8]) -> bool
    ensures { result ≡ is_word word.now bytes.now }
{
    bytes.starts_with(word) && all_white(&bytes[word.len()..])
}
