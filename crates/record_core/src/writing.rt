//! A change as bytes.
ghost use Rattle.std.specs.Prelude.{◌≡◌, ◌+◌, ◌^◌, ◌<◌, ◌∷◌, [], ◌++◌, length, OnOk, IfOk};
ghost use Rattle.std.specs.List.{flat_map};
ghost use Rattle.doip_json.specs.Text.{text_of};
ghost use Rattle.dobj_model.specs.Shown.{shown_form};
ghost use Rattle.record_core.specs.Body.{body, head, payload};
ghost use Rattle.record_core.specs.Numbers.{in_two, in_four, in_eight};
ghost use Rattle.record_core.specs.Storable.{IsStorable, IsChange};
ghost use Rattle.record_core.specs.declared.change.Change.TheVariants.{Put};

use crate::change::Change;
use crate::format::{COUNTER, PUT, REMOVE};
use crate::kept::recall;
use base_core::Bytes;
use dobj_model::{Element, Elements, Id, Object, append_text, text_length};
use std::alloc::{AllocError, Global};

/// How many bytes the body of a change has, fewer than 2^45. It takes no memory, and time linear in the text of the
/// object and the number of its elements.
pub fn body_length(change: &Change) -> u64
    ensures length { result ≡ length (body change.now) }
    ensures small { result < 2 ^ 45 }
{
    match change {
        Change::Put { object, counter: _ } => {
            17 + shown_length(object) + payloads_length(object.elements())
        }
        Change::Remove { id } => 3 + id.get().len() as u64,
        Change::Counter { n: _ } => 9,
    }
}

// The same of the text of an object.
fn shown_length(object: &Object) -> u64
    ensures length { result ≡ length (text_of (shown_form object.now)) }
    ensures small { result < 2 ^ 32 }
{
    let _ = object.value();
    text_length(object)
}

// The same of the elements' bytes, each with its length.
fn payloads_length(elements: &Elements) -> u64
    ensures length { result ≡ length (flat_map payload elements.now) }
    ensures small { result < 2 ^ 44 }
{
    let items = elements.as_slice();
    let mut total = 0;
    for i in 0..items.len() {
        total += 8 + items[i].bytes.get().len() as u64;
    }
    total
}

/// The body of a change: a byte for its kind, then for a put the counter or 0, the canonical text of the object's shown
/// form and its elements' bytes, each with its length; for a removal the identifier, and for a counter its number.
///
/// It takes memory once, for the body and once more the text, since the writer of JSON wants a byte beside each token.
/// The text is written into it, and the bytes of each element are copied at once.
pub fn body_of(alloc: Global, change: &Change) -> Result<Bytes, AllocError>
    requires storable { IsStorable change.now }
    ensures body { IfOk result (λ bytes. bytes ≡ body change.now) }
    ensures change_is { IsChange change.now }
{
    recall_change(change);
    let mut out = Vec::new(alloc);
    out.reserve(room_of(change))?;
    match change {
        Change::Put { object, counter } => write_put(
            alloc,
            object,
            counter.unwrap_or(0),
            &mut out,
        )?,
        Change::Remove { id } => write_removal(id, &mut out)?,
        Change::Counter { n } => write_counter(*n, &mut out)?,
    }
    Ok(Bytes::from(out))
}

/// The body of the put of an object that is lent: what [`body_of`] gives of it as a change, in as much memory.
pub fn put_body_of(
    alloc: Global,
    object: &Object,
    counter: Option<u64>,
) -> Result<Bytes, AllocError>
    requires storable { IsStorable (Put object.now counter) }
    ensures body { IfOk result (λ bytes. bytes ≡ body (Put object.now counter)) }
    ensures change_is { IsChange (Put object.now counter) }
{
    recall(object);
    let mut out = Vec::new(alloc);
    out.reserve((17 + 2 * shown_length(object) + payloads_length(object.elements())) as usize)?;
    write_put(alloc, object, counter.unwrap_or(0), &mut out)?;
    Ok(Bytes::from(out))
}

// The bytes of the body, and those that the writer of the text wants beside it.
fn room_of(change: &Change) -> usize {
    let length = body_length(change);
    match change {
        Change::Put { object, counter: _ } => (length + shown_length(object)) as usize,
        _ => length as usize,
    }
}

// It changes nothing when it runs: a proof learns here what every change keeps.
fn recall_change(change: &Change)
    ensures { IsChange change.now }
{
    match change {
        Change::Put { object, counter: _ } => recall(object),
        Change::Remove { id } => {
            let _ = id.get();
        }
        Change::Counter { n: _ } => {}
    }
}

fn write_put(
    alloc: Global,
    object: &Object,
    counter: u64,
    out: &mut Vec<u8>,
) -> Result<(), AllocError>
    ensures { OnOk result (out.new.items ≡ out.old.items ++ 1 ∷ head counter (text_of (shown_form object.now))
        (length object.now.elements) (flat_map payload object.now.elements)) }
{
    let elements = object.elements();
    out.push(PUT)?;
    write_eight(counter, out)?;
    write_text(alloc, object, out)?;
    write_count(elements, out)?;
    write_payloads(elements.as_slice(), out)
}

// The canonical text of the shown form, with its length.
fn write_text(alloc: Global, object: &Object, out: &mut Vec<u8>) -> Result<(), AllocError>
    ensures { OnOk result (out.new.items ≡ out.old.items ++ (in_four (length (text_of (shown_form object.now)))
        ++ text_of (shown_form object.now))) }
{
    write_four(shown_length(object) as u32, out)?;
    append_text(alloc, object, out)
}

// How many elements there are.
fn write_count(elements: &Elements, out: &mut Vec<u8>) -> Result<(), AllocError>
    ensures { OnOk result (out.new.items ≡ out.old.items ++ in_four (length elements.now)) }
{
    let _ = elements.as_slice();
    write_four(elements.len() as u32, out)
}

// The bytes of each element, each with its length.
fn write_payloads(elements: &[Element], out: &mut Vec<u8>) -> Result<(), AllocError>
    ensures { OnOk result (out.new.items ≡ out.old.items ++ flat_map payload elements.now) }
{
    'elements: for i in 0..elements.len() {
        let bytes = elements[i].bytes.get();
        write_eight(bytes.len() as u64, out)?;
        out.extend_from_slice(bytes)?;
    }
    Ok(())
}

fn write_removal(id: &Id, out: &mut Vec<u8>) -> Result<(), AllocError>
    ensures { OnOk result (out.new.items ≡ out.old.items ++ 2 ∷ (in_two (length id.now) ++ id.now)) }
{
    let name = id.get().as_bytes();
    out.push(REMOVE)?;
    write_two(name.len() as u16, out)?;
    out.extend_from_slice(name)
}

fn write_counter(n: u64, out: &mut Vec<u8>) -> Result<(), AllocError>
    ensures { OnOk result (out.new.items ≡ out.old.items ++ 3 ∷ in_eight n) }
{
    out.push(COUNTER)?;
    write_eight(n, out)
}

fn write_two(n: u16, out: &mut Vec<u8>) -> Result<(), AllocError>
    ensures { OnOk result (out.new.items ≡ out.old.items ++ in_two n) }
{
    out.extend_from_slice(&n.to_be_bytes())
}

fn write_four(n: u32, out: &mut Vec<u8>) -> Result<(), AllocError>
    ensures { OnOk result (out.new.items ≡ out.old.items ++ in_four n) }
{
    out.extend_from_slice(&n.to_be_bytes())
}

fn write_eight(n: u64, out: &mut Vec<u8>) -> Result<(), AllocError>
    ensures { OnOk result (out.new.items ≡ out.old.items ++ in_eight n) }
{
    out.extend_from_slice(&n.to_be_bytes())
}
