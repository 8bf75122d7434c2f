//! The canonical spelling of a message.

ghost use Rattle.std.specs.Prelude.{◌≡◌, ◌≢◌, ◌<◌, ◌^◌, ◌↔◌, [], ◌∷◌, ◌++◌, length, IsTrue, OnOk, IfOk};
ghost use Rattle.std.specs.Fmt.{decimal};
ghost use Rattle.doip_segment.specs.Grammar.{line_feed};
ghost use Rattle.doip_segment.specs.Canonical.{IsPlain, AreEncodable, chunks_text, content_text, canonical};

use crate::kind::Kind;
use crate::message::Message;
use doip_json::Bytes;
use memchr::memchr;
use std::alloc::{AllocError, Global};

/// Whether the bytes can be a JSON segment on one line: there are some, none is a line feed, and the first is neither
/// white nor `#` nor `@`.
pub fn is_plain(bytes: &[u8]) -> bool
    ensures { IsTrue result ↔ IsPlain bytes.now }
{
    match bytes {
        [] | [b' ' | b'\t' | b'\r' | b'\n' | b'#' | b'@', ..] => false,
        [_, rest @ ..] => memchr(b'\n', rest).is_none(),
    }
}

/// Writes a chunk with these bytes.
fn put_chunk(out: &mut Vec<u8>, bytes: &[u8]) -> Result<(), AllocError>
    ensures { OnOk result (out.new.items
        ≡ out.old.items ++ (decimal (length bytes.now) ++ line_feed ∷ [] ++ bytes.now ++ line_feed ∷ [])) }
{
    let mut digits = itoa::Buffer::new();
    out.extend_from_slice(digits.format(bytes.len() as u64).as_bytes())?;
    out.extend_from_slice(b"\n")?;
    out.extend_from_slice(bytes)?;
    out.extend_from_slice(b"\n")
}

/// Writes one chunk with all of the bytes, or none if there are none.
fn put_chunks(out: &mut Vec<u8>, bytes: &[u8]) -> Result<(), AllocError>
    ensures { OnOk result (out.new.items ≡ out.old.items ++ chunks_text bytes.now) }
{
    match bytes {
        [] => Ok(()),
        _ => put_chunk(out, bytes),
    }
}

/// Adds the canonical text of a segment at the end of the buffer. A caller that writes several takes their room at once
/// before. Out of memory the buffer may end with a part of the text.
pub fn append_segment(out: &mut Vec<u8>, kind: Kind, bytes: &[u8]) -> Result<(), AllocError>
    ensures { OnOk result (out.new.items ≡ out.old.items ++ content_text kind bytes.now) }
{
    match kind {
        Kind::Json => {
            out.extend_from_slice(bytes)?;
            out.extend_from_slice(b"\n#\n")
        }
        Kind::Bytes => {
            out.extend_from_slice(b"@\n")?;
            put_chunks(out, bytes)?;
            out.extend_from_slice(b"#\n")
        }
    }
}

/// The canonical spelling of the message: no white or blank byte outside contents, no leading zero, one chunk for a
/// byte segment that has bytes, and no chunk for one that has none. Each JSON segment is plain, there are at most 2,048
/// segments, and each byte segment has fewer than 10^10 bytes.
pub fn encode(alloc: Global, message: &Message) -> Result<Bytes, AllocError>
    requires { AreEncodable message.now.segments }
    ensures { IfOk result (λ bytes. bytes ≡ canonical message.now.segments) }
{
    let mut out = Vec::new(alloc);
    for i in 0..message.count() {
        append_segment(&mut out, message.kind(i), message.bytes(i))?;
    }
    out.extend_from_slice(b"#\n")?;
    Ok(Bytes::from(out))
}
