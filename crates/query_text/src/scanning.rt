//! Texts of words and of quotes, with their `\` taken away.
ghost use Rattle.std.specs.Prelude.{◌≡◌, ◌≤◌, ℕ, List, IfOk, IsUtf8, length};
ghost use Rattle.query_text.specs.Reading.{IsScanned, ends_of, goes_on, Shared};

use crate::parts::is_white;
use doip_json::Str;
use std::alloc::{AllocError, Global};

/// Where a text stands.
#[derive(Clone, Copy)]
pub(crate) enum Within {
    /// In a word.
    Word,
    /// In quotes.
    Quotes,
}

/// A text as its bytes spell it, up to a byte that ends it.
#[derive(Drop)]
pub(crate) struct Scanned {
    pub(crate) text: Str,
    pub(crate) len: usize,
    /// Whether a `\` comes last, which takes what follows.
    pub(crate) taking: bool,
}

fn ends(within: Within, byte: u8) -> bool
    ensures { result ≡ ends_of within byte }
{
    match within {
        Within::Word => is_white(byte) || matches!(byte, b'(' | b')' | b'"' | b'*'),
        Within::Quotes => byte == b'"',
    }
}

// Whether the next byte is one of the text.
fn goes_on(within: Within, taking: bool, rest: &[u8]) -> bool
    ensures { result ≡ goes_on within taking rest.now }
{
    match rest.first() {
        Some(byte) => taking || !ends(within, *byte),
        None => false,
    }
}

// The text at the head of the bytes, up to the first byte that ends it.
pub(crate) fn scan(alloc: Global, bytes: &[u8], within: Within) -> Result<Scanned, AllocError>
    requires { IsUtf8 bytes.now }
    ensures { IfOk result (IsScanned within bytes.now) }
{
    let mut text = Vec::new(alloc);
    let mut taking = false;
    let mut len = 0;
    while goes_on(within, taking, &bytes[len..]) {
        let byte = bytes[len];
        len += 1;
        if !taking && byte == b'\\' {
            taking = true;
            continue;
        }
        text.push(byte)?;
        taking = false;
    }
    Ok(Scanned {
        text: str_of(text),
        len,
        taking,
    })
}

// The bytes as a string, with no copy.
fn str_of(bytes: Vec<u8>) -> Str
    requires { IsUtf8 bytes.items }
    ensures { result ≡ bytes.items }
{
    Str::from_string(String::from_utf8(bytes).unwrap())
}

// How many bytes two texts begin with alike.
pub(crate) fn shared_len(bytes: &[u8], word: &[u8]) -> usize
    ensures { Shared bytes.now word.now result }
{
    let mut same = 0;
    while same < bytes.len() && same < word.len() && bytes[same] == word[same] {
        same += 1;
    }
    same
}
