//! Values: words, prefixes, texts in quotes, and ranges.
ghost use Rattle.std.specs.Prelude.{◌≡◌, ℕ, drop, true, Some, IfOk, IsErrOf, IsUtf8};
ghost use Rattle.query_text.specs.Spelling.{after_operator, after_value};
ghost use Rattle.query_text.specs.Stages.{first};
ghost use Rattle.query_text.specs.Reading.{IsValueRead, BreaksValue, Plain, starred};

use crate::fault::QueryFault;
use crate::parts::is_white;
use crate::range::range_of;
use crate::scanning::{Within, scan};
use dobj_field::ScalarTest;
use std::alloc::Global;

// The test of the value at the head, and its length.
pub(crate) fn value_of(alloc: Global, rest: &[u8]) -> Result<(ScalarTest, usize), QueryFault>
    requires { IsUtf8 rest.now }
    ensures value { IfOk result (λ read. IsValueRead rest.now read.0 read.1) }
    ensures follows { IfOk result (λ read. after_value (drop read.1 rest.now) ≡ true) }
    ensures place { (place : ℕ) → IsErrOf result (QueryFault.At place) → BreaksValue rest.now place }
{
    match test_of(alloc, rest) {
        Ok((test, len)) => {
            if is_after_value(&rest[len..]) {
                Ok((test, len))
            } else {
                Err(QueryFault::At { place: len })
            }
        }
        Err(fault) => Err(fault),
    }
}

fn test_of(alloc: Global, rest: &[u8]) -> Result<(ScalarTest, usize), QueryFault>
    requires { IsUtf8 rest.now }
    ensures value { IfOk result (λ read. IsValueRead rest.now read.0 read.1) }
    ensures place { (place : ℕ) → IsErrOf result (QueryFault.At place) → BreaksValue rest.now place }
{
    if rest.is_empty() {
        return word_of(alloc, rest);
    }
    if rest[0] == b'"' {
        return quoted_of(alloc, rest);
    }
    if rest[0] == b'[' {
        return range_of(rest);
    }
    word_of(alloc, rest)
}

// The word at the head, or the prefix.
fn word_of(alloc: Global, rest: &[u8]) -> Result<(ScalarTest, usize), QueryFault>
    requires utf8 { IsUtf8 rest.now }
    requires plain { Plain rest.now }
    ensures value { IfOk result (λ read. IsValueRead rest.now read.0 read.1) }
    ensures place { (place : ℕ) → IsErrOf result (QueryFault.At place) → BreaksValue rest.now place }
{
    let scanned = scan(alloc, rest, Within::Word)?;
    let len = scanned.len;
    if scanned.taking {
        return Err(QueryFault::At { place: len });
    }
    if is_starred(&rest[len..]) {
        return Ok((ScalarTest::Begins(scanned.text), len + 1));
    }
    if len == 0 {
        return Err(QueryFault::At { place: 0 });
    }
    Ok((ScalarTest::Equals(scanned.text), len))
}

fn is_starred(rest: &[u8]) -> bool
    ensures { result ≡ starred rest.now }
{
    match rest.first() {
        Some(byte) => *byte == b'*',
        None => false,
    }
}

// The text in the quotes at the head.
fn quoted_of(alloc: Global, rest: &[u8]) -> Result<(ScalarTest, usize), QueryFault>
    requires utf8 { IsUtf8 rest.now }
    requires quote { first rest.now ≡ Some 34 }
    ensures value { IfOk result (λ read. IsValueRead rest.now read.0 read.1) }
    ensures place { (place : ℕ) → IsErrOf result (QueryFault.At place) → BreaksValue rest.now place }
{
    let scanned = scan(alloc, &rest[1..], Within::Quotes)?;
    let end = scanned.len + 1;
    if end == rest.len() {
        return Err(QueryFault::At { place: end });
    }
    Ok((ScalarTest::Equals(scanned.text), end + 1))
}

// Whether these bytes may come directly after a value.
pub(crate) fn is_after_value(rest: &[u8]) -> bool
    ensures { result ≡ after_value rest.now }
{
    match rest.first() {
        Some(byte) => is_white(*byte) || *byte == b')',
        None => true,
    }
}

// Whether these bytes may come directly after a word operator.
pub(crate) fn is_after_operator(rest: &[u8]) -> bool
    ensures { result ≡ after_operator rest.now }
{
    match rest.first() {
        Some(byte) => is_white(*byte) || *byte == b'(',
        None => false,
    }
}
