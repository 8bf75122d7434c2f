//! Ranges: `[`, a bound, `TO`, a bound, `]`.
ghost use Rattle.std.specs.Prelude.{◌≡◌, ◌≤◌, ◌<◌, ℕ, length, Some, IfOk, IsErrOf};
ghost use Rattle.query_text.specs.Stages.{first};
ghost use Rattle.query_text.specs.Reading.{IsBoundRead, BreaksBound, IsWhiteRead, IsWordRead, BreaksWord, IsValueRead};
ghost use Rattle.query_text.specs.Reading.{BreaksValue, Headed};

use crate::fault::QueryFault;
use crate::numerals::{digits_len, number_of, sign_len};
use crate::parts::white_len;
use crate::scanning::shared_len;
use dobj_field::ScalarTest;
use doip_json::Num;

// The range that a text begins with, and its length. The text has a `[` at its head.
pub(crate) fn range_of(bytes: &[u8]) -> Result<(ScalarTest, usize), QueryFault>
    requires { first bytes.now ≡ Some 91 }
    ensures value { IfOk result (λ read. IsValueRead bytes.now read.0 read.1) }
    ensures place { (place : ℕ) → IsErrOf result (QueryFault.At place) → BreaksValue bytes.now place }
{
    let start = white_end(bytes, 1);
    let (low, low_end) = bound_at(bytes, start)?;
    let to = gap_end(bytes, low_end)?;
    let gap = word_end(bytes, to, b"TO")?;
    let second = gap_end(bytes, gap)?;
    let (high, high_end) = bound_at(bytes, second)?;
    let close = white_end(bytes, high_end);
    let end = word_end(bytes, close, b"]")?;
    Ok((ScalarTest::Between { low, high }, end))
}

// Where the white bytes at a place end.
pub(crate) fn white_end(bytes: &[u8], at: usize) -> usize
    requires { at ≤ length bytes.now }
    ensures { IsWhiteRead bytes.now at result }
{
    at + white_len(&bytes[at..])
}

// Where the white bytes at a place end, of which there has to be one.
fn gap_end(bytes: &[u8], at: usize) -> Result<usize, QueryFault>
    requires { at ≤ length bytes.now }
    ensures end { IfOk result (λ end. IsWhiteRead bytes.now at end × (at < end)) }
    ensures place { (place : ℕ) → IsErrOf result (QueryFault.At place) → (place ≡ at) × IsWhiteRead bytes.now at at }
{
    let end = white_end(bytes, at);
    if end == at {
        return Err(QueryFault::At { place: at });
    }
    Ok(end)
}

// Where the word ends that has to stand at a place.
fn word_end(bytes: &[u8], at: usize, word: &[u8]) -> Result<usize, QueryFault>
    requires { at ≤ length bytes.now }
    ensures end { IfOk result (IsWordRead bytes.now at word.now) }
    ensures place { (place : ℕ) → IsErrOf result (QueryFault.At place) → BreaksWord bytes.now at word.now place }
{
    let same = shared_len(&bytes[at..], word);
    if same < word.len() {
        return Err(QueryFault::At { place: at + same });
    }
    Ok(at + same)
}

// The bound at a place, and where it ends.
fn bound_at(bytes: &[u8], at: usize) -> Result<(Option<Num>, usize), QueryFault>
    requires { at ≤ length bytes.now }
    ensures bound { IfOk result (λ read. IsBoundRead bytes.now at read.0 read.1) }
    ensures place { (place : ℕ) → IsErrOf result (QueryFault.At place) → BreaksBound bytes.now at place }
{
    if at < bytes.len() && bytes[at] == b'*' {
        return Ok((None, at + 1));
    }
    let minus = at < bytes.len() && bytes[at] == b'-';
    numeral_at(bytes, at, minus)
}

// The number at a place, and where it ends.
fn numeral_at(bytes: &[u8], at: usize, minus: bool) -> Result<(Option<Num>, usize), QueryFault>
    requires within { at ≤ length bytes.now }
    requires head { Headed bytes.now at minus }
    ensures bound { IfOk result (λ read. IsBoundRead bytes.now at read.0 read.1) }
    ensures place { (place : ℕ) → IsErrOf result (QueryFault.At place) → BreaksBound bytes.now at place }
{
    let start = at + sign_len(minus);
    let len = digits_len(&bytes[start..]);
    if len == 0 {
        return Err(QueryFault::At { place: start });
    }
    match number_of(&bytes[start..start + len], minus) {
        Some(number) => Ok((Some(number), start + len)),
        None => Err(QueryFault::At { place: at }),
    }
}
