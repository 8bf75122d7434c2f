//! The token at the head of a text.
ghost use Rattle.std.specs.Prelude.{◌≡◌, ◌<◌, ℕ, length, take, true, not, IfOk, IsErrOf, IsUtf8};
ghost use Rattle.dobj_field.specs.Breaks.{BreaksAt};
ghost use Rattle.dobj_field.specs.Field.{IsField, NamesField};
ghost use Rattle.query_text.specs.declared.nesting.Due.TheVariants.{Term, Operator};
ghost use Rattle.query_text.specs.Spelling.{follows};
ghost use Rattle.query_text.specs.Reading.{Rest, IsSettled, IsTokenRead, IsTestRead, BreaksTest, BreaksThere};
ghost use Rattle.query_text.specs.Reading.{IsKeyword, BreaksKeyword, is_sharp};

use crate::fault::QueryFault;
use crate::nesting::{Due, Nesting};
use crate::parts::{Stop, untaken};
use crate::query::Token;
use crate::range::white_end;
use crate::scanning::shared_len;
use crate::value::{is_after_operator, is_after_value, value_of};
use dobj_field::{Field, FieldFault, field_of};
use std::alloc::Global;
use std::str::from_utf8;

// The token at the head, where the text goes on, and its length.
pub(crate) fn token_of(
    alloc: Global,
    rest: &[u8],
    nesting: &Nesting,
) -> Result<(Token, usize), QueryFault>
    requires some { 0 < length rest.now }
    requires sharp { is_sharp rest.now ≡ true }
    requires utf8 { IsUtf8 rest.now }
    requires settled { IsSettled nesting.now }
    ensures token { IfOk result (λ read. IsTokenRead nesting.now rest.now read.0 read.1) }
    ensures place { (place : ℕ) → IsErrOf result (QueryFault.At place) → BreaksThere (Rest nesting.now) rest.now place }
{
    match nesting.due {
        Due::Term => term_token(alloc, rest, nesting),
        Due::Operator => operator_token(rest, nesting),
    }
}

// The token at the head, where a term is due.
fn term_token(alloc: Global, rest: &[u8], nesting: &Nesting) -> Result<(Token, usize), QueryFault>
    requires some { 0 < length rest.now }
    requires sharp { is_sharp rest.now ≡ true }
    requires utf8 { IsUtf8 rest.now }
    requires due { nesting.now.due ≡ Term }
    ensures token { IfOk result (λ read. IsTokenRead nesting.now rest.now read.0 read.1) }
    ensures place { (place : ℕ) → IsErrOf result (QueryFault.At place) → BreaksThere (Rest nesting.now) rest.now place }
{
    if rest[0] == b'(' {
        if !nesting.has_room() {
            return Err(QueryFault::At { place: 0 });
        }
        return keyword(rest, b"(", Token::Open);
    }
    if rest[0] == b'N' {
        if !nesting.has_room() {
            return Err(QueryFault::At { place: 0 });
        }
        return keyword(rest, b"NOT", Token::Not);
    }
    if rest[0] == b'*' {
        return keyword(rest, b"*:*", Token::Every);
    }
    test_token(alloc, rest)
}

// The token at the head, where an operator is due.
fn operator_token(rest: &[u8], nesting: &Nesting) -> Result<(Token, usize), QueryFault>
    requires some { 0 < length rest.now }
    requires sharp { is_sharp rest.now ≡ true }
    requires utf8 { IsUtf8 rest.now }
    requires due { nesting.now.due ≡ Operator }
    requires settled { IsSettled nesting.now }
    ensures token { IfOk result (λ read. IsTokenRead nesting.now rest.now read.0 read.1) }
    ensures place { (place : ℕ) → IsErrOf result (QueryFault.At place) → BreaksThere (Rest nesting.now) rest.now place }
{
    if rest[0] == b')' {
        if !nesting.opened.is_group() {
            return Err(QueryFault::At { place: 0 });
        }
        return keyword(rest, b")", Token::Close);
    }
    if rest[0] == b'A' {
        return keyword(rest, b"AND", Token::And);
    }
    if rest[0] == b'O' {
        return keyword(rest, b"OR", Token::Or);
    }
    Err(QueryFault::At { place: 0 })
}

// The token that the word writes, which has to stand at the head.
fn keyword(rest: &[u8], word: &[u8], token: Token) -> Result<(Token, usize), QueryFault>
    ensures same { IfOk result (λ read. read.0 ≡ token) }
    ensures len { IfOk result (λ read. read.1 ≡ length word.now) }
    ensures keyword { IfOk result (λ read. IsKeyword rest.now word.now token) }
    ensures place { (place : ℕ) → IsErrOf result (QueryFault.At place) → BreaksKeyword rest.now word.now token place }
{
    let same = shared_len(rest, word);
    if same < word.len() {
        return Err(QueryFault::At { place: same });
    }
    if !follows(&token, &rest[same..]) {
        return Err(QueryFault::At { place: same });
    }
    Ok((token, same))
}

fn follows(token: &Token, rest: &[u8]) -> bool
    ensures { result ≡ follows token.now rest.now }
{
    match token {
        Token::Open | Token::Close => true,
        Token::Not | Token::And | Token::Or => is_after_operator(rest),
        Token::Every | Token::Test { field: _, test: _ } => is_after_value(rest),
    }
}

// The test at the head: a field, a colon and a value.
fn test_token(alloc: Global, rest: &[u8]) -> Result<(Token, usize), QueryFault>
    requires { IsUtf8 rest.now }
    ensures token { IfOk result (λ read. IsTestRead rest.now read.0 read.1) }
    ensures place { (place : ℕ) → IsErrOf result (QueryFault.At place) → BreaksTest rest.now place }
{
    let name = untaken(rest, Stop::Colon);
    match field_at(alloc, &rest[..name]) {
        Ok(field) => {
            if name == rest.len() {
                return Err(QueryFault::At { place: name });
            }
            let start = white_end(rest, name + 1);
            match value_of(alloc, &rest[start..]) {
                Ok((test, len)) => Ok((Token::Test { field, test }, start + len)),
                Err(QueryFault::At { place }) => Err(QueryFault::At {
                    place: start + place,
                }),
                Err(QueryFault::Memory) => Err(QueryFault::Memory),
            }
        }
        Err(fault) => Err(fault),
    }
}

// The field that the bytes name.
fn field_at(alloc: Global, bytes: &[u8]) -> Result<Field, QueryFault>
    requires { IsUtf8 bytes.now }
    ensures field { IfOk result (IsField bytes.now) }
    ensures place { (place : ℕ) → IsErrOf result (QueryFault.At place) → BreaksAt NamesField bytes.now place }
{
    match field_of(alloc, from_utf8(bytes).unwrap()) {
        Ok(field) => Ok(field),
        Err(FieldFault::At { place }) => Err(QueryFault::At { place }),
        Err(FieldFault::Memory) => Err(QueryFault::Memory),
    }
}
