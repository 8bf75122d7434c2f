//! Following a JSON pointer (RFC 6901).
ghost use Rattle.std.specs.Prelude.{◌≡◌, ◌<◌, ◌≤◌, ◌∷◌, ◌↔◌, IsTrue, Some, None, MatchOption, option_map, option_and_then, length, drop};
ghost use Rattle.std.specs.Str.{all_ascii_digits};
ghost use Rattle.doip_json.specs.Value.{entries_from};
ghost use Rattle.doip_json.specs.Meaning.{value_of};
ghost use Rattle.doip_json.specs.Look.{entry_of};
ghost use Rattle.doip_json.specs.Pointer.{pointed, named_by, position_in, is_position, unescaped};

use crate::value::{Json, JsonMap};

/// The value that a JSON pointer names. It takes no memory.
///
/// A pointer is empty, and names the value itself, or has a `/` before each of its tokens, in which `~1` is `/` and
/// `~0` is `~`. A token names a key of an object or, by 1 to 9 digits with no leading zero, a position of an array,
/// from 0. Everything else finds nothing.
///
/// A token with no `~` is found by binary search, and any other by a pass over the object.
pub fn at_pointer<'a>(value: &'a Json, pointer: &str) -> Option<&'a Json>
    ensures { option_map (λ found. value_of found.now) result
        ≡ pointed pointer.now (value_of value.now) }
{
    if pointer.is_empty() {
        return Some(value);
    }
    let mut rest = pointer.strip_prefix('/')?;
    let mut found = value;
    'tokens: while let Some((token, more)) = rest.split_once('/') {
        found = step(found, token)?;
        rest = more;
    }
    step(found, rest)
}

fn step<'a>(value: &'a Json, token: &str) -> Option<&'a Json>
    ensures { option_map (λ found. value_of found.now) result
        ≡ named_by token.now (value_of value.now) }
{
    match value {
        Json::Items(list) => match position_of(token) {
            Some(position) => if position < list.len() {
                Some(list.item(position))
            } else {
                None
            },
            None => None,
        },
        Json::Table(map) => named(map, token),
        _ => None,
    }
}

fn position_of(token: &str) -> Option<usize>
    ensures { result ≡ position_in token.now }
{
    if !is_digits(token.as_bytes()) {
        return None;
    }
    match token.parse::<u32>() {
        Ok(position) => Some(position as usize),
        Err(_) => None,
    }
}

fn is_digits(token: &[u8]) -> bool
    ensures { result ≡ is_position token.now }
{
    if token.is_empty() || token.len() > 9 {
        return false;
    }
    if token.len() > 1 && token[0] == b'0' {
        return false;
    }
    are_digits(token)
}

fn are_digits(token: &[u8]) -> bool
    ensures { result ≡ all_ascii_digits token.now }
{
    for byte in token {
        if !byte.is_ascii_digit() {
            return false;
        }
    }
    true
}

fn named<'a>(map: &'a JsonMap, token: &str) -> Option<&'a Json>
    ensures { option_map (λ found. value_of found.now) result
        ≡ option_and_then (λ key. entry_of key (entries_from map.now)) (unescaped token.now) }
{
    if !token.contains('~') {
        return map.get(token);
    }
    for i in 0..map.len() {
        if writes(token.as_bytes(), map.key_at(i).get().as_bytes()) {
            return Some(map.value_at(i));
        }
    }
    None
}

// Whether the token writes the key.
fn writes(token: &[u8], key: &[u8]) -> bool
    ensures { IsTrue result ↔ (unescaped token.now ≡ Some key.now) }
{
    let mut at = 0;
    let mut matched = 0;
    while at < token.len() {
        let Some((byte, next)) = byte_at(token, at) else {
            return false;
        };
        if matched >= key.len() || key[matched] != byte {
            return false;
        }
        at = next;
        matched += 1;
    }
    matched == key.len()
}

// The byte that is written at a place, and the place after it. There is none at a faulty escape.
fn byte_at(token: &[u8], at: usize) -> Option<(u8, usize)>
    requires { at < length token.now }
    ensures value { MatchOption result (unescaped (drop at token.now) ≡ None)
        (λ found. unescaped (drop at token.now)
        ≡ option_map (λ s. found.0 ∷ s) (unescaped (drop found.1 token.now))) }
    ensures next { MatchOption result (Unit {0}) (λ found. (at < found.1) × (found.1 ≤ length token.now)) }
{
    let byte = token[at];
    if byte != b'~' {
        return Some((byte, at + 1));
    }
    if at + 1 == token.len() {
        return None;
    }
    let escape = token[at + 1];
    if escape == b'0' {
        Some((b'~', at + 2))
    } else if escape == b'1' {
        Some((b'/', at + 2))
    } else {
        None
    }
}
