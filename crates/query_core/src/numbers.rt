//! The numbers of a page, as a client gives them.
ghost use Rattle.std.specs.Prelude.{◌≡◌, ◌<◌, ◌≤◌, ◌↔◌, ℤ, IsTrue, IfSome, IsNone};
ghost use Rattle.doip_json.specs.Meaning.{value_of};
ghost use Rattle.query_core.specs.PageNumber.{IsPageNumber, IsShortNumeral, is_minus};

use doip_json::{Json, Num};
use query_text::numerals::{digits_len, number_of, sign_len};

/// The number that a value gives for `pageNum` or `pageSize`: an integer, or a string of an optional `-` and 1 to 18
/// digits, of which `-0` is 0. `None` exactly when it gives none. It takes no memory.
pub fn page_number(value: &Json) -> Option<Num>
    ensures number { IfSome result (IsPageNumber (value_of value.now)) }
    ensures none { IsNone result → (number : ℤ) → IsPageNumber (value_of value.now) number → ⊥ }
{
    match value {
        Json::Whole(number) => Some(*number),
        Json::Text(text) => short_number(text.get().as_bytes()),
        _ => None,
    }
}

// The number that a short text writes.
fn short_number(bytes: &[u8]) -> Option<Num>
    ensures number { IfSome result (IsShortNumeral bytes.now) }
    ensures none { IsNone result → (number : ℤ) → IsShortNumeral bytes.now number → ⊥ }
{
    let minus = is_minus(bytes);
    let digits = &bytes[sign_len(minus)..];
    let len = digits_len(digits);
    if !is_short(len, digits.len()) {
        return None;
    }
    number_of(digits, minus)
}

// Whether so many digits are few, and all of the bytes.
fn is_short(len: usize, all: usize) -> bool
    ensures { IsTrue result ↔ ((0 < len) × (len ≤ 18) × (all ≤ len)) }
{
    0 < len && len <= 18 && all <= len
}

fn is_minus(bytes: &[u8]) -> bool
    ensures { result ≡ is_minus bytes.now }
{
    match bytes.first() {
        Some(byte) => *byte == b'-',
        None => false,
    }
}
