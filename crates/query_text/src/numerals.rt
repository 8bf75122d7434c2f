//! Numerals: decimal digits, and optionally a `-` before them.
ghost use Rattle.std.specs.Prelude.{◌≡◌, ◌≤◌, ◌+◌, ◌*◌, ◌-◌, min, true};
ghost use Rattle.std.specs.Option.{SomeIff};
ghost use Rattle.doip_json.specs.Sound.{IsWhole};
ghost use Rattle.query_text.specs.Spelling.{all_digits, is_digit, number_after};
ghost use Rattle.query_text.specs.Reading.{signed_number, sign_len, IsDigitRun};

use doip_json::Num;
use std::cmp::min;

/// One more than the highest number.
const TOO_HIGH: u128 = 0x1_0000_0000_0000_0000;

/// How many bytes a sign has: one if there is a `-`.
pub fn sign_len(minus: bool) -> usize
    ensures { result ≡ sign_len minus }
{
    if minus { 1 } else { 0 }
}

/// How many digits stand at the head.
pub fn digits_len(rest: &[u8]) -> usize
    ensures { IsDigitRun rest.now result }
{
    let mut len = 0;
    while len < rest.len() && is_digit(rest[len]) {
        len += 1;
    }
    len
}

fn is_digit(byte: u8) -> bool
    ensures { result ≡ is_digit byte }
{
    b'0' <= byte && byte <= b'9'
}

/// The number that digits write, below zero after a `-`, if it is in the range of JSON values.
pub fn number_of(digits: &[u8], minus: bool) -> Option<Num>
    requires { all_digits digits.now ≡ true }
    ensures { let number = signed_number minus (number_after 0 digits.now) in SomeIff result (IsWhole number) number }
{
    let mut magnitude: u128 = 0;
    for digit in digits {
        magnitude = joined(magnitude, *digit);
    }
    let magnitude = magnitude as i128;
    Num::new(if minus { -magnitude } else { magnitude })
}

// One more digit of a number. What is out of range stays at the first number that is.
fn joined(magnitude: u128, digit: u8) -> u128
    requires high { magnitude ≤ TOO_HIGH }
    requires digit { is_digit digit ≡ true }
    ensures { result ≡ min (10 * magnitude + (digit - 48)) TOO_HIGH }
{
    min(10 * magnitude + (digit - b'0') as u128, TOO_HIGH)
}
