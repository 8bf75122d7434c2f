//! What a value is made of: strings and integers.
ghost use Rattle.std.specs.Prelude.{◌≡◌, IfOk, string_bytes};
ghost use Rattle.std.specs.Option.{SomeIff};
ghost use Rattle.doip_json.specs.Sound.{IsWhole};

use std::alloc::{AllocError, Global};
use std::marker::Model;

/// A string, seen as its UTF-8 bytes.
#[derive(Debug, Drop)]
pub struct Str {
    text: String,
}

impl Model for Str {
    ghost use Rattle.std.specs.Prelude.{List, ℕ, string_bytes, IsUtf8};

    ghost Value = { List ℕ };

    ghost view = { λ s. string_bytes s.text };

    ghost invariant = { λ s. IsUtf8 (string_bytes s.text) };
}

impl Str {
    ghost use Rattle.std.specs.Prelude.{IsUtf8};

    /// A copy of the string.
    pub fn of(alloc: Global, text: &str) -> Result<Str, AllocError>
        ensures { IfOk result (λ s. s ≡ text.now) }
    {
        Ok(Str::from_string(String::from_str(alloc, text)?))
    }

    /// The same string, with no copy.
    pub fn from_string(text: String) -> Str
        ensures { result ≡ string_bytes text }
    {
        let _ = text.as_str();
        Str { text }
    }

    /// The same string, with no copy.
    pub fn into_string(self) -> String
        ensures { string_bytes result ≡ self }
    {
        let Str { text } = self;
        text
    }

    /// The string, lent.
    pub fn get(&self) -> &str
        ensures text { result.now ≡ self.now }
        ensures utf8 { IsUtf8 self.now }
    {
        self.text.as_str()
    }
}

/// An integer from -2^63 to 2^64 - 1, seen as that number.
#[derive(Clone, Copy, Debug, Drop)]
pub struct Num {
    number: i128,
}

impl Model for Num {
    ghost use Rattle.std.specs.Prelude.{ℤ};
    ghost use Rattle.doip_json.specs.Sound.{IsWhole};

    ghost Value = { ℤ };

    ghost view = { λ x. x.number };

    ghost invariant = { λ x. IsWhole x.number };

    ghost inverse = { λ z. record { number = z } };
}

impl Num {
    /// The number, `None` exactly when it is below -2^63 or above 2^64 - 1.
    pub fn new(n: i128) -> Option<Num>
        ensures { SomeIff result (IsWhole n) n }
    {
        if n < i64::MIN as i128 || n > u64::MAX as i128 {
            None
        } else {
            Some(Num { number: n })
        }
    }

    /// The number.
    pub fn get(&self) -> i128
        ensures value { result ≡ self.now }
        ensures range { IsWhole self.now }
    {
        self.number
    }
}
