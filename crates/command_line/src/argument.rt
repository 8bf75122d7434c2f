//! The arguments as they come in.
ghost use Rattle.std.specs.Prelude.{◌≡◌, string_bytes};

use base_core::Items;
use std::convert::AsStr;
use std::marker::Model;

/// The arguments of the program, seen as the list of their texts.
pub type Words = Items<ArgumentText>;

/// One argument, seen as the list of its bytes.
#[derive(Drop)]
pub struct ArgumentText {
    text: String,
}

impl Model for ArgumentText {
    ghost use Rattle.std.specs.Prelude.{List, ℕ, string_bytes};

    ghost Value = { List ℕ };

    ghost view = { λ argument. string_bytes argument.text };
}

impl ArgumentText {
    /// The same text, with no copy.
    pub fn from_string(text: String) -> ArgumentText
        ensures { result ≡ string_bytes text }
    {
        ArgumentText { text }
    }

    /// The text, lent.
    pub fn get(&self) -> &str
        ensures { result.now ≡ self.now }
    {
        self.text.as_str()
    }
}

impl AsStr for ArgumentText {
    ghost text = { λ argument. argument };

    fn as_str(&self) -> &str {
        self.text.as_str()
    }
}
