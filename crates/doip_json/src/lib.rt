//! JSON values whose numbers are integers, and their text (RFC 8259).
//!
//! A [`Json`] is null, a boolean, an integer of 64 bits, a string, an array or an object. A contract sees it as its
//! meaning, `value_of json`, which is plain data of `specs/Value.antt`: a [`Str`] is the list of its UTF-8 bytes there,
//! a [`JsonList`] a list, and a [`JsonMap`] a list of keys and values that ascends by the keys' bytes. A [`Num`] is its
//! number, and [`Bytes`] are their list.
//!
//! Read [`read`] first. It refuses a text that isn't JSON, that nests deeper than asked, or that has a number which
//! isn't an integer, in this order. [`text`] writes the one canonical text of a value, and [`append_text`] adds it to a
//! buffer. [`at_pointer`] follows a JSON pointer, and [`push_token`] writes one.
//!
//! Not promised: which of two equal keys in a text counts, and what `-0` is; there it goes by the definition of reading
//! of `serde_json`. Reading, writing, copying, comparing and dropping recurse as deep as the value nests, and a value
//! built by hand may nest deeper than any text.
#![tactic(auto)]

mod fault;
mod law;
mod leaf;
mod look;
mod pointer;
mod reading;
mod room;
mod same;
#[cfg(test)]
mod tests;
mod token;
mod value;
mod writing;

pub use base_core::Bytes;
pub use fault::{JsonFault, TextFault};
pub use law::{
    is_one_line, items_and_entries_are_lists, reads_back, texts_are_no_longer,
    written_pointers_find,
};
pub use leaf::{Num, Str};
pub use look::get;
pub use pointer::at_pointer;
pub use reading::read;
pub use same::{copy, copy_map, is_same, is_same_map};
pub use token::push_token;
pub use value::{Json, JsonList, JsonMap};
pub use writing::{append_text, text};
