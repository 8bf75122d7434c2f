//! Messages as bytes: a decoder that reads a session however it is cut into pieces, and an encoder.
//!
//! A message is a list of segments, each JSON text or bytes. Contracts see a `Message` as the list `segments`, and a
//! `Decoder` as its limits, the result of a `feed` of no bytes (`standing`), the segments of the message that stands
//! and how many bytes it took (`taken`). `Took d bytes` means that these bytes came since the last message: nobody
//! keeps them, so a contract names the caller's own list.
//!
//! The call to read first is `Decoder::feed`. It consumes bytes up to the end of the first whole message, or up to and
//! with the byte at which they break, and returns exactly what the grammar (`specs/Grammar.antt`) and its faults
//! (`specs/Framing.antt`) say. `Decoder::new` takes all memory that the decoder will ever need, and no other call of it
//! takes any. Each byte is looked at once, and contents are copied by slices.
//!
//! `encode` writes the one canonical spelling (`specs/Canonical.antt`). The laws of spellings are in `laws`.
//!
//! Not promised: that a JSON segment is JSON.
#![tactic(auto)]

mod class;
mod decoder;
mod encoder;
mod kind;
mod laws;
mod message;
mod outcome;
mod phase;

pub use decoder::Decoder;
pub use encoder::{append_segment, encode, is_plain};
pub use kind::Kind;
pub use laws::{
    canonical_is_a_spelling, each_stream_breaks_once, each_stream_has_one_framing,
    no_spelling_begins_another, pieces_do_not_matter, what_breaks_stays_broken,
    what_is_written_is_read, what_stands_is_what_came,
};
pub use message::Message;
pub use outcome::{End, Limits, Reason, Step};

#[cfg(test)]
mod tests;
