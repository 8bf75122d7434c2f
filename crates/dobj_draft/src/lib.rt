//! Drafts: objects as they come in, read from a JSON value or from segments.
//!
//! A contract sees a [`Draft`] and a [`DraftElement`] as themselves, and [`DraftElements`] as a list. `draft` of
//! `specs/Draft.antt` says what each input means: a draft, or the first fault. `Reads` ties a result to what is meant:
//! a fault is the one that is meant, unless it is out of memory.
//!
//! Read [`draft_of`] first, then [`ObjectFault`], the ways in which an input is no object. [`drafts_make_objects`] is the
//! law by which what a message brings always makes an object. That a draft has an identifier, a type or all bytes is not
//! promised: a caller asks for them.
#![tactic(auto)]

mod draft;
mod law;
mod listed;
mod payloads;
mod properties;
mod reading;
#[cfg(test)]
mod tests;

pub use draft::{Draft, DraftElement, DraftElements, ObjectFault, ObjectField};
pub use law::{drafts_keep_their_bounds, drafts_make_objects, messages_bring_values};
pub use reading::draft_of;
