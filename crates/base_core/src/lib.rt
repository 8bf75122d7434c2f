//! What the lowest crates share: owned bytes, lists, and the fault of a call over the outside.
//!
//! `Bytes` and `Items` are a `Vec` that contracts see as its list. They are made from a `Vec` and give it back without
//! memory. `Failed` is what a call over a disk, a link or a host returns if the outside did not do its work. The
//! definitions in `specs/Causes.antt` say when that may come: `Rose` (the count of faults rose in the call), `Counts`
//! (it rose by one) and `HasCause` (it never falls, and a fault comes only where it rose).
//!
//! Read `src/items.rt` first. The crate depends on no other.
#![tactic(auto)]

mod bytes;
mod failed;
mod items;
#[cfg(test)]
mod tests;

pub use bytes::Bytes;
pub use failed::{Failed, counted};
pub use items::Items;
