//! Change records: what a request does to the state, as bytes.
//!
//! A [`Change`] puts an object, removes one, or sets the counter of minted identifiers. A contract sees it as plain
//! data: `Put object counter`, `Remove id` or `Counter n`. Its bytes are `body change` of `specs/Body.antt`, and
//! `first_body change` in format 1, whose objects have no times. `IsStorable` of `specs/Storable.antt` says which changes
//! can be recorded: every object is fine by its own invariant, and counters are from 1 to 2^62.
//!
//! Read [`body_of`] first, then [`change_of`]. Each body that is read is the body of a storable change, and all other
//! bytes are refused. [`bodies_decide_changes`] is the law that no two storable changes have one body, so each reads
//! back as itself.
//!
//! That a record's object is sound in a state, or that its identifier is new, is not promised.
#![tactic(auto)]

mod change;
mod cutting;
mod elements;
mod fields;
mod format;
mod kept;
mod law;
mod leaves;
mod reading;
mod shown;
#[cfg(test)]
mod tests;
mod writing;

pub use change::{Change, RecordFault};
pub use format::{Format, MOST_COUNTER};
pub use law::bodies_decide_changes;
pub use reading::{change_of, change_of_first};
pub use writing::{body_length, body_of, put_body_of};
