//! A change, and why bytes are none.
use dobj_model::{Id, Object};
use std::alloc::AllocError;

/// What a request does to the state.
#[derive(Debug, Drop)]
pub enum Change {
    /// Adds the object, or replaces the one that has its identifier.
    Put {
        /// The object, with the bytes of its elements.
        object: Object,
        /// The counter afterwards, 1 to `MOST_COUNTER`, if the object's identifier was minted.
        counter: Option<u64>,
    },
    /// Removes the object that has the identifier; without one nothing changes.
    Remove {
        /// The identifier.
        id: Id,
    },
    /// Sets the counter of minted identifiers.
    Counter {
        /// The counter, 1 to `MOST_COUNTER`.
        n: u64,
    },
}

/// Why bytes are not read as a change.
#[derive(Clone, Copy, Debug, PartialEq, Eq, Drop)]
pub enum RecordFault {
    /// The bytes are the body of no storable change.
    NotARecord,
    /// An allocation was refused.
    Memory,
}

impl From<AllocError> for RecordFault {
    ghost use Rattle.std.specs.Prelude.{◌≡◌};
    ghost use Rattle.record_core.specs.declared.change.RecordFault.TheVariants.{Memory};

    ghost from_gives = { λ _ fault. fault ≡ Memory };

    fn from(_: AllocError) -> RecordFault {
        RecordFault::Memory
    }
}
