//! Why a text is no query.
use std::alloc::{AllocError, AllocFailed};

/// Why a text is no query.
#[derive(Clone, Copy, Debug, PartialEq, Eq, Drop)]
pub enum QueryFault {
    /// The first byte, from 0, by which no query can begin so: the text's length where it ends too early, and the first
    /// byte of a bound whose number is out of range.
    At {
        /// The number of the byte.
        place: usize,
    },
    /// An allocation was refused.
    Memory,
}

impl From<AllocError> for QueryFault {
    ghost use Rattle.std.specs.Prelude.{◌≡◌};
    ghost use Rattle.query_text.specs.declared.fault.QueryFault.TheVariants.{Memory};

    ghost from_gives = { λ _ fault. fault ≡ Memory };

    fn from(_: AllocError) -> QueryFault {
        QueryFault::Memory
    }
}

impl<T: Drop> From<AllocFailed<T>> for QueryFault {
    ghost use Rattle.std.specs.Prelude.{◌≡◌};
    ghost use Rattle.query_text.specs.declared.fault.QueryFault.TheVariants.{Memory};

    ghost from_gives = { λ _ fault. fault ≡ Memory };

    fn from(_: AllocFailed<T>) -> QueryFault {
        QueryFault::Memory
    }
}
