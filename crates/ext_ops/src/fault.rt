//! Why an extension or a hook isn't added.

use dobj_model::Id;
use std::alloc::AllocError;

/// Why an extension or a hook isn't added.
#[derive(Debug, Drop)]
pub enum ExtFault {
    /// There is one of this operation, or of this name, already.
    Twice {
        /// The identifier of the operation, or the name of the hook.
        operation: Id,
    },
    /// An allocation was refused.
    Memory,
}

impl From<AllocError> for ExtFault {
    ghost use Rattle.std.specs.Prelude.{◌≡◌};
    ghost use Rattle.ext_ops.specs.declared.fault.ExtFault.TheVariants.{Memory};

    ghost from_gives = { λ _ fault. fault ≡ Memory };

    fn from(_: AllocError) -> ExtFault {
        ExtFault::Memory
    }
}
