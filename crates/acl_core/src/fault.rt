//! Why there are no accounts, and why a caller is refused.

use std::alloc::AllocError;

/// Why a file isn't read as accounts.
#[derive(Clone, Copy, Debug, PartialEq, Eq, Drop)]
pub enum AccountsFault {
    /// It is no accounts file. It isn't told which part is wrong.
    Refused,
    /// An allocation was refused.
    Memory,
}

impl From<AllocError> for AccountsFault {
    ghost use Rattle.std.specs.Prelude.{◌≡◌};
    ghost use Rattle.acl_core.specs.declared.fault.AccountsFault.TheVariants.{Memory};

    ghost from_gives = { λ _ fault. fault ≡ Memory };

    fn from(_: AllocError) -> AccountsFault {
        AccountsFault::Memory
    }
}

/// Why there is no caller.
#[derive(Clone, Copy, Debug, PartialEq, Eq, Drop)]
pub enum AuthFault {
    /// The request isn't authentic. It isn't told which part is wrong.
    NotAuthentic,
    /// An allocation was refused.
    Memory,
}

impl From<AllocError> for AuthFault {
    ghost use Rattle.std.specs.Prelude.{◌≡◌};
    ghost use Rattle.acl_core.specs.declared.fault.AuthFault.TheVariants.{Memory};

    ghost from_gives = { λ _ fault. fault ≡ Memory };

    fn from(_: AllocError) -> AuthFault {
        AuthFault::Memory
    }
}
