//! Why a text isn't read.
ghost use Rattle.std.specs.Prelude.{◌≡◌};
ghost use Rattle.doip_json.specs.Faults.{text_fault_of};

use std::alloc::AllocError;
use thiserror::Error;

/// What is wrong with a text.
#[derive(Clone, Copy, Debug, PartialEq, Eq)]
pub enum TextFault {
    /// The bytes aren't UTF-8, or aren't a JSON text.
    NotJson,
    /// An array or an object nests deeper than asked.
    TooDeep,
    /// A number has a fraction or an exponent, or is below -2^63 or above 2^64 - 1.
    NotWhole,
}

/// Why `read` gives no value: a fault of the text, or out of memory.
#[derive(Clone, Copy, Debug, PartialEq, Eq, Drop, Error)]
pub enum JsonFault {
    /// See [`TextFault::NotJson`].
    #[error("not JSON")]
    NotJson,
    /// See [`TextFault::TooDeep`].
    #[error("nested too deep")]
    TooDeep,
    /// See [`TextFault::NotWhole`].
    #[error("number is not whole")]
    NotWhole,
    /// An allocation was refused.
    #[error("want of memory")]
    Memory,
}

impl JsonFault {
    /// The fault of the text, `None` exactly when memory ran out.
    pub fn text_fault(self) -> Option<TextFault>
        ensures { result ≡ text_fault_of self }
    {
        match self {
            JsonFault::NotJson => Some(TextFault::NotJson),
            JsonFault::TooDeep => Some(TextFault::TooDeep),
            JsonFault::NotWhole => Some(TextFault::NotWhole),
            JsonFault::Memory => None,
        }
    }
}

impl From<TextFault> for JsonFault {
    ghost use Rattle.std.specs.Prelude.{◌≡◌, Some};
    ghost use Rattle.doip_json.specs.Faults.{text_fault_of};

    ghost from_gives = { λ told fault. text_fault_of fault ≡ Some told };

    fn from(told: TextFault) -> JsonFault {
        match told {
            TextFault::NotJson => JsonFault::NotJson,
            TextFault::TooDeep => JsonFault::TooDeep,
            TextFault::NotWhole => JsonFault::NotWhole,
        }
    }
}

impl From<AllocError> for JsonFault {
    ghost use Rattle.std.specs.Prelude.{◌≡◌};
    ghost use Rattle.doip_json.specs.declared.fault.JsonFault.TheVariants.{Memory};

    ghost from_gives = { λ _ fault. fault ≡ Memory };

    fn from(_: AllocError) -> JsonFault {
        JsonFault::Memory
    }
}
