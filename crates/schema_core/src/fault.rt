//! Why a JSON value is no schema.

use doip_json::Str;
use std::alloc::AllocError;

/// Why a JSON value is no schema that is taken.
#[derive(Debug, Drop)]
pub enum SchemaFault {
    /// A word of JSON Schema that is not supported.
    Word {
        /// The word.
        name: Str,
    },
    /// A value of another shape than its word asks for.
    Shape {
        /// The word; `schema` for a schema that is no JSON object.
        name: Str,
    },
    /// An allocation was refused.
    Memory,
}

impl From<AllocError> for SchemaFault {
    ghost use Rattle.std.specs.Prelude.{◌≡◌};
    ghost use Rattle.schema_core.specs.declared.fault.SchemaFault.TheVariants.{Memory};

    ghost from_gives = { λ _ fault. fault ≡ Memory };

    fn from(_: AllocError) -> SchemaFault {
        SchemaFault::Memory
    }
}
