//! An object as it comes in, and why an input is none.
use base_core::{Bytes, Items};
use dobj_model::{Id, TypeName};
use doip_json::{JsonMap, Str, TextFault};
use std::alloc::AllocError;

/// An element as it comes in.
#[derive(Debug, Drop)]
pub struct DraftElement {
    /// It differs from those of the other elements.
    pub id: Id,
    /// The text of its `type`, if it has one.
    pub type_name: Option<Str>,
    /// Its `attributes`, if it has some.
    pub attributes: Option<JsonMap>,
    /// Its bytes, if a segment brought them.
    pub bytes: Option<Bytes>,
}

/// The elements of a draft, in order: at most 1,000, with different identifiers.
pub type DraftElements = Items<DraftElement>;

/// An object as it comes in.
#[derive(Debug, Drop)]
pub struct Draft {
    /// The identifier, if it has one.
    pub id: Option<Id>,
    /// The name of its type, if it has one.
    pub type_name: Option<TypeName>,
    /// The attributes with no `metadata`, empty if it has none.
    pub attributes: JsonMap,
    /// The elements.
    pub elements: DraftElements,
}

/// A property that a fault names.
#[derive(Clone, Copy, Debug, PartialEq, Eq)]
pub enum ObjectField {
    Id,
    Type,
    Attributes,
    Acl,
    Elements,
    ElementId,
    ElementType,
    ElementAttributes,
}

/// Why an input is no object. Segments are numbered in the message, from 0.
#[derive(Debug, Drop)]
pub enum ObjectFault {
    /// There is no input.
    Missing,
    /// This segment is missing, of the wrong kind, or names no element.
    Segment { number: u64 },
    /// This segment isn't JSON, nests deeper than 64, or has a number that isn't an integer.
    Json { number: u64, fault: TextFault },
    /// The input is no JSON object.
    NotObject,
    /// The input has a signature.
    Signatures,
    /// A property has the wrong kind of value, or an element has no identifier.
    BadField { name: ObjectField },
    /// There are more than 1,000 elements.
    TooMany,
    /// Two elements have this identifier.
    TwiceElement { id: Id },
    /// Bytes came for an element that isn't listed, or came twice.
    Stranger { id: Str },
    /// An allocation was refused.
    Memory,
}

impl From<AllocError> for ObjectFault {
    ghost use Rattle.std.specs.Prelude.{◌≡◌};
    ghost use Rattle.dobj_draft.specs.declared.draft.ObjectFault.TheVariants.{Memory};

    ghost from_gives = { λ _ fault. fault ≡ Memory };

    fn from(_: AllocError) -> ObjectFault {
        ObjectFault::Memory
    }
}
