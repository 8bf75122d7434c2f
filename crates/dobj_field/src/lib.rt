//! Fields of objects, and what they reach: what a query looks at, and the key by which hits are sorted.
//!
//! A [`Field`] is `id`, `type`, or a pointer into `content`; contracts see it as itself, and a [`PointerTokens`] as the
//! list of its tokens. `IsField` of `specs/Field.antt` is the grammar of a field, root first, and `reached` of
//! `specs/Reach.antt` the list of values that a field reaches in an object.
//!
//! Read [`field_of`] first, which gives the exact place where a text stops being a field (`BreaksAt` of
//! `specs/Breaks.antt`), then [`reaches`] and [`first_scalar`], which take no memory.
#![tactic(auto)]

mod field;
mod reach;
#[cfg(test)]
mod tests;

pub use field::{Field, FieldFault, PointerTokens, field_of};
pub use reach::{Scalar, ScalarTest, first_scalar, reaches};
