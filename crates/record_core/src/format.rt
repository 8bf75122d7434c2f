//! The numbers of a body, and the two formats of its object.

/// The greatest counter of minted identifiers, 2^62.
pub const MOST_COUNTER: u64 = 0x4000_0000_0000_0000;

/// The first byte of a put.
pub(crate) const PUT: u8 = 1;

/// The first byte of a removal.
pub(crate) const REMOVE: u8 = 2;

/// The first byte of a counter.
pub(crate) const COUNTER: u8 = 3;

/// The two formats of a record. They differ in the `metadata` of an object.
#[derive(Clone, Copy, Debug, PartialEq, Eq)]
pub enum Format {
    /// `metadata` has `createdBy`, `modifiedBy` and `revision`.
    First,
    /// `metadata` has the times too.
    Second,
}
