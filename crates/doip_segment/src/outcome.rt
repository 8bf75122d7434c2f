//! Limits of a message, and what the decoder returns.

/// How long a message may be.
#[derive(Clone, Copy, Debug, PartialEq, Eq)]
pub struct Limits {
    /// The most bytes that a JSON segment has.
    pub json: u32,
    /// The most bytes that the spelling of a message has.
    pub total: u32,
}

/// Why bytes frame no message.
#[derive(Clone, Copy, Debug, PartialEq, Eq)]
pub enum Reason {
    /// Unexpected byte after `#` or `@`, where blanks and a line feed are due.
    Marker,
    /// Unexpected byte where a chunk's length or the end of a byte segment is due.
    Length,
    /// A chunk's data isn't followed by a line feed.
    ChunkEnd,
    /// A message has more than 2,048 segments.
    TooMany,
    /// A JSON segment has more bytes than its limit.
    JsonTooLong,
    /// A message has more bytes than its limit.
    TooLong,
}

/// What a piece of the session led to.
#[derive(Clone, Copy, Debug, PartialEq, Eq)]
pub enum Step {
    /// All of it was taken, and the message isn't whole yet.
    More,
    /// A message is whole, and stands in the decoder.
    Message,
    /// The last byte taken is a framing fault.
    Fault {
        /// The number of this byte, counted from 1 at the session's first, and 2^64 - 1 past that.
        place: u64,
        reason: Reason,
    },
}

/// Where a session ended.
#[derive(Clone, Copy, Debug, PartialEq, Eq)]
pub enum End {
    /// Only white bytes came after the last whole message.
    Between,
    /// A message was begun, or a fault stands.
    Inside {
        /// The number of bytes taken, which is the fault's place where one stands.
        place: u64,
    },
}
