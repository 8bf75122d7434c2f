//! The two kinds of segment.

/// What a segment is: text in JSON, or bytes as they are.
#[derive(Clone, Copy, Debug, PartialEq, Eq)]
pub enum Kind {
    /// One JSON text. Whether it is JSON is no matter of the framing.
    Json,
    /// Any bytes.
    Bytes,
}
