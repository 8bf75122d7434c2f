//! How a session ends.
use doip_segment::Reason;

/// How a session ended.
#[derive(Clone, Copy, Debug, PartialEq, Eq)]
pub enum SessionEnd {
    /// At the link's end, between messages.
    Ended,
    /// At the link's end inside a message, after this many bytes of the session.
    Cut { place: u64 },
    /// At bytes that frame no message: the byte at this place of the session is the first that is wrong.
    Framing { place: u64, reason: Reason },
    /// A read of the link failed.
    ReadFault,
    /// A write to the link failed.
    WriteFault,
}
