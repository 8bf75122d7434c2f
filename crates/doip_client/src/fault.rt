//! Why a request has no response.
use doip_exchange::ResponseFault;
use doip_json::Str;
use doip_segment::Reason;

/// Why a request has no response.
#[derive(Debug, Drop)]
pub enum ClientFault {
    /// A write of the link failed.
    WriteFault,
    /// A read of the link failed.
    ReadFault,
    /// The link ended before a whole message, after this many bytes of the session.
    Cut { place: u64 },
    /// Bytes that frame no message: the byte at this place of the session is the first that is wrong.
    Framing { place: u64, reason: Reason },
    /// The message that came is no response. The reason is never out of memory.
    BadResponse { why: ResponseFault },
    /// The response carries a request id that isn't the one that was sent.
    OtherId { sent: Option<Str>, came: Str },
    /// An allocation was refused.
    Memory,
}
