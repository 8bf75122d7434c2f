//! Replies whose texts are fixed, so that they need no memory when they are due.
ghost use Rattle.std.specs.Prelude.{◌≡◌};
ghost use Rattle.doip_message.specs.Reply.{reply_text};
ghost use Rattle.doip_message.specs.Fixed.{memory_reply, disk_reply, closed_reply, framing_reply};

/// The reply where a turn found no memory.
pub const MEMORY_TEXT: &[u8] =
    b"{\"attributes\":{\"message\":\"want of memory\"},\"status\":\"0.DOIP/Status.500\"}\n#\n#\n";

/// The reply if the disk failed in a turn.
pub const DISK_TEXT: &[u8] =
    b"{\"attributes\":{\"message\":\"disk fault\"},\"status\":\"0.DOIP/Status.500\"}\n#\n#\n";

/// The reply if the disk failed in an earlier turn.
pub const CLOSED_TEXT: &[u8] =
    b"{\"attributes\":{\"message\":\"store closed\"},\"status\":\"0.DOIP/Status.500\"}\n#\n#\n";

/// The last text of a session whose bytes frame no message.
pub const FRAMING_TEXT: &[u8] =
    b"{\"attributes\":{\"message\":\"framing fault\"},\"status\":\"0.DOIP/Status.101\"}\n#\n#\n";

/// Each fixed text is the text of its reply, which carries no request id. It does nothing when it runs.
pub fn fixed_texts_are_replies()
    ensures memory { MEMORY_TEXT.now ≡ reply_text memory_reply }
    ensures disk { DISK_TEXT.now ≡ reply_text disk_reply }
    ensures closed { CLOSED_TEXT.now ≡ reply_text closed_reply }
    ensures framing { FRAMING_TEXT.now ≡ reply_text framing_reply }
{}
