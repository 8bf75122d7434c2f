//! What a turn takes and gives.
use doip_segment::Decoder;
use journal_core::Moment;
use repo_step::{Brought, Outcome};

/// What a turn takes: whose it is, the decoder in which the message stands, and the session's buffer.
#[derive(Drop)]
pub struct Work {
    /// The lane of the session.
    pub lane: u32,
    /// The number of the session in its lane.
    pub session: u64,
    /// The decoder, in which a message stands.
    pub decoder: Decoder,
    /// The buffer for the text of the reply. What it has is dropped.
    pub buffer: Vec<u8>,
}

/// Where the text of a reply is.
#[derive(Clone, Copy, Debug, PartialEq, Eq)]
pub enum ReplyText {
    /// In the buffer.
    Made,
    /// It is the constant of the outcome.
    Constant,
}

/// What a turn gives back.
#[derive(Drop)]
pub struct Told {
    /// The decoder, as it was.
    pub decoder: Decoder,
    /// The buffer, with the text of a reply that was made.
    pub buffer: Vec<u8>,
    /// Where the text of the reply is.
    pub text: ReplyText,
    /// How the turn ended.
    pub outcome: Outcome,
    /// The disk's clock as it ended, 0 without a disk.
    pub moment: Moment,
    /// What the turn brought: its time.
    pub brought: Brought,
}
