//! A session that was served, and how a lane ended.
use session_core::SessionEnd;
use std::snapshot::Snapshot;

/// A session that was served: its lane, its number in that lane, its link, which is closed, and how it ended.
#[derive(Drop)]
pub struct ServedSession<L> {
    /// The lane.
    pub lane: u32,
    /// The number of the session in its lane, from 0.
    pub session: u64,
    /// The link, closed.
    pub link: L,
    /// How the session ended.
    pub end: SessionEnd,
    /// The link as it was accepted, for contracts alone.
    pub begun: Snapshot<L>,
}

/// How a lane ended.
#[derive(Clone, Copy, Debug, PartialEq, Eq)]
pub enum LaneEnd {
    /// No link was left to accept.
    Ended,
    /// Accepting a link failed.
    Faulted,
    /// There was no memory for the lane's buffers, or for one more session.
    Starved,
}
