//! What a run leaves.
use doip_json::Str;
use link_core::Host;
use repo_step::Past;
use repo_store::StoreFault;
use session_core::SessionEnd;
use std::snapshot::Snapshot;

/// Why a valid command has no session.
#[derive(Debug, Drop)]
pub enum NoSession {
    /// The host failed.
    Host,
    /// The file of the accounts isn't one.
    File {
        /// Its path.
        path: Str,
    },
    /// The disk failed as the file of the store was read.
    Disk {
        /// Its count of faults by then.
        count: u64,
    },
    /// The file of the store is refused for what its bytes say.
    Store(StoreFault),
    /// Out of memory.
    Memory,
}

/// What there is to report of a run beside its status.
#[derive(Debug, Drop)]
pub enum Note {
    /// Nothing.
    Nothing,
    /// The command line is invalid.
    Words {
        /// What is wrong with it, and the usage of the command.
        text: String,
    },
    /// The host failed.
    Host,
    /// The file of the accounts isn't one.
    File {
        /// Its path.
        path: Str,
    },
    /// The disk failed.
    Disk {
        /// Its count of faults by then.
        count: u64,
    },
    /// The file of the store is refused for what its bytes say.
    Store(StoreFault),
    /// What the file was to hold doesn't fit into one of its areas.
    Full {
        /// The bytes that an empty area has in use.
        used: u64,
        /// The bytes that the list takes.
        asked: u64,
    },
    /// The file that was to be made has bytes.
    NotEmpty {
        /// How many.
        length: u64,
    },
    /// What the command prints could not be written.
    Out,
    /// Out of memory.
    Memory,
    /// The session ended inside a message, at bytes that are no message, or at a fault of its link.
    End(SessionEnd),
}

/// What a run leaves.
#[derive(Drop)]
pub struct Ran<H: Host>
where
    H::Disk: Drop,
    H::Link: Drop,
    H::Clock: Drop,
{
    /// The exit status.
    pub status: u8,
    /// What there is to note.
    pub note: Note,
    /// The disk as the host handed it out, for contracts alone: it has no bytes.
    pub opened: Option<Snapshot<H::Disk>>,
    /// The disk that the host handed out, if it did.
    pub disk: Option<H::Disk>,
    /// The link as the host handed it out, for contracts alone: it has no bytes.
    pub begun: Option<Snapshot<H::Link>>,
    /// The link that the host handed out, if it did.
    pub link: Option<H::Link>,
    /// The end of the session, if there was one.
    pub end: Option<SessionEnd>,
    /// The clock that gave the times of the session's turns, if there was one.
    pub clock: Option<H::Clock>,
    /// The history of the run: that of its session, and empty without one. It has no bytes.
    pub past: Past,
}
