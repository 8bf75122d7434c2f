//! Why the contents of a file are not written anew.
use repo_store::StoreFault;

/// Why the contents of a file are not written anew.
#[derive(Debug, Drop)]
pub enum RewriteFault {
    /// The file is refused for what its bytes say, the disk failed, or an allocation was refused.
    Store(StoreFault),
    /// The new list doesn't fit into an empty area.
    Full {
        /// What an empty area has in use: 2 bytes, for the version byte and a closed gate.
        used: u64,
        /// The bytes that the list takes.
        asked: u64,
    },
}
