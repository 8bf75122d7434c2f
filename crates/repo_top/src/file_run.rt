//! What a command over a file leaves.
use link_core::HostFault;
use repo_store::StoreFault;
use std::snapshot::Snapshot;

/// How a command over a file ended.
#[derive(Debug, Drop)]
pub enum FileEnd {
    /// It did its work and printed its text.
    Done,
    /// The host failed.
    Host,
    /// Out of memory.
    Memory,
    /// The disk failed.
    Disk {
        /// Its count of faults by then.
        count: u64,
    },
    /// The file is refused for what its bytes say.
    Store(StoreFault),
    /// The new list doesn't fit into an area of the file.
    Full {
        /// What an empty area has in use.
        used: u64,
        /// The bytes that the list takes.
        asked: u64,
    },
    /// The file was to be empty, and has bytes.
    NotEmpty {
        /// How many.
        length: u64,
    },
    /// It did its work, and the sink failed as the text was printed.
    Out,
}

/// What a command over a file leaves.
#[derive(Drop)]
pub struct FileRun<D> {
    /// The disk as the host handed it out, for contracts alone: it has no bytes.
    pub opened: Option<Snapshot<D>>,
    /// The disk that the host handed out, if it did.
    pub disk: Option<D>,
    /// How the command ended.
    pub end: FileEnd,
}

impl<D> FileRun<D> {
    ghost use Rattle.std.specs.Prelude.{◌≡◌, None, option_map};
    ghost use Rattle.repo_top.specs.Files.{end_of_host};

    /// A run whose host handed no disk out.
    pub(crate) fn without_disk(fault: HostFault) -> FileRun<D>
        ensures opened { option_map (λ s. s.value) result.opened ≡ None }
        ensures disk { result.disk ≡ None }
        ensures end { result.end ≡ end_of_host fault }
    {
        let end = match fault {
            HostFault::Failed => FileEnd::Host,
            HostFault::Memory => FileEnd::Memory,
        };
        FileRun {
            opened: None,
            disk: None,
            end,
        }
    }
}
