//! Bringing a file of format 1 over to format 2.
ghost use Rattle.std.specs.Prelude.{◌≡◌, ◌≤◌, length};
ghost use Rattle.journal_core.specs.First.{OpensFirst};
ghost use Rattle.repo_store.specs.Opening.{IsInside};
ghost use Rattle.store_files.specs.First.{Migrates, fault_of_replay, unread};

use crate::RewriteFault;
use crate::place::body_place;
use disk_core::Disk;
use journal_core::{CommitFault, FirstJournal, Journal, OpenFault, Records};
use repo_state::{ReplayFault, Table, compaction_keeps_contents};
use repo_store::StoreFault;
use std::alloc::Global;
use std::snapshot::Snapshot;

/// What became of a file that was to be brought over.
#[derive(Clone, Copy, Debug, PartialEq, Eq)]
pub enum Migration {
    /// It is of format 2 now.
    Done {
        /// How many objects it holds.
        objects: usize,
    },
    /// It was of format 2 already, and is as it was.
    Already,
}

/// Brings a file of format 1 over to format 2: its contents are written as the shortest list of changes, all with the
/// number 1. Its objects have the times 0, which stand for unknown ones. Returns the disk. It takes the memory of all
/// records at once.
///
/// A crash at any moment leaves the list of format 1 or that of format 2, of the same objects and counter.
///
/// # Errors
/// `Store` with `NotAStore`, `Version`, `Damaged` or `Unsound` exactly for what the file's bytes say in format 1, where
/// the version byte isn't 2; with `DiskFault` only if the disk's count of faults rose, or with `Memory`; `Full` exactly if
/// the new list doesn't fit into an area. The file is as it was, but after a `DiskFault`.
pub fn migrate_file<D: Disk>(alloc: Global, disk: D) -> (D, Result<Migration, RewriteFault>)
    ensures { Migrates (D.state disk) (D.state result.0) result.1 }
{
    let start = Snapshot::of(&disk);
    match Journal::open_first(alloc, disk) {
        Ok((journal, records)) => migrate_records(alloc, start, journal, &records),
        Err((disk, fault)) => (disk, left_unread(fault)),
    }
}

// What becomes of a file that isn't read as one of format 1.
fn left_unread(fault: OpenFault) -> Result<Migration, RewriteFault>
    ensures { result ≡ unread fault }
{
    let fault = match fault {
        OpenFault::NotAStore => StoreFault::NotAStore,
        OpenFault::Version { byte: 2 } => return Ok(Migration::Already),
        OpenFault::Version { byte } => StoreFault::Version { byte },
        OpenFault::Damaged { place } => StoreFault::Damaged { place },
        OpenFault::DiskFault => StoreFault::DiskFault,
        OpenFault::Memory => StoreFault::Memory,
    };
    Err(RewriteFault::Store(fault))
}

// Writes what these records of a journal, which was opened over this disk, give in format 2.
fn migrate_records<D: Disk>(
    alloc: Global,
    start: Snapshot<D>,
    journal: FirstJournal<D>,
    records: &Records,
) -> (D, Result<Migration, RewriteFault>)
    requires opens { OpensFirst (D.state start.value) journal records.now }
    ensures { Migrates (D.state start.value) (D.state result.0) result.1 }
{
    compaction_keeps_contents();
    let table = match Table::replay_first(alloc, records) {
        Ok(table) => table,
        Err(fault) => {
            let fault = replay_fault(journal.side(), journal.area(), records, fault);
            return (journal.into_disk(), Err(RewriteFault::Store(fault)));
        }
    };
    table.counter();
    let Ok(list) = table.records() else {
        return (
            journal.into_disk(),
            Err(RewriteFault::Store(StoreFault::Memory)),
        );
    };
    let objects = table.count();
    match journal.migrate(&list) {
        Ok(journal) => (journal.into_disk(), Ok(Migration::Done { objects })),
        Err((disk, fault)) => match fault {
            CommitFault::Full { used, asked } => (disk, Err(RewriteFault::Full { used, asked })),
            CommitFault::DiskFault => (disk, Err(RewriteFault::Store(StoreFault::DiskFault))),
        },
    }
}

// What a refused replay of records says of their file.
fn replay_fault(side: u8, area: u64, records: &Records, fault: ReplayFault) -> StoreFault
    requires { IsInside records.now fault }
    ensures { result ≡ fault_of_replay area side records.now fault }
{
    match fault {
        ReplayFault::NotARecord { index } => StoreFault::Damaged {
            place: body_place(side, area, records, index),
        },
        ReplayFault::Unsound { id } => StoreFault::Unsound { id },
        ReplayFault::Memory => StoreFault::Memory,
    }
}
