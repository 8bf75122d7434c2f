//! Writing the contents of a file as the shortest list of changes.
ghost use Rattle.std.specs.Prelude.{◌≤◌};
ghost use Rattle.journal_core.specs.Layout.{most_number};
ghost use Rattle.repo_store.specs.Opening.{OpensFile};
ghost use Rattle.store_files.specs.Rewriting.{Compacts};

use crate::RewriteFault;
use disk_core::Disk;
use journal_core::{CommitFault, Journal, Room};
use repo_state::{Table, compaction_keeps_contents};
use repo_store::{StoreFault, open_table};
use std::alloc::Global;
use std::snapshot::Snapshot;

/// Writes the contents of a store's file anew: the counter, and then each object by ascending identifier, with no change
/// that was made before. Returns the disk, and the room of the list. It takes the memory of all records at once.
///
/// A crash at any moment leaves the list from before or the new one, which give the same contents. Both areas are used in
/// turn, so the new list stands in the one that didn't count.
///
/// # Errors
/// `Store` with `NotAStore`, `Version`, `Damaged` or `Unsound` exactly for what the file's bytes say, with `DiskFault`
/// only if the disk's count of faults rose, or with `Memory`; `Full` exactly if the new list doesn't fit into an area. The
/// file is as it was, but after a `DiskFault`.
pub fn compact_file<D: Disk>(alloc: Global, disk: D) -> (D, Result<Room, RewriteFault>)
    ensures { Compacts (D.state disk) (D.state result.0) result.1 }
{
    let start = Snapshot::of(&disk);
    match open_table(alloc, disk) {
        Ok((journal, table)) => compact_journal(start, journal, &table),
        Err((disk, fault)) => (disk, Err(RewriteFault::Store(fault))),
    }
}

// Writes the contents of a table in place of the list of its journal, which was opened over this disk.
fn compact_journal<D: Disk>(
    start: Snapshot<D>,
    journal: Journal<D>,
    table: &Table,
) -> (D, Result<Room, RewriteFault>)
    requires opens { OpensFile (D.state start.value) journal table.now.contents }
    requires numbered { table.now.contents.number ≤ most_number }
    ensures { Compacts (D.state start.value) (D.state result.0) result.1 }
{
    compaction_keeps_contents();
    table.counter();
    let mut journal = journal;
    let Ok(records) = table.records() else {
        return (
            journal.into_disk(),
            Err(RewriteFault::Store(StoreFault::Memory)),
        );
    };
    match journal.compact(&records) {
        Ok(_) => {
            let room = journal.room();
            (journal.into_disk(), Ok(room))
        }
        Err(CommitFault::Full { used, asked }) => {
            (journal.into_disk(), Err(RewriteFault::Full { used, asked }))
        }
        Err(CommitFault::DiskFault) => {
            (
                journal.into_disk(),
                Err(RewriteFault::Store(StoreFault::DiskFault)),
            )
        }
    }
}
