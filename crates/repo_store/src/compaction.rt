//! Compacting the list of a store.
ghost use Rattle.std.specs.Prelude.{◌≡◌, ◌↔◌, ◌<◌, map, None, IsSome, IfOk, IfErr, IfSome};
ghost use Rattle.journal_core.specs.Journal.{room_for, told};
ghost use Rattle.record_core.specs.declared.format.Format.TheVariants.{Second};
ghost use Rattle.repo_state.specs.Compacted.{compacted};
ghost use Rattle.repo_state.specs.Recorded.{AreRecordsOf};
ghost use Rattle.repo_store.specs.Compaction.{Compacts, Shrinks, HasCompactCause, HasRewriteCause, HasShrinkCause, compacted_used, recorded};
ghost use Rattle.repo_store.specs.Law.{Rewrites};
ghost use Rattle.repo_store.specs.Store.{planner_in, seen_of};

use crate::numbered::NumberedTable;
use crate::opening::RECORD_OVERHEAD;
use crate::saving::{fault_count, room_of};
use crate::{Planner, Store};
use disk_core::Disk;
use journal_core::{CommitFault, Records, Room};
use link_core::Clock;
use repo_state::{Compacted, compaction_keeps_contents};
use std::alloc::AllocError;

/// Why a list is not compacted.
#[derive(Clone, Copy, Debug, PartialEq, Eq)]
pub enum CompactFault {
    /// The list doesn't fit into an empty area. `used` is 2, for the version byte and a closed gate.
    Full {
        /// The bytes that an empty area has in use.
        used: u64,
        /// The bytes of the records.
        asked: u64,
    },
    /// The disk failed. The file has the list from before or the compacted one, and the store is closed from now on.
    DiskFault,
    /// Out of memory. Nothing changed.
    Memory,
}

/// Why a list is not shrunk.
#[derive(Clone, Copy, Debug, PartialEq, Eq)]
pub enum ShrinkFault {
    /// The disk failed, as in a compaction.
    DiskFault,
    /// Out of memory. Nothing changed.
    Memory,
}

impl From<AllocError> for CompactFault {
    ghost use Rattle.repo_store.specs.declared.compaction.CompactFault.TheVariants.{Memory};

    ghost from_gives = { λ _ fault. fault ≡ Memory };

    fn from(_: AllocError) -> CompactFault {
        CompactFault::Memory
    }
}

impl From<AllocError> for ShrinkFault {
    ghost use Rattle.repo_store.specs.declared.compaction.ShrinkFault.TheVariants.{Memory};

    ghost from_gives = { λ _ fault. fault ≡ Memory };

    fn from(_: AllocError) -> ShrinkFault {
        ShrinkFault::Memory
    }
}

impl<D: Disk, C: Clock, P: Planner> Store<D, C, P> {
    /// Writes the compacted list of the contents in place of the journal's: the counter, and then each object by
    /// ascending identifier. The contents stay, and a crash at any moment leaves a file that stands for them. The list
    /// is longer than the old one if that had nothing to drop. It takes the memory of all records at once.
    ///
    /// The store must have a disk, and not be closed.
    ///
    /// # Errors
    /// `Full` exactly if the list doesn't fit into an empty area, unless memory ran out; `DiskFault` only if the disk
    /// failed in this call; `Memory`.
    pub fn compact(&mut self) -> Result<Room, CompactFault>
        requires disk { IsSome (seen_of C.given self.old).journal }
        requires not_closed { (seen_of C.given self.old).closed ≡ None }
        ensures rewrites { Rewrites (seen_of C.given self.old) (seen_of C.given self.new) }
        ensures compacted { IfOk result (λ room. Compacts (seen_of C.given self.old) (seen_of C.given self.new) room) }
        ensures cause { IfErr result (λ fault. HasCompactCause (seen_of C.given self.old) (seen_of C.given self.new) fault) }
        ensures planner { planner_in self.new ≡ planner_in self.old }
    {
        let records = self.table.table().records()?;
        match self.rewrite(&records) {
            Ok(room) => Ok(room),
            Err(CommitFault::Full { used, asked }) => Err(CompactFault::Full { used, asked }),
            Err(CommitFault::DiskFault) => Err(CompactFault::DiskFault),
        }
    }

    /// Compacts the list if more than half of the area is used and the compacted list uses less of it; else nothing
    /// changes. The program calls it right after it opened a store's file.
    ///
    /// The store must have a disk, and not be closed. To find out it takes the memory of one record at a time, and of a
    /// reference for each object; to compact, that of all records at once.
    ///
    /// # Errors
    /// `DiskFault` only if the disk failed in this call, in a compaction; `Memory`. The smaller list always fits.
    pub fn shrink(&mut self) -> Result<Room, ShrinkFault>
        requires disk { IsSome (seen_of C.given self.old).journal }
        requires not_closed { (seen_of C.given self.old).closed ≡ None }
        ensures rewrites { Rewrites (seen_of C.given self.old) (seen_of C.given self.new) }
        ensures shrinks { IfOk result (λ room. Shrinks (seen_of C.given self.old) (seen_of C.given self.new) room) }
        ensures cause { IfErr result (λ fault. HasShrinkCause (seen_of C.given self.old) (seen_of C.given self.new) fault) }
        ensures planner { planner_in self.new ≡ planner_in self.old }
    {
        let Some(room) = room_of(&self.journal) else {
            unreachable!()
        };
        if room.used <= room.area / 2 {
            return Ok(room);
        }
        let Some(records) = shorter_list(&self.table, room.used)? else {
            return Ok(room);
        };
        match self.rewrite(&records) {
            Ok(room) => Ok(room),
            Err(CommitFault::DiskFault) => Err(ShrinkFault::DiskFault),
            Err(CommitFault::Full { .. }) => unreachable!(),
        }
    }

    // Writes the compacted list, which these records are, in place of the journal's.
    fn rewrite(&mut self, records: &Records) -> Result<Room, CommitFault>
        requires disk { IsSome (seen_of C.given self.old).journal }
        requires not_closed { (seen_of C.given self.old).closed ≡ None }
        requires records { AreRecordsOf Second records.now (compacted (seen_of C.given self.old).contents) }
        ensures rewrites { Rewrites (seen_of C.given self.old) (seen_of C.given self.new) }
        ensures compacted { IfOk result (λ room. Compacts (seen_of C.given self.old) (seen_of C.given self.new) room) }
        ensures cause { IfErr result (λ fault. HasRewriteCause (seen_of C.given self.old) (seen_of C.given self.new) fault) }
        ensures planner { planner_in self.new ≡ planner_in self.old }
    {
        compaction_keeps_contents();
        self.table.table();
        let Some(journal) = &mut self.journal else {
            unreachable!()
        };
        match journal.compact(records) {
            Ok(_) => Ok(journal.room()),
            Err(CommitFault::Full { used, asked }) => Err(CommitFault::Full { used, asked }),
            Err(CommitFault::DiskFault) => {
                self.closed = Some(fault_count(journal));
                Err(CommitFault::DiskFault)
            }
        }
    }
}

// The compacted list of a table, if an area that has it alone has less than so many bytes in use.
fn shorter_list(table: &NumberedTable, used: u64) -> Result<Option<Records>, AllocError>
    ensures list { IfOk result (λ found. IfSome found (λ records.
        AreRecordsOf Second records (compacted table.now.contents))) }
    ensures shorter { IfOk result (λ found. IsSome found ↔ (compacted_used table.now.contents < used)) }
{
    let list = table.table().compacted()?;
    if room_of_list(&list)?.saturating_add(1) >= used {
        return Ok(None);
    }
    Ok(Some(list.records()?))
}

// The bytes that the records of a list take in an area, of which one is made at a time. A number past 2^64 - 1 is told
// as that.
fn room_of_list(list: &Compacted<'_>) -> Result<u64, AllocError>
    ensures { IfOk result (λ room. room ≡ told (room_for (map recorded list.now))) }
{
    let mut room = 0u64;
    'records: for place in 0..list.len() {
        let record = list.record(place)?;
        room = room.saturating_add(RECORD_OVERHEAD + record.body.get().len() as u64);
    }
    Ok(room)
}
