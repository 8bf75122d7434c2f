//! A journal of format 1: it was read, and can be written again in format 2.
ghost use Rattle.std.specs.Prelude.{◌≡◌, ◌<◌, ◌≤◌, IfOk, IfErr};
ghost use Rattle.journal_core.specs.Layout.{most_area};

use crate::buffer::Buffer;
use crate::compact::turn;
use crate::records::room_of;
use crate::{CommitFault, Journal, Records};
use base_core::Failed;
use disk_core::Disk;

/// A journal of format 1 over a disk. It takes no commits.
#[derive(Drop)]
pub struct FirstJournal<D: Disk> {
    pub(crate) disk: D,
    pub(crate) area: u64,
    pub(crate) side: u8,
    pub(crate) buffer: Buffer,
    ghost bounded: { area ≤ most_area },
    ghost either: { side < 2 },
}

impl<D: Disk> FirstJournal<D> {
    ghost use Rattle.std.specs.List.{All};
    ghost use Rattle.journal_core.specs.Journal.{IsNumbered};
    ghost use Rattle.journal_core.specs.First.{first_area, first_disk, first_side, Migrates, IsNotMigrated};

    /// Writes these records in format 2 into the other area, turns the side to it, and returns the journal of format 2
    /// once that is durable. A crash leaves the list of format 1 or these records. It takes no memory.
    ///
    /// `Full` comes exactly when the records, 57 bytes and its body each, don't fit between a version byte and a
    /// closed gate; it has 2 for `used`. `DiskFault` comes only if the disk failed in this call.
    pub fn migrate(self, entries: &Records) -> Result<Journal<D>, (D, CommitFault)>
        requires numbers { All IsNumbered entries.now }
        ensures migrated { IfOk result (λ journal. Migrates self journal entries.now) }
        ensures refused { IfErr result (λ refusal. IsNotMigrated self refusal.0 refusal.1 entries.now) }
    {
        let FirstJournal {
            disk,
            area,
            side,
            buffer,
        } = self;
        let room = room_of(entries);
        if area < room.saturating_add(2) {
            let full = CommitFault::Full {
                used: 2,
                asked: room,
            };
            return Err((disk, full));
        }
        let mut disk = disk;
        let mut buffer = buffer;
        match turn(&mut disk, &mut buffer, area, side, entries) {
            Ok(()) => Ok(Journal {
                disk,
                area,
                side: 1 - side,
                used: room + 1,
                buffer,
            }),
            Err(Failed) => Err((disk, CommitFault::DiskFault)),
        }
    }

    /// The length of an area, in bytes.
    pub fn area(&self) -> u64
        ensures { result ≡ first_area self.now }
    {
        self.area
    }

    /// The area that counts, 0 or 1.
    pub fn side(&self) -> u8
        ensures { result ≡ first_side self.now }
    {
        self.side
    }

    /// Gives the disk back, unwritten.
    pub fn into_disk(self) -> D
        ensures { result ≡ first_disk self }
    {
        let FirstJournal {
            disk,
            area: _,
            side: _,
            buffer: _,
        } = self;
        disk
    }
}
