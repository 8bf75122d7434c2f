//! The journal: records in a file, each of them durable before it is acknowledged.
ghost use Rattle.std.specs.Prelude.{◌≡◌, ◌<◌, ◌≤◌, IfOk, IfErr};
ghost use Rattle.journal_core.specs.Layout.{most_area};

use crate::buffer::Buffer;
use crate::compact::turn;
use crate::layout::{Format, HEADER_LENGTH, OPEN_GATE};
use crate::open::{Found, read_file};
use crate::records::{room_of, room_of_one};
use crate::steps::{stage_all, stage_one, write_durably};
use crate::{FirstJournal, Moment, OpenFault, Records, Stamp};
use base_core::Failed;
use disk_core::Disk;
use std::alloc::Global;
use thiserror::Error;

/// Why records were not added.
#[derive(Clone, Copy, Debug, PartialEq, Eq, Drop, Error)]
pub enum CommitFault {
    /// The record doesn't fit: so many bytes of the area are used, and so many were asked for.
    #[error("limit: area, {used} used, {asked} asked")]
    Full { used: u64, asked: u64 },
    /// The disk failed. The records may be in the file or not, and the journal must be opened again.
    #[error("disk fault")]
    DiskFault,
}

impl From<Failed> for CommitFault {
    ghost use Rattle.journal_core.specs.declared.journal.CommitFault.TheVariants.{DiskFault};

    ghost from_gives = { λ _ fault. fault ≡ DiskFault };

    fn from(_: Failed) -> CommitFault {
        CommitFault::DiskFault
    }
}

/// How much of an area is used.
#[derive(Clone, Copy, Debug, PartialEq, Eq)]
pub struct Room {
    /// The bytes before the closed gate.
    pub used: u64,
    /// The length of the area.
    pub area: u64,
}

/// A journal over a disk.
#[derive(Drop)]
pub struct Journal<D: Disk> {
    pub(crate) disk: D,
    pub(crate) area: u64,
    pub(crate) side: u8,
    pub(crate) used: u64,
    pub(crate) buffer: Buffer,
    ghost within: { used < area },
    ghost bounded: { area ≤ most_area },
    ghost either: { side < 2 },
}

impl<D: Disk> Journal<D> {
    ghost use Rattle.std.specs.Prelude.{List, ℕ, [], IsOk};
    ghost use Rattle.std.specs.List.{All};
    ghost use Rattle.journal_core.specs.Layout.{most_number};
    ghost use Rattle.journal_core.specs.Journal.{disk_of, state_of, area_of, side_of, used_of, gate_of, one, IsNumbered};
    ghost use Rattle.journal_core.specs.Journal.{HasCommitCause, SurvivesCommit, Adds, StaysInPlace};
    ghost use Rattle.journal_core.specs.Compact.{HasCompactCause, SurvivesCompact, Replaces};
    ghost use Rattle.journal_core.specs.First.{OpensFirst};
    ghost use Rattle.journal_core.specs.Open.{Opens, IsRefused};

    /// Opens the journal in a file that a crash may have left. It reads the file once, in pieces, writes nothing, and
    /// hands the disk back if it refuses.
    ///
    /// It returns the records that the file holds, in order. `NotAStore`, `Version` and `Damaged` come exactly when the
    /// file's bytes say so; `DiskFault` only if the disk failed in this call. It takes the memory of the bodies and of
    /// one piece of 64 KiB, which the journal keeps.
    pub fn open(alloc: Global, disk: D) -> Result<(Journal<D>, Records), (D, OpenFault)>
        ensures opened { IfOk result (λ opened. Opens (D.state disk) opened.0 opened.1) }
        ensures refused { IfErr result (λ refusal.
            IsRefused Format.Second (D.state disk) (D.state refusal.0) refusal.1) }
    {
        let mut disk = disk;
        match read_file(alloc, &mut disk, Format::Second) {
            Ok(found) => {
                let Found {
                    header,
                    used,
                    entries,
                    buffer,
                } = found;
                let journal = Journal {
                    disk,
                    area: header.area,
                    side: header.side,
                    used,
                    buffer,
                };
                Ok((journal, entries))
            }
            Err(fault) => Err((disk, fault)),
        }
    }

    /// Opens a journal of format 1, for its migration or to be read. It reads the file as `open` does, and gives each
    /// record a stamp of zeros. `Version` comes exactly when the version byte isn't 1.
    pub fn open_first(alloc: Global, disk: D) -> Result<(FirstJournal<D>, Records), (D, OpenFault)>
        ensures opened { IfOk result (λ opened. OpensFirst (D.state disk) opened.0 opened.1) }
        ensures refused { IfErr result (λ refusal.
            IsRefused Format.First (D.state disk) (D.state refusal.0) refusal.1) }
    {
        let mut disk = disk;
        match read_file(alloc, &mut disk, Format::First) {
            Ok(found) => {
                let Found {
                    header,
                    used: _,
                    entries,
                    buffer,
                } = found;
                let journal = FirstJournal {
                    disk,
                    area: header.area,
                    side: header.side,
                    buffer,
                };
                Ok((journal, entries))
            }
            Err(fault) => Err((disk, fault)),
        }
    }

    /// Adds a record, and returns once it is durable. It takes no memory.
    ///
    /// `Full` comes exactly when the record and the next gate, 58 bytes and the body, don't fit into the area.
    pub fn commit(&mut self, stamp: Stamp, body: &[u8]) -> Result<Moment, CommitFault>
        requires number { stamp.number ≤ most_number }
        ensures cause { HasCommitCause self.old self.new (one stamp body.now) result }
        ensures crash { SurvivesCommit self.old self.new (one stamp body.now) }
        ensures added { IfOk result (λ moment. Adds self.old self.new (one stamp body.now) moment.number) }
        ensures place { StaysInPlace self.old self.new }
    {
        let room = room_of_one(stamp, body);
        if self.area - self.used <= room {
            return Err(CommitFault::Full {
                used: self.used,
                asked: room + 1,
            });
        }
        let gate = self.gate();
        stage_one(&mut self.disk, gate + 1, stamp, body)?;
        // An open gate vouches for the record after it and for the closed gate after that: both are durable by now.
        write_durably(&mut self.disk, gate, &[OPEN_GATE])?;
        self.used += room;
        Ok(Moment::of(&self.disk))
    }

    /// Adds records with one pair of syncs, and returns once all of them are durable: a crash leaves all of them or
    /// none. No records are no call of the disk. It takes no memory.
    pub fn commit_all(&mut self, entries: &Records) -> Result<Moment, CommitFault>
        requires numbers { All IsNumbered entries.now }
        ensures cause { HasCommitCause self.old self.new entries.now result }
        ensures crash { SurvivesCommit self.old self.new entries.now }
        ensures added { IfOk result (λ moment. Adds self.old self.new entries.now moment.number) }
        ensures none { entries.now ≡ [] → IsOk result }
        ensures place { StaysInPlace self.old self.new }
    {
        if entries.is_empty() {
            return Ok(Moment::of(&self.disk));
        }
        let room = room_of(entries);
        if self.area - self.used <= room {
            return Err(CommitFault::Full {
                used: self.used,
                asked: room.saturating_add(1),
            });
        }
        let gate = self.gate();
        stage_all(&mut self.disk, gate + 1, entries)?;
        // The first gate vouches for all that follows: the records, with their gates open, and the closed gate.
        write_durably(&mut self.disk, gate, &[OPEN_GATE])?;
        self.used += room;
        Ok(Moment::of(&self.disk))
    }

    /// Writes these records into the other area, turns the side to it, and returns once that is durable: the journal then
    /// keeps these records and no others. A crash leaves the list from before or these records. It takes no memory, and
    /// writes in pieces of 64 KiB or more.
    ///
    /// `Full` comes exactly when the records, 57 bytes and its body each, don't fit between a version byte and a
    /// closed gate; it has 2 for `used`.
    pub fn compact(&mut self, entries: &Records) -> Result<Moment, CommitFault>
        requires numbers { All IsNumbered entries.now }
        ensures cause { HasCompactCause self.old self.new entries.now result }
        ensures crash { SurvivesCompact self.old self.new entries.now }
        ensures replaced { IfOk result (λ moment. Replaces self.old self.new entries.now moment.number) }
    {
        let room = room_of(entries);
        if self.area < room.saturating_add(2) {
            return Err(CommitFault::Full {
                used: 2,
                asked: room,
            });
        }
        turn(
            &mut self.disk,
            &mut self.buffer,
            self.area,
            self.side,
            entries,
        )?;
        self.side = 1 - self.side;
        self.used = room + 1;
        Ok(Moment::of(&self.disk))
    }

    // Where the closed gate is.
    fn gate(&self) -> u64
        ensures { result ≡ gate_of self.now }
    {
        HEADER_LENGTH + self.side as u64 * self.area + self.used
    }

    /// How much of the area is used.
    pub fn room(&self) -> Room
        ensures used { result.used ≡ used_of self.now }
        ensures area { result.area ≡ area_of self.now }
    {
        Room {
            used: self.used,
            area: self.area,
        }
    }

    /// The side, 0 or 1: which area counts.
    pub fn side(&self) -> u8
        ensures { result ≡ side_of self.now }
    {
        self.side
    }

    /// The disk's clock now, as the moment of what was not committed.
    pub fn moment(&self) -> Moment
        ensures { result.number ≡ (state_of self.now).moment }
    {
        Moment::of(&self.disk)
    }

    /// The disk, lent.
    pub fn disk(&self) -> &D
        ensures { result.now ≡ disk_of self.now }
    {
        &self.disk
    }

    /// Gives the disk back.
    pub fn into_disk(self) -> D
        ensures { result ≡ disk_of self }
    {
        let Journal {
            disk,
            area: _,
            side: _,
            used: _,
            buffer: _,
        } = self;
        disk
    }
}
