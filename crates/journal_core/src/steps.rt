//! The steps of a change on the disk: write, then sync.
ghost use Rattle.std.specs.Prelude.{◌≡◌, ◌≢◌, ◌++◌, ◌+◌, ◌^◌, ◌<◌, [], ◌∷◌, length, IsOk};
ghost use Rattle.std.specs.Option.{ForSome};
ghost use Rattle.disk_core.specs.Disk.{Syncs};
ghost use Rattle.journal_core.specs.Layout.{closed_gate};
ghost use Rattle.journal_core.specs.File.{staged_records};
ghost use Rattle.journal_core.specs.Journal.{one, room_for};
ghost use Rattle.journal_core.specs.Steps.{staged, Writes, WritesDurably};

use crate::layout::{CLOSED_GATE, OPEN_GATE, RECORD_OVERHEAD};
use crate::records::{digest, fields};
use crate::{Records, Stamp};
use base_core::Failed;
use disk_core::Disk;

// Writes a record without its gate, and the next gate: the fields, the body, and the digest with that gate.
fn stage<D: Disk>(
    disk: &mut D,
    place: u64,
    stamp: Stamp,
    body: &[u8],
    next_gate: u8,
) -> Result<(), Failed>
    requires { place + length body.now < 2 ^ 61 }
    ensures { Writes (D.state disk.old) (D.state disk.new) place (staged stamp body.now next_gate) result }
{
    let length = body.len() as u64;
    let fields = fields(length, stamp);
    let end = end_of(&digest(&fields, body), next_gate);
    disk.write_at(place, &fields)?;
    disk.write_at(place + 24, body)?;
    disk.write_at(place + 24 + length, &end)
}

// A digest and the next gate.
fn end_of(digest: &[u8; 32], next_gate: u8) -> [u8; 33]
    ensures { result ≡ digest.now ++ next_gate ∷ [] }
{
    let mut end = [next_gate; 33];
    end[..32].copy_from_slice(digest);
    end
}

// Writes a record after a closed gate, with a closed gate after it, and makes both durable.
pub(crate) fn stage_one<D: Disk>(
    disk: &mut D,
    place: u64,
    stamp: Stamp,
    body: &[u8],
) -> Result<(), Failed>
    requires { place + length body.now < 2 ^ 61 }
    ensures { WritesDurably (D.state disk.old) (D.state disk.new) place (staged_records (one stamp body.now)) result }
{
    stage(disk, place, stamp, body, CLOSED_GATE)?;
    disk.sync()
}

// Writes records after a closed gate, all but the gate of the first, with a closed gate after them, and makes them
// durable.
pub(crate) fn stage_all<D: Disk>(disk: &mut D, place: u64, entries: &Records) -> Result<(), Failed>
    requires some { entries.now ≢ [] }
    requires room { place + room_for entries.now < 2 ^ 61 }
    ensures { WritesDurably (D.state disk.old) (D.state disk.new) place (staged_records entries.now) result }
{
    let last = entries.len() - 1;
    let mut place = place;
    'entries: for index in 0..last {
        let entry = entries.item(index);
        stage(disk, place, entry.stamp, entry.body.get(), OPEN_GATE)?;
        place += RECORD_OVERHEAD + entry.body.get().len() as u64;
    }
    let entry = entries.item(last);
    stage_one(disk, place, entry.stamp, entry.body.get())
}

// Writes a piece, and makes it durable.
pub(crate) fn write_durably<D: Disk>(disk: &mut D, place: u64, piece: &[u8]) -> Result<(), Failed>
    requires { place + length piece.now < 2 ^ 62 }
    ensures writes { WritesDurably (D.state disk.old) (D.state disk.new) place piece.now result }
    ensures later { ForSome (D.state disk.new).content (λ _. (D.state disk.old).moment < (D.state disk.new).moment) }
    ensures syncs { ForSome (D.state disk.new).content (λ _. Syncs (D.state disk.old) (D.state disk.new)
        (λ moment. IsOk result × (moment ≡ (D.state disk.new).moment))) }
{
    disk.write_at(place, piece)?;
    disk.sync()
}
