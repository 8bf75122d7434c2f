//! Records: a body with the number and the time of its change, and its bytes in the file.
ghost use Rattle.std.specs.Prelude.{◌≡◌, ◌↔◌, ◌++◌, ◌^◌, ◌<◌, IsTrue};
ghost use Rattle.std.specs.List.{All};
ghost use Rattle.sha2.specs.Sha256.{sha256};
ghost use Rattle.journal_core.specs.File.{big_endian};
ghost use Rattle.journal_core.specs.Journal.{one, room_for, told};

use crate::layout::RECORD_OVERHEAD;
use base_core::{Bytes, Items};
use sha2::{Digest, Sha256};

/// The number of a change, and its time.
#[derive(Clone, Copy, Debug, PartialEq, Eq)]
pub struct Stamp {
    /// The number of the change, at most `MOST_NUMBER`.
    pub number: u64,
    /// The time, in the unit of the caller's clock.
    pub time: u64,
}

/// A body, and the stamp of its change.
#[derive(Debug, Drop)]
pub struct Record {
    /// The stamp.
    pub stamp: Stamp,
    /// The body.
    pub body: Bytes,
}

/// The records of a journal, in the order in which they were added.
pub type Records = Items<Record>;

// The bytes that records take in an area. That their times are numbers of 64 bits is a fact of their type.
pub(crate) fn room_of(entries: &Records) -> u64
    ensures room { result ≡ told (room_for entries.now) }
    ensures times { All (λ entry. entry.stamp.time < 2 ^ 64) entries.now }
{
    let mut room = 0u64;
    'entries: for index in 0..entries.len() {
        let entry = entries.item(index);
        let _time = entry.stamp.time;
        room = room.saturating_add(RECORD_OVERHEAD + entry.body.get().len() as u64);
    }
    room
}

// The bytes that a record takes in an area. That its time is a number of 64 bits is a fact of its type.
pub(crate) fn room_of_one(stamp: Stamp, body: &[u8]) -> u64
    ensures room { result ≡ room_for (one stamp body.now) }
    ensures time { stamp.time < 2 ^ 64 }
{
    let _time = stamp.time;
    RECORD_OVERHEAD + body.len() as u64
}

// The fields of a record of format 2: the length of its body, its number and its time.
pub(crate) fn fields(length: u64, stamp: Stamp) -> [u8; 24]
    ensures { result ≡ big_endian length ++ (big_endian stamp.number ++ big_endian stamp.time) }
{
    let mut bytes = [0; 24];
    bytes[..8].copy_from_slice(&length.to_be_bytes());
    bytes[8..16].copy_from_slice(&stamp.number.to_be_bytes());
    bytes[16..].copy_from_slice(&stamp.time.to_be_bytes());
    bytes
}

// The digest of a record: SHA-256 of its fields and its body.
pub(crate) fn digest(fields: &[u8; 24], body: &[u8]) -> [u8; 32]
    ensures { result ≡ sha256 (fields.now ++ body.now) }
{
    let mut hasher = Sha256::new();
    hasher.update(fields.as_slice());
    hasher.update(body);
    hasher.finalize()
}

// Whether this is the digest of a record with these fields and this body.
pub(crate) fn has_digest(fields: &[u8; 24], body: &[u8], check: &[u8; 32]) -> bool
    ensures { IsTrue result ↔ (sha256 (fields.now ++ body.now) ≡ check.now) }
{
    let digest = digest(fields, body);
    digest.as_slice() == check.as_slice()
}
