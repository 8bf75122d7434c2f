//! The piece of a file that a journal reads or writes at once.
ghost use Rattle.std.specs.Prelude.{◌≡◌, ◌+◌, ◌^◌, ◌<◌, ◌≤◌, ◌++◌, ℕ, List, length, take, drop, IfOk, OnOk};
ghost use Rattle.std.specs.Option.{ForSome};
ghost use Rattle.base_core.specs.Causes.{HasCause};
ghost use Rattle.disk_core.specs.Runs.{LeavesAlone};
ghost use Rattle.journal_core.specs.Layout.{piece_length};
ghost use Rattle.journal_core.specs.File.{opened};
ghost use Rattle.journal_core.specs.Steps.{Writes};

use crate::Stamp;
use crate::layout::{Format, OPEN_GATE, PIECE_LENGTH};
use crate::records::{digest, fields};
use base_core::Failed;
use disk_core::Disk;
use std::alloc::{AllocError, Global};

// Bytes of a file, or for it: the first `count` are those at `start`.
#[derive(Drop)]
pub(crate) struct Buffer {
    pub(crate) bytes: Vec<u8>,
    pub(crate) start: u64,
    pub(crate) count: usize,
    ghost size: { length bytes.items ≡ piece_length },
    ghost within: { count ≤ piece_length },
}

impl Buffer {
    ghost use Rattle.journal_core.specs.Buffer.{held_in, IsPieceOf, Gathers};

    // A buffer with nothing in it.
    pub(crate) fn new(alloc: Global) -> Result<Buffer, AllocError>
        ensures { IfOk result (λ buffer. buffer.count ≡ 0) }
    {
        let bytes = vec![in alloc; 0; PIECE_LENGTH]?;
        Ok(Buffer {
            bytes,
            start: 0,
            count: 0,
        })
    }

    // Copies what it has of the bytes from `place` on to a prefix of `into`, and returns how many.
    fn copy_to(&self, place: u64, into: &mut [u8]) -> usize
        ensures bound { result ≤ length into.new }
        ensures bytes { (file : List ℕ) → IsPieceOf file self.now
            → take result into.new ≡ take result (drop place file) }
        ensures within { (file : List ℕ) → IsPieceOf file self.now → result ≤ length (drop place file) }
        ensures ended { self.now.start ≡ place → result < length into.new → result ≡ self.now.count }
    {
        if place < self.start {
            return 0;
        }
        let skipped = place - self.start;
        if skipped >= self.count as u64 {
            return 0;
        }
        let rest = &self.bytes[skipped as usize..self.count];
        let count = rest.len().min(into.len());
        into[..count].copy_from_slice(&rest[..count]);
        count
    }

    // Reads the piece from `place` on.
    fn refill<D: Disk>(&mut self, disk: &mut D, place: u64) -> Result<(), Failed>
        requires { place < 2 ^ 62 }
        ensures start { OnOk result (self.new.start ≡ place) }
        ensures piece { ForSome (D.state disk.old).content (λ file. IsPieceOf file self.new) }
        ensures ended { OnOk result (ForSome (D.state disk.old).content (λ file.
            self.new.count < piece_length → length (drop place file) ≡ self.new.count)) }
        ensures same { OnOk result ((D.state disk.new).content ≡ (D.state disk.old).content) }
        ensures alone { LeavesAlone (D.state disk.old) (D.state disk.new) }
        ensures cause { HasCause (D.state disk.old).faults (D.state disk.new).faults result }
    {
        self.count = 0;
        let count = fill(disk, place, &mut self.bytes)?;
        self.start = place;
        self.count = count;
        Ok(())
    }

    // Reads from `place` on until `into` is full or the file ends, and returns how many bytes came. What is longer than
    // a piece goes straight into `into`.
    pub(crate) fn read<D: Disk>(
        &mut self,
        disk: &mut D,
        place: u64,
        into: &mut [u8],
    ) -> Result<usize, Failed>
        requires range { place + length into.old < 2 ^ 62 }
        requires piece { ForSome (D.state disk.old).content (λ file. IsPieceOf file self.old) }
        ensures bound { IfOk result (λ n. n ≤ length into.new) }
        ensures bytes { IfOk result (λ n. ForSome (D.state disk.old).content (λ file.
            take n into.new ≡ take (length into.new) (drop place file))) }
        ensures piece { ForSome (D.state disk.old).content (λ file. IsPieceOf file self.new) }
        ensures same { OnOk result ((D.state disk.new).content ≡ (D.state disk.old).content) }
        ensures alone { LeavesAlone (D.state disk.old) (D.state disk.new) }
        ensures cause { HasCause (D.state disk.old).faults (D.state disk.new).faults result }
    {
        let kept = self.copy_to(place, into);
        let rest = &mut into[kept..];
        let place = place + kept as u64;
        if rest.is_empty() {
            return Ok(kept);
        }
        if rest.len() >= PIECE_LENGTH {
            let count = fill(disk, place, rest)?;
            return Ok(kept + count);
        }
        self.refill(disk, place)?;
        let count = self.copy_to(place, rest);
        Ok(kept + count)
    }

    // Empties the buffer for bytes that are to be written from `place` on.
    pub(crate) fn begin(&mut self, place: u64)
        ensures start { self.new.start ≡ place }
        ensures count { self.new.count ≡ 0 }
    {
        self.start = place;
        self.count = 0;
    }

    // Adds a piece to those that wait, without a write.
    fn keep(&mut self, piece: &[u8])
        requires { self.old.count + length piece.now ≤ piece_length }
        ensures start { self.new.start ≡ self.old.start }
        ensures count { self.new.count ≡ self.old.count + length piece.now }
        ensures held { held_in self.new ≡ held_in self.old ++ piece.now }
    {
        let end = self.count + piece.len();
        self.bytes[self.count..end].copy_from_slice(piece);
        self.count = end;
    }

    // Writes what waits.
    pub(crate) fn flush<D: Disk>(&mut self, disk: &mut D) -> Result<(), Failed>
        requires { self.old.start + self.old.count < 2 ^ 62 }
        ensures writes { Writes (D.state disk.old) (D.state disk.new) self.old.start (held_in self.old) result }
        ensures start { OnOk result (self.new.start ≡ self.old.start + self.old.count) }
        ensures count { OnOk result (self.new.count ≡ 0) }
    {
        disk.write_at(self.start, &self.bytes[..self.count])?;
        self.start += self.count as u64;
        self.count = 0;
        Ok(())
    }

    // Adds a piece to those that wait. What fills the buffer is written, so each write is of 64 KiB or more.
    pub(crate) fn add<D: Disk>(&mut self, disk: &mut D, piece: &[u8]) -> Result<(), Failed>
        requires { self.old.start + self.old.count + length piece.now < 2 ^ 61 }
        ensures { Gathers (D.state disk.old) (D.state disk.new) self.old self.new piece.now result }
    {
        let room = PIECE_LENGTH - self.count;
        if piece.len() < room {
            self.keep(piece);
            return Ok(());
        }
        let (first, rest) = piece.split_at(room);
        self.keep(first);
        self.flush(disk)?;
        if rest.len() < PIECE_LENGTH {
            self.keep(rest);
            return Ok(());
        }
        disk.write_at(self.start, rest)?;
        self.start += rest.len() as u64;
        Ok(())
    }

    // Adds a record with its gate open.
    pub(crate) fn add_record<D: Disk>(
        &mut self,
        disk: &mut D,
        stamp: Stamp,
        body: &[u8],
    ) -> Result<(), Failed>
        requires { self.old.start + self.old.count + (57 + length body.now) < 2 ^ 61 }
        ensures { Gathers (D.state disk.old) (D.state disk.new) self.old self.new
            (opened Format.Second (record { stamp = stamp; body = body.now })) result }
    {
        let fields = fields(body.len() as u64, stamp);
        let digest = digest(&fields, body);
        self.add(disk, &[OPEN_GATE])?;
        self.add(disk, &fields)?;
        self.add(disk, body)?;
        self.add(disk, &digest)
    }
}

// Reads from `place` on until `into` is full or the file ends, and returns how many bytes came.
pub(crate) fn fill<D: Disk>(disk: &mut D, place: u64, into: &mut [u8]) -> Result<usize, Failed>
    requires { place + length into.old < 2 ^ 63 }
    ensures bound { IfOk result (λ n. n ≤ length into.new) }
    ensures bytes { IfOk result (λ n. ForSome (D.state disk.old).content (λ file.
        take n into.new ≡ take (length into.new) (drop place file))) }
    ensures same { OnOk result ((D.state disk.new).content ≡ (D.state disk.old).content) }
    ensures alone { LeavesAlone (D.state disk.old) (D.state disk.new) }
    ensures cause { HasCause (D.state disk.old).faults (D.state disk.new).faults result }
{
    let mut filled = 0;
    'reads: while filled < into.len() {
        let count = disk.read_at(place + filled as u64, &mut into[filled..])?;
        if count == 0 {
            break;
        }
        filled += count;
    }
    Ok(filled)
}
