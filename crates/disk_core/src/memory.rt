//! A disk in memory. It keeps a log of its calls, so a crash may leave all that the disk model allows.
ghost use Rattle.std.specs.Prelude.{◌≡◌, ◌≢◌, ◌==◌, ◌+◌, ◌-◌, ◌<◌, ◌≤◌, ◌^◌, ◌∷◌, ◌++◌, [], Some, length, min, reverse, take, drop, IfOk, OnOk, OnErr};
ghost use Rattle.base_core.specs.Causes.{HasCause};
ghost use Rattle.disk_core.specs.Disk.{written, Same, Passes, IsImageNow, IsSettled};
ghost use Rattle.disk_core.specs.Past.{file_after};

use crate::calls::Log;
use crate::torn::images_after;
use crate::{Disk, DiskCall, Failing, Noted};
use base_core::{Bytes, Failed, Items, counted};
use std::alloc::{AllocError, Global};

/// The images of a disk, for tests to open.
pub type Images = Items<Bytes>;

/// A disk in memory. It reports its content as long as it found memory for its log at every call.
///
/// A call that its list names returns `Failed` and does nothing, though a crash may tear a write that failed. If there
/// is no memory for the log the call returns `Failed` too, and `starved` rises.
#[derive(Drop)]
pub struct MemoryDisk {
    start: Vec<u8>,
    file: Vec<u8>,
    log: Log,
    /// How often the log found no memory. It is a part of the count of faults.
    pub starved: u64,
    ghost reads: { starved ≡ 0 → file.items ≡ file_after start.items (reverse log.calls.items) },
}

impl MemoryDisk {
    ghost use Rattle.std.specs.Option.{ForSome};
    ghost use Rattle.disk_core.specs.Memory.{content_of, calls_of, failing_of, state_of, note, FollowsList};
    ghost use Rattle.std.specs.List.{All, Contains};

    /// A disk with this file, all of it durable, that fails the listed calls.
    pub fn new(
        alloc: Global,
        contents: &[u8],
        failing: &[Failing],
    ) -> Result<MemoryDisk, AllocError>
        ensures content { IfOk result (λ disk. (state_of disk).content ≡ Some contents.now) }
        ensures settled { IfOk result (λ disk. IsSettled (state_of disk)) }
        ensures faults { IfOk result (λ disk. (state_of disk).faults ≡ 0) }
        ensures calls { IfOk result (λ disk. calls_of disk ≡ []) }
        ensures failing { IfOk result (λ disk. failing_of disk ≡ failing.now) }
    {
        let start = contents.to_vec(alloc)?;
        let file = contents.to_vec(alloc)?;
        let failing = failing.to_vec(alloc)?;
        Ok(MemoryDisk {
            start,
            file,
            log: Log::new(alloc, failing),
            starved: 0,
        })
    }

    /// The file as a read gives it.
    pub fn file(&self) -> &[u8]
        ensures { ForSome (content_of self.now) (λ file. result.now ≡ file) }
    {
        &self.file
    }

    /// The log of the calls so far, the oldest first.
    pub fn calls(&self) -> &[Noted]
        ensures { result.now ≡ calls_of self.now }
    {
        &self.log.calls
    }

    /// Some of the images that a crash may leave now. Each write since the last sync is torn on two files: the one that
    /// has all writes before it, and the one that has none of them. A byte is then what was written, 0, 1, 2, 255 or
    /// missing; a longer piece is whole, half written, all 255 or missing. So a write adds at most ten images, and they
    /// aren't multiplied. The last one is the file as it reads.
    pub fn images(&self) -> Result<Images, AllocError>
        ensures images { IfOk result (λ images. All (IsImageNow (state_of self.now)) images) }
        ensures file { IfOk result (λ images. ForSome (content_of self.now) (λ file. Contains images file)) }
    {
        let alloc = self.log.alloc;
        let mut file = self.start.to_vec(alloc)?;
        let mut images = Items::new(alloc);
        images.push(Bytes::of(alloc, &file)?)?;
        'calls: for noted in &self.log.calls {
            images = images_after(alloc, &images, &mut file, noted)?;
        }
        images.push(Bytes::of(alloc, &file)?)?;
        Ok(images)
    }

    // A call that doesn't change the file.
    fn pass(&mut self, call: DiskCall, place: u64) -> Result<(), Failed>
        requires { call ≢ DiskCall.WriteAt }
        ensures ok { OnOk result (self.new.starved ≡ self.old.starved) }
        ensures file { self.new.file ≡ self.old.file }
        ensures start { self.new.start ≡ self.old.start }

        ensures listed { FollowsList self.old self.new (note call result place []) result }
        ensures reported { ForSome (content_of self.new) (λ file. content_of self.old ≡ Some file) }
        ensures clock { (state_of self.old).moment ≤ (state_of self.new).moment }
        ensures crash { ForSome (content_of self.new) (λ _. Passes (state_of self.old) (state_of self.new) Same) }
        ensures cause { HasCause (state_of self.old).faults (state_of self.new).faults result }
    {
        match self.log.enter(call, place, &[]) {
            Ok(true) => Ok(()),
            Ok(false) => Err(Failed),
            Err(_) => {
                self.starved = counted(self.starved);
                Err(Failed)
            }
        }
    }
}

// Copies the bytes from `place` on to a prefix of `into`, as many as fit, and returns how many.
fn copy_from(file: &[u8], place: u64, into: &mut [u8]) -> usize
    ensures count { result ≡ min (length file.now - place) (length into.new) }
    ensures bytes { take result into.new ≡ take result (drop place file.now) }
{
    if place >= file.len() as u64 {
        return 0;
    }
    let rest = &file[place as usize..];
    let count = rest.len().min(into.len());
    into[..count].copy_from_slice(&rest[..count]);
    count
}

// Writes a piece into a file. What lies between its old end and the place is filled with zeros. No file that ends past
// the last place of a `u64` finds memory.
pub(crate) fn overwrite(file: &mut Vec<u8>, place: u64, piece: &[u8]) -> Result<(), AllocError>
    ensures written { OnOk result (file.new.items ≡ written place piece.now file.old.items) }
    ensures unchanged { OnErr result (file.new.items ≡ file.old.items) }
{
    let Some(end) = place.checked_add(piece.len() as u64) else {
        return Err(AllocError);
    };
    let size = file.len().max(end as usize);
    file.resize(size, 0)?;
    replace(file, place as usize, piece);
    Ok(())
}

// Copies a piece over what is there.
fn replace(file: &mut [u8], place: usize, piece: &[u8])
    requires { place + length piece.now ≤ length file.old }
    ensures { file.new ≡ take place file.old ++ (piece.now ++ drop (place + length piece.now) file.old) }
{
    file[place..place + piece.len()].copy_from_slice(piece);
}

impl Disk for MemoryDisk {
    ghost use Rattle.disk_core.specs.Disk.{ReturnsLength, ReadsAt, WritesAt, MakesDurable};
    ghost use Rattle.disk_core.specs.Memory.{state_of, note, FollowsList};
    ghost use Rattle.disk_core.specs.PastLaws.{memory_reads};

    ghost state = { state_of };

    ghost reads_as_image = { λ disk file is.
        memory_reads disk.starved disk.start.items disk.log.calls.items disk.file.items file disk.reads is };

    fn length(&mut self) -> Result<u64, Failed>
        ensures disk { ReturnsLength (state_of self.old) (state_of self.new) result }
        ensures listed { FollowsList self.old self.new (note DiskCall.Length result 0 []) result }
    {
        self.pass(DiskCall::Length, 0)?;
        Ok(self.file.len() as u64)
    }

    fn read_at(&mut self, place: u64, into: &mut [u8]) -> Result<usize, Failed>
        ensures disk { ReadsAt (state_of self.old) (state_of self.new) place into.new result }
        ensures listed { FollowsList self.old self.new (note DiskCall.ReadAt result place []) result }
    {
        self.pass(DiskCall::ReadAt, place)?;
        Ok(copy_from(&self.file, place, into))
    }

    fn write_at(&mut self, place: u64, piece: &[u8]) -> Result<(), Failed>
        ensures disk { WritesAt (state_of self.old) (state_of self.new) place piece.now result }
        ensures listed { FollowsList self.old self.new (note DiskCall.WriteAt result place piece.now) result }
    {
        match self.log.enter(DiskCall::WriteAt, place, piece) {
            Ok(true) => {}
            Ok(false) => return Err(Failed),
            Err(_) => {
                self.starved = counted(self.starved);
                return Err(Failed);
            }
        }
        if overwrite(&mut self.file, place, piece).is_err() {
            self.starved = counted(self.starved);
            return Err(Failed);
        }
        Ok(())
    }

    fn sync(&mut self) -> Result<(), Failed>
        ensures disk { MakesDurable (state_of self.old) (state_of self.new) result }
        ensures listed { FollowsList self.old self.new (note DiskCall.Sync result 0 []) result }
    {
        self.pass(DiskCall::Sync, 0)
    }

    fn fault_count(&self) -> u64
        ensures { result ≡ min (state_of self.now).faults (2 ^ 64 - 1) }
    {
        self.log.failed.saturating_add(self.starved)
    }
}
