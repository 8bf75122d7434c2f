//! A file as a disk.
ghost use Rattle.std.specs.Prelude.{◌≡◌, true, None, ℕ, List, IfOk, IsErr, OnErr};
ghost use Rattle.std.specs.Option.{option_copied};
ghost use Rattle.repo_cli.specs.Real.{count_of, HasNoFault, real_disk};

use crate::faults::{Faults, read_again};
use crate::opening::open_or_make;
use base_core::Failed;
use disk_core::Disk;
use std::fs::{File, Files};
use std::io::{Error, Read, Result as IoResult};
use std::os::unix::fs::FileExt;

/// A file that nothing else has open as a disk. Contracts see nothing of what it holds; it counts its faults.
///
/// Once a sync has failed, every later one fails: the system may have dropped what it couldn't write, and a second sync
/// would then succeed over it.
#[derive(Drop)]
pub struct FileDisk {
    file: File,
    unsynced: bool,
    faults: Faults,
}

// A file from a place on, as a source of bytes.
#[derive(Drop)]
struct At<'a> {
    file: &'a File,
    place: u64,
}

impl Read for At<'_> {
    fn read(&mut self, into: &mut [u8]) -> IoResult<usize> {
        self.file.read_at(into, self.place)
    }
}

impl FileDisk {
    /// A file that is open, before the first call. What it holds is durable.
    pub fn new(file: File) -> FileDisk
        ensures { HasNoFault result.faults }
    {
        FileDisk {
            file,
            unsynced: false,
            faults: Faults::new(),
        }
    }

    /// Opens the file at the path, or makes an empty one there. What it holds is durable then.
    pub fn open<R: Files<File = File>>(rt: &R, path: &str) -> IoResult<FileDisk>
        ensures { IfOk result (λ disk. HasNoFault disk.faults) }
    {
        Ok(FileDisk::new(open_or_make(rt, path)?))
    }

    /// What the system said of the last fault.
    pub fn last_fault(&self) -> Option<&Error>
        ensures { option_copied result ≡ self.now.faults.last }
    {
        self.faults.last()
    }
}

impl Disk for FileDisk {
    ghost use Rattle.std.proofs.lemmas.Option.{none-some};
    ghost use Rattle.disk_core.specs.Disk.{MakesDurable};
    ghost use Rattle.repo_cli.specs.Disk.{disk_state, HasFailedSync};

    ghost state = { disk_state };

    ghost reads_as_image = { λ disk file is. none-some file is };

    fn length(&mut self) -> Result<u64, Failed> {
        match self.file.metadata() {
            Ok(metadata) => Ok(metadata.len()),
            Err(error) => Err(self.faults.count(error)),
        }
    }

    fn read_at(&mut self, place: u64, into: &mut [u8]) -> Result<usize, Failed> {
        let mut source = At {
            file: &self.file,
            place,
        };
        match read_again(&mut source, into) {
            Ok(count) => Ok(count),
            Err(error) => Err(self.faults.count(error)),
        }
    }

    fn write_at(&mut self, place: u64, piece: &[u8]) -> Result<(), Failed> {
        match self.file.write_all_at(piece, place) {
            Ok(()) => Ok(()),
            Err(error) => Err(self.faults.count(error)),
        }
    }

    fn sync(&mut self) -> Result<(), Failed>
        ensures disk { MakesDurable (disk_state self.old) (disk_state self.new) result }
        ensures noted { OnErr result (HasFailedSync self.new) }
        ensures refused { HasFailedSync self.old → IsErr result }
    {
        if self.unsynced {
            return Err(self.faults.count_again());
        }
        match self.file.sync_data() {
            Ok(()) => Ok(()),
            Err(error) => {
                self.unsynced = true;
                Err(self.faults.count(error))
            }
        }
    }

    fn fault_count(&self) -> u64 {
        self.faults.so_far()
    }
}
