//! What a disk in memory writes down: each call, and whether it was done.
ghost use Rattle.std.specs.Prelude.{◌≡◌, ◌↔◌, ◌+◌, ◌^◌, ◌<◌, ◌≤◌, true, false, IsTrue, IfOk, OnErr, ◌∷◌, ◌++◌, [], Contains};
ghost use Rattle.base_core.specs.Causes.{Rose};
ghost use Rattle.disk_core.specs.Counts.{kept_of, one_more, HasCounts};
ghost use Rattle.disk_core.specs.Past.{Lists};

use base_core::{Bytes, counted};
use std::alloc::{AllocError, Global};

/// The kinds of call of a disk.
#[derive(Clone, Copy, Debug, PartialEq, Eq)]
pub enum DiskCall {
    /// A call of `length`.
    Length,
    /// A call of `read_at`.
    ReadAt,
    /// A call of `write_at`.
    WriteAt,
    /// A call of `sync`.
    Sync,
}

/// The `nth` call of its kind, from 1, is to fail.
#[derive(Clone, Copy, Debug, PartialEq, Eq)]
pub struct Failing {
    /// The kind.
    pub call: DiskCall,
    /// Which call of that kind.
    pub nth: u64,
}

/// A call of a disk. A write has its piece, and a call that has no place has 0.
#[derive(Debug, Drop)]
pub struct Noted {
    /// Its kind.
    pub call: DiskCall,
    /// Whether it was done. A call that wasn't has failed.
    pub done: bool,
    /// Where in the file.
    pub place: u64,
    /// What was to be written.
    pub bytes: Bytes,
}

// How many calls of each kind there were.
#[derive(Drop)]
pub(crate) struct Counts {
    lengths: u64,
    reads: u64,
    writes: u64,
    syncs: u64,
}

// The calls of a disk so far, and those that are to fail.
#[derive(Drop)]
pub(crate) struct Log {
    pub(crate) alloc: Global,
    pub(crate) calls: Vec<Noted>,
    pub(crate) failing: Vec<Failing>,
    pub(crate) failed: u64,
    counts: Counts,
    ghost counted: { HasCounts counts calls.items },
}

impl Counts {
    // How many there were of this kind.
    fn of(&self, call: DiskCall) -> u64
        ensures { result ≡ kept_of call self.now }
    {
        match call {
            DiskCall::Length => self.lengths,
            DiskCall::ReadAt => self.reads,
            DiskCall::WriteAt => self.writes,
            DiskCall::Sync => self.syncs,
        }
    }

    // One more of this kind.
    fn add(&mut self, call: DiskCall)
        requires { kept_of call self.old + 1 < 2 ^ 64 }
        ensures { self.new ≡ one_more call self.old }
    {
        match call {
            DiskCall::Length => self.lengths += 1,
            DiskCall::ReadAt => self.reads += 1,
            DiskCall::WriteAt => self.writes += 1,
            DiskCall::Sync => self.syncs += 1,
        }
    }
}

impl Log {
    // No call so far.
    pub(crate) fn new(alloc: Global, failing: Vec<Failing>) -> Log
        ensures calls { result.calls.items ≡ [] }
        ensures failing { result.failing ≡ failing }
        ensures failed { result.failed ≡ 0 }
    {
        Log {
            alloc,
            calls: Vec::new(alloc),
            failing,
            failed: 0,
            counts: Counts {
                lengths: 0,
                reads: 0,
                writes: 0,
                syncs: 0,
            },
        }
    }

    // Writes a call down, and returns whether it is to be done. One that isn't is counted.
    pub(crate) fn enter(
        &mut self,
        call: DiskCall,
        place: u64,
        bytes: &[u8],
    ) -> Result<bool, AllocError>
        ensures noted { IfOk result (λ done. self.new.calls.items ≡ self.old.calls.items
            ++ (record { call = call; done = done; place = place; bytes = bytes.now }) ∷ []) }
        ensures listed { IfOk result (λ done. (done ≡ false) ↔ Lists self.old.failing.items self.old.calls.items call) }
        ensures err { OnErr result (self.new.calls.items ≡ self.old.calls.items) }
        ensures failing { self.new.failing ≡ self.old.failing }

        ensures done { IfOk result (λ done. done ≡ true → self.new.failed ≡ self.old.failed) }
        ensures failed { IfOk result (λ done. done ≡ false → Rose self.old.failed self.new.failed) }
        ensures err_count { OnErr result (self.new.failed ≡ self.old.failed) }
        ensures count { self.old.failed ≤ self.new.failed }
    {
        let done = !self.is_listed(call);
        let bytes = Bytes::of(self.alloc, bytes)?;
        self.calls.push(Noted {
            call,
            done,
            place,
            bytes,
        })?;
        self.counts.add(call);
        if !done {
            self.failed = counted(self.failed);
        }
        Ok(done)
    }

    // Whether the next call of this kind is on the list.
    fn is_listed(&self, call: DiskCall) -> bool
        ensures { IsTrue result ↔ Lists self.now.failing.items self.now.calls.items call }
    {
        names(&self.failing, call, self.counts.of(call) + 1)
    }
}

// Whether the list names this call of its kind.
fn names(failing: &[Failing], call: DiskCall, nth: u64) -> bool
    ensures { IsTrue result ↔ Contains failing.now (record { call = call; nth = nth }) }
{
    failing.contains(&Failing { call, nth })
}
