//! A link over bytes in memory.
ghost use Rattle.std.specs.Prelude.{◌≡◌, ◌≤◌, ◌+◌, ◌-◌, ◌^◌, vec_len, length, min, [], Some, IfOk};

use crate::recorder::Recorder;
use crate::script::Script;
use crate::{Link, MemoryForm};
use base_core::{Failed, counted};
use std::alloc::{AllocError, Global};

/// A link whose reads give the bytes that it was made with and whose writes go into a record.
///
/// It reports all that it holds. A call returns `Failed` exactly when its script says so, when a write's script has it
/// take nothing of a piece with bytes, and when out of memory for the record, which `starved` counts.
#[derive(Drop)]
pub struct MemoryLink {
    bytes: Vec<u8>,
    given: usize,
    closed: bool,
    reads: Script,
    read_faults: u64,
    out: Recorder,
    ghost within: { given ≤ vec_len bytes },
}

impl MemoryLink {
    ghost use Rattle.link_core.specs.Memory.{state_of, given_of, starved_of, reads_of, writes_of, script_of, script, IsUnused};
    ghost use Rattle.base_core.specs.Causes.{Rose};

    /// A link with these bytes to read. A read that is to give nothing gives one byte, if there is one: a read returns 0,
    /// with room, only at the end. A write that is to take nothing of a piece with bytes fails.
    pub fn new(alloc: Global, bytes: Vec<u8>, reads: Script, writes: Script) -> Self
        ensures unused { IsUnused bytes.items result }
        ensures reads { reads_of result ≡ script_of reads }
        ensures writes { writes_of result ≡ script_of writes }
    {
        MemoryLink {
            bytes,
            given: 0,
            closed: false,
            reads,
            read_faults: 0,
            out: Recorder::new(alloc, writes),
        }
    }

    /// A link with these bytes to read, of which each call moves as much as it can and none fails.
    pub fn of(alloc: Global, bytes: &[u8]) -> Result<Self, AllocError>
        ensures unused { IfOk result (λ link. IsUnused bytes.now link) }
        ensures reads { IfOk result (λ link. reads_of link ≡ script [] []) }
        ensures writes { IfOk result (λ link. writes_of link ≡ script [] []) }
    {
        let bytes = Vec::from_slice(alloc, bytes)?;
        Ok(MemoryLink::new(alloc, bytes, Script::free(alloc), Script::free(alloc)))
    }

    // Counts a fault of a read that never came to its script.
    pub(crate) fn refuse(&mut self)
        ensures state { state_of self.new ≡ record {
          taken = (state_of self.old).taken;
          left = (state_of self.old).left;
          written = (state_of self.old).written;
          closed = (state_of self.old).closed;
          faults = (state_of self.new).faults;
          reads = (state_of self.old).reads;
        } }
        ensures cause { Rose (state_of self.old).faults (state_of self.new).faults }
        ensures reads { reads_of self.new ≡ reads_of self.old }
        ensures writes { writes_of self.new ≡ writes_of self.old }
        ensures starved { starved_of self.new ≡ starved_of self.old }
    {
        self.read_faults = counted(self.read_faults);
    }

    /// What was written so far.
    pub fn written(&self) -> &[u8]
        ensures { (state_of self.now).written ≡ Some result.now }
    {
        &self.out.written
    }

    /// How many bytes reads have given.
    pub fn given(&self) -> usize
        ensures { result ≡ given_of self.now }
    {
        self.given
    }

    /// Whether the link was closed.
    pub fn is_closed(&self) -> bool
        ensures { result ≡ (state_of self.now).closed }
    {
        self.closed
    }

    /// How often a call has failed, for whatever cause; 2^64 - 1 if more often.
    pub fn faults(&self) -> u64
        ensures { result ≡ (state_of self.now).faults }
    {
        self.read_faults.saturating_add(self.out.faults)
    }

    /// How often a write ran out of memory.
    pub fn starved(&self) -> u64
        ensures { result ≡ starved_of self.now }
    {
        self.out.starved
    }
}

impl Link for MemoryLink {
    ghost use Rattle.link_core.specs.Link.{ReadsBytes, WritesBytes, Closes};
    ghost use Rattle.link_core.specs.Memory.{state_of, reads_of, writes_of, starved_of, next_call, ReadsAsListed, WritesAsListed};

    ghost state = { state_of };

    fn read(&mut self, into: &mut [u8]) -> Result<usize, Failed>
        ensures link { ReadsBytes (state_of self.old) (state_of self.new) into.new result }
        ensures listed { ReadsAsListed (reads_of self.old) (min (length into.new) (state_of self.old).reads) result }
        ensures script { reads_of self.new ≡ next_call (reads_of self.old) }
        ensures others { (writes_of self.new ≡ writes_of self.old) × (starved_of self.new ≡ starved_of self.old) }
    {
        let room = into.len().min(self.bytes.len() - self.given);
        let Some(length) = self.reads.next(room) else {
            self.read_faults = counted(self.read_faults);
            return Err(Failed);
        };
        let count = room.min(length.max(1));
        let end = self.given + count;
        into[..count].copy_from_slice(&self.bytes[self.given..end]);
        self.given = end;
        Ok(count)
    }

    fn write(&mut self, piece: &[u8]) -> Result<usize, Failed>
        ensures link { WritesBytes (state_of self.old) (state_of self.new) piece.now result }
        ensures listed { WritesAsListed (writes_of self.old) piece.now (starved_of self.old) (starved_of self.new)
            result }
        ensures script { writes_of self.new ≡ next_call (writes_of self.old) }
        ensures others { reads_of self.new ≡ reads_of self.old }
    {
        self.out.write(piece)
    }

    fn close(&mut self)
        ensures link { Closes (state_of self.old) (state_of self.new) }
        ensures faults { (state_of self.new).faults ≡ (state_of self.old).faults }
        ensures scripts { (reads_of self.new ≡ reads_of self.old) × (writes_of self.new ≡ writes_of self.old) }
        ensures starved { starved_of self.new ≡ starved_of self.old }
    {
        self.closed = true;
    }
}

impl MemoryForm for MemoryLink {
    ghost use Rattle.link_core.specs.Memory.{console_bytes, scripts_of};

    ghost bytes = { console_bytes };

    ghost scripts = { scripts_of };

    fn afresh(mut self) -> Self {
        self.given = 0;
        self.closed = false;
        self.reads.restart();
        self.read_faults = 0;
        self.out.restart();
        self
    }

    fn marked(mut self, reads: Vec<u64>, writes: Vec<u64>) -> Self {
        self.reads.mark(reads);
        self.out.script.mark(writes);
        self
    }
}
