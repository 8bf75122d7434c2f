//! A host over objects in memory.
ghost use Rattle.std.specs.Prelude.{◌≡◌, ◌↔◌, ◌++◌, ◌⊎◌, ◌≤◌, [], ◌∷◌, Some, take, length, IfOk, OnOk, OnErr, IsTrue, IsErr, IsErrOf, Contains, slice_get};
ghost use Rattle.disk_core.specs.Memory.{failing_of, state_of as disk_state};
ghost use Rattle.link_core.specs.Host.{IsDiskOf, bytes_of, file_at, files_with, files_without};

use crate::files::Files;
use crate::{Host, HostFault, MemoryClock, MemoryForm, MemoryLink, MemoryListener};
use base_core::{Bytes, counted};
use disk_core::{DiskCall, Failing, MemoryDisk};
use std::alloc::{AllocError, Global};
use std::collections::VecDeque;
use std::mem;

/// The kinds of call that a host in memory can be told to fail.
#[derive(Clone, Copy, Debug, PartialEq, Eq)]
pub enum CallKind {
    /// The host's own call `disk`.
    DiskOpen,
    /// The host's own call `listen`.
    Listen,
    /// The host's own call `dial`.
    Dial,
    /// The host's own call `console`.
    Console,
    /// The host's own call `file`.
    File,
    /// A call of `length` of the next disk.
    Length,
    /// A call of `read_at` of the next disk.
    ReadAt,
    /// A call of `write_at` of the next disk.
    WriteAt,
    /// A call of `sync` of the next disk.
    Sync,
    /// A read of the next link.
    Read,
    /// A write of the next link.
    Write,
    /// A call of `accept` of the next listener.
    Accept,
}

/// The nth call of a kind, from 1, that is to fail.
#[derive(Clone, Copy, Debug, PartialEq, Eq)]
pub struct Mark {
    /// Its kind.
    pub kind: CallKind,
    /// Which call of that kind.
    pub nth: u64,
}

// How often each call of a host was called.
#[derive(Clone, Copy, Debug)]
struct Calls {
    disk: u64,
    listen: u64,
    dial: u64,
    console: u64,
    file: u64,
}

// How many objects of each kind it has handed out.
#[derive(Clone, Copy, Debug)]
struct Handed {
    disks: u64,
    links: u64,
    listeners: u64,
}

// The calls of the objects that are handed out next that are to fail.
#[derive(Drop)]
struct Marks {
    disk: Vec<Failing>,
    reads: Vec<u64>,
    writes: Vec<u64>,
    accepts: Vec<u64>,
}

/// A host that hands out the files, links and listeners that it was given.
///
/// It reports what it holds. A call returns `Failed` exactly when it was marked to fail, when there is no file at the
/// path of `file`, no link or no listener left to hand out, and when its count of that kind of object is at its last
/// value. Links are handed out as before their first call, and files as disks that are durable as they are.
#[derive(Drop)]
pub struct MemoryHost<L: Drop = MemoryLink> {
    alloc: Global,
    files: Files,
    consoles: VecDeque<L>,
    peers: VecDeque<L>,
    listeners: VecDeque<MemoryListener<L>>,
    times: Vec<u64>,
    failing: Vec<Mark>,
    marks: Marks,
    calls: Calls,
    handed: Handed,
    faults: u64,
}

impl Marks {
    ghost use Rattle.link_core.specs.Host.{IsNew, IsFresh};
    ghost use Rattle.link_core.specs.Memory.{marked_both, restarted_both};

    // The link before its first call, with the marks for it.
    fn give<L: MemoryForm>(&mut self, alloc: Global, link: L) -> L
        ensures new { IsNew (L.bytes link) (L.state result) }
        ensures fresh { IsFresh (L.state result) }
        ensures scripts { L.scripts result ≡
            marked_both self.old.reads.items self.old.writes.items (restarted_both (L.scripts link)) }
        ensures used { (self.new.reads.items ≡ []) × (self.new.writes.items ≡ []) }
        ensures kept { (self.new.disk ≡ self.old.disk) × (self.new.accepts ≡ self.old.accepts) }
    {
        let reads = mem::replace(&mut self.reads, Vec::new(alloc));
        let writes = mem::replace(&mut self.writes, Vec::new(alloc));
        link.afresh().marked(reads, writes)
    }
}

// A disk of the file at the path, or an empty one, of which these calls fail.
fn disk_of(
    alloc: Global,
    files: &Files,
    path: &str,
    failing: &[Failing],
) -> Result<MemoryDisk, AllocError>
    ensures file { IfOk result (λ disk. IsDiskOf (bytes_of (file_at path.now files.now)) (disk_state disk)) }
    ensures no_fault { IfOk result (λ disk. (disk_state disk).faults ≡ 0) }
    ensures failing { IfOk result (λ disk. failing_of disk ≡ failing.now) }
{
    match files.find(path) {
        Some(bytes) => MemoryDisk::new(alloc, bytes.get(), failing),
        None => MemoryDisk::new(alloc, &[], failing),
    }
}

// The first bytes of the file at the path, as many as the limit, or all.
fn copy_of(alloc: Global, bytes: &[u8], limit: u64) -> Result<Bytes, HostFault>
    ensures copy { IfOk result (λ copy. copy ≡ take limit bytes.now) }
    ensures limit { IfOk result (λ copy. length copy ≤ limit) }
    ensures err { ¬ IsErrOf result HostFault.Failed }
{
    let most = bytes.len().min(limit as usize);
    match Bytes::of(alloc, &bytes[..most]) {
        Ok(copy) => Ok(copy),
        Err(AllocError) => Err(HostFault::Memory),
    }
}

// Whether the call of this kind and number is one to fail.
fn is_marked(failing: &[Mark], kind: CallKind, nth: u64) -> bool
    ensures { IsTrue result ↔ Contains failing.now (record { kind = kind; nth = nth }) }
{
    failing.contains(&Mark { kind, nth })
}

impl<L: MemoryForm + Drop> MemoryHost<L> {
    ghost use Rattle.link_core.specs.Lists.{files_of, consoles_of, peers_of, listeners_of, host_times, host_state, host_failing, marks_of, calls_of, handed_by, empty_state, no_marks, AddsMark, SameCounts, stock_of, stock_with_files, stock_with_consoles, stock_with_peers, stock_with_listeners, stock_with_times};

    /// A host with nothing to hand out, of which no call is marked to fail. Its clock always gives 0.
    pub fn new(alloc: Global) -> MemoryHost<L>
        ensures files { files_of result ≡ [] }
        ensures links { (consoles_of result ≡ []) × (peers_of result ≡ []) × (listeners_of result ≡ []) }
        ensures times { host_times result ≡ [] }
        ensures start { host_state L.bytes result ≡ empty_state }
        ensures failing { (host_failing result ≡ []) × (marks_of result ≡ no_marks) }
    {
        MemoryHost {
            alloc,
            files: Files::new(alloc),
            consoles: VecDeque::new(alloc),
            peers: VecDeque::new(alloc),
            listeners: VecDeque::new(alloc),
            times: Vec::new(alloc),
            failing: Vec::new(alloc),
            marks: Marks {
                disk: Vec::new(alloc),
                reads: Vec::new(alloc),
                writes: Vec::new(alloc),
                accepts: Vec::new(alloc),
            },
            calls: Calls {
                disk: 0,
                listen: 0,
                dial: 0,
                console: 0,
                file: 0,
            },
            handed: Handed {
                disks: 0,
                links: 0,
                listeners: 0,
            },
            faults: 0,
        }
    }

    /// Adds a file, in place of one that is at the path.
    pub fn add_file(&mut self, path: &str, bytes: Bytes) -> Result<(), AllocError>
        ensures added { OnOk result (file_at path.now (files_of self.new) ≡ Some bytes) }
        ensures files { OnOk result (files_of self.new ≡ files_with path.now bytes (files_of self.old)) }
        ensures unchanged { OnErr result (files_of self.new ≡ files_of self.old) }
        ensures others { stock_of self.new ≡ stock_with_files (files_of self.new) (stock_of self.old) }
        ensures counts { SameCounts self.old self.new }
    {
        self.files.put(path, bytes)
    }

    /// Adds a link that `console` hands out after those that were added before.
    pub fn add_console(&mut self, link: L) -> Result<(), AllocError>
        ensures added { OnOk result (consoles_of self.new ≡ consoles_of self.old ++ link ∷ []) }
        ensures unchanged { OnErr result (consoles_of self.new ≡ consoles_of self.old) }
        ensures others { stock_of self.new ≡ stock_with_consoles (consoles_of self.new) (stock_of self.old) }
        ensures counts { SameCounts self.old self.new }
    {
        self.consoles.push_back(link)?;
        Ok(())
    }

    /// Adds a link that `dial` hands out after those that were added before.
    pub fn add_peer(&mut self, link: L) -> Result<(), AllocError>
        ensures added { OnOk result (peers_of self.new ≡ peers_of self.old ++ link ∷ []) }
        ensures unchanged { OnErr result (peers_of self.new ≡ peers_of self.old) }
        ensures others { stock_of self.new ≡ stock_with_peers (peers_of self.new) (stock_of self.old) }
        ensures counts { SameCounts self.old self.new }
    {
        self.peers.push_back(link)?;
        Ok(())
    }

    /// Adds a listener that `listen` hands out after those that were added before.
    pub fn add_listener(&mut self, listener: MemoryListener<L>) -> Result<(), AllocError>
        ensures added { OnOk result (listeners_of self.new ≡ listeners_of self.old ++ listener ∷ []) }
        ensures unchanged { OnErr result (listeners_of self.new ≡ listeners_of self.old) }
        ensures others { stock_of self.new ≡ stock_with_listeners (listeners_of self.new) (stock_of self.old) }
        ensures counts { SameCounts self.old self.new }
    {
        self.listeners.push_back(listener)?;
        Ok(())
    }

    /// Has the next clock give these times.
    pub fn set_times(&mut self, times: Vec<u64>)
        ensures stock { stock_of self.new ≡ stock_with_times times.items (stock_of self.old) }
        ensures counts { SameCounts self.old self.new }
    {
        self.times = times;
    }

    /// Marks the nth call of a kind, from 1, as failing. A call of the host itself is counted from the host's first one;
    /// any other counts the calls of the disk, of the link by `console` or `dial`, or of the listener that is handed out
    /// next, and of that object alone.
    pub fn fail(&mut self, kind: CallKind, nth: u64) -> Result<(), AllocError>
        ensures marked { OnOk result (AddsMark kind nth self.old self.new) }
        ensures unchanged { OnErr result (SameCounts self.old self.new) }
        ensures state { host_state L.bytes self.new ≡ host_state L.bytes self.old }
        ensures stock { stock_of self.new ≡ stock_of self.old }
    {
        match kind {
            CallKind::Length => self.marks.disk.push(Failing {
                call: DiskCall::Length,
                nth,
            })?,
            CallKind::ReadAt => self.marks.disk.push(Failing {
                call: DiskCall::ReadAt,
                nth,
            })?,
            CallKind::WriteAt => self.marks.disk.push(Failing {
                call: DiskCall::WriteAt,
                nth,
            })?,
            CallKind::Sync => self.marks.disk.push(Failing {
                call: DiskCall::Sync,
                nth,
            })?,
            CallKind::Read => self.marks.reads.push(nth)?,
            CallKind::Write => self.marks.writes.push(nth)?,
            CallKind::Accept => self.marks.accepts.push(nth)?,
            kind => self.failing.push(Mark { kind, nth })?,
        }
        Ok(())
    }

    /// How often a call has failed.
    pub fn faults(&self) -> u64
        ensures { result ≡ (host_state L.bytes self.now).faults }
    {
        self.faults
    }

    /// How often `console` was called.
    pub fn console_calls(&self) -> u64
        ensures { result ≡ (calls_of self.now).console }
    {
        self.calls.console
    }
}

impl<L: MemoryForm + Drop> Host for MemoryHost<L> {
    ghost use Rattle.link_core.specs.Host.{HandsOutDisk, HandsOutListener, HandsOutPeer, HandsOutConsole, CopiesFile};
    ghost use Rattle.link_core.specs.Memory.{times_of, count_of};
    ghost use Rattle.link_core.specs.Lists.{consoles_of, peers_of, listeners_of, listener_state, host_times, host_state, marks_of, given_scripts, without_link_marks, without_disk_marks, without_accept_marks, UsesMarks, DiskFails, ListenFails, DialFails, ConsoleFails, FileFails, IsFirstListener, files_of, host_failing, rest_of, stock_of, stock_with_files, stock_with_consoles, stock_with_peers, stock_with_listeners, stock_with_times, UsesStock};

    type Disk = MemoryDisk;

    type Link = L;

    type Listener = MemoryListener<L>;

    type Clock = MemoryClock;

    ghost state = { host_state L.bytes };

    fn disk(&mut self, path: &str) -> Result<MemoryDisk, HostFault>
        ensures host { HandsOutDisk disk_state path.now (host_state L.bytes self.old) (host_state L.bytes self.new)
            result }
        ensures listed { IsErrOf result HostFault.Failed ↔ DiskFails self.old }
        ensures disk { IfOk result (λ disk. failing_of disk ≡ (marks_of self.old).disk) }
        ensures marks { UsesMarks without_disk_marks (marks_of self.old) (marks_of self.new) result }
        ensures stock { UsesStock (stock_with_files (files_without path.now (files_of self.old)) (stock_of self.old))
            self.old self.new result }
        ensures failing { host_failing self.new ≡ host_failing self.old }
    {
        self.calls.disk = counted(self.calls.disk);
        let marked = is_marked(&self.failing, CallKind::DiskOpen, self.calls.disk);
        if marked || self.handed.disks == u64::MAX {
            self.faults = counted(self.faults);
            return Err(HostFault::Failed);
        }
        let Ok(disk) = disk_of(self.alloc, &self.files, path, &self.marks.disk) else {
            return Err(HostFault::Memory);
        };
        self.files.remove(path);
        self.marks.disk.clear();
        self.handed.disks += 1;
        Ok(disk)
    }

    fn listen(&mut self, _address: &str, _port: u16) -> Result<MemoryListener<L>, HostFault>
        ensures host { HandsOutListener (λ l. (listener_state L.bytes l).waiting)
            (λ l. (listener_state L.bytes l).faults) (host_state L.bytes self.old) (host_state L.bytes self.new) result }
        ensures listed { IsErr result ↔ ListenFails self.old }
        ensures listener { IfOk result (IsFirstListener (listeners_of self.old) (marks_of self.old)) }
        ensures marks { UsesMarks without_accept_marks (marks_of self.old) (marks_of self.new) result }
        ensures stock { UsesStock (stock_with_listeners (rest_of (listeners_of self.old)) (stock_of self.old))
            self.old self.new result }
        ensures failing { host_failing self.new ≡ host_failing self.old }
    {
        self.calls.listen = counted(self.calls.listen);
        let marked = is_marked(&self.failing, CallKind::Listen, self.calls.listen);
        if marked || self.handed.listeners == u64::MAX {
            self.faults = counted(self.faults);
            return Err(HostFault::Failed);
        }
        let Some(listener) = self.listeners.pop_front() else {
            self.faults = counted(self.faults);
            return Err(HostFault::Failed);
        };
        self.handed.listeners += 1;
        let accepts = mem::replace(&mut self.marks.accepts, Vec::new(self.alloc));
        Ok(listener.afresh(accepts))
    }

    fn dial(&mut self, _address: &str, _port: u16) -> Result<L, HostFault>
        ensures host { HandsOutPeer L.state (host_state L.bytes self.old) (host_state L.bytes self.new) result }
        ensures listed { IsErr result ↔ DialFails self.old }
        ensures link { IfOk result (λ link.
            given_scripts L.scripts (peers_of self.old) (marks_of self.old) ≡ Some (L.scripts link)) }
        ensures marks { UsesMarks without_link_marks (marks_of self.old) (marks_of self.new) result }
        ensures stock { UsesStock (stock_with_peers (rest_of (peers_of self.old)) (stock_of self.old)) self.old
            self.new result }
        ensures failing { host_failing self.new ≡ host_failing self.old }
    {
        self.calls.dial = counted(self.calls.dial);
        let marked = is_marked(&self.failing, CallKind::Dial, self.calls.dial);
        if marked || self.handed.links == u64::MAX {
            self.faults = counted(self.faults);
            return Err(HostFault::Failed);
        }
        let Some(link) = self.peers.pop_front() else {
            self.faults = counted(self.faults);
            return Err(HostFault::Failed);
        };
        self.handed.links += 1;
        Ok(self.marks.give(self.alloc, link))
    }

    fn console(&mut self) -> Result<L, HostFault>
        ensures host { HandsOutConsole L.state (host_state L.bytes self.old) (host_state L.bytes self.new) result }
        ensures listed { IsErr result ↔ ConsoleFails self.old }
        ensures link { IfOk result (λ link.
            given_scripts L.scripts (consoles_of self.old) (marks_of self.old) ≡ Some (L.scripts link)) }
        ensures marks { UsesMarks without_link_marks (marks_of self.old) (marks_of self.new) result }
        ensures stock { UsesStock (stock_with_consoles (rest_of (consoles_of self.old)) (stock_of self.old)) self.old
            self.new result }
        ensures failing { host_failing self.new ≡ host_failing self.old }
    {
        self.calls.console = counted(self.calls.console);
        let marked = is_marked(&self.failing, CallKind::Console, self.calls.console);
        if marked || self.handed.links == u64::MAX {
            self.faults = counted(self.faults);
            return Err(HostFault::Failed);
        }
        let Some(link) = self.consoles.pop_front() else {
            self.faults = counted(self.faults);
            return Err(HostFault::Failed);
        };
        self.handed.links += 1;
        Ok(self.marks.give(self.alloc, link))
    }

    fn file(&mut self, path: &str, limit: u64) -> Result<Bytes, HostFault>
        ensures host { CopiesFile path.now limit (host_state L.bytes self.old) (host_state L.bytes self.new) result }
        ensures listed { IsErrOf result HostFault.Failed ↔ FileFails path.now self.old }
        ensures marks { marks_of self.new ≡ marks_of self.old }
        ensures stock { stock_of self.new ≡ stock_of self.old }
        ensures failing { host_failing self.new ≡ host_failing self.old }
    {
        self.calls.file = counted(self.calls.file);
        let marked = is_marked(&self.failing, CallKind::File, self.calls.file);
        let Some(bytes) = self.files.find(path) else {
            self.faults = counted(self.faults);
            return Err(HostFault::Failed);
        };
        if marked {
            self.faults = counted(self.faults);
            return Err(HostFault::Failed);
        }
        copy_of(self.alloc, bytes.get(), limit)
    }

    fn clock(&mut self) -> MemoryClock
        ensures unused { count_of result ≡ 0 }
        ensures times { times_of result ≡ host_times self.old }
        ensures state { host_state L.bytes self.new ≡ host_state L.bytes self.old }
        ensures stock { stock_of self.new ≡ stock_with_times [] (stock_of self.old) }
        ensures marks { marks_of self.new ≡ marks_of self.old }
        ensures failing { host_failing self.new ≡ host_failing self.old }
    {
        MemoryClock::new(mem::replace(&mut self.times, Vec::new(self.alloc)))
    }
}
