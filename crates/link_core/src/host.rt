//! Who hands out the objects of the outside.
ghost use Rattle.std.specs.Prelude.{◌≡◌, []};
ghost use Rattle.std.specs.Option.{ForSome};
ghost use Rattle.link_core.specs.Host.{HostState, HandsOutDisk, HandsOutListener, HandsOutPeer, HandsOutConsole, CopiesFile};

use crate::{Clock, Link, Listener};
use base_core::Bytes;
use disk_core::Disk;

/// Why a host handed nothing out.
#[derive(Clone, Copy, Debug, PartialEq, Eq)]
pub enum HostFault {
    /// The outside refused. The host's count of faults has risen.
    Failed,
    /// There was no memory for the object.
    Memory,
}

/// Who hands out the objects of the outside: the process itself, or a host in memory.
///
/// It counts how often each call was called, and how many disks, links and listeners it has handed out. Each call but
/// `clock` returns `Failed` if the host's count of faults rose, and always if its count of that kind of object is
/// 2^64 - 1; `Memory` if an allocation was refused. A host that reports what it holds then holds what it held.
pub trait Host {
    /// A file.
    type Disk: Disk;

    /// A stream both ways.
    type Link: Link;

    /// What links are accepted from.
    type Listener: Listener;

    /// The time.
    type Clock: Clock;

    /// What contracts see of the host: what it holds, its counts of calls, of objects handed out and of faults.
    ghost state: { Self → HostState };

    /// Opens the file at the path for reading and writing, or makes an empty one there.
    fn disk(&mut self, path: &str) -> Result<Self::Disk, HostFault>
        ensures { HandsOutDisk Self.Disk.state path.now (state self.old) (state self.new) result };

    /// Listens at the address and the port.
    fn listen(&mut self, address: &str, port: u16) -> Result<Self::Listener, HostFault>
        ensures { HandsOutListener (λ l. (Self.Listener.state l).waiting) (λ l. (Self.Listener.state l).faults)
            (state self.old) (state self.new) result };

    /// Connects to the address and the port: one link, of which nothing was read and to which nothing was written.
    fn dial(&mut self, address: &str, port: u16) -> Result<Self::Link, HostFault>
        ensures { HandsOutPeer Self.Link.state (state self.old) (state self.new) result };

    /// Hands out standard input and output as one link, of which nothing was read and to which nothing was written.
    fn console(&mut self) -> Result<Self::Link, HostFault>
        ensures { HandsOutConsole Self.Link.state (state self.old) (state self.new) result };

    /// The first bytes of the file at the path, as many as the limit, or all where the file is shorter. Every file stays
    /// as it was.
    fn file(&mut self, path: &str, limit: u64) -> Result<Bytes, HostFault>
        ensures { CopiesFile path.now limit (state self.old) (state self.new) result };

    /// A clock that has given no time yet. It has no fault, and takes no memory.
    fn clock(&mut self) -> Self::Clock
        ensures unused { ForSome (Self.Clock.given result) (λ times. times ≡ []) }
        ensures unchanged { state self.new ≡ state self.old };
}
