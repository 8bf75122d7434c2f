//! The process as a host.
ghost use Rattle.std.specs.Prelude.{◌≡◌, ◌≤◌, length, None, IfOk};
ghost use Rattle.std.specs.Option.{option_copied};
ghost use Rattle.repo_cli.specs.Real.{count_of};

use crate::clock::RealClock;
use crate::disk::FileDisk;
use crate::faults::Faults;
use crate::link::RealLink;
use crate::listener::TcpListen;
use base_core::{Bytes, counted};
use link_core::{Host, HostFault};
use std::alloc::Global;
use std::fs::{File, Files, OpenOptions};
use std::io::{Error, Read, Result as IoResult, Stdin, Stdout};
use std::net::{Net, TcpListener, TcpStream};
use std::time::Clock as Time;

// What is said once a host has handed out as much as it can count.
const MOST_HANDED: &str = "2^64 - 1 objects of a kind were handed out";

// How often each call was called.
#[derive(Drop)]
struct Calls {
    disk: u64,
    listen: u64,
    dial: u64,
    console: u64,
    file: u64,
}

// How many objects of each kind were handed out.
#[derive(Drop)]
struct Handed {
    disks: u64,
    links: u64,
    listeners: u64,
}

/// The process itself. Contracts see nothing of what it holds; it counts its calls, what it handed out, and its faults.
#[derive(Drop)]
pub struct RealHost<'a, R> {
    rt: &'a R,
    alloc: Global,
    stdin: Stdin,
    stdout: Stdout,
    calls: Calls,
    handed: Handed,
    faults: Faults,
}

// The first bytes of the file, as many as the limit, or all.
fn read_front<R: Files<File = File>>(
    rt: &R,
    alloc: Global,
    path: &str,
    limit: u64,
) -> IoResult<Vec<u8>>
    ensures { IfOk result (λ bytes. length bytes.items ≤ limit) }
{
    let mut options = OpenOptions::new();
    options.read(true);
    let file = options.open(rt, path)?;
    let mut bytes = Vec::new(alloc);
    file.take(limit).read_to_end(&mut bytes)?;
    // `take` gives no more; a proof learns the bound here.
    bytes.truncate(limit as usize);
    Ok(bytes)
}

impl<'a, R> RealHost<'a, R> {
    /// The process, before the first call.
    pub fn new(rt: &'a R, alloc: Global, stdin: Stdin, stdout: Stdout) -> RealHost<'a, R>
        ensures faults { count_of result.faults ≡ 0 }
        ensures calls { (result.calls.disk ≡ 0) × (result.calls.listen ≡ 0) × (result.calls.dial ≡ 0)
            × (result.calls.console ≡ 0) × (result.calls.file ≡ 0) }
        ensures handed { (result.handed.disks ≡ 0) × (result.handed.links ≡ 0) × (result.handed.listeners ≡ 0) }
    {
        RealHost {
            rt,
            alloc,
            stdin,
            stdout,
            calls: Calls {
                disk: 0,
                listen: 0,
                dial: 0,
                console: 0,
                file: 0,
            },
            handed: Handed {
                disks: 0,
                links: 0,
                listeners: 0,
            },
            faults: Faults::new(),
        }
    }

    /// What the system said of the last fault.
    pub fn last_fault(&self) -> Option<&Error>
        ensures { option_copied result ≡ self.now.faults.last }
    {
        self.faults.last()
    }
}

impl<'a, R> Host for RealHost<'a, R>
where
    R: Files<File = File> + Net<Stream = TcpStream, Listener = TcpListener> + Time,
{
    type Disk = FileDisk;

    type Link = RealLink;

    type Listener = TcpListen;

    type Clock = RealClock<'a, R>;

    ghost state = { λ h. record {
      holds = None;
      calls = record {
        disk = h.calls.disk;
        listen = h.calls.listen;
        dial = h.calls.dial;
        console = h.calls.console;
        file = h.calls.file;
      };
      handed = record { disks = h.handed.disks; links = h.handed.links; listeners = h.handed.listeners };
      faults = count_of h.faults;
    } };

    fn disk(&mut self, path: &str) -> Result<FileDisk, HostFault> {
        self.calls.disk = counted(self.calls.disk);
        if self.handed.disks == u64::MAX {
            self.faults.count(Error::other(MOST_HANDED));
            return Err(HostFault::Failed);
        }
        match FileDisk::open(self.rt, path) {
            Ok(disk) => {
                self.handed.disks += 1;
                Ok(disk)
            }
            Err(error) => Err(self.faults.count_of_host(error)),
        }
    }

    fn listen(&mut self, address: &str, port: u16) -> Result<TcpListen, HostFault> {
        self.calls.listen = counted(self.calls.listen);
        if self.handed.listeners == u64::MAX {
            self.faults.count(Error::other(MOST_HANDED));
            return Err(HostFault::Failed);
        }
        match TcpListener::bind(self.rt, (address, port)) {
            Ok(listener) => {
                self.handed.listeners += 1;
                Ok(TcpListen::new(listener))
            }
            Err(error) => Err(self.faults.count_of_host(error)),
        }
    }

    fn dial(&mut self, address: &str, port: u16) -> Result<RealLink, HostFault> {
        self.calls.dial = counted(self.calls.dial);
        if self.handed.links == u64::MAX {
            self.faults.count(Error::other(MOST_HANDED));
            return Err(HostFault::Failed);
        }
        match TcpStream::connect(self.rt, (address, port)).and_then(RealLink::socket) {
            Ok(link) => {
                self.handed.links += 1;
                Ok(link)
            }
            Err(error) => Err(self.faults.count_of_host(error)),
        }
    }

    fn console(&mut self) -> Result<RealLink, HostFault> {
        self.calls.console = counted(self.calls.console);
        if self.handed.links == u64::MAX {
            self.faults.count(Error::other(MOST_HANDED));
            return Err(HostFault::Failed);
        }
        self.handed.links += 1;
        Ok(RealLink::console(self.stdin, self.stdout))
    }

    fn file(&mut self, path: &str, limit: u64) -> Result<Bytes, HostFault> {
        self.calls.file = counted(self.calls.file);
        match read_front(self.rt, self.alloc, path, limit) {
            Ok(bytes) => Ok(Bytes::from(bytes)),
            Err(error) => Err(self.faults.count_of_host(error)),
        }
    }

    fn clock(&mut self) -> RealClock<'a, R> {
        RealClock::new(self.rt)
    }
}
