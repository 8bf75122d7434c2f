//! The faults of an object of the outside, and calls that a signal interrupted.
ghost use Rattle.std.specs.Prelude.{◌≡◌, ◌≢◌, ◌↔◌, ◌≤◌, ◌<◌, ◌^◌, Some, IfErr};
ghost use Rattle.std.specs.Option.{option_copied};
ghost use Rattle.std.specs.Io.{ReadsAtMost, WritesAtMost};
ghost use Rattle.std.specs.IoError.{error_kind};
ghost use Rattle.base_core.specs.Causes.{Counts};
ghost use Rattle.link_core.specs.Link.{Takes as TakesSome};

use base_core::{Failed, counted};
use link_core::HostFault;
use std::io::{Error, ErrorKind, Read, Result as IoResult, Write};

// What is said of a call that was made as often as can be counted.
const MOST_SIGNALS: &str = "signals interrupted 2^64 - 1 calls";

/// How often the calls of an object have failed, and what the system said of the last fault.
#[derive(Drop)]
pub struct Faults {
    count: u64,
    last: Option<Error>,
}

impl Faults {
    ghost use Rattle.repo_cli.specs.Real.{count_of};

    /// No fault so far.
    pub fn new() -> Faults
        ensures { count_of result ≡ 0 }
    {
        Faults {
            count: 0,
            last: None,
        }
    }

    /// Counts a fault of which the system says this.
    pub fn count(&mut self, error: Error) -> Failed
        ensures counted { Counts (count_of self.old) (count_of self.new) }
        ensures later { count_of self.old ≤ count_of self.new }
        ensures words { self.new.last ≡ Some error }
    {
        self.last = Some(error);
        self.count_again()
    }

    /// Counts a fault that comes of an earlier one, of which the system's words stay.
    pub fn count_again(&mut self) -> Failed
        ensures counted { Counts (count_of self.old) (count_of self.new) }
        ensures later { count_of self.old ≤ count_of self.new }
        ensures words { self.new.last ≡ self.old.last }
    {
        self.count = counted(self.count);
        Failed
    }

    /// What a host returns for this error: out of memory is no fault, and any other error is counted.
    pub fn count_of_host(&mut self, error: Error) -> HostFault
        ensures memory { result ≡ HostFault.Memory ↔ error_kind error ≡ ErrorKind.OutOfMemory }
        ensures counted { result ≡ HostFault.Failed → Counts (count_of self.old) (count_of self.new) }
        ensures later { count_of self.old ≤ count_of self.new }
        ensures words { result ≡ HostFault.Failed → self.new.last ≡ Some error }
    {
        if error.kind() == ErrorKind::OutOfMemory {
            return HostFault::Memory;
        }
        self.count(error);
        HostFault::Failed
    }

    /// How many there were, or 2^64 - 1 if there were more.
    pub fn so_far(&self) -> u64
        ensures count { result ≡ count_of self.now }
        ensures small { result < 2 ^ 64 }
    {
        self.count
    }

    /// What the system said of the last fault.
    pub fn last(&self) -> Option<&Error>
        ensures { option_copied result ≡ self.now.last }
    {
        self.last.as_ref()
    }
}

/// Reads once, and again where a signal interrupted.
pub fn read_again<R: Read>(source: &mut R, into: &mut [u8]) -> IoResult<usize>
    ensures bound { ReadsAtMost result into.new }
    ensures again { IfErr result (λ error. error_kind error ≢ ErrorKind.Interrupted) }
{
    for _ in 0..u64::MAX {
        match source.read(into) {
            Ok(count) => return Ok(count),
            Err(error) => {
                if error.kind() != ErrorKind::Interrupted {
                    return Err(error);
                }
            }
        }
    }
    Err(Error::other(MOST_SIGNALS))
}

/// Writes once, and again where a signal interrupted. Taking nothing of a piece with bytes is an error.
pub fn write_again<W: Write>(sink: &mut W, piece: &[u8]) -> IoResult<usize>
    ensures some { TakesSome piece.now result }
    ensures again { IfErr result (λ error. error_kind error ≢ ErrorKind.Interrupted) }
{
    for _ in 0..u64::MAX {
        match sink.write(piece) {
            Ok(0) if !piece.is_empty() => return Err(Error::from(ErrorKind::WriteZero)),
            Ok(count) => return Ok(count),
            Err(error) => {
                if error.kind() != ErrorKind::Interrupted {
                    return Err(error);
                }
            }
        }
    }
    Err(Error::other(MOST_SIGNALS))
}
