//! The console and sockets as links.
ghost use Rattle.std.specs.Prelude.{◌≡◌, ◌≤◌, ◌^◌, false, true, None, IfOk};
ghost use Rattle.std.specs.Option.{option_copied};
ghost use Rattle.repo_cli.specs.Real.{count_of, HasNoFault};

use crate::faults::{Faults, read_again, write_again};
use base_core::Failed;
use link_core::Link;
use std::io::{Error, ErrorKind, Result as IoResult, Stdin, Stdout};
use std::net::{Shutdown, TcpStream};
use std::time::Duration;

/// The reads that a link can give bytes by.
const READS: u64 = 1 << 63;

/// How long a socket may give or take no byte before that is a fault of its link, in seconds.
pub const SILENCE: u64 = 300;

/// How long a socket that is being closed waits for each piece that its peer still sends, in seconds.
const LAST_SILENCE: u64 = 1;

/// How many such pieces it reads at most.
const LAST_PIECES: u64 = 256;

/// How many bytes each of them has at most.
const LAST_LENGTH: usize = 65_536;

// What a link reads from and writes to.
#[derive(Drop)]
enum Stream {
    Console(Stdin, Stdout),
    Tcp(TcpStream),
    Closed,
}

/// Standard input and output, or a socket, as one link. Contracts see nothing of what it holds; it counts its faults.
///
/// The console waits without a limit. A socket that gives or takes no byte for five minutes has a fault. Closing a
/// socket ends what it writes and reads what its peer still sends, within bounds, so that the last reply arrives.
#[derive(Drop)]
pub struct RealLink {
    stream: Stream,
    closed: bool,
    reads: u64,
    faults: Faults,
    ghost few: { reads ≤ 2 ^ 63 },
}

// The error of a socket, with words of its own where nothing came or went for five minutes.
fn socket_error(error: Error) -> Error {
    if error.kind() == ErrorKind::WouldBlock {
        return Error::new(ErrorKind::TimedOut, "no byte for five minutes");
    }
    error
}

// Ends what is written and reads the rest of what comes. The system answers bytes that come for a socket that is gone
// by a reset, which would take from the peer the reply that it has yet to read.
fn drain(stream: &mut TcpStream) {
    let silence = Some(Duration::from_secs(LAST_SILENCE));
    if stream.shutdown(Shutdown::Write).is_err() || stream.set_read_timeout(silence).is_err() {
        return;
    }
    let mut buffer = [0; LAST_LENGTH];
    for _ in 0..LAST_PIECES {
        match read_again(stream, &mut buffer) {
            Ok(0) | Err(_) => return,
            Ok(_) => {}
        }
    }
}

impl RealLink {
    /// The console, before the first read and write.
    pub fn console(stdin: Stdin, stdout: Stdout) -> RealLink
        ensures unfailed { HasNoFault result.faults }
        ensures open_still { result.closed ≡ false }
    {
        RealLink {
            stream: Stream::Console(stdin, stdout),
            closed: false,
            reads: READS,
            faults: Faults::new(),
        }
    }

    /// A socket that is connected, before the first read and write. What is written leaves at once.
    pub fn socket(stream: TcpStream) -> IoResult<RealLink>
        ensures unfailed { IfOk result (λ link. HasNoFault link.faults) }
        ensures open_still { IfOk result (λ link. link.closed ≡ false) }
    {
        let silence = Some(Duration::from_secs(SILENCE));
        stream.set_nodelay(true)?;
        stream.set_read_timeout(silence)?;
        stream.set_write_timeout(silence)?;
        Ok(RealLink {
            stream: Stream::Tcp(stream),
            closed: false,
            reads: READS,
            faults: Faults::new(),
        })
    }

    /// What the system said of the last fault.
    pub fn last_fault(&self) -> Option<&Error>
        ensures { option_copied result ≡ self.now.faults.last }
    {
        self.faults.last()
    }
}

impl Link for RealLink {
    ghost state = { λ link. record {
      taken = None;
      left = None;
      written = None;
      closed = link.closed;
      faults = count_of link.faults;
      reads = link.reads;
    } };

    fn read(&mut self, into: &mut [u8]) -> Result<usize, Failed> {
        if self.reads == 0 {
            return Err(self.faults.count(Error::other("2^63 reads gave bytes")));
        }
        let read = match &mut self.stream {
            Stream::Console(stdin, _) => read_again(stdin, into),
            Stream::Tcp(stream) => read_again(stream, into).map_err(socket_error),
            Stream::Closed => Err(Error::from(ErrorKind::NotConnected)),
        };
        match read {
            Ok(0) => Ok(0),
            Ok(count) => {
                self.reads -= 1;
                Ok(count)
            }
            Err(error) => Err(self.faults.count(error)),
        }
    }

    fn write(&mut self, piece: &[u8]) -> Result<usize, Failed> {
        let written = match &mut self.stream {
            Stream::Console(_, stdout) => write_again(stdout, piece),
            Stream::Tcp(stream) => write_again(stream, piece).map_err(socket_error),
            Stream::Closed => Err(Error::from(ErrorKind::NotConnected)),
        };
        match written {
            Ok(count) => Ok(count),
            Err(error) => Err(self.faults.count(error)),
        }
    }

    fn close(&mut self) {
        if let Stream::Tcp(stream) = &mut self.stream {
            drain(stream);
        }
        self.stream = Stream::Closed;
        self.closed = true;
    }
}
