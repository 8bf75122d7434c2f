//! A listening socket.
ghost use Rattle.std.specs.Prelude.{◌≡◌, None};
ghost use Rattle.std.specs.Option.{option_copied};
ghost use Rattle.repo_cli.specs.Real.{count_of, HasNoFault};

use crate::faults::Faults;
use crate::link::RealLink;
use base_core::Failed;
use link_core::Listener;
use std::io::{Error, ErrorKind, Result as IoResult};
use std::net::TcpListener;

/// The numbers of the system's errors that have no kind and are those of one connection: its network or its host is
/// gone, or its peer broke the protocol.
const OF_ONE: [i32; 4] = [64, 71, 92, 112];

/// A socket that listens. Contracts see nothing of who connects; it counts its faults.
#[derive(Drop)]
pub struct TcpListen {
    listener: TcpListener,
    faults: Faults,
}

/// Whether an error of accepting is that of one connection, which is gone by now; the next one may be sound.
pub fn is_of_one(error: &Error) -> bool {
    match error.kind() {
        ErrorKind::Interrupted
        | ErrorKind::ConnectionAborted
        | ErrorKind::ConnectionReset
        | ErrorKind::HostUnreachable
        | ErrorKind::NetworkUnreachable
        | ErrorKind::NetworkDown
        | ErrorKind::TimedOut
        | ErrorKind::PermissionDenied => true,
        _ => match error.raw_os_error() {
            Some(number) => OF_ONE.contains(&number),
            None => false,
        },
    }
}

impl TcpListen {
    /// A socket that listens, before its first connection.
    pub fn new(listener: TcpListener) -> TcpListen
        ensures { HasNoFault result.faults }
    {
        TcpListen {
            listener,
            faults: Faults::new(),
        }
    }

    /// The port that it listens at, which the system chose where none was asked for.
    pub fn port(&self) -> IoResult<u16> {
        Ok(self.listener.local_addr()?.port())
    }

    /// What the system said of the last fault.
    pub fn last_fault(&self) -> Option<&Error>
        ensures { option_copied result ≡ self.now.faults.last }
    {
        self.faults.last()
    }
}

impl Listener for TcpListen {
    type Link = RealLink;

    ghost state = { λ l. record { waiting = None; faults = count_of l.faults } };

    fn accept(&mut self) -> Result<Option<RealLink>, Failed> {
        for _ in 0..u64::MAX {
            match self.listener.accept() {
                Ok((stream, _)) => {
                    // A connection that is gone by now is no fault of the listener: the next one is accepted.
                    if let Ok(link) = RealLink::socket(stream) {
                        return Ok(Some(link));
                    }
                }
                Err(error) if is_of_one(&error) => {}
                Err(error) => return Err(self.faults.count(error)),
            }
        }
        Err(self.faults.count(Error::from(ErrorKind::Interrupted)))
    }
}
