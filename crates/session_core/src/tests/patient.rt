//! A link for tests that gives a message a read, and each only after the message before has its reply.
ghost use Rattle.std.specs.Prelude.{◌-◌, None};

use base_core::{Failed, counted};
use link_core::Link;

const MESSAGE: &[u8] = b"{}\n#\n#\n";

/// A link with three messages. A read fails where a message that was given has no reply yet. It reports no bytes.
#[derive(Drop)]
pub(crate) struct Patient {
    reads: u8,
    replies: u8,
    faults: u64,
    closed: bool,
}

impl Patient {
    pub(crate) fn new() -> Patient {
        Patient {
            reads: 0,
            replies: 0,
            faults: 0,
            closed: false,
        }
    }

    pub(crate) fn replies(&self) -> u8 {
        self.replies
    }
}

impl Link for Patient {
    ghost state = { λ p. record {
      taken = None;
      left = None;
      written = None;
      closed = p.closed;
      faults = p.faults;
      reads = 3 - p.reads;
    } };

    fn read(&mut self, into: &mut [u8]) -> Result<usize, Failed> {
        if self.replies < self.reads {
            self.faults = counted(self.faults);
            return Err(Failed);
        }
        if self.reads >= 3 || into.len() < MESSAGE.len() {
            return Ok(0);
        }
        self.reads += 1;
        into[..MESSAGE.len()].copy_from_slice(MESSAGE);
        Ok(MESSAGE.len())
    }

    fn write(&mut self, piece: &[u8]) -> Result<usize, Failed> {
        self.replies = self.replies.saturating_add(1);
        Ok(piece.len())
    }

    fn close(&mut self) {
        self.closed = true;
    }
}
