//! Standard output as a sink.
ghost use Rattle.std.specs.Prelude.{◌≡◌, None};
ghost use Rattle.std.specs.Option.{option_copied};
ghost use Rattle.repo_cli.specs.Real.{count_of, HasNoFault};

use crate::faults::{Faults, write_again};
use base_core::Failed;
use link_core::Sink;
use std::io::{Error, Stdout, Write};

/// Standard output, or another stream of the system. Contracts see nothing of what it takes; it counts its faults.
#[derive(Drop)]
pub struct StdSink<W: Drop = Stdout> {
    out: W,
    faults: Faults,
}

impl<W: Write + Drop> StdSink<W> {
    /// The stream, before the first write.
    pub fn new(out: W) -> StdSink<W>
        ensures { HasNoFault result.faults }
    {
        StdSink {
            out,
            faults: Faults::new(),
        }
    }

    /// What the system said of the last fault.
    pub fn last_fault(&self) -> Option<&Error>
        ensures { option_copied result ≡ self.now.faults.last }
    {
        self.faults.last()
    }
}

impl<W: Write + Drop> Sink for StdSink<W> {
    ghost state = { λ sink. record { written = None; faults = count_of sink.faults } };

    fn write(&mut self, piece: &[u8]) -> Result<usize, Failed> {
        match write_again(&mut self.out, piece) {
            Ok(count) => Ok(count),
            Err(error) => Err(self.faults.count(error)),
        }
    }
}
