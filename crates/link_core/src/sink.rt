//! A stream that is only written.
ghost use Rattle.link_core.specs.Link.{SinkState, SinkTakes};

use base_core::Failed;

/// A stream that is only written: standard output, or bytes in memory.
pub trait Sink {
    /// What contracts see of the sink: the bytes that were written, if it reports them, and its count of faults.
    ghost state: { Self → SinkState };

    /// Writes a prefix of the piece, and returns how many bytes it wrote: of a piece with bytes at least one.
    ///
    /// # Errors
    /// `Failed` only if the count of faults rose. At most a prefix of the piece was written then.
    fn write(&mut self, piece: &[u8]) -> Result<usize, Failed>
        ensures { SinkTakes (state self.old) (state self.new) piece.now result };
}
