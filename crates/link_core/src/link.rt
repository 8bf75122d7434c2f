//! A stream both ways.
ghost use Rattle.link_core.specs.Link.{LinkState, ReadsBytes, WritesBytes, Closes};

use base_core::Failed;

/// A stream both ways: a console, a socket, or bytes in memory.
///
/// A link need not report its bytes: the forms in memory do, terminals and sockets don't. A clause on bytes holds if
/// they are reported, and a clause on causes always holds.
pub trait Link {
    /// What contracts see of the link: its bytes, whether it is closed, its count of faults, its number of reads.
    ghost state: { Self → LinkState };

    /// Reads into the first bytes of the buffer, and returns how many it read: 0, with room, only at the end.
    ///
    /// # Errors
    /// `Failed` only if the count of faults rose. Nothing was taken from the link then.
    fn read(&mut self, into: &mut [u8]) -> Result<usize, Failed>
        ensures { ReadsBytes (state self.old) (state self.new) into.new result };

    /// Writes a prefix of the piece, and returns how many bytes it wrote: of a piece with bytes at least one.
    ///
    /// # Errors
    /// `Failed` only if the count of faults rose. At most a prefix of the piece was written then.
    fn write(&mut self, piece: &[u8]) -> Result<usize, Failed>
        ensures { WritesBytes (state self.old) (state self.new) piece.now result };

    /// Gives the stream up. What was read and written, and what is left, stay reported.
    fn close(&mut self)
        ensures { Closes (state self.old) (state self.new) };
}
