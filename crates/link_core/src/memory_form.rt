//! Links in memory, as a listener and a host in memory hand them out.
ghost use Rattle.std.specs.Prelude.{◌≡◌, ℕ, List};
ghost use Rattle.link_core.specs.Host.{IsNew, IsFresh};
ghost use Rattle.link_core.specs.Memory.{Scripts, restarted_both, marked_both};

use crate::Link;

/// A link in memory: it holds all that its reads will give, and does what its scripts say.
pub trait MemoryForm: Link {
    /// The bytes that its reads give, from its first call on.
    ghost bytes: { Self → List ℕ };

    /// What its reads and its writes are to do.
    ghost scripts: { Self → Scripts };

    /// The same link before its first call.
    fn afresh(self) -> Self
        ensures new { IsNew (bytes self) (Self.state result) }
        ensures fresh { IsFresh (Self.state result) }
        ensures bytes { bytes result ≡ bytes self }
        ensures scripts { scripts result ≡ restarted_both (scripts self) };

    /// The same link, of which these reads and writes fail too, in place of those that were marked before.
    fn marked(self, reads: Vec<u64>, writes: Vec<u64>) -> Self
        ensures state { Self.state result ≡ Self.state self }
        ensures bytes { bytes result ≡ bytes self }
        ensures scripts { scripts result ≡ marked_both reads.items writes.items (scripts self) };
}
