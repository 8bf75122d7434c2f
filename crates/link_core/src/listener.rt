//! What links are accepted from.
ghost use Rattle.link_core.specs.Listener.{ListenerState, Accepts};

use crate::Link;
use base_core::Failed;

/// What links are accepted from: a socket that listens, or a list in memory.
pub trait Listener {
    /// A stream both ways.
    type Link: Link;

    /// What contracts see of the listener: what its links hold, and its count of faults.
    ghost state: { Self → ListenerState };

    /// Accepts the next link, of which nothing was read and to which nothing was written. `None` is the end of the
    /// listener's list: a socket has none, and waits.
    ///
    /// # Errors
    /// `Failed` only if the count of faults rose. The list is as before then.
    fn accept(&mut self) -> Result<Option<Self::Link>, Failed>
        ensures { Accepts Self.Link.state (state self.old) (state self.new) result };
}
