//! What lanes take their links from.
use base_core::Failed;
use history_lock::Turned;
use link_core::Listener;

/// A listener, and how many links are still to be accepted from it. Lanes take turns on it.
#[derive(Drop)]
pub struct Door<Li> {
    /// What links are accepted from.
    pub listener: Li,
    /// How many links are still to be accepted.
    pub left: u64,
}

impl<Li: Listener> Turned for Door<Li> {
    ghost use Rattle.lane_server.specs.Admitting.{Admits};

    type Call = ();

    type Reply = Result<Option<Li::Link>, Failed>;

    type Entry = Result<Option<Li::Link>, Failed>;

    ghost step = { Admits Li.Link.state Li.state };

    // Accepts one link: none exactly if no more are to be accepted or the listener is at its end.
    fn turn(&mut self, _: ()) -> Result<Option<Li::Link>, Failed> {
        if self.left == 0 {
            return Ok(None);
        }
        match self.listener.accept() {
            Ok(Some(link)) => {
                self.left -= 1;
                Ok(Some(link))
            }
            Ok(None) => Ok(None),
            Err(Failed) => Err(Failed),
        }
    }
}
