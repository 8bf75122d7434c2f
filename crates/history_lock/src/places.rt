//! Where those sleep whose turn is yet to come.
ghost use Rattle.std.specs.Prelude.{◌≡◌, ◌+◌, vec_len, vec_capacity};

use crossbeam_utils::CachePadded;
use crossbeam_utils::sync::EventCount;
use std::alloc::{AllocError, Global};

// As many as there can be tickets out.
const COUNT: u64 = 64;

/// A place for each ticket modulo 64. At most 64 tickets are out, so no two threads sleep at one place.
#[derive(Drop)]
pub struct Places {
    places: Vec<CachePadded<EventCount>>,
    ghost all: { vec_len places ≡ 64 },
}

impl Places {
    pub(crate) fn new(alloc: Global) -> Result<Places, AllocError> {
        let mut places = Vec::new(alloc);
        for _ in 0..COUNT {
            places.push(CachePadded::new(EventCount::new()))?;
        }
        Ok(Places { places })
    }

    /// The place of a ticket.
    pub(crate) fn at(&self, ticket: u64) -> &EventCount {
        &self.places[(ticket % COUNT) as usize]
    }

    /// After a turn ended, wakes the thread whose turn has come with this ticket, if it sleeps, and no other.
    pub(crate) fn wake(&self, ticket: u64) {
        self.at(ticket).notify_one();
    }
}
