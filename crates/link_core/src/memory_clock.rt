//! A clock over a list.
ghost use Rattle.std.specs.Prelude.{◌≡◌, []};

use crate::Clock;
use base_core::counted;
use std::alloc::Global;

/// A clock that gives the times of its list in their order, then the last one again. With no list it gives 0.
///
/// It reports what it has given, until that are 2^64 - 1 times.
#[derive(Drop)]
pub struct MemoryClock {
    times: Vec<u64>,
    count: u64,
}

impl MemoryClock {
    ghost use Rattle.link_core.specs.Memory.{times_of, count_of};

    /// A clock with these times, in milliseconds since 1970.
    pub fn new(times: Vec<u64>) -> MemoryClock
        ensures times { times_of result ≡ times.items }
        ensures unused { count_of result ≡ 0 }
    {
        MemoryClock { times, count: 0 }
    }

    /// A clock that always gives 0. It takes no memory.
    pub fn zero(alloc: Global) -> MemoryClock
        ensures times { times_of result ≡ [] }
        ensures unused { count_of result ≡ 0 }
    {
        MemoryClock::new(Vec::new(alloc))
    }
}

impl Clock for MemoryClock {
    ghost use Rattle.base_core.specs.Causes.{Counts};
    ghost use Rattle.link_core.specs.Listener.{GivesTime};
    ghost use Rattle.link_core.specs.Memory.{times_of, count_of, clock_given, time_at};

    ghost given = { clock_given };

    fn now(&mut self) -> u64
        ensures clock { GivesTime (clock_given self.old) (clock_given self.new) result }
        ensures time { result ≡ time_at (times_of self.old) (count_of self.old) }
        ensures times { times_of self.new ≡ times_of self.old }
        ensures count { Counts (count_of self.old) (count_of self.new) }
    {
        let last = match self.times.last() {
            Some(time) => *time,
            None => 0,
        };
        let time = match self.times.get(self.count as usize) {
            Some(time) => *time,
            None => last,
        };
        self.count = counted(self.count);
        time
    }
}
