//! The machine's clock.
ghost use Rattle.std.specs.Prelude.{None};

use link_core::Clock;
use std::time::{Clock as Time, SystemTime, UNIX_EPOCH};

/// The machine's clock. Where it fails, the last time is given again, at first 0.
#[derive(Drop)]
pub struct RealClock<'a, R> {
    rt: &'a R,
    last: u64,
}

impl<'a, R: Time> RealClock<'a, R> {
    /// The clock, before its first time.
    pub fn new(rt: &'a R) -> RealClock<'a, R> {
        RealClock { rt, last: 0 }
    }
}

impl<R: Time> Clock for RealClock<'_, R> {
    ghost given = { λ _. None };

    fn now(&mut self) -> u64 {
        if let Ok(time) = SystemTime::now(self.rt)
            && let Ok(since) = time.duration_since(UNIX_EPOCH)
            && let Ok(milliseconds) = u64::try_from(since.as_millis())
        {
            self.last = milliseconds;
        }
        self.last
    }
}
