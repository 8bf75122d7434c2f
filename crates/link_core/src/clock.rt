//! The time.
ghost use Rattle.std.specs.Prelude.{List, ℕ, Option};
ghost use Rattle.link_core.specs.Listener.{GivesTime};

/// A clock. It promises nothing of the order of its times.
pub trait Clock {
    /// The times that it has given, in order, as long as it reports them.
    ghost given: { Self → Option (List ℕ) };

    /// The time, in milliseconds since 1970. It has no fault: a clock of a machine returns its last time again, at first
    /// 0, where the machine's clock fails.
    fn now(&mut self) -> u64
        ensures { GivesTime (given self.old) (given self.new) result };
}
