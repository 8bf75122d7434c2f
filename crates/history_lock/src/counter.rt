//! A sum, as an example of a value to take turns on.
ghost use Rattle.std.specs.Prelude.{◌≡◌, ◌+◌, ◌%◌, ◌^◌};

use crate::turned::Turned;

/// A sum that wraps at 2^64. A call adds a number and returns the sum; the entry of its turn is that number.
#[derive(Drop)]
pub struct Counter {
    pub sum: u64,
}

impl Turned for Counter {
    type Call = u64;

    type Reply = u64;

    type Entry = u64;

    ghost step = { λ old call entry reply new.
        (entry ≡ call) × (reply ≡ (old.sum + call) % 2 ^ 64) × (new.sum ≡ reply) };

    fn turn(&mut self, call: u64) -> u64 {
        self.sum = self.sum.wrapping_add(call);
        self.sum
    }
}
