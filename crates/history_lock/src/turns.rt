//! A whole turn: a ticket, the wait, and the turn itself.
ghost use Rattle.std.specs.Prelude.{◌≡◌};
ghost use Rattle.history_lock.specs.Passes.{id_of, first_of, lock_of, IsTurn};

use crate::lock::Shared;
use crate::pass::Pass;
use crate::seats::{draw, take_turn, wait_turn};
use crate::turned::Turned;
use std::sync::Wait;

impl<T: Turned> Shared<T> {
    /// Waits for a turn, takes it with this call, and returns its reply. Afterwards the pass has seen a history that
    /// has what it had seen as a prefix and ends with this turn, which is one more of its own. It takes no memory of
    /// its own: what the value takes is `turn`'s.
    pub fn apply<R: Wait>(&self, rt: &R, pass: &mut Pass<T>, call: T::Call) -> T::Reply
        requires lock { lock_of pass.old ≡ id_of self.now }
        requires call { T.may_take call }
        ensures lock { lock_of pass.new ≡ lock_of pass.old }
        ensures turn { IsTurn T.step (first_of self.now) pass.old pass.new call result }
    {
        let number = pass.number;
        let ticket = draw(self, &mut pass.seat);
        wait_turn(rt, self, &mut pass.seat, ticket);
        let answer = take_turn(self, &mut pass.seat, number, call);
        self.places.wake(ticket.wrapping_add(1));
        answer
    }
}
