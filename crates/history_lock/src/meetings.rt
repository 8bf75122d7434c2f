//! What one pass has seen reaches another, passes are joined, and a lock is closed. No call here takes a runtime, so
//! none can wait: with one mutex round the value and all passes, `meet` and `join` could not have these signatures.
ghost use Rattle.std.specs.Prelude.{◌≡◌, ℕ, ◌+◌, ◌<◌, ◌⊎◌, [], ◌++◌};
ghost use mathlib.Core.List.{IsPrefix};
ghost use Rattle.history_lock.specs.History.{entries, held, HoldsAll, AreOwn, AreBelow, Leads, Runs};
ghost use Rattle.history_lock.specs.Told.{IsIdle, note_of, settled, both_of};
ghost use Rattle.history_lock.specs.Passes.{id_of, first_of, passes_of, lock_of, seen, shares, past, past_shares};

use crate::board::PassSeat;
use crate::lock::Shared;
use crate::pass::{Pass, Record};
use crate::plays::{Meet, Note, Settle};
use crate::seats::SERVING;
use crate::turned::Turned;
use std::snapshot::Snapshot;

// The seat takes the other in, and what both had seen has one history.
fn absorb<T: Turned>(lock: &Shared<T>, into: &mut PassSeat<T>, from: PassSeat<T>)
    requires into { into.old.table_id ≡ lock.now.table.shared.table_id }
    requires from { from.table_id ≡ lock.now.table.shared.table_id }
    requires into_idle { IsIdle into.old.me }
    requires from_idle { IsIdle from.me }
    ensures lock { into.new.table_id ≡ into.old.table_id }
    ensures view { into.new.me ≡ (settled (both_of into.old.me.0 from.me.0), []) }
    ensures own { AreOwn into.new.me.0.seen into.new.me.0.shares }
    ensures into_seen { IsPrefix into.old.me.0.seen into.new.me.0.seen }
    ensures from_seen { IsPrefix from.me.0.seen into.new.me.0.seen }
{
    lock.table.shared.join_seat::<Meet>(into, from);
    lock.table.shared.load::<Settle>(into, SERVING);
}

// Tells the second seat what the first has seen.
fn tell<T: Turned>(lock: &Shared<T>, seat: &mut PassSeat<T>, other: &mut PassSeat<T>)
    requires seat { seat.old.table_id ≡ lock.now.table.shared.table_id }
    requires other { other.old.table_id ≡ lock.now.table.shared.table_id }
    requires seat_idle { IsIdle seat.old.me }
    requires other_idle { IsIdle other.old.me }
    ensures seat_lock { seat.new.table_id ≡ seat.old.table_id }
    ensures seat { seat.new.me ≡ seat.old.me }
    ensures other_lock { other.new.table_id ≡ other.old.table_id }
    ensures other { other.new.me ≡ (settled (both_of other.old.me.0 (note_of seat.old.me.0)), []) }
    ensures own { AreOwn other.new.me.0.seen other.new.me.0.shares }
    ensures other_seen { IsPrefix other.old.me.0.seen other.new.me.0.seen }
    ensures seat_seen { IsPrefix seat.old.me.0.seen other.new.me.0.seen }
{
    let note = lock.table.shared.split_seat::<Note>(seat);
    absorb(lock, other, note);
}

impl<T: Turned> Shared<T> {
    /// Tells each of two passes what the other has seen. Both have then seen one history, which has what either had
    /// seen as a prefix. It waits for nobody and takes no memory.
    pub fn meet(&self, a: &mut Pass<T>, b: &mut Pass<T>)
        requires a { lock_of a.old ≡ id_of self.now }
        requires b { lock_of b.old ≡ id_of self.now }
        ensures one { seen a.new ≡ seen b.new }

        ensures a_lock { lock_of a.new ≡ lock_of a.old }
        ensures a_seen { IsPrefix (seen a.old) (seen a.new) }
        ensures a_shares { shares a.new ≡ shares a.old }

        ensures b_lock { lock_of b.new ≡ lock_of b.old }
        ensures b_seen { IsPrefix (seen b.old) (seen b.new) }
        ensures b_shares { shares b.new ≡ shares b.old }
    {
        tell(self, &mut a.seat, &mut b.seat);
        tell(self, &mut b.seat, &mut a.seat);
    }

    /// Ends a pass, and gives its numbers and their entries to another, which keeps its own number and has then seen
    /// the longer of the two histories. It waits for nobody and takes no memory.
    pub fn join(&self, into: &mut Pass<T>, from: Pass<T>)
        requires into { lock_of into.old ≡ id_of self.now }
        requires from { lock_of from ≡ id_of self.now }
        ensures lock { lock_of into.new ≡ lock_of into.old }
        ensures shares { shares into.new ≡ shares into.old ++ shares from }

        ensures one { (seen into.new ≡ seen into.old) ⊎ (seen into.new ≡ seen from) }
        ensures into_seen { IsPrefix (seen into.old) (seen into.new) }
        ensures from_seen { IsPrefix (seen from) (seen into.new) }
    {
        let Pass { seat, number: _ } = from;
        absorb(self, &mut into.seat, seat);
    }

    /// Closes the lock with the pass that holds all of its numbers, and gives the value back. The record is the one
    /// history, which leaves this value. It has the entries of each number, in their order, and no others.
    pub fn close(self, pass: Pass<T>) -> (T, Record<T>)
        requires lock { lock_of pass ≡ id_of self }
        requires all { HoldsAll (passes_of self) (shares pass) }
        ensures value { Runs (Leads T.step) (first_of self) (entries (past result.1)) result.0 }

        ensures past { past result.1 ≡ seen pass }
        ensures numbers { AreBelow (passes_of self) (past result.1) }

        ensures shares { past_shares result.1 ≡ shares pass }
        ensures own { AreOwn (past result.1) (past_shares result.1) }
        ensures once { (k : ℕ) → k < passes_of self → held k (past_shares result.1) ≡ 1 }
    {
        let Shared { table, places } = self;
        drop(places);
        let Pass { seat, number: _ } = pass;
        let last = Snapshot::of(&seat);
        let mut closed = table.close_with(seat);
        let value = closed.take(0).into_value();
        closed.free();
        (value, Record { last })
    }
}
