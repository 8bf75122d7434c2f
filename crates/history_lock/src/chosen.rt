//! The entry of a turn, for the proofs alone.
ghost use Rattle.std.specs.Borrow.{ftrue};

use crate::turned::Turned;
use std::marker::{Model, PhantomData};
use std::snapshot::Snapshot;

/// A turn that was taken, for the proofs alone.
pub struct Taken<T: Turned> {
    pub old: Snapshot<T>,
    pub call: Snapshot<T::Call>,
    pub reply: Snapshot<T::Reply>,
    pub new: Snapshot<T>,
}

impl<T: Turned> Drop for Taken<T> {
    fn drop(self) {
        let Self {
            old,
            call,
            reply,
            new,
        } = self;
        drop(old);
        drop(call);
        drop(reply);
        drop(new);
    }
}

/// An entry that a turn has. It has no bytes: contracts alone see the entry.
pub struct Chosen<E> {
    marker: PhantomData<E>,
    pub ghost entry: { E },
}

impl<E> Model for Chosen<E> {
    ghost also_owns = { λ _. ftrue };
}

impl<E> Drop for Chosen<E> {
    fn drop(self) {
        let Self { marker: _ } = self;
    }
}

// A struct with `also_owns` has neither by itself. This one owns nothing.
unsafe impl<E> Send for Chosen<E> {}

unsafe impl<E> Sync for Chosen<E> {}

impl<E> Chosen<E> {
    // `turn` says that there is an entry, and a step on the table can only tell what a slot holds.
    pub(crate) fn of<T: Turned<Entry = E>>(turn: &Taken<T>) -> Chosen<E>
        requires { (entry : E)
            × T.step turn.now.old.value turn.now.call.value entry turn.now.reply.value turn.now.new.value }
        ensures { T.step turn.now.old.value turn.now.call.value result.entry turn.now.reply.value turn.now.new.value }
    {
        let _ = turn;
        Chosen {
            marker: PhantomData,
        }
    }
}
