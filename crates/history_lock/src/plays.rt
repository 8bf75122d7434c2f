//! What each step on the table tells, and how seats are split and joined.
ghost use Rattle.history_lock.specs.History.{Leads};
ghost use Rattle.history_lock.specs.Told.{drew, looked, announced, published, settles, note_of, one_of, rest_of, both_of, spent};

use crate::board::{Slot, View};
use crate::turned::Turned;
use atomic_table::{Join, Play, Split};
use std::marker::PhantomData;

pub(crate) struct Draw;

impl<T, E> Play<Slot<T, E>, View<T, E>> for Draw {
    ghost then = { drew };
}

pub(crate) struct Look<T> {
    of: PhantomData<T>,
}

impl<T: Turned> Play<Slot<T, T::Entry>, View<T, T::Entry>> for Look<T> {
    ghost then = { looked (Leads T.step) };
}

pub(crate) struct Announce;

impl<T, E> Play<Slot<T, E>, View<T, E>> for Announce {
    ghost then = { announced };
}

pub(crate) struct Publish;

impl<T, E> Play<Slot<T, E>, View<T, E>> for Publish {
    ghost then = { published };
}

pub(crate) struct Settle;

impl<T, E> Play<Slot<T, E>, View<T, E>> for Settle {
    ghost then = { settles };
}

pub(crate) struct Note;

impl<T, E> Split<View<T, E>> for Note {
    ghost left = { λ v. v };

    ghost right = { note_of };
}

pub(crate) struct Deal;

impl<T, E> Split<View<T, E>> for Deal {
    ghost left = { rest_of };

    ghost right = { one_of };
}

pub(crate) struct Meet;

impl<T, E> Join<View<T, E>> for Meet {
    ghost both = { both_of };

    ghost spent = { spent };
}
