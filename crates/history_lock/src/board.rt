//! The table that all passes share. A word counts the tickets that were drawn, a word the turns that were taken, and
//! one word for each pass the turns that were taken under its number. They are so far apart that no two share a cache
//! line. The slot has the value.
ghost use Rattle.std.specs.Prelude.{◌≡◌, Some};
ghost use Rattle.history_lock.specs.declared.chosen.Chosen.{Chosen};

use crate::chosen::{Chosen, Taken};
use crate::turned::Turned;
use atomic_table::{Seat, Table, TableRule};
use std::alloc::Global;
use std::collections::LinkedList;
use std::marker::PhantomData;
use std::snapshot::Snapshot;

/// One turn of a history: the number of the pass that took it, and its entry.
pub struct Entered<E> {
    pub by: u64,
    pub entry: E,
}

/// A number that a pass holds, and the entries of the turns that were taken under it.
pub struct Share<E> {
    pub number: u64,
    pub own: LinkedList<E, Global>,
}

/// What a seat knows. No value of it is made.
pub struct View<T, E> {
    pub first: Option<T>,
    pub seen: LinkedList<Entered<E>, Global>,
    pub noted: LinkedList<LinkedList<Entered<E>, Global>, Global>,
    pub shares: LinkedList<Share<E>, Global>,
    pub tickets: LinkedList<u64, Global>,
    pub come: bool,
    pub announced: LinkedList<E, Global>,
}

/// Where the value is, with the entry of the last turn that was taken on it.
pub struct Slot<T, E> {
    pub value: T,
    pub entry: Option<Chosen<E>>,
}

impl<T, E> Slot<T, E> {
    pub(crate) fn of(value: T) -> Slot<T, E>
        ensures { result.value ≡ value }
    {
        Slot { value, entry: None }
    }

    pub(crate) fn into_value(self) -> T
        ensures { result ≡ self.value }
    {
        let Slot { value, entry } = self;
        drop(entry);
        value
    }
}

impl<T: Turned> Slot<T, T::Entry> {
    // The value takes the call where it is, and the slot has the entry of that turn.
    pub(crate) fn turn(&mut self, call: T::Call) -> T::Reply
        requires { T.may_take call }
        ensures { (chosen : Chosen T.Entry) × (self.new.entry ≡ Some chosen)
            × T.step self.old.value call chosen.entry result self.new.value }
    {
        let old = Snapshot::of(&self.value);
        let asked = Snapshot::of(&call);
        let answer = self.value.turn(call);
        let reply = Snapshot::of(&answer);
        let new = Snapshot::of(&self.value);
        let turn = Taken {
            old,
            call: asked,
            reply,
            new,
        };
        self.entry = Some(Chosen::of(&turn));
        answer
    }
}

/// What was opened: the value at first, and how many passes there are.
pub struct Origin<T> {
    pub first: Snapshot<T>,
    pub passes: u64,
}

impl<T> Drop for Origin<T> {
    fn drop(self) {
        let Self { first, passes: _ } = self;
        drop(first);
    }
}

/// The rule of the table.
pub struct Turns<T> {
    of: PhantomData<T>,
}

impl<T: Turned> TableRule<Slot<T, T::Entry>, View<T, T::Entry>, Origin<T>> for Turns<T> {
    ghost use Rattle.history_lock.specs.Rule.{Kept, opening_view};
    ghost use Rattle.history_lock.specs.History.{Leads};

    ghost holds = { λ key. Kept (Leads T.step) key.first.value key.passes };

    ghost first = { λ key. opening_view key.first.value key.passes };
}

pub type Board<T> = Table<
    Slot<T, <T as Turned>::Entry>,
    View<T, <T as Turned>::Entry>,
    Origin<T>,
    Turns<T>,
    Global,
>;

pub type PassSeat<T> = Seat<Slot<T, <T as Turned>::Entry>, View<T, <T as Turned>::Entry>>;
