//! How a lock is opened, and its passes are dealt.
ghost use Rattle.std.specs.Prelude.{◌≡◌, ◌+◌, ◌-◌, ◌<◌, ◌≤◌, [], ◌∷◌, ◌++◌, IfOk, IfErr, IfSome, IsNone, ◌↔◌, vec_len, vec_capacity};
ghost use Rattle.history_lock.specs.Rule.{opening_view};
ghost use Rattle.history_lock.specs.History.{share_of};
ghost use Rattle.history_lock.specs.Passes.{id_of, first_of, passes_of, lock_of, lock_of_all, seen, shares, all_of, left_of, taken_of, AreDealt};

use crate::board::{Origin, PassSeat, Slot};
use crate::lock::Shared;
use crate::pass::{Pass, Passes};
use crate::places::Places;
use crate::plays::Deal;
use crate::seats::STRIDE;
use crate::turned::Turned;
use atomic_table::{Refused, Table};
use std::alloc::{AllocError, Global};
use std::snapshot::Snapshot;

// The table over the value, and its first seat.
fn lay<T: Turned>(
    alloc: Global,
    value: T,
    passes: usize,
) -> Result<(Shared<T>, PassSeat<T>), (T, AllocError)>
    requires { passes ≤ 64 }
    ensures first { IfOk result (λ r. first_of r.0 ≡ value) }
    ensures passes { IfOk result (λ r. passes_of r.0 ≡ passes) }
    ensures table { IfOk result (λ r. r.1.table_id ≡ r.0.table.shared.table_id) }
    ensures view { IfOk result (λ r. r.1.me ≡ (opening_view value passes, [])) }
    ensures refused { IfErr result (λ r. r.0 ≡ value) }
{
    let Ok(places) = Places::new(alloc) else {
        return Err((value, AllocError));
    };
    let Ok(words) = vec![in alloc; 0u64; (passes + 2) * STRIDE] else {
        return Err((value, AllocError));
    };
    let origin = Origin {
        first: Snapshot::of(&value),
        passes: passes as u64,
    };
    let mut slots = Vec::new(alloc);
    let slot = Slot::of(value);
    if let Err(failed) = slots.push(slot) {
        slots.destroy_empty();
        return Err((failed.value.into_value(), AllocError));
    }
    match Table::new(alloc, words.as_slice(), slots, &origin) {
        Ok((table, seat)) => Ok((Shared { table, places }, seat)),
        Err(Refused { mut slots }) => {
            let Some(slot) = slots.pop() else {
                unreachable!()
            };
            slots.destroy_empty();
            Err((slot.into_value(), AllocError))
        }
    }
}

// There is room for it.
fn add<T: Turned>(waiting: &mut Vec<Pass<T>>, pass: Pass<T>)
    requires { vec_len waiting.old < vec_capacity waiting.old }
    ensures items { waiting.new.items ≡ waiting.old.items ++ pass ∷ [] }
    ensures len { vec_len waiting.new ≡ vec_len waiting.old + 1 }
    ensures capacity { vec_capacity waiting.old ≤ vec_capacity waiting.new }
{
    if let Err(failed) = waiting.push(pass) {
        let Pass { seat, number: _ } = failed.value;
        drop(seat);
        unreachable!()
    }
}

// Splits a pass off for each number, the largest first.
fn deal<T: Turned>(
    lock: &Shared<T>,
    source: &mut PassSeat<T>,
    waiting: &mut Vec<Pass<T>>,
    passes: usize,
)
    requires lock { source.old.table_id ≡ lock.now.table.shared.table_id }
    requires source { source.old.me ≡ (opening_view (first_of lock.now) (passes_of lock.now), []) }
    requires passes { passes ≡ passes_of lock.now }
    requires empty { waiting.old.items ≡ [] }
    requires room { passes ≤ vec_capacity waiting.old }
    ensures lock { source.new.table_id ≡ source.old.table_id }
    ensures first { source.new.me.0.first ≡ source.old.me.0.first }
    ensures count { vec_len waiting.new ≡ passes }
    ensures dealt { AreDealt (source.old.table_id, source.old.me.0.first) passes waiting.new.items }
{
    for dealt in 0..passes {
        let seat = lock.table.shared.split_seat::<Deal>(source);
        let pass = Pass {
            seat,
            number: passes - 1 - dealt,
        };
        add(waiting, pass);
    }
}

impl<T: Turned> Shared<T> {
    /// Opens a lock over a value, with 1 to 64 passes. If memory is refused, the value comes back. The lock is to be
    /// closed, the passes are to be ended, and each pass is to be joined or to close the lock: none of them can be let
    /// go.
    pub fn open(
        alloc: Global,
        value: T,
        passes: u32,
    ) -> Result<(Shared<T>, Passes<T>), (T, AllocError)>
        requires some { 1 ≤ passes }
        requires few { passes ≤ 64 }
        ensures first { IfOk result (λ r. first_of r.0 ≡ value) }
        ensures passes { IfOk result (λ r. passes_of r.0 ≡ passes) }

        ensures lock { IfOk result (λ r. lock_of_all r.1 ≡ id_of r.0) }
        ensures all { IfOk result (λ r. all_of r.1 ≡ passes) }
        ensures left { IfOk result (λ r. left_of r.1 ≡ passes) }

        ensures refused { IfErr result (λ r. r.0 ≡ value) }
    {
        let all = passes as usize;
        let Ok(mut waiting) = Vec::with_capacity(alloc, all) else {
            return Err((value, AllocError));
        };
        match lay(alloc, value, all) {
            Ok((lock, mut source)) => {
                deal(&lock, &mut source, &mut waiting, all);
                Ok((
                    lock,
                    Passes {
                        source,
                        waiting,
                        all,
                    },
                ))
            }
            Err(refused) => {
                waiting.destroy_empty();
                Err(refused)
            }
        }
    }
}

impl<T: Turned> Passes<T> {
    /// Takes the next pass. The numbers go up from 0. It is `None` exactly when all were taken.
    pub fn take(&mut self) -> Option<Pass<T>>
        ensures none { IsNone result ↔ (left_of self.old ≡ 0) }
        ensures of_lock { IfSome result (λ pass. lock_of pass ≡ lock_of_all self.old) }
        ensures unseen { IfSome result (λ pass. seen pass ≡ []) }
        ensures alone { IfSome result (λ pass. shares pass ≡ share_of (taken_of self.old) [] ∷ []) }
        ensures left { left_of self.new ≡ left_of self.old - 1 }
        ensures lock { lock_of_all self.new ≡ lock_of_all self.old }
        ensures all { all_of self.new ≡ all_of self.old }
    {
        self.waiting.pop()
    }

    /// Gives up the passes once all were taken.
    pub fn end(self)
        requires { left_of self ≡ 0 }
    {
        let Passes {
            source: _,
            waiting,
            all: _,
        } = self;
        waiting.destroy_empty();
    }
}
