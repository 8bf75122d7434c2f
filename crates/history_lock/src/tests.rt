//! Counters that threads add to.
ghost use Rattle.std.specs.Prelude.{◌≡◌, ℕ, ◌+◌, ◌*◌, ◌%◌, ◌^◌, ◌≤◌, ◌++◌, List, length, IfSome};
ghost use Rattle.std.specs.Thread.{IsSync};
ghost use mathlib.Core.List.{IsPrefix};
ghost use Rattle.history_lock.specs.declared.board.Entered.{Entered};
ghost use Rattle.history_lock.specs.Counter.{turns_of, added_of};
ghost use Rattle.history_lock.specs.History.{held, HoldsAll};
ghost use Rattle.history_lock.specs.Laws.{NoneHeld};
ghost use Rattle.history_lock.specs.Passes.{id_of, first_of, passes_of, lock_of, seen, shares, IsFresh, lock_of_all, all_of, left_of, taken_of, past};
ghost use Rattle.history_lock.specs.Rule.{below};

mod sleep;

use crate::{Counter, Pass, Passes, Record, Shared, own_turns_are_never_news};
use std::alloc::Global;
use std::sync::Wait;
use std::test::Fail;
use std::thread::{Threads, join_mut};

// A lock over a counter at 0, and its two passes.
fn with_two_passes(alloc: Global) -> Option<(Shared<Counter>, Pass<Counter>, Pass<Counter>)>
    ensures sum { IfSome result (λ r. (first_of r.0).sum ≡ 0) }
    ensures count { IfSome result (λ r. passes_of r.0 ≡ 2) }
    ensures one { IfSome result (λ r. IsFresh (id_of r.0) 0 r.1) }
    ensures two { IfSome result (λ r. IsFresh (id_of r.0) 1 r.2) }
{
    let Ok((lock, mut passes)) = Shared::open(alloc, Counter { sum: 0 }, 2) else {
        return None;
    };
    let Some(one) = passes.take() else {
        unreachable!()
    };
    let Some(two) = passes.take() else {
        unreachable!()
    };
    passes.end();
    Some((lock, one, two))
}

// The history is as long as the pass's own lists together, and the sum is theirs.
fn close(lock: Shared<Counter>, pass: Pass<Counter>) -> (Counter, Record<Counter>)
    requires lock { lock_of pass ≡ id_of lock }
    requires first { (first_of lock).sum ≡ 0 }
    requires all { HoldsAll (passes_of lock) (shares pass) }
    ensures history { length (past result.1) ≡ turns_of (shares pass) }
    ensures sum { result.0.sum ≡ added_of (shares pass) % 2 ^ 64 }
{
    lock.close(pass)
}

// Turns of both, a meeting, a joining and the end: 5, and a history of two turns.
fn add_two_and_three<R: Wait>(
    rt: &R,
    lock: Shared<Counter>,
    mut one: Pass<Counter>,
    mut two: Pass<Counter>,
) -> (Counter, Record<Counter>)
    requires first { (first_of lock).sum ≡ 0 }
    requires count { passes_of lock ≡ 2 }
    requires one { IsFresh (id_of lock) 0 one }
    requires two { IsFresh (id_of lock) 1 two }
    ensures history { length (past result.1) ≡ 2 }
    ensures sum { result.0.sum ≡ 5 }
{
    lock.apply(rt, &mut one, 2);
    lock.apply(rt, &mut two, 3);
    lock.meet(&mut one, &mut two);
    lock.join(&mut one, two);
    close(lock, one)
}

#[test]
fn two_passes_over_a_counter(rt: HostRuntime) -> Result<(), Fail> {
    let Some((lock, one, two)) = with_two_passes(rt.alloc()) else {
        panic!(rt; "no memory")
    };
    let (counter, _past) = add_two_and_three(&rt, lock, one, two);
    assert!(rt; counter.sum == 5);
    Ok(())
}

// The second has then seen both turns.
fn meet_then_apply<R: Wait>(
    rt: &R,
    lock: &Shared<Counter>,
    one: &mut Pass<Counter>,
    two: &mut Pass<Counter>,
) -> u64
    requires one { lock_of one.old ≡ id_of lock.now }
    requires two { lock_of two.old ≡ id_of lock.now }
    ensures first { IsPrefix (seen one.new) (seen two.new) }
    ensures both { length (seen one.old) + 2 ≤ length (seen two.new) }

    ensures one_lock { lock_of one.new ≡ id_of lock.now }
    ensures one_turns { turns_of (shares one.new) ≡ turns_of (shares one.old) + 1 }
    ensures one_numbers { (k : ℕ) → held k (shares one.new) ≡ held k (shares one.old) }

    ensures two_lock { lock_of two.new ≡ id_of lock.now }
    ensures two_turns { turns_of (shares two.new) ≡ turns_of (shares two.old) + 1 }
    ensures two_numbers { (k : ℕ) → held k (shares two.new) ≡ held k (shares two.old) }
{
    lock.apply(rt, one, 2);
    lock.meet(one, two);
    lock.apply(rt, two, 3)
}

#[test]
fn a_turn_after_a_meeting_sees_the_turn_before_it(rt: HostRuntime) -> Result<(), Fail> {
    let Some((lock, mut one, mut two)) = with_two_passes(rt.alloc()) else {
        panic!(rt; "no memory")
    };
    let reply = meet_then_apply(&rt, &lock, &mut one, &mut two);
    lock.join(&mut one, two);
    let (counter, _past) = close(lock, one);
    assert!(rt; reply == 5 && counter.sum == 5);
    Ok(())
}

#[test]
fn no_pass_is_left_after_the_last(rt: HostRuntime) -> Result<(), Fail> {
    let Ok((lock, mut passes)) = Shared::open(rt.alloc(), Counter { sum: 7 }, 1) else {
        panic!(rt; "no memory")
    };
    let Some(mut one) = passes.take() else {
        panic!(rt; "no pass")
    };
    let mut left = false;
    if let Some(more) = passes.take() {
        lock.join(&mut one, more);
        left = true;
    }
    passes.end();
    let (counter, _past) = lock.close(one);
    assert!(rt; !left && counter.sum == 7);
    Ok(())
}

// A lock over a counter at 0, and its three passes.
fn with_three_passes(
    alloc: Global,
) -> Option<(Shared<Counter>, Pass<Counter>, Pass<Counter>, Pass<Counter>)>
    ensures sum { IfSome result (λ r. (first_of r.0).sum ≡ 0) }
    ensures count { IfSome result (λ r. passes_of r.0 ≡ 3) }
    ensures one { IfSome result (λ r. IsFresh (id_of r.0) 0 r.1) }
    ensures two { IfSome result (λ r. IsFresh (id_of r.0) 1 r.2) }
    ensures three { IfSome result (λ r. IsFresh (id_of r.0) 2 r.3) }
{
    let Ok((lock, mut passes)) = Shared::open(alloc, Counter { sum: 0 }, 3) else {
        return None;
    };
    let Some(one) = passes.take() else {
        unreachable!()
    };
    let Some(two) = passes.take() else {
        unreachable!()
    };
    let Some(three) = passes.take() else {
        unreachable!()
    };
    passes.end();
    Some((lock, one, two, three))
}

// The pass with the last number takes the others in, and closes: it then holds each number of the lock, as `close`
// asks.
fn add_and_close_with_the_last<R: Wait>(
    rt: &R,
    lock: Shared<Counter>,
    mut one: Pass<Counter>,
    two: Pass<Counter>,
    mut three: Pass<Counter>,
) -> (Counter, Record<Counter>)
    requires first { (first_of lock).sum ≡ 0 }
    requires count { passes_of lock ≡ 3 }
    requires one { IsFresh (id_of lock) 0 one }
    requires two { IsFresh (id_of lock) 1 two }
    requires three { IsFresh (id_of lock) 2 three }
    ensures history { length (past result.1) ≡ 1 }
    ensures sum { result.0.sum ≡ 7 }
{
    lock.apply(rt, &mut one, 7);
    lock.join(&mut three, one);
    lock.join(&mut three, two);
    close(lock, three)
}

#[test]
fn a_pass_that_holds_each_number_closes_the_lock(rt: HostRuntime) -> Result<(), Fail> {
    let Some((lock, one, two, three)) = with_three_passes(rt.alloc()) else {
        panic!(rt; "no memory")
    };
    let (counter, _past) = add_and_close_with_the_last(&rt, lock, one, two, three);
    assert!(rt; counter.sum == 7);
    Ok(())
}

// What the first pass sees by the meeting, beyond what it had seen, has no turn of its own.
fn meet_again(lock: &Shared<Counter>, one: &mut Pass<Counter>, two: &mut Pass<Counter>)
    requires one { lock_of one.old ≡ id_of lock.now }
    requires two { lock_of two.old ≡ id_of lock.now }
    ensures others { (more : List (Entered ℕ)) → seen one.new ≡ seen one.old ++ more → NoneHeld (shares one.old) more }
    ensures one { lock_of one.new ≡ id_of lock.now }
    ensures two { lock_of two.new ≡ id_of lock.now }
    ensures one_shares { shares one.new ≡ shares one.old }
    ensures two_shares { shares two.new ≡ shares two.old }
{
    own_turns_are_never_news::<u64>();
    lock.meet(one, two);
}

#[test]
fn a_meeting_brings_a_pass_no_turn_of_its_own(rt: HostRuntime) -> Result<(), Fail> {
    let Some((lock, mut one, mut two)) = with_two_passes(rt.alloc()) else {
        panic!(rt; "no memory")
    };
    meet_again(&lock, &mut one, &mut two);
    lock.join(&mut two, one);
    let (counter, _past) = close(lock, two);
    assert!(rt; counter.sum == 0);
    Ok(())
}

fn add_often<R: Wait>(rt: &R, lock: &Shared<Counter>, pass: &mut Pass<Counter>)
    requires { lock_of pass.old ≡ id_of lock.now }
    ensures lock { lock_of pass.new ≡ id_of lock.now }
    ensures numbers { (k : ℕ) → held k (shares pass.new) ≡ held k (shares pass.old) }
    ensures turns { turns_of (shares pass.new) ≡ turns_of (shares pass.old) + 1000 }
    ensures added { added_of (shares pass.new) ≡ added_of (shares pass.old) + 1000 }
{
    for _ in 0..1000_u64 {
        lock.apply(rt, pass, 1);
    }
}

// What is joined adds up.
fn take_in(lock: &Shared<Counter>, into: &mut Pass<Counter>, from: Pass<Counter>)
    requires into { lock_of into.old ≡ id_of lock.now }
    requires from { lock_of from ≡ id_of lock.now }
    ensures lock { lock_of into.new ≡ id_of lock.now }
    ensures numbers { (k : ℕ) → held k (shares into.new) ≡ held k (shares into.old) + held k (shares from) }
    ensures turns { turns_of (shares into.new) ≡ turns_of (shares into.old) + turns_of (shares from) }
    ensures added { added_of (shares into.new) ≡ added_of (shares into.old) + added_of (shares from) }
{
    lock.join(into, from);
}

// One thread for each pass. The first takes the others in.
fn add_all<R: Threads + Wait + Sync>(
    rt: &R,
    lock: &Shared<Counter>,
    first: &mut Pass<Counter>,
    passes: &mut Passes<Counter>,
)
    requires first { lock_of first.old ≡ id_of lock.now }
    requires passes { lock_of_all passes.old ≡ id_of lock.now }
    ensures lock { lock_of first.new ≡ id_of lock.now }
    ensures numbers { (k : ℕ) → held k (shares first.new) + below k (taken_of passes.old)
        ≡ held k (shares first.old) + below k (all_of passes.old) }
    ensures turns { turns_of (shares first.new) ≡ turns_of (shares first.old) + 1000 + left_of passes.old * 1000 }
    ensures added { added_of (shares first.new) ≡ added_of (shares first.old) + 1000 + left_of passes.old * 1000 }
    ensures left { left_of passes.new ≡ 0 }
{
    let Some(mut next) = passes.take() else {
        return add_often(rt, lock, first);
    };
    join_mut(
        rt,
        &mut ||
            requires sync { IsSync R.row }
            requires first { lock_of first.now ≡ id_of lock.now }
            ensures lock { lock_of first.exit.now ≡ id_of lock.entry.now }
            ensures numbers { (k : ℕ) → held k (shares first.exit.now) ≡ held k (shares first.entry.now) }
            ensures turns { turns_of (shares first.exit.now) ≡ turns_of (shares first.entry.now) + 1000 }
            ensures added { added_of (shares first.exit.now) ≡ added_of (shares first.entry.now) + 1000 }
        { add_often(rt, lock, first) },
        &mut ||
            requires sync { IsSync R.row }
            requires next { lock_of next ≡ id_of lock.now }
            requires passes { lock_of_all passes.now ≡ id_of lock.now }
            ensures lock { lock_of next.exit ≡ id_of lock.entry.now }
            ensures numbers { (k : ℕ) → held k (shares next.exit) + below k (taken_of passes.entry.now)
                ≡ held k (shares next.entry) + below k (all_of passes.entry.now) }
            ensures turns { turns_of (shares next.exit)
                ≡ turns_of (shares next.entry) + 1000 + left_of passes.entry.now * 1000 }
            ensures added { added_of (shares next.exit)
                ≡ added_of (shares next.entry) + 1000 + left_of passes.entry.now * 1000 }
            ensures left { left_of passes.exit.now ≡ 0 }
        { add_all(rt, lock, &mut next, passes) },
    );
    take_in(lock, first, next);
}

// All passes of a lock over a counter at 0 add a thousand times each: the sum and the length of the history agree.
fn add_all_and_close<R: Threads + Wait + Sync>(
    rt: &R,
    lock: Shared<Counter>,
    mut passes: Passes<Counter>,
) -> (Counter, Record<Counter>)
    requires sum { (first_of lock).sum ≡ 0 }
    requires lock { lock_of_all passes ≡ id_of lock }
    requires count { passes_of lock ≡ 8 }
    requires all { all_of passes ≡ 8 }
    requires left { left_of passes ≡ 8 }
    ensures sum { result.0.sum ≡ 8000 }
    ensures history { length (past result.1) ≡ 8000 }
{
    let Some(mut first) = passes.take() else {
        unreachable!()
    };
    add_all(rt, &lock, &mut first, &mut passes);
    passes.end();
    close(lock, first)
}

#[test]
fn eight_threads_add_a_thousand_times_each(rt: HostRuntime) -> Result<(), Fail> {
    let Ok((lock, passes)) = Shared::open(rt.alloc(), Counter { sum: 0 }, 8) else {
        panic!(rt; "no memory")
    };
    let (counter, _past) = add_all_and_close(&rt, lock, passes);
    assert!(rt; counter.sum == 8000);
    Ok(())
}
