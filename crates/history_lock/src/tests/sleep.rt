//! Turns that take longer than a waiter spins.
ghost use Rattle.std.specs.Prelude.{◌≡◌, ℕ};
ghost use Rattle.std.specs.Thread.{IsSync};
ghost use Rattle.history_lock.specs.History.{held, HoldsAll};
ghost use Rattle.history_lock.specs.Passes.{id_of, passes_of, lock_of, shares, IsFresh};

use crate::{Pass, Shared, Turned};
use std::hint;
use std::sync::Wait;
use std::test::Fail;
use std::thread::{Threads, join_mut};

// A sum whose turns take 25 times as long as a waiter spins that comes next. What it sums up to is tested, not proved.
#[derive(Drop)]
struct SlowSum {
    sum: u64,
}

impl Turned for SlowSum {
    type Call = u64;

    type Reply = u64;

    type Entry = u64;

    ghost step = { λ _ call entry _ _. entry ≡ call };

    fn turn(&mut self, call: u64) -> u64 {
        for _ in 0..100_000_u32 {
            hint::spin_loop();
        }
        self.sum = self.sum.wrapping_add(call);
        self.sum
    }
}

fn add_slowly<R: Wait>(rt: &R, lock: &Shared<SlowSum>, pass: &mut Pass<SlowSum>)
    requires { lock_of pass.old ≡ id_of lock.now }
    ensures lock { lock_of pass.new ≡ id_of lock.now }
    ensures numbers { (k : ℕ) → held k (shares pass.new) ≡ held k (shares pass.old) }
{
    for _ in 0..20_u64 {
        lock.apply(rt, pass, 1);
    }
}

// Each thread sleeps while the other takes its turn, and is woken.
fn add_both<R: Threads + Wait + Sync>(
    rt: &R,
    lock: &Shared<SlowSum>,
    left: &mut Pass<SlowSum>,
    right: &mut Pass<SlowSum>,
)
    requires left { lock_of left.old ≡ id_of lock.now }
    requires right { lock_of right.old ≡ id_of lock.now }
    ensures left_lock { lock_of left.new ≡ id_of lock.now }
    ensures left_numbers { (k : ℕ) → held k (shares left.new) ≡ held k (shares left.old) }
    ensures right_lock { lock_of right.new ≡ id_of lock.now }
    ensures right_numbers { (k : ℕ) → held k (shares right.new) ≡ held k (shares right.old) }
{
    join_mut(
        rt,
        &mut ||
            requires sync { IsSync R.row }
            requires left { lock_of left.now ≡ id_of lock.now }
            ensures lock { lock_of left.exit.now ≡ id_of lock.entry.now }
            ensures numbers { (k : ℕ) → held k (shares left.exit.now) ≡ held k (shares left.entry.now) }
        { add_slowly(rt, lock, left) },
        &mut ||
            requires sync { IsSync R.row }
            requires right { lock_of right.now ≡ id_of lock.now }
            ensures lock { lock_of right.exit.now ≡ id_of lock.entry.now }
            ensures numbers { (k : ℕ) → held k (shares right.exit.now) ≡ held k (shares right.entry.now) }
        { add_slowly(rt, lock, right) },
    );
}

// Of three threads one takes its turn, one comes next, and the last sleeps while both take theirs.
fn add_three<R: Threads + Wait + Sync>(
    rt: &R,
    lock: &Shared<SlowSum>,
    one: &mut Pass<SlowSum>,
    two: &mut Pass<SlowSum>,
    three: &mut Pass<SlowSum>,
)
    requires one { lock_of one.old ≡ id_of lock.now }
    requires two { lock_of two.old ≡ id_of lock.now }
    requires three { lock_of three.old ≡ id_of lock.now }
    ensures one_lock { lock_of one.new ≡ id_of lock.now }
    ensures one_numbers { (k : ℕ) → held k (shares one.new) ≡ held k (shares one.old) }
    ensures two_lock { lock_of two.new ≡ id_of lock.now }
    ensures two_numbers { (k : ℕ) → held k (shares two.new) ≡ held k (shares two.old) }
    ensures three_lock { lock_of three.new ≡ id_of lock.now }
    ensures three_numbers { (k : ℕ) → held k (shares three.new) ≡ held k (shares three.old) }
{
    join_mut(
        rt,
        &mut ||
            requires sync { IsSync R.row }
            requires one { lock_of one.now ≡ id_of lock.now }
            ensures lock { lock_of one.exit.now ≡ id_of lock.entry.now }
            ensures numbers { (k : ℕ) → held k (shares one.exit.now) ≡ held k (shares one.entry.now) }
        { add_slowly(rt, lock, one) },
        &mut ||
            requires sync { IsSync R.row }
            requires two { lock_of two.now ≡ id_of lock.now }
            requires three { lock_of three.now ≡ id_of lock.now }
            ensures two_lock { lock_of two.exit.now ≡ id_of lock.entry.now }
            ensures two_numbers { (k : ℕ) → held k (shares two.exit.now) ≡ held k (shares two.entry.now) }
            ensures three_lock { lock_of three.exit.now ≡ id_of lock.entry.now }
            ensures three_numbers { (k : ℕ) → held k (shares three.exit.now) ≡ held k (shares three.entry.now) }
        { add_both(rt, lock, two, three) },
    );
}

fn add_three_and_close<R: Threads + Wait + Sync>(
    rt: &R,
    lock: Shared<SlowSum>,
    mut one: Pass<SlowSum>,
    mut two: Pass<SlowSum>,
    mut three: Pass<SlowSum>,
) -> SlowSum
    requires count { passes_of lock ≡ 3 }
    requires one { IsFresh (id_of lock) 0 one }
    requires two { IsFresh (id_of lock) 1 two }
    requires three { IsFresh (id_of lock) 2 three }
{
    add_three(rt, &lock, &mut one, &mut two, &mut three);
    lock.join(&mut one, two);
    lock.join(&mut one, three);
    let (slow, _past) = lock.close(one);
    slow
}

#[test]
fn a_thread_that_sleeps_is_woken_for_its_turn(rt: HostRuntime) -> Result<(), Fail> {
    let Ok((lock, mut passes)) = Shared::open(rt.alloc(), SlowSum { sum: 0 }, 3) else {
        panic!(rt; "no memory")
    };
    let Some(one) = passes.take() else {
        panic!(rt; "no pass")
    };
    let Some(two) = passes.take() else {
        panic!(rt; "no second pass")
    };
    let Some(three) = passes.take() else {
        panic!(rt; "no third pass")
    };
    passes.end();
    let slow = add_three_and_close(&rt, lock, one, two, three);
    assert!(rt; slow.sum == 60);
    Ok(())
}
