//! The passes of a lock, and what is left of them at its end.
ghost use Rattle.std.specs.Prelude.{◌≡◌, ℕ, ◌+◌, ◌<◌, ◌≤◌, [], ◌∷◌, vec_len, slice_get, Some};
ghost use Rattle.history_lock.specs.History.{FirstIs, HoldsOwn, share_of};
ghost use Rattle.history_lock.specs.Rule.{number_word};
ghost use Rattle.history_lock.specs.Told.{IsResting};

use crate::board::PassSeat;
use crate::turned::Turned;
use std::snapshot::Snapshot;

/// The right to take turns. Contracts see whose pass it is (`lock_of`), the history that it has `seen`, and its
/// `shares`: the numbers that it holds, its own first, each with the entries of the turns that were taken under it.
/// These are the entries of that number in what the pass has seen (`holds_own`).
pub struct Pass<T: Turned> {
    pub(crate) seat: PassSeat<T>,
    pub(crate) number: usize,
    pub ghost holds_own: { HoldsOwn seat.me.0.seen seat.me.0.shares },
    pub ghost first_is_own: { FirstIs number seat.me.0.shares },
    ghost bare: { seat.me.1 ≡ [] },
    ghost rests: { IsResting seat.me.0 },
    ghost few: { number < 64 },
    ghost inside: { number_word number < seat.table_id.words },
}

/// The passes of a lock that nobody has taken yet. The last in the list has the lowest number.
pub struct Passes<T: Turned> {
    pub(crate) source: PassSeat<T>,
    pub(crate) waiting: Vec<Pass<T>>,
    pub(crate) all: usize,
    ghost room: { vec_len waiting ≤ all },
    ghost dealt: { (k : ℕ) (p : _) → slice_get waiting.items k ≡ Some p
        → (p.seat.table_id ≡ source.table_id) × (p.seat.me.0.first ≡ source.me.0.first) × (p.seat.me.0.seen ≡ [])
        × (p.seat.me.0.shares ≡ share_of p.number [] ∷ []) × (p.number + (k + 1) ≡ all) },
}

/// What a lock leaves. It has no bytes: contracts see its one history, `past`, and the `past_shares` of its numbers.
pub struct Record<T: Turned> {
    pub(crate) last: Snapshot<PassSeat<T>>,
}

impl<T: Turned> Drop for Record<T> {
    fn drop(self) {
        let Self { last } = self;
        drop(last);
    }
}
