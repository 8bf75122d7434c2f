//! The steps of a turn, over seats.
ghost use Rattle.std.specs.Prelude.{◌≡◌, ℕ, ◌+◌, ◌*◌, ◌%◌, ◌^◌, ◌<◌, false, [], ◌∷◌, length, Some};
ghost use Rattle.history_lock.specs.History.{FirstIs, Leads};
ghost use Rattle.history_lock.specs.Rule.{number_word};
ghost use Rattle.history_lock.specs.Told.{IsIdle, waiting, Arrives, IsServing, HasServed, Serves};

use crate::board::PassSeat;
use crate::lock::Shared;
use crate::plays::{Announce, Draw, Look, Publish};
use crate::turned::Turned;
use std::hint;
use std::sync::Wait;

// How far apart the words are: 128 bytes, since processors fetch cache lines of 64 bytes in pairs.
pub(crate) const STRIDE: usize = 16;

// The word that counts the tickets that were drawn.
const TICKET: usize = 0;

// The word that counts the turns that were taken.
pub(crate) const SERVING: usize = STRIDE;

pub(crate) fn draw<T: Turned>(lock: &Shared<T>, seat: &mut PassSeat<T>) -> u64
    requires table { seat.old.table_id ≡ lock.now.table.shared.table_id }
    requires idle { IsIdle seat.old.me }
    requires some { 0 < length seat.old.me.0.shares }
    ensures table { seat.new.table_id ≡ seat.old.table_id }
    ensures id { seat.new.id ≡ seat.old.id }
    ensures drawn { (t : ℕ) × (result ≡ t % 2 ^ 64) × (seat.new.me ≡ (waiting seat.old.me.0 t, [])) }
{
    lock.table.shared.fetch_add::<Draw>(seat, TICKET, 1)
}

// How often a thread that comes next looks before it sleeps, and how often it pauses between two looks. In all that is
// 20 to 200 microseconds, as processors differ, so a short turn is waited for awake.
const LOOKS: u32 = 500;

const PAUSES: u32 = 8;

// Looks for the end of a turn, and reports whether it came.
fn spin<T: Turned>(lock: &Shared<T>, serving: u64) -> bool {
    for _ in 0..LOOKS {
        if lock.table.shared.peek(SERVING) != serving {
            return true;
        }
        for _ in 0..PAUSES {
            hint::spin_loop();
        }
    }
    false
}

// Waits a while. A thread that comes next spins at first, and the others sleep until their turn has come.
fn hold_on<T: Turned, R: Wait>(rt: &R, lock: &Shared<T>, ticket: u64, serving: u64) {
    if ticket.wrapping_sub(serving) == 1 && spin(lock, serving) {
        return;
    }
    // A turn ends by a change of the word and then a wake. The look comes after the sleep is announced, so no wake is
    // lost.
    let place = lock.places.at(ticket);
    let key = place.prepare_wait();
    if lock.table.shared.peek(SERVING) == serving {
        key.wait(rt);
    }
}

pub(crate) fn wait_turn<T: Turned, R: Wait>(
    rt: &R,
    lock: &Shared<T>,
    seat: &mut PassSeat<T>,
    ticket: u64,
)
    requires table { seat.old.table_id ≡ lock.now.table.shared.table_id }
    requires first { seat.old.me.0.first ≡ Some lock.now.table.shared.key.first.value }
    requires waits { (t : ℕ) × (ticket ≡ t % 2 ^ 64) × (seat.old.me.0.tickets ≡ t ∷ []) }
    requires not_come { seat.old.me.0.come ≡ false }
    requires no_slot { seat.old.me.1 ≡ [] }
    ensures table { seat.new.table_id ≡ seat.old.table_id }
    ensures id { seat.new.id ≡ seat.old.id }
    ensures come { Arrives (Leads T.step) lock.now.table.shared.key.first.value seat.old.me seat.new.me }
{
    for _ in rt.forever() {
        let serving = lock.table.shared.load::<Look<T>>(seat, SERVING);
        if serving == ticket {
            return;
        }
        hold_on(rt, lock, ticket, serving);
    }
    unreachable!()
}

// The value takes the call in its slot, which the seat holds.
fn serve<T: Turned>(lock: &Shared<T>, seat: &mut PassSeat<T>, call: T::Call) -> T::Reply
    requires table { seat.old.table_id ≡ lock.now.table.shared.table_id }
    requires serving { IsServing (Leads T.step) lock.now.table.shared.key.first.value seat.old.me }
    requires call { T.may_take call }
    ensures table { seat.new.table_id ≡ seat.old.table_id }
    ensures id { seat.new.id ≡ seat.old.id }
    ensures served { HasServed T.step lock.now.table.shared.key.first.value seat.old.me call result seat.new.me }
{
    let slot = seat.slot_mut(&lock.table.shared, 0);
    slot.turn(call)
}

pub(crate) fn take_turn<T: Turned>(
    lock: &Shared<T>,
    seat: &mut PassSeat<T>,
    number: usize,
    call: T::Call,
) -> T::Reply
    requires table { seat.old.table_id ≡ lock.now.table.shared.table_id }
    requires few { number < 64 }
    requires inside { number_word number < seat.old.table_id.words }
    requires number { FirstIs number seat.old.me.0.shares }
    requires serving { IsServing (Leads T.step) lock.now.table.shared.key.first.value seat.old.me }
    requires call { T.may_take call }
    ensures table { seat.new.table_id ≡ seat.old.table_id }
    ensures id { seat.new.id ≡ seat.old.id }
    ensures turn { Serves T.step lock.now.table.shared.key.first.value seat.old.me call result seat.new.me }
{
    let answer = serve(lock, seat, call);
    let table = &lock.table.shared;
    table.fetch_add::<Announce>(seat, (number + 2) * STRIDE, 1);
    // The value goes home in the step by which the entry joins the history.
    table.fetch_add::<Publish>(seat, SERVING, 1);
    answer
}
