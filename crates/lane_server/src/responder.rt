//! What replies to the messages of a lane's session: a turn of the store for each.
ghost use Rattle.std.specs.Prelude.{◌≡◌, ℕ, List, unwrap_or, option_map};
ghost use Rattle.doip_message.specs.Reply.{reply_text};
ghost use Rattle.session_core.specs.Texts.{reply_bytes};
ghost use Rattle.repo_step.specs.History.{fixed_reply};

use crate::turns_of_a_lock_are_turns;
use disk_core::Disk;
use doip_segment::Decoder;
use history_lock::{Pass, Shared, Turned, own_turns_are_next_to_each_other};
use link_core::Clock;
use repo_step::{Entry, Outcome, fixed_text};
use repo_store::{Planner, Store, Told, Work, runs_are_histories};
use session_core::{Reply, Responder};
use std::snapshot::Snapshot;
use std::sync::Wait;

/// A lane's pass of the store's lock, as it is and as it was when its session began.
#[derive(Drop)]
pub(crate) struct LaneResponder<'a, T: Turned, R: Wait> {
    pub(crate) rt: &'a R,
    pub(crate) store: &'a Shared<T>,
    pub(crate) pass: &'a mut Pass<T>,
    pub(crate) begun: &'a Snapshot<Pass<T>>,
    pub(crate) lane: u32,
    pub(crate) session: u64,
}

// Where the text of an outcome's reply is: in the buffer, or the constant that the outcome fixes.
fn reply_of(outcome: Outcome) -> Reply
    ensures { (made : List ℕ) → reply_bytes made result ≡ unwrap_or (option_map reply_text (fixed_reply outcome)) made }
{
    match fixed_text(outcome) {
        Some(text) => Reply::Constant(text),
        None => Reply::Made,
    }
}

impl<'a, D: Disk, C: Clock, P: Planner, R: Wait> Responder
    for LaneResponder<'a, Store<D, C, P>, R> {
    ghost use Rattle.std.specs.Prelude.{◌≡◌};
    ghost use Rattle.history_lock.specs.Passes.{id_of, first_of, lock_of, seen, shares, number};
    ghost use Rattle.lane_server.specs.Turns.{start_of};
    ghost use Rattle.lane_server.specs.Growing.{Grew, pairs_by};
    ghost use Rattle.lane_server.specs.Seat.{Seat};

    ghost Fixed = { Seat D C P D.Disk };

    ghost fixed = { λ r. record {
      lane = r.lane;
      session = r.session;
      lock = id_of r.store.now;
      first = first_of r.store.now;
      pass = r.pass.ghost_name;
      seen_first = seen r.begun.now.value;
      shares_first = shares r.begun.now.value;
      lock_first = lock_of r.begun.now.value;
    } };

    ghost ready = { λ r. (lock_of r.pass.now ≡ id_of r.store.now) × (number r.pass.now ≡ r.lane)
        × Grew r.lane r.session r.begun.now.value r.pass.now };

    ghost answered = { λ r. pairs_by (start_of C.given P.setting (first_of r.store.now)) r.lane r.session
        (seen r.pass.now) };

    fn respond(&mut self, decoder: Decoder, buffer: Vec<u8>) -> (Decoder, Vec<u8>, Reply) {
        runs_are_histories::<D>();
        turns_of_a_lock_are_turns::<D, C, P>();
        own_turns_are_next_to_each_other::<Entry>();
        let work = Work {
            lane: self.lane,
            session: self.session,
            decoder,
            buffer,
        };
        let told = self.store.apply(self.rt, self.pass, work);
        let Told {
            decoder,
            buffer,
            outcome,
            ..
        } = told;
        (decoder, buffer, reply_of(outcome))
    }
}
