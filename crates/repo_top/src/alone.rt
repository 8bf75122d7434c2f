//! A store that one session has to itself.
ghost use Rattle.std.specs.Prelude.{◌≡◌, ◌∷◌, ◌++◌, [], ℕ, List, unwrap_or, option_map};
ghost use Rattle.doip_message.specs.Reply.{reply_text};
ghost use Rattle.session_core.specs.Texts.{reply_bytes};
ghost use Rattle.repo_step.specs.History.{fixed_reply};
ghost use Rattle.repo_store.specs.Store.{entry_of};

use disk_core::Disk;
use doip_segment::{Decoder, Message};
use journal_core::Moment;
use link_core::Clock;
use repo_step::{Brought, Entry, Outcome, Past, fixed_text};
use repo_store::{Planner, Store, Told, Work, runs_are_histories};
use session_core::{Reply, Responder};
use std::snapshot::Snapshot;

/// A store, as it is and as it was at first, and the history of the one session that it replies to.
#[derive(Drop)]
pub(crate) struct Alone<D: Disk, C: Clock, P: Planner> {
    store: Store<D, C, P>,
    first: Snapshot<Store<D, C, P>>,
    lane: u32,
    session: u64,
    past: Past,
}

impl<D: Disk, C: Clock, P: Planner> Alone<D, C, P> {
    /// Before the session's first message.
    pub(crate) fn new(store: Store<D, C, P>, lane: u32, session: u64) -> Alone<D, C, P>
        ensures store { result.store ≡ store }
        ensures first { result.first.value ≡ store }
        ensures session { (result.lane ≡ lane) × (result.session ≡ session) }
        ensures past { result.past ≡ [] }
    {
        let first = Snapshot::of(&store);
        Alone {
            store,
            first,
            lane,
            session,
            past: Past::empty(),
        }
    }

    // Adds the turn that replied to this message to the history.
    fn record(&mut self, message: &Message, outcome: Outcome, moment: Moment, brought: Brought)
        ensures past { self.new.past ≡ self.old.past ++ entry_of self.old.lane self.old.session message.now.segments
            outcome moment.number brought ∷ [] }
        ensures store { self.new.store ≡ self.old.store }
        ensures first { self.new.first ≡ self.old.first }
        ensures session { (self.new.lane ≡ self.old.lane) × (self.new.session ≡ self.old.session) }
    {
        let entry = Entry::new(self.lane, self.session, message, outcome, moment, brought);
        self.past.add(entry);
    }

    /// The store, and the history of the session so far.
    pub(crate) fn into_parts(self) -> (Store<D, C, P>, Past)
        ensures store { result.0 ≡ self.store }
        ensures past { result.1 ≡ self.past }
    {
        let Alone { store, past, .. } = self;
        (store, past)
    }
}

// Where the text of an outcome's reply is: in the buffer, or the constant that the outcome fixes.
fn reply_of(outcome: Outcome) -> Reply
    ensures { (made : List ℕ) → reply_bytes made result ≡ unwrap_or (option_map reply_text (fixed_reply outcome)) made }
{
    match fixed_text(outcome) {
        Some(text) => Reply::Constant(text),
        None => Reply::Made,
    }
}

impl<D: Disk, C: Clock, P: Planner> Responder for Alone<D, C, P> {
    ghost use Rattle.repo_step.specs.History.{session_pairs};
    ghost use Rattle.repo_store.specs.Store.{planner_in, seen_of, state_in};
    ghost use Rattle.repo_top.specs.Session.{Seat, IsReady};

    ghost Fixed = { Seat D.Disk };

    ghost fixed = { λ r. record {
      setting = P.setting (planner_in r.store);
      first = seen_of C.given r.first.value;
      lane = r.lane;
      session = r.session;
    } };

    ghost ready = { λ r. IsReady (P.setting (planner_in r.store)) (seen_of C.given r.first.value) r.lane r.session r.past
        (seen_of C.given r.store) };

    ghost answered = { λ r. session_pairs (P.setting (planner_in r.store)) (state_in (seen_of C.given r.first.value))
        r.lane r.session r.past };

    fn respond(&mut self, decoder: Decoder, buffer: Vec<u8>) -> (Decoder, Vec<u8>, Reply) {
        runs_are_histories::<D>();
        let told = self.store.turn(Work {
            lane: self.lane,
            session: self.session,
            decoder,
            buffer,
        });
        let Told {
            decoder,
            buffer,
            outcome,
            moment,
            brought,
            ..
        } = told;
        self.record(decoder.message(), outcome, moment, brought);
        (decoder, buffer, reply_of(outcome))
    }
}
