//! One turn in a history, for contracts alone.
ghost use Rattle.std.specs.Prelude.{◌≡◌};

use crate::{Brought, Outcome};
use doip_segment::Message;
use journal_core::Moment;
use std::marker::Model;
use std::snapshot::Snapshot;

/// One turn: who asked, the message, how it ended, the moment of the disk's clock, and what the turn brought.
#[derive(Drop)]
pub struct Entry {
    lane: u32,
    session: u64,
    message: Snapshot<Message>,
    outcome: Outcome,
    moment: Moment,
    brought: Brought,
}

impl Model for Entry {
    ghost use Rattle.repo_step.specs.History.{Entry};

    ghost Value = { Entry };

    ghost view = { λ e. record {
      lane = e.lane;
      session = e.session;
      message = e.message.value.segments;
      outcome = e.outcome;
      moment = e.moment.number;
      brought = e.brought;
    } };
}

impl Entry {
    /// The entry of a turn. It keeps no bytes of the message.
    pub fn new(
        lane: u32,
        session: u64,
        message: &Message,
        outcome: Outcome,
        moment: Moment,
        brought: Brought,
    ) -> Entry
        ensures { result ≡ record {
          lane = lane;
          session = session;
          message = message.now.segments;
          outcome = outcome;
          moment = moment.number;
          brought = brought;
        } }
    {
        Entry {
            lane,
            session,
            message: Snapshot::of(message),
            outcome,
            moment,
            brought,
        }
    }
}
