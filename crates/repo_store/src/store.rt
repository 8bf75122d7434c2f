//! The store, and its turns.
ghost use Rattle.std.specs.Prelude.{◌≡◌, ◌++◌, ◌^◌, ◌-◌, ◌≤◌, [], ℕ, List, Option, min, None, Some, IsSome, IfErr, OnOk, OnErr};
ghost use Rattle.base_core.specs.Causes.{Rose};
ghost use Rattle.doip_message.specs.Reply.{reply_text};
ghost use Rattle.doip_segment.specs.Decoding.{IsStanding};
ghost use Rattle.journal_core.specs.declared.records.Record.{Record};
ghost use Rattle.link_core.specs.Listener.{GivesTime};
ghost use Rattle.repo_step.specs.Drafts.{AreShort};
ghost use Rattle.repo_step.specs.Laws.{CanFollow};
ghost use Rattle.repo_step.specs.Setting.{state};
ghost use Rattle.repo_step.specs.Step.{after_change, step};
ghost use Rattle.repo_store.specs.declared.store.Failure.TheVariants.{Memory, Disk};
ghost use Rattle.repo_store.specs.Saved.{room_in, disk_in, moment_in, faults_in, Reports, KeepsRecords, LeavesBetween};
ghost use Rattle.repo_store.specs.Stands.{StandsEither};
ghost use Rattle.repo_store.specs.Store.{IsTurnOf, KeepsContents, Turns, clock_in, entry_of, place_of, planner_in, record_of, seen, seen_of, text_with};

use crate::Planner;
use crate::numbered::NumberedTable;
use crate::saving::{moment_of, room_of, save};
use crate::work::{ReplyText, Told, Work};
use disk_core::Disk;
use doip_segment::Message;
use history_lock::Turned;
use journal_core::{Journal, Room, Stamp};
use link_core::Clock;
use record_core::{Change, body_of};
use repo_state::{Table, records_decide_changes};
use repo_step::{Brought, Entry, Outcome, steps_keep_consistency};
use std::alloc::{AllocError, Global};

/// The repository, with a disk or without. Without one it lasts as long as this value, and has no limit of an area.
#[derive(Drop)]
pub struct Store<D: Disk, C: Clock, P: Planner> {
    pub(crate) alloc: Global,
    pub(crate) planner: P,
    pub(crate) table: NumberedTable,
    pub(crate) journal: Option<Journal<D>>,
    pub(crate) clock: C,
    pub(crate) closed: Option<u64>,
}

/// Why a turn isn't done.
pub(crate) enum Failure {
    /// Out of memory, before the change was committed.
    Memory,
    /// The disk failed as the change was committed. Its count of faults by then.
    Disk { count: u64 },
}

impl From<AllocError> for Failure {
    ghost from_gives = { λ _ failure. failure ≡ Memory };

    fn from(_: AllocError) -> Failure {
        Failure::Memory
    }
}

// Makes the reply and the change, commits the change, and installs it. All memory is taken before the commit. If it
// fails, the contents stay, and the buffer may end with a part of the text.
fn try_turn<D: Disk, P: Planner>(
    alloc: Global,
    table: &mut NumberedTable,
    journal: &mut Option<Journal<D>>,
    planner: &P,
    brought: Brought,
    message: &Message,
    out: &mut Vec<u8>,
) -> Result<(), Failure>
    requires short { AreShort message.now.segments }
    ensures reply { OnOk result (out.new.items ≡ out.old.items ++ reply_text
        (step (P.setting planner.now) brought (state table.old.contents (room_in journal.old))
        message.now.segments).reply) }
    ensures change { OnOk result (state table.new.contents (room_in journal.new) ≡ after_change brought
        (step (P.setting planner.now) brought (state table.old.contents (room_in journal.old))
        message.now.segments).change
        (state table.old.contents (room_in journal.old))) }
    ensures stays { OnErr result (state table.new.contents (room_in journal.new)
        ≡ state table.old.contents (room_in journal.old)) }
    ensures clock { moment_in journal.old ≤ moment_in journal.new }
    ensures count { faults_in journal.old ≤ faults_in journal.new }
    ensures reported { Reports journal.new → Reports journal.old }
    ensures memory { IfErr result (λ failure. failure ≡ Memory → journal.new ≡ journal.old) }
    ensures disk { IfErr result (λ failure. (count : ℕ) → failure ≡ Disk count → IsSome journal.old
        × (count ≡ min (faults_in journal.new) (2 ^ 64 - 1)) × Rose (faults_in journal.old) (faults_in journal.new)
        × IsSome (step (P.setting planner.now) brought (state table.old.contents (room_in journal.old))
        message.now.segments).change) }
    ensures crash { Reports journal.new → KeepsContents journal.old table.old.contents
        → LeavesBetween journal.old journal.new (StandsEither table.old.contents (after_change brought
        (step (P.setting planner.now) brought (state table.old.contents (room_in journal.old))
        message.now.segments).change
        (state table.old.contents (room_in journal.old))).contents) }
    ensures unchanged { (step (P.setting planner.now) brought (state table.old.contents (room_in journal.old))
        message.now.segments).change ≡ None → journal.new ≡ journal.old }
    ensures saved { OnOk result ((kept : List Record) → KeepsRecords journal.old kept
        → KeepsRecords journal.new (kept ++ record_of brought (state table.old.contents (room_in journal.old))
        (step (P.setting planner.now) brought (state table.old.contents (room_in journal.old))
        message.now.segments).change)) }
    ensures keeps { OnOk result (KeepsContents journal.old table.old.contents
        → KeepsContents journal.new table.new.contents) }
{
    let room = room_of(journal);
    let planned = planner.plan(alloc, table.table(), brought, room, message)?;
    planned.append(alloc, out)?;
    let Some(change) = planned.into_change() else {
        return Ok(());
    };
    steps_keep_consistency();
    commit_change(alloc, table, journal, brought, change)
}

// Commits a change that can be made, and installs it. All memory is taken before the commit.
fn commit_change<D: Disk>(
    alloc: Global,
    table: &mut NumberedTable,
    journal: &mut Option<Journal<D>>,
    brought: Brought,
    change: Change,
) -> Result<(), Failure>
    requires follows { CanFollow brought (state table.old.contents (room_in journal.old)) change }
    ensures change { OnOk result (state table.new.contents (room_in journal.new)
        ≡ after_change brought (Some change) (state table.old.contents (room_in journal.old))) }
    ensures stays { OnErr result (state table.new.contents (room_in journal.new)
        ≡ state table.old.contents (room_in journal.old)) }
    ensures clock { moment_in journal.old ≤ moment_in journal.new }
    ensures count { faults_in journal.old ≤ faults_in journal.new }
    ensures reported { Reports journal.new → Reports journal.old }
    ensures memory { IfErr result (λ failure. failure ≡ Memory → journal.new ≡ journal.old) }
    ensures disk { IfErr result (λ failure. (count : ℕ) → failure ≡ Disk count → IsSome journal.old
        × (count ≡ min (faults_in journal.new) (2 ^ 64 - 1)) × Rose (faults_in journal.old) (faults_in journal.new)) }
    ensures crash { Reports journal.new → KeepsContents journal.old table.old.contents
        → LeavesBetween journal.old journal.new (StandsEither table.old.contents
        (after_change brought (Some change) (state table.old.contents (room_in journal.old))).contents) }
    ensures saved { OnOk result ((kept : List Record) → KeepsRecords journal.old kept
        → KeepsRecords journal.new
        (kept ++ record_of brought (state table.old.contents (room_in journal.old)) (Some change))) }
    ensures keeps { OnOk result (KeepsContents journal.old table.old.contents
        → KeepsContents journal.new table.new.contents) }
{
    records_decide_changes();
    let stamp = Stamp {
        number: table.number() + 1,
        time: brought.time,
    };
    let body = body_of(alloc, &change)?;
    table.reserve(&change)?;
    match save(journal, stamp, body.get()) {
        Ok(()) => {
            table.install(stamp, change);
            Ok(())
        }
        Err(count) => Err(Failure::Disk { count }),
    }
}

// Where the text of an outcome's reply is.
fn text_of(outcome: Outcome) -> ReplyText
    ensures { result ≡ place_of outcome }
{
    match outcome {
        Outcome::Done => ReplyText::Made,
        _ => ReplyText::Constant,
    }
}

impl<D: Disk, C: Clock, P: Planner> Store<D, C, P> {
    /// Takes one turn: replies to the message that is waiting in the decoder, and makes its change durable. The reply
    /// and the change are made, room is reserved, the change is committed, and then it is installed.
    ///
    /// | outcome | when |
    /// |---|---|
    /// | `Done` | the reply is that of the step, and a change is durable |
    /// | `NoMemory` | out of memory, before the commit |
    /// | `DiskFault` | the disk failed in this turn, as a change was committed; the store is closed from now on |
    /// | `Closed` | exactly if the store was closed before; it takes no memory |
    ///
    /// Every outcome but `Done` leaves the contents and the used bytes, and has its own constant as the reply.
    pub fn turn(&mut self, work: Work) -> Told
        requires waiting { IsStanding work.decoder }
        ensures turn { Turns (P.setting (planner_in self.old)) (seen_of C.given self.old)
            (entry_of work.lane work.session work.decoder.segments result.outcome result.moment.number result.brought)
            (text_with result.outcome result.buffer.items) (seen_of C.given self.new) }
        ensures text { result.text ≡ place_of result.outcome }
        ensures decoder { result.decoder ≡ work.decoder }
        ensures planner { planner_in self.new ≡ planner_in self.old }
    {
        let Work {
            lane: _,
            session: _,
            decoder,
            buffer,
        } = work;
        let mut buffer = buffer;
        buffer.clear();
        let brought = Brought {
            time: self.clock.now(),
        };
        let outcome = self.attempt(brought, decoder.message(), &mut buffer);
        Told {
            decoder,
            buffer,
            text: text_of(outcome),
            outcome,
            moment: moment_of(&self.journal),
            brought,
        }
    }

    /// What the store holds.
    pub fn table(&self) -> &Table
        ensures { result.now ≡ self.now.table }
    {
        self.table.table()
    }

    /// How much of the area is used; `None` without a disk.
    pub fn room(&self) -> Option<Room>
        ensures { result ≡ room_in (seen_of C.given self.now).journal }
    {
        room_of(&self.journal)
    }

    /// How often the disk had failed when the store was closed; `None` if it isn't closed.
    pub fn closed(&self) -> Option<u64>
        ensures { result ≡ (seen_of C.given self.now).closed }
    {
        self.closed
    }

    /// The disk, if there is one, the clock, and the planner.
    pub fn into_parts(self) -> (Option<D>, C, P)
        ensures disk { result.0 ≡ disk_in (seen_of C.given self).journal }
        ensures clock { result.1 ≡ clock_in self }
        ensures planner { result.2 ≡ planner_in self }
    {
        let Store {
            journal,
            clock,
            planner,
            ..
        } = self;
        let disk = match journal {
            Some(journal) => Some(journal.into_disk()),
            None => None,
        };
        (disk, clock, planner)
    }

    // Takes the turn of a message, at a time that the clock gave. The buffer is empty.
    fn attempt(&mut self, brought: Brought, message: &Message, out: &mut Vec<u8>) -> Outcome
        requires short { AreShort message.now.segments }
        requires empty { out.old.items ≡ [] }
        ensures turn { (lane session : ℕ) (given : Option (List ℕ))
            → GivesTime given (C.given self.new.clock) brought.time → Turns (P.setting self.old.planner)
            (seen self.old.journal self.old.table.contents self.old.closed given)
            (entry_of lane session message.now.segments result (moment_in self.new.journal) brought)
            (text_with result out.new.items)
            (seen self.new.journal self.new.table.contents self.new.closed (C.given self.new.clock)) }
        ensures planner { self.new.planner ≡ self.old.planner }
        ensures clock { self.new.clock ≡ self.old.clock }
    {
        if self.closed.is_some() {
            return Outcome::Closed;
        }
        let made = try_turn(
            self.alloc,
            &mut self.table,
            &mut self.journal,
            &self.planner,
            brought,
            message,
            out,
        );
        let Err(failure) = made else {
            return Outcome::Done;
        };
        match failure {
            Failure::Memory => Outcome::NoMemory,
            Failure::Disk { count } => {
                self.closed = Some(count);
                Outcome::DiskFault
            }
        }
    }
}

impl<D: Disk, C: Clock, P: Planner> Turned for Store<D, C, P> {
    type Call = Work;

    type Reply = Told;

    type Entry = Entry;

    ghost may_take = { λ work. IsStanding work.decoder };

    ghost step = { λ old work entry told new. IsTurnOf (P.setting (planner_in old)) (P.setting (planner_in new))
        (seen_of C.given old) (seen_of C.given new) work entry told };

    fn turn(&mut self, work: Work) -> Told {
        Store::turn(self, work)
    }
}
