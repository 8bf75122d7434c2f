//! The command `answer`.
ghost use Rattle.std.specs.Prelude.{◌≡◌, [], map, is_some, option_map, None};
ghost use Rattle.std.specs.Option.{ForSome};
ghost use Rattle.ext_ops.specs.Offered.{offered};
ghost use Rattle.doip_segment.specs.Decoding.{Took};
ghost use Rattle.repo_step.specs.History.{session_pairs};
ghost use Rattle.repo_store.specs.Law.{GivesTimes};
ghost use Rattle.repo_store.specs.Store.{clock_in, planner_in, seen_of, state_in};
ghost use Rattle.command_line.specs.Command.{answer_in};
ghost use Rattle.repo_top.specs.Answer.{IsServed, RanAnswer};
ghost use Rattle.repo_top.specs.Run.{exit, exit_of_session, exit_without_session, left, views};
ghost use Rattle.repo_top.specs.Session.{HasTimesOf, IsPast, LeavesStore};
ghost use Rattle.repo_top.specs.Start.{IsInBounds};

use crate::alone::Alone;
use crate::start::{NotStarted, Started, reason_of_host, start};
use crate::{NoSession, Note, Ran};
use command_line::AnswerArguments;
use disk_core::Disk;
use doip_segment::Decoder;
use ext_ops::Extensions;
use link_core::{Clock, Host, Link};
use repo_step::{Past, no_reply_is_a_fixed_text};
use repo_store::{Planner, Store, runs_are_histories, runs_leave_their_files};
use session_core::{Reader, SessionEnd, a_session_that_reports, serve};
use std::alloc::Global;
use std::snapshot::Snapshot;

/// The lane of the one session of `answer`, and its number in that lane.
const LANE: u32 = 0;

const SESSION: u64 = 0;

// A session that was served: its link and its end, what the store handed back, and the history.
#[derive(Drop)]
struct OneSession<L, D, C> {
    link: L,
    end: SessionEnd,
    disk: Option<D>,
    clock: C,
    closed: Option<u64>,
    past: Past,
}

// Serves the link to the end of its session.
fn serve_link<L: Link, D: Disk, C: Clock, P: Planner + Drop>(
    alloc: Global,
    reader: Reader,
    decoder: Decoder,
    store: Store<D, C, P>,
    link: L,
) -> OneSession<L, D, C>
    requires held { reader ≡ [] }
    requires took { Took decoder [] }
    requires place { decoder.taken ≡ 0 }
    requires not_closed { (seen_of C.given store).closed ≡ None }
    ensures left { LeavesStore (P.setting (planner_in store)) (seen_of C.given store) result.past result.disk
        result.closed }
    ensures past { IsPast (P.setting (planner_in store)) (state_in (seen_of C.given store)) 0 0 result.past }
    ensures times { GivesTimes (C.given (clock_in store)) (C.given result.clock)
        (map (λ e. e.brought.time) result.past) }
    ensures served { IsServed decoder.limits (session_pairs (P.setting (planner_in store))
        (state_in (seen_of C.given store)) 0 0 result.past) (L.state link) (L.state result.link) result.end }
{
    a_session_that_reports();
    runs_are_histories::<D>();
    no_reply_is_a_fixed_text();
    let mut link = link;
    let mut reader = reader;
    let mut alone = Alone::new(store, LANE, SESSION);
    let (_, _, end) = serve(&mut link, &mut reader, decoder, Vec::new(alloc), &mut alone);
    let (store, past) = alone.into_parts();
    let closed = store.closed();
    let (disk, clock, _) = store.into_parts();
    OneSession {
        link,
        end,
        disk,
        clock,
        closed,
        past,
    }
}

// The status of a run whose session ended so, over a store that was closed at this count or is open, and what there is to
// note.
fn status_of(closed: Option<u64>, end: SessionEnd) -> (u8, Note)
    ensures { exit result.0 result.1 ≡ exit_of_session closed end }
{
    if let Some(count) = closed {
        return (6, Note::Disk { count });
    }
    match end {
        SessionEnd::Ended => (0, Note::Nothing),
        SessionEnd::Cut { .. } | SessionEnd::Framing { .. } => (0, Note::End(end)),
        SessionEnd::ReadFault | SessionEnd::WriteFault => (7, Note::End(end)),
    }
}

// The status of a run that has no session, and what there is to note.
fn status_without_session(reason: NoSession) -> (u8, Note)
    ensures { exit result.0 result.1 ≡ exit_without_session reason }
{
    match reason {
        NoSession::Host => (9, Note::Host),
        NoSession::File { path } => (10, Note::File { path }),
        NoSession::Disk { count } => (6, Note::Disk { count }),
        NoSession::Store(fault) => (3, Note::Store(fault)),
        NoSession::Memory => (4, Note::Memory),
    }
}

// A run that has no session, with its disk, if there is one.
fn without_session<H: Host>(
    reason: NoSession,
    opened: Option<Snapshot<H::Disk>>,
    disk: Option<H::Disk>,
) -> Ran<H>
where
    H::Disk: Drop,
    H::Link: Drop,
    H::Clock: Drop,
    ensures exit { exit result.status result.note ≡ exit_without_session reason }
    ensures opened { result.opened ≡ opened }
    ensures disk { result.disk ≡ disk }
    ensures begun { result.begun ≡ None }
    ensures link { result.link ≡ None }
    ensures end { result.end ≡ None }
    ensures clock { result.clock ≡ None }
    ensures past { result.past ≡ [] }
{
    let (status, note) = status_without_session(reason);
    Ran {
        status,
        note,
        opened,
        disk,
        begun: None,
        link: None,
        end: None,
        clock: None,
        past: Past::empty(),
    }
}

/// Runs `answer`: reads the accounts and opens the file of the store, if the arguments name them, and then replies to each
/// message on the host's console, in order.
pub(crate) fn run_answer<H: Host>(
    alloc: Global,
    arguments: &AnswerArguments<'_>,
    host: &mut H,
    extensions: Extensions,
) -> Ran<H>
where
    H::Disk: Drop,
    H::Link: Drop,
    H::Clock: Drop,
    requires { IsInBounds (answer_in arguments.now) }
    ensures run { RanAnswer (views H.Disk.Disk H.Link.state) (answer_in arguments.now)
        (offered extensions.operations extensions.hooks) (H.state host.old) (H.state host.new)
        (left (exit result.status result.note) (option_map (λ s. s.value) result.opened) result.disk
        (option_map (λ s. s.value) result.begun) result.link result.end result.past) }
    ensures times { ForSome result.clock (λ clock. HasTimesOf (H.Clock.given clock) result.past) }
    ensures clock { is_some result.clock ≡ is_some result.link }
{
    runs_leave_their_files::<H::Disk>();
    let Started {
        reader,
        decoder,
        store,
        opened,
    } = match start(alloc, arguments, host, extensions) {
        Ok(started) => started,
        Err(
            NotStarted {
                reason,
                opened,
                disk,
            },
        ) => return without_session(reason, opened, disk),
    };
    let link = match host.console() {
        Ok(link) => link,
        Err(fault) => {
            let (disk, _, _) = store.into_parts();
            return without_session(reason_of_host(fault), opened, disk);
        }
    };
    let begun = Snapshot::of(&link);
    let session = serve_link(alloc, reader, decoder, store, link);
    let (status, note) = status_of(session.closed, session.end);
    Ran {
        status,
        note,
        opened,
        disk: session.disk,
        begun: Some(begun),
        link: Some(session.link),
        end: Some(session.end),
        clock: Some(session.clock),
        past: session.past,
    }
}
