//! A lane: one session after another, on the links that a door gives.
ghost use Rattle.std.specs.Prelude.{◌≡◌, ◌<◌, ◌≤◌, ◌∷◌, ◌++◌, [], vec_len, vec_capacity, IfOk, IfErr, OnOk};
ghost use Rattle.history_lock.specs.History.{own_of};
ghost use Rattle.history_lock.specs.Passes.{IsFresh, id_of, first_of, lock_of, seen, shares, number};
ghost use Rattle.lane_server.specs.Admitting.{failures};
ghost use Rattle.lane_server.specs.Closing.{ServedAndClosed};
ghost use Rattle.lane_server.specs.Growing.{Grew, pairs_by};
ghost use Rattle.lane_server.specs.Lanes.{EndsLane, LaneState, terms};
ghost use Rattle.lane_server.specs.Turns.{start_of};

use crate::session::{Buffers, serve_session};
use crate::{Door, LaneEnd, ServedSession};
use base_core::Failed;
use disk_core::Disk;
use doip_segment::Limits;
use history_lock::{Pass, Shared};
use link_core::{Clock, Link, Listener};
use repo_store::{Planner, Store};
use std::alloc::{AllocError, Global};
use std::snapshot::Snapshot;
use std::sync::Wait;

// Serves one link from its start, and closes it.
fn serve_link<D: Disk, C: Clock, P: Planner, L: Link, R: Wait>(
    rt: &R,
    lane: u32,
    session: u64,
    store: &Shared<Store<D, C, P>>,
    pass: &mut Pass<Store<D, C, P>>,
    buffers: Buffers,
    link: L,
) -> (Buffers, ServedSession<L>)
    requires lock { lock_of pass.old ≡ id_of store.now }
    requires lane { number pass.old ≡ lane }
    ensures grew { Grew lane session pass.old pass.new }
    ensures named { (result.1.lane ≡ lane) × (result.1.session ≡ session) }
    ensures begun { result.1.begun.value ≡ link }
    ensures session { ServedAndClosed buffers.decoder.limits
        (pairs_by (start_of C.given P.setting (first_of store.now)) lane session (seen pass.old))
        (pairs_by (start_of C.given P.setting (first_of store.now)) lane session (seen pass.new))
        (L.state link) (L.state result.1.link) result.1.end }
    ensures limits { result.0.decoder.limits ≡ buffers.decoder.limits }
{
    let mut link = link;
    let begun = Snapshot::of(&link);
    let (buffers, end) = serve_session(rt, lane, session, store, pass, buffers, &mut link);
    let served = ServedSession {
        lane,
        session,
        link,
        end,
        begun,
    };
    (buffers, served)
}

// There is room for it.
fn add<L: Drop>(sessions: &mut Vec<ServedSession<L>>, one: ServedSession<L>)
    requires { vec_len sessions.old < vec_capacity sessions.old }
    ensures { sessions.new.items ≡ sessions.old.items ++ one ∷ [] }
{
    if sessions.push(one).is_err() {
        unreachable!()
    }
}

// Accepts a link and serves it, with room for one more session first. It gives the buffers back for the next link, or says
// how the lane ended.
fn serve_next<D: Disk, C: Clock, P: Planner, Li: Listener, R: Wait>(
    rt: &R,
    lane: u32,
    door: &Shared<Door<Li>>,
    taker: &mut Pass<Door<Li>>,
    store: &Shared<Store<D, C, P>>,
    pass: &mut Pass<Store<D, C, P>>,
    sessions: &mut Vec<ServedSession<Li::Link>>,
    buffers: Buffers,
) -> Result<Buffers, LaneEnd>
where
    Li::Link: Drop,
    requires lane { LaneState Li.Link.state
        (terms buffers.decoder.limits (start_of C.given P.setting (first_of store.now))) lane (id_of store.now)
        (id_of door.now) pass.old taker.old sessions.old.items }
    requires faultless { failures (own_of (shares taker.old)) ≡ 0 }
    ensures lane { LaneState Li.Link.state
        (terms buffers.decoder.limits (start_of C.given P.setting (first_of store.now))) lane (id_of store.now)
        (id_of door.now) pass.new taker.new sessions.new.items }
    ensures limits { IfOk result (λ again. again.decoder.limits ≡ buffers.decoder.limits) }
    ensures faultless { OnOk result (failures (own_of (shares taker.new)) ≡ 0) }
    ensures end { IfErr result (λ end. EndsLane end (own_of (shares taker.new))) }
{
    if let Err(AllocError) = sessions.reserve(1) {
        return Err(LaneEnd::Starved);
    }
    let link = match door.apply(rt, taker, ()) {
        Ok(Some(link)) => link,
        Ok(None) => return Err(LaneEnd::Ended),
        Err(Failed) => return Err(LaneEnd::Faulted),
    };
    let session = sessions.len() as u64;
    let (buffers, one) = serve_link(rt, lane, session, store, pass, buffers, link);
    add(sessions, one);
    Ok(buffers)
}

/// Serves the links that the door gives, one session at a time, until it gives none, accepting fails, or memory does. The
/// lane takes its buffers first, and the room for one more session before each accept. A fault of a link ends that
/// session alone.
///
/// Both passes are fresh and have the lane's number, and no session was served yet.
pub fn serve_lane<D: Disk, C: Clock, P: Planner, Li: Listener, R: Wait>(
    rt: &R,
    alloc: Global,
    limits: Limits,
    lane: u32,
    door: &Shared<Door<Li>>,
    taker: &mut Pass<Door<Li>>,
    store: &Shared<Store<D, C, P>>,
    pass: &mut Pass<Store<D, C, P>>,
    sessions: &mut Vec<ServedSession<Li::Link>>,
) -> LaneEnd
where
    Li::Link: Drop,
    requires json { 1 ≤ limits.json }
    requires order { limits.json ≤ limits.total }
    requires total { limits.total ≤ 67108864 }
    requires taker { IsFresh (id_of door.now) lane taker.old }
    requires pass { IsFresh (id_of store.now) lane pass.old }
    requires none { sessions.old.items ≡ [] }

    // Its sessions are those of the links that it accepted, and all of its turns of the store are theirs.
    ensures lane { LaneState Li.Link.state (terms limits (start_of C.given P.setting (first_of store.now))) lane
        (id_of store.now) (id_of door.now) pass.new taker.new sessions.new.items }
    ensures end { EndsLane result (own_of (shares taker.new)) }
{
    let Ok(mut buffers) = Buffers::new(alloc, limits) else {
        return LaneEnd::Starved;
    };
    for _ in rt.forever() {
        match serve_next(rt, lane, door, taker, store, pass, sessions, buffers) {
            Ok(again) => buffers = again,
            Err(end) => return end,
        }
    }
    unreachable!()
}
