//! One session of a lane.
ghost use Rattle.std.specs.Prelude.{◌≡◌, ◌≤◌, [], IfOk};
ghost use Rattle.doip_segment.specs.Decoding.{Took};
ghost use Rattle.history_lock.specs.Passes.{id_of, first_of, lock_of, seen, number};
ghost use Rattle.session_core.specs.Session.{Served};
ghost use Rattle.lane_server.specs.Turns.{start_of};
ghost use Rattle.lane_server.specs.Closing.{ServedAndClosed};
ghost use Rattle.lane_server.specs.Growing.{Grew, pairs_by};

use crate::responder::LaneResponder;
use disk_core::Disk;
use doip_segment::{Decoder, Limits};
use history_lock::{Pass, Shared};
use link_core::{Clock, Link};
use repo_store::{Planner, Store};
use session_core::{Reader, SessionEnd, serve};
use std::alloc::{AllocError, Global};
use std::snapshot::Snapshot;
use std::sync::Wait;

/// What a lane reads with and replies from. It serves one session after another.
#[derive(Drop)]
pub struct Buffers {
    /// The bytes that were read and not yet decoded.
    pub reader: Reader,
    /// The decoder.
    pub decoder: Decoder,
    /// The text of a reply.
    pub text: Vec<u8>,
}

impl Buffers {
    /// Takes all memory that reading and decoding will ever need. The text of replies grows with them.
    pub fn new(alloc: Global, limits: Limits) -> Result<Buffers, AllocError>
        requires json { 1 ≤ limits.json }
        requires order { limits.json ≤ limits.total }
        requires total { limits.total ≤ 67108864 }
        ensures { IfOk result (λ buffers. buffers.decoder.limits ≡ limits) }
    {
        let reader = Reader::new(alloc)?;
        let decoder = Decoder::new(alloc, limits)?;
        Ok(Buffers {
            reader,
            decoder,
            text: Vec::new(alloc),
        })
    }
}

// Replies to the messages of a session. The responder is at its start, and keeps its pass.
fn reply_to_all<D: Disk, C: Clock, P: Planner, L: Link, R: Wait>(
    link: &mut L,
    reader: &mut Reader,
    decoder: Decoder,
    text: Vec<u8>,
    responder: &mut LaneResponder<'_, Store<D, C, P>, R>,
) -> (Decoder, Vec<u8>, SessionEnd)
    requires held { reader.old ≡ [] }
    requires took { Took decoder [] }
    requires place { decoder.taken ≡ 0 }
    requires lock { lock_of responder.old.pass.now ≡ id_of responder.old.store.now }
    requires lane { number responder.old.pass.now ≡ responder.old.lane }
    requires begun { responder.old.begun.now.value ≡ responder.old.pass.now }
    ensures same_reference { responder.new.pass.ghost_name ≡ responder.old.pass.ghost_name }
    ensures grew { Grew responder.old.lane responder.old.session responder.old.pass.now responder.new.pass.now }
    ensures session { Served decoder.limits
        (pairs_by (start_of C.given P.setting (first_of responder.old.store.now)) responder.old.lane
        responder.old.session (seen responder.old.pass.now))
        (pairs_by (start_of C.given P.setting (first_of responder.old.store.now)) responder.old.lane
        responder.old.session (seen responder.new.pass.now))
        (L.state link.old) (L.state link.new) result.2 }
    ensures limits { result.0.limits ≡ decoder.limits }
{
    serve(link, reader, decoder, text, responder)
}

// Serves one session, and leaves the link open.
fn serve_open<D: Disk, C: Clock, P: Planner, L: Link, R: Wait>(
    rt: &R,
    lane: u32,
    session: u64,
    store: &Shared<Store<D, C, P>>,
    pass: &mut Pass<Store<D, C, P>>,
    reader: &mut Reader,
    decoder: Decoder,
    text: Vec<u8>,
    link: &mut L,
) -> (Decoder, Vec<u8>, SessionEnd)
    requires held { reader.old ≡ [] }
    requires took { Took decoder [] }
    requires place { decoder.taken ≡ 0 }
    requires lock { lock_of pass.old ≡ id_of store.now }
    requires lane { number pass.old ≡ lane }
    ensures grew { Grew lane session pass.old pass.new }
    ensures session { Served decoder.limits
        (pairs_by (start_of C.given P.setting (first_of store.now)) lane session (seen pass.old))
        (pairs_by (start_of C.given P.setting (first_of store.now)) lane session (seen pass.new))
        (L.state link.old) (L.state link.new) result.2 }
    ensures limits { result.0.limits ≡ decoder.limits }
{
    let begun = Snapshot::of(&*pass);
    let mut responder = LaneResponder {
        rt,
        store,
        pass,
        begun: &begun,
        lane,
        session,
    };
    let ended = reply_to_all(link, reader, decoder, text, &mut responder);
    drop(begun);
    ended
}

/// Serves one session on a link and closes it: replies to each message by one turn of the store, in order, and writes
/// the reply after the turn. After bytes that frame no message it writes the framing text and ends. Only its turns take
/// memory, and only they hold the store. A fault of the link ends this session alone: the pass stays as good as before.
///
/// The pass is the lane's, and its number is the lane's. The buffers come back for the next session.
pub fn serve_session<D: Disk, C: Clock, P: Planner, L: Link, R: Wait>(
    rt: &R,
    lane: u32,
    session: u64,
    store: &Shared<Store<D, C, P>>,
    pass: &mut Pass<Store<D, C, P>>,
    buffers: Buffers,
    link: &mut L,
) -> (Buffers, SessionEnd)
    requires lock { lock_of pass.old ≡ id_of store.now }
    requires lane { number pass.old ≡ lane }

    // The pass's own list grew by the entries of this session, and by no others.
    ensures grew { Grew lane session pass.old pass.new }

    // They are the messages that were read, and what was written is their replies, as the one history gives them. Then
    // the link was closed.
    ensures session { ServedAndClosed buffers.decoder.limits
        (pairs_by (start_of C.given P.setting (first_of store.now)) lane session (seen pass.old))
        (pairs_by (start_of C.given P.setting (first_of store.now)) lane session (seen pass.new))
        (L.state link.old) (L.state link.new) result.1 }

    ensures limits { result.0.decoder.limits ≡ buffers.decoder.limits }
{
    let Buffers {
        mut reader,
        mut decoder,
        text,
    } = buffers;
    reader.restart();
    decoder.restart();
    let (decoder, text, end) = serve_open(
        rt,
        lane,
        session,
        store,
        pass,
        &mut reader,
        decoder,
        text,
        link,
    );
    link.close();
    let buffers = Buffers {
        reader,
        decoder,
        text,
    };
    (buffers, end)
}
