//! Lanes over memory, each call once with ample memory.
ghost use Rattle.std.specs.Prelude.{◌≡◌, ◌∷◌, [], IfOk};
ghost use Rattle.history_lock.specs.History.{own_of, share_of};
ghost use Rattle.history_lock.specs.Passes.{IsFresh, id_of, passes_of, lock_of, shares};

use super::*;
use acl_core::Accounts;
use disk_core::MemoryDisk;
use dobj_model::Id;
use doip_json::Str;
use doip_segment::Limits;
use ext_ops::Extensions;
use history_lock::{Pass, Shared, Turned};
use link_core::{MemoryClock, MemoryLink, MemoryListener};
use repo_step::Config;
use repo_store::{Planner, Service, Store};
use session_core::SessionEnd;
use std::alloc::{AllocError, Global};
use std::sync::Wait;
use std::test::Fail;

const HELLO: &[u8] = b"{\"operationId\":\"0.DOIP/Op.Hello\",\"targetId\":\"35.TEST/svc\"}\n#\n#\n";

const DONE: &[u8] =
    b"{\"output\":{\"attributes\":{\"ipAddress\":\"127.0.0.1\",\"port\":9000,\"protocol\":\"TCP\",\"protocolVersion\":\"2.0\"},\"id\":\"35.TEST/svc\",\"type\":\"0.TYPE/DOIPServiceInfo\"},\"status\":\"0.DOIP/Status.001\"}\n#\n#\n";

const LIMITS: Limits = Limits {
    json: 1000,
    total: 1000,
};

// A repository without accounts and extensions.
fn service(alloc: Global) -> Result<Service, Fail> {
    let service = Id::of(alloc, "35.TEST/svc")?.ok_or("a name")?;
    let prefix = Str::of(alloc, "35.TEST")?;
    let address = Str::of(alloc, "127.0.0.1")?;
    let config = Config::new(alloc, service, prefix, address, 9000, Accounts::none(alloc))?;
    Ok(Service {
        config,
        extensions: Extensions::none(alloc),
    })
}

// A listener with this many links, each with a Hello.
fn listener(alloc: Global, links: u32) -> Result<MemoryListener<MemoryLink>, AllocError> {
    let mut listener = MemoryListener::new(alloc, Vec::new(alloc));
    for _ in 0..links {
        listener.add(MemoryLink::of(alloc, HELLO)?)?;
    }
    Ok(listener)
}

// A lock over a value, and its only pass.
fn with_one_pass<T: Turned>(
    alloc: Global,
    value: T,
) -> Result<(Shared<T>, Pass<T>), (T, AllocError)>
    ensures { IfOk result (λ r. (passes_of r.0 ≡ 1) × IsFresh (id_of r.0) 0 r.1) }
{
    let (lock, mut passes) = Shared::open(alloc, value, 1)?;
    let Some(pass) = passes.take() else {
        unreachable!()
    };
    passes.end();
    Ok((lock, pass))
}

// Closes a lock with its only pass, and gives its value back.
fn close<T: Turned>(lock: Shared<T>, pass: Pass<T>) -> T
    requires lock { lock_of pass ≡ id_of lock }
    requires passes { passes_of lock ≡ 1 }
    requires alone { shares pass ≡ share_of 0 (own_of (shares pass)) ∷ [] }
{
    let (value, record) = lock.close(pass);
    drop(record);
    value
}

// What a lane served, and how it ended.
#[derive(Drop)]
struct LaneRun {
    sessions: Vec<ServedSession<MemoryLink>>,
    end: LaneEnd,
}

// One lane serves the links of a listener, at most so many.
fn serve_alone<P: Planner + Drop, R: Wait>(
    rt: &R,
    alloc: Global,
    planner: P,
    listener: MemoryListener<MemoryLink>,
    links: u64,
) -> Result<LaneRun, Fail> {
    let Ok(store) = Store::open(alloc, None::<MemoryDisk>, planner, MemoryClock::zero(alloc)) else {
        return Err(Fail::from("no store"));
    };
    let Ok((store, mut pass)) = with_one_pass(alloc, store) else {
        return Err(Fail::from("no lock for the store"));
    };
    let door = Door {
        listener,
        left: links,
    };
    let Ok((door, mut taker)) = with_one_pass(alloc, door) else {
        close(store, pass);
        return Err(Fail::from("no lock for the door"));
    };
    let mut sessions = Vec::new(alloc);
    let end = serve_lane(
        rt,
        alloc,
        LIMITS,
        0,
        &door,
        &mut taker,
        &store,
        &mut pass,
        &mut sessions,
    );
    close(door, taker);
    close(store, pass);
    Ok(LaneRun { sessions, end })
}

#[test]
fn a_lane_serves_one_session_after_another(rt: HostRuntime) -> Result<(), Fail> {
    let alloc = rt.alloc();
    let run = serve_alone(&rt, alloc, service(alloc)?, listener(alloc, 3)?, 5)?;
    assert!(rt; run.end == LaneEnd::Ended && run.sessions.len() == 3);
    for (number, one) in run.sessions.iter().enumerate() {
        assert!(rt; one.lane == 0 && one.session == number as u64);
        assert!(rt; one.end == SessionEnd::Ended && one.link.is_closed());
        assert!(rt; one.link.written() == DONE);
    }
    Ok(())
}

#[test]
fn a_door_lets_no_more_links_in_than_it_was_told(rt: HostRuntime) -> Result<(), Fail> {
    let alloc = rt.alloc();
    let run = serve_alone(&rt, alloc, service(alloc)?, listener(alloc, 3)?, 2)?;
    assert!(rt; run.end == LaneEnd::Ended && run.sessions.len() == 2);
    Ok(())
}

#[test]
fn a_lane_ends_where_accepting_fails(rt: HostRuntime) -> Result<(), Fail> {
    let alloc = rt.alloc();
    let mut listener = MemoryListener::new(alloc, Vec::from_slice(alloc, &[2])?);
    listener.add(MemoryLink::of(alloc, HELLO)?)?;
    listener.add(MemoryLink::of(alloc, HELLO)?)?;
    let run = serve_alone(&rt, alloc, service(alloc)?, listener, 2)?;
    assert!(rt; run.end == LaneEnd::Faulted && run.sessions.len() == 1);
    Ok(())
}
