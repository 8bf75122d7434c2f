//! Compactions of files in memory.
ghost use Rattle.std.specs.Prelude.{◌≡◌, ◌≤◌, None, IsSome, IfSome};
ghost use Rattle.journal_core.specs.Layout.{most_area};
ghost use Rattle.link_core.specs.Memory.{clock_given};
ghost use Rattle.repo_store.specs.Store.{seen_of};

use crate::{CompactFault, Planner, Store};
use disk_core::{Disk, FusedDisk, MemoryDisk};
use doip_segment::Message;
use journal_core::{Journal, Room, Stamp, init};
use link_core::MemoryClock;
use record_core::{Change, body_of};
use repo_state::Table;
use repo_step::{Brought, Planned};
use std::alloc::{AllocError, Global};
use std::test::Fail;

// A planner that is always out of memory: no turn is taken here.
#[derive(Drop)]
struct Idle {}

impl Planner for Idle {
    ghost use Rattle.std.specs.Prelude.{[], None};
    ghost use Rattle.acl_core.specs.Known.{known};
    ghost use Rattle.ext_ops.specs.Offered.{offered};

    ghost setting = { λ _. record {
      service = [];
      prefix = [];
      address = [];
      port = 1;
      accounts = known [] None;
      extensions = offered [] [];
    } };

    fn plan<'t>(
        &'t self,
        _: Global,
        _: &'t Table,
        _: Brought,
        _: Option<Room>,
        _: &Message,
    ) -> Result<Planned<'t>, AllocError> {
        Err(AllocError)
    }
}

// Adds the record of a counter.
fn add(alloc: Global, journal: &mut Journal<MemoryDisk>, number: u64) -> bool
    requires { number ≤ 1000 }
{
    let Ok(body) = body_of(alloc, &Change::Counter { n: number + 1 }) else {
        return false;
    };
    journal
        .commit(Stamp { number, time: 0 }, body.get())
        .is_ok()
}

// A file with three records, of 66 bytes each.
fn filled(alloc: Global, area: u64) -> Option<MemoryDisk>
    requires least { 256 ≤ area }
    requires most { area ≤ most_area }
{
    let disk = init(MemoryDisk::new(alloc, &[], &[]).ok()?, area).ok()?;
    let (mut journal, _) = Journal::open(alloc, disk).ok()?;
    if add(alloc, &mut journal, 1) && add(alloc, &mut journal, 2) && add(alloc, &mut journal, 3) {
        Some(journal.into_disk())
    } else {
        None
    }
}

// The store over a disk.
fn opened<D: Disk + Drop>(alloc: Global, disk: D) -> Option<Store<D, MemoryClock, Idle>>
    ensures disk { IfSome result (λ store. IsSome (seen_of clock_given store).journal) }
    ensures not_closed { IfSome result (λ store. (seen_of clock_given store).closed ≡ None) }
{
    Store::open(alloc, Some(disk), Idle {}, MemoryClock::zero(alloc)).ok()
}

// The room that a shrink leaves, and the counter of the file when it is opened again.
fn shrunk(alloc: Global, area: u64) -> Option<(u64, u64)>
    requires least { 256 ≤ area }
    requires most { area ≤ most_area }
{
    let mut store = opened(alloc, filled(alloc, area)?)?;
    let room = store.shrink().ok()?;
    let (disk, _, _) = store.into_parts();
    let again = opened(alloc, disk?)?;
    Some((room.used, again.table().counter()))
}

#[test]
fn a_list_of_more_than_half_is_shrunk(rt: HostRuntime) -> Result<(), Fail> {
    let alloc = rt.alloc();
    assert_eq!(rt; shrunk(alloc, 397), Some((67, 4)));
    assert_eq!(rt; shrunk(alloc, 398), Some((199, 4)));
    Ok(())
}

#[test]
fn a_compaction_leaves_one_record_of_the_counter(rt: HostRuntime) -> Result<(), Fail> {
    let alloc = rt.alloc();
    let mut store = opened(alloc, filled(alloc, 1000).ok_or("a file")?).ok_or("a store")?;
    let room = Room {
        used: 67,
        area: 1000,
    };
    assert_eq!(rt; store.compact().ok(), Some(room));
    assert_eq!(rt; store.room(), Some(room));
    assert_eq!(rt; store.table().number(), 3);
    Ok(())
}

#[test]
fn a_list_that_does_not_fit_is_not_compacted(rt: HostRuntime) -> Result<(), Fail> {
    let alloc = rt.alloc();
    let Ok(disk) = init(MemoryDisk::new(alloc, &[], &[])?, 64) else {
        return Err("no file".into());
    };
    let mut store = opened(alloc, disk).ok_or("a store")?;
    let full = CompactFault::Full { used: 2, asked: 66 };
    assert_eq!(rt; store.compact().err(), Some(full));
    assert_eq!(rt; store.closed(), None);
    Ok(())
}

// How often the disk's fault closed a store in a compaction, if so many of the disk's calls pass; and the counter of
// the file when it is opened again.
fn closed_after(alloc: Global, passes: u64) -> Option<(Option<u64>, u64)> {
    let mut store = opened(alloc, FusedDisk::new(filled(alloc, 300)?, passes))?;
    let is_done = store.compact().is_ok();
    let closed = store.closed();
    if is_done != closed.is_none() {
        return None;
    }
    let (disk, _, _) = store.into_parts();
    let again = opened(alloc, disk?.into_inner())?;
    Some((closed, again.table().counter()))
}

// Whether each of the next calls closes the store, and leaves the contents.
fn keep_all(alloc: Global, first: u64) -> bool {
    for more in 0..4 {
        if closed_after(alloc, first.saturating_add(more)) != Some((Some(1), 4)) {
            return false;
        }
    }
    true
}

// How many calls an opening takes.
fn opening_calls(alloc: Global) -> Option<u64> {
    (0..100).find(|passes| closed_after(alloc, *passes).is_some())
}

#[test]
fn each_failed_call_of_a_compaction_keeps_the_contents(rt: HostRuntime) -> Result<(), Fail> {
    let alloc = rt.alloc();
    let first = opening_calls(alloc).ok_or("a store")?;
    assert!(rt; keep_all(alloc, first));
    assert_eq!(rt;
        closed_after(alloc, first.saturating_add(4)),
        Some((None, 4))
    );
    Ok(())
}
