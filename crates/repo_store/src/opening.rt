//! Opening a store over a file.
ghost use Rattle.std.specs.Prelude.{◌≡◌, ◌+◌, ◌≤◌, length, take, None, IfOk, IfErr};
ghost use Rattle.journal_core.specs.Journal.{told, room_for};
ghost use Rattle.journal_core.specs.Layout.{most_number};
ghost use Rattle.repo_store.specs.Store.{clock_in, planner_in, seen_of};
ghost use Rattle.repo_store.specs.Opening.{Opens, OpensFile, IsRefused, IsRefusedFor, IsInside, body_place, fault_of_opening, fault_of_replay};

use crate::numbered::NumberedTable;
use crate::{Planner, Store, StoreFault};
use disk_core::Disk;
use journal_core::{Journal, OpenFault, Records};
use link_core::Clock;
use repo_state::{ReplayFault, Table};
use std::alloc::Global;

/// The length of a file's header.
const HEADER_LENGTH: u64 = 32;

/// The bytes of a record beside its body: its gate, its fields and its digest.
pub(crate) const RECORD_OVERHEAD: u64 = 57;

/// The bytes of a list and a record before the body: a version byte, a gate and the fields.
const BEFORE_BODY: u64 = 26;

/// What a refused opening hands back.
#[derive(Drop)]
pub struct NotOpened<D, C, P> {
    /// The disk, if there was one.
    pub disk: Option<D>,
    /// The clock.
    pub clock: C,
    /// The planner.
    pub planner: P,
    /// Why the file is not opened.
    pub fault: StoreFault,
}

impl<D: Disk, C: Clock, P: Planner> Store<D, C, P> {
    /// Opens a store over a file that a crash may have left, or without a disk one that holds nothing. It reads the
    /// file once and writes nothing. If it refuses, it hands back what it was given.
    ///
    /// # Errors
    /// `NotAStore`, `Version`, `Damaged` and `Unsound` exactly for what the file's bytes say; `DiskFault` only if the
    /// disk failed in this call; `Memory`. Without a disk there is none.
    pub fn open(
        alloc: Global,
        disk: Option<D>,
        planner: P,
        clock: C,
    ) -> Result<Store<D, C, P>, NotOpened<D, C, P>>
        ensures opened { IfOk result (λ store. Opens disk (seen_of C.given store).journal
            (seen_of C.given store).contents) }
        ensures not_closed { IfOk result (λ store. (seen_of C.given store).closed ≡ None) }
        ensures planner { IfOk result (λ store. planner_in store ≡ planner) }
        ensures clock { IfOk result (λ store. clock_in store ≡ clock) }
        ensures refused { IfErr result (λ refusal. IsRefused D.state disk refusal.disk refusal.fault) }
        ensures clock_back { IfErr result (λ refusal. refusal.clock ≡ clock) }
        ensures planner_back { IfErr result (λ refusal. refusal.planner ≡ planner) }
    {
        let (journal, table) = match disk {
            Some(disk) => match open_table(alloc, disk) {
                Ok((journal, table)) => (Some(journal), NumberedTable::of(table)),
                Err((disk, fault)) => return Err(NotOpened {
                    disk: Some(disk),
                    clock,
                    planner,
                    fault,
                }),
            },
            None => (None, NumberedTable::new(alloc)),
        };
        Ok(Store {
            alloc,
            planner,
            table,
            journal,
            clock,
            closed: None,
        })
    }
}

/// The journal of a file that a crash may have left, and the table that its records give. It reads the file once and
/// writes nothing. If it refuses, it hands the disk back.
///
/// # Errors
/// `NotAStore`, `Version`, `Damaged` and `Unsound` exactly for what the file's bytes say; `DiskFault` only if the disk
/// failed in this call; `Memory`.
pub fn open_table<D: Disk>(alloc: Global, disk: D) -> Result<(Journal<D>, Table), (D, StoreFault)>
    ensures opened { IfOk result (λ opened. OpensFile (D.state disk) opened.0 opened.1.contents) }
    ensures numbered { IfOk result (λ opened. opened.1.contents.number ≤ most_number) }
    ensures refused { IfErr result (λ refusal. IsRefusedFor (D.state disk) (D.state refusal.0) refusal.1) }
{
    match Journal::open(alloc, disk) {
        Ok((journal, records)) => match Table::replay(alloc, &records) {
            Ok(table) => {
                table.counter();
                Ok((journal, table))
            }
            Err(fault) => {
                let fault = replay_fault(journal.side(), journal.room().area, &records, fault);
                Err((journal.into_disk(), fault))
            }
        },
        Err((disk, fault)) => Err((disk, open_fault(fault))),
    }
}

// A refusal of the journal.
fn open_fault(fault: OpenFault) -> StoreFault
    ensures { result ≡ fault_of_opening fault }
{
    match fault {
        OpenFault::NotAStore => StoreFault::NotAStore,
        OpenFault::Version { byte } => StoreFault::Version { byte },
        OpenFault::Damaged { place } => StoreFault::Damaged { place },
        OpenFault::DiskFault => StoreFault::DiskFault,
        OpenFault::Memory => StoreFault::Memory,
    }
}

// What a refused replay of records says of their file.
fn replay_fault(side: u8, area: u64, records: &Records, fault: ReplayFault) -> StoreFault
    requires { IsInside records.now fault }
    ensures { result ≡ fault_of_replay area side records.now fault }
{
    match fault {
        ReplayFault::NotARecord { index } => StoreFault::Damaged {
            place: body_place(side, area, records, index),
        },
        ReplayFault::Unsound { id } => StoreFault::Unsound { id },
        ReplayFault::Memory => StoreFault::Memory,
    }
}

// Where the body of a record begins in the file. A place past 2^64 - 1 is told as that number.
fn body_place(side: u8, area: u64, records: &Records, index: usize) -> u64
    requires { index ≤ length records.now }
    ensures { result ≡ told (body_place area side (take index records.now)) }
{
    let base = (side as u64)
        .saturating_mul(area)
        .saturating_add(HEADER_LENGTH);
    base.saturating_add(room_of_first(records, index))
        .saturating_add(BEFORE_BODY)
}

// The bytes that the first records take in an area. A number past 2^64 - 1 is told as that.
fn room_of_first(records: &Records, count: usize) -> u64
    requires { count ≤ length records.now }
    ensures { result ≡ told (room_for (take count records.now)) }
{
    let mut room = 0u64;
    'records: for index in 0..count {
        let length = records.item(index).body.get().len() as u64;
        room = room.saturating_add(RECORD_OVERHEAD + length);
    }
    room
}
