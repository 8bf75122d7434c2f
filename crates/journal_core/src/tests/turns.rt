//! Compaction: its bytes, its calls, and each failed call.
ghost use Rattle.std.specs.Prelude.{IfOk};
ghost use Rattle.std.specs.List.{All};
ghost use Rattle.journal_core.specs.Journal.{IsNumbered};

use super::{Call, calls_after, filled, full, journal_on, new_journal, records_on, stamp, three};
use crate::{CommitFault, Journal, Record, Records, Room};
use base_core::{Bytes, Items};
use disk_core::{Disk, DiskCall, Failing, MemoryDisk};
use std::alloc::Global;
use std::test::Fail;

// A new journal to which a body of 190 bytes was added, compacted to three records.
fn compacted(alloc: Global) -> Result<Journal<MemoryDisk>, Fail> {
    let mut journal = new_journal(alloc, 256)?;
    let body = vec![in alloc; 7; 190]?;
    let added = journal.commit(stamp(1), &body).is_ok();
    if added && journal.compact(&three(alloc)?).is_ok() {
        return Ok(journal);
    }
    Err("not compacted".into())
}

#[test]
fn a_compaction_writes_the_other_area_and_turns_the_side(rt: HostRuntime) -> Result<(), Fail> {
    let alloc = rt.alloc();
    // Five calls made the file, four opened it, and six added the record. A short area is one write.
    let calls = calls_after(alloc, compacted(alloc)?.disk(), 15)?;
    assert_eq!(rt; calls.len(), 4);
    assert_eq!(rt; calls[0], (DiskCall::WriteAt, 288, 176));
    assert_eq!(rt; calls[1], (DiskCall::Sync, 0, 0));
    assert_eq!(rt; calls[2], (DiskCall::WriteAt, 16, 1));
    assert_eq!(rt; calls[3], (DiskCall::Sync, 0, 0));
    Ok(())
}

#[test]
fn a_compacted_journal_goes_on_in_the_other_area(rt: HostRuntime) -> Result<(), Fail> {
    let alloc = rt.alloc();
    let mut journal = compacted(alloc)?;
    let room = Room {
        used: 175,
        area: 256,
    };
    assert_eq!(rt; journal.room(), room);
    assert_eq!(rt; journal.side(), 1);
    assert!(rt; journal.compact(&Items::new(alloc)).is_ok());
    assert_eq!(rt; journal.side(), 0);
    assert_eq!(rt; records_on(alloc, journal.into_disk())?.len(), 0);
    Ok(())
}

#[test]
fn what_does_not_fit_is_not_compacted(rt: HostRuntime) -> Result<(), Fail> {
    let alloc = rt.alloc();
    let mut journal = new_journal(alloc, 175)?;
    assert_eq!(rt; journal.compact(&three(alloc)?).err(), full(2, 174));
    assert_eq!(rt; journal.disk().file().len(), 34);
    Ok(())
}

#[test]
fn a_full_area_is_not_compacted_to_more_than_it_holds(rt: HostRuntime) -> Result<(), Fail> {
    let alloc = rt.alloc();
    let mut journal = filled(alloc, 224)?;
    let before = journal.disk().file().to_vec(alloc)?;
    // A counter's body and an object's, each with its 57 bytes.
    let fault = journal.compact(&records_of(alloc, 9, 165)?).err();
    assert_eq!(rt; fault, full(2, 288));
    assert_eq!(rt; before.len(), 256);
    assert_eq!(rt; journal.disk().file(), before.as_slice());
    Ok(())
}

// What a compaction on a disk that fails this call returns, and the journal after it.
fn failed_at(
    alloc: Global,
    call: DiskCall,
    nth: u64,
) -> Result<(Journal<MemoryDisk>, Option<CommitFault>), Fail> {
    let disk = MemoryDisk::new(alloc, &[], &[Failing { call, nth }])?;
    let mut journal = journal_on(alloc, disk, 256)?;
    let fault = journal.compact(&three(alloc)?).err();
    Ok((journal, fault))
}

// Whether that is a disk fault, which the disk has counted, and the side stays.
fn fails_at(alloc: Global, call: DiskCall, nth: u64) -> Result<bool, Fail> {
    let (journal, fault) = failed_at(alloc, call, nth)?;
    let counted = journal.disk().fault_count() == 1 && journal.side() == 0;
    Ok(counted && fault == Some(CommitFault::DiskFault))
}

#[test]
fn a_failed_call_in_a_compaction_is_a_disk_fault(rt: HostRuntime) -> Result<(), Fail> {
    let alloc = rt.alloc();
    // The writes and syncs of `init` come first: two of each.
    for nth in 3..5 {
        assert!(rt; fails_at(alloc, DiskCall::WriteAt, nth)?, "write {nth}");
        assert!(rt; fails_at(alloc, DiskCall::Sync, nth)?, "sync {nth}");
    }
    Ok(())
}

// A record of the number 1 with a body of this length.
pub(super) fn record_of_length(alloc: Global, length: usize) -> Result<Record, Fail>
    ensures { IfOk result IsNumbered }
{
    let body = vec![in alloc; 7; length]?;
    Ok(Record {
        stamp: stamp(1),
        body: Bytes::from(body),
    })
}

// Two records of the number 1 with bodies of these lengths.
pub(super) fn records_of(alloc: Global, first: usize, second: usize) -> Result<Records, Fail>
    ensures { IfOk result (λ entries. All IsNumbered entries) }
{
    let one = record_of_length(alloc, first)?;
    let two = record_of_length(alloc, second)?;
    Ok(Items::from(vec![in alloc; one, two]?))
}

// A new journal in a long area, compacted to records with a body of this length and an empty one.
fn long_journal(alloc: Global, length: usize) -> Result<Journal<MemoryDisk>, Fail> {
    let mut journal = new_journal(alloc, 400_000)?;
    if journal.compact(&records_of(alloc, length, 0)?).is_ok() {
        return Ok(journal);
    }
    Err("not compacted".into())
}

// The lengths of the writes of that compaction.
fn pieces_of(alloc: Global, length: usize) -> Result<Vec<usize>, Fail> {
    let calls = calls_after(alloc, long_journal(alloc, length)?.disk(), 9)?;
    let mut lengths = Vec::new(alloc);
    for (_, _, written) in &calls {
        lengths.push(*written)?;
    }
    Ok(lengths)
}

#[test]
fn pieces_are_of_64_kib_or_more(rt: HostRuntime) -> Result<(), Fail> {
    let alloc = rt.alloc();
    // Version, gate and fields are 26 bytes, and 90 come after the body: its digest, an empty record and a closed gate.
    // Then there are a sync, the side byte and a sync.
    let small = pieces_of(alloc, 65_536)?;
    assert_eq!(rt; small.as_slice(), [65_536, 116, 0, 1, 0].as_slice());
    let large = pieces_of(alloc, 200_000)?;
    assert_eq!(rt; large.as_slice(), [65_536, 134_490, 90, 0, 1, 0].as_slice());
    Ok(())
}

#[test]
fn a_body_longer_than_a_piece_is_read_whole(rt: HostRuntime) -> Result<(), Fail> {
    let alloc = rt.alloc();
    let records = records_on(alloc, long_journal(alloc, 200_000)?.into_disk())?;
    assert_eq!(rt; records.len(), 2);
    let body = vec![in alloc; 7; 200_000]?;
    assert_eq!(rt; records.item(0).body.get(), body.as_slice());
    assert_eq!(rt; records.item(1).body.get().len(), 0);
    Ok(())
}

// The calls of the opening of a disk.
fn calls_of_opening(alloc: Global, disk: MemoryDisk) -> Result<Vec<Call>, Fail> {
    let first = disk.calls().len();
    match Journal::open(alloc, disk) {
        Ok((journal, _)) => calls_after(alloc, journal.disk(), first),
        Err(_) => Err("not opened".into()),
    }
}

#[test]
fn an_area_is_read_once_in_pieces(rt: HostRuntime) -> Result<(), Fail> {
    let alloc = rt.alloc();
    let calls = calls_of_opening(alloc, long_journal(alloc, 200_000)?.into_disk())?;
    assert_eq!(rt; calls.len(), 6);
    assert_eq!(rt; calls[0], (DiskCall::Length, 0, 0));
    // The header; a piece; the rest of the long body, which is longer than a piece; what follows it; and no more bytes.
    let places = [0, 400_032, 465_568, 600_058, 600_148];
    for index in 0..5 {
        assert_eq!(rt; calls[index + 1], (DiskCall::ReadAt, places[index], 0));
    }
    Ok(())
}
