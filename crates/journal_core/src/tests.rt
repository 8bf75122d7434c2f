//! What no clause says: the bytes of the file, refusals of given files, and every image of a run opened again.
ghost use Rattle.std.specs.Prelude.{◌≡◌, ◌≤◌, IfOk};
ghost use Rattle.std.specs.List.{All};
ghost use Rattle.journal_core.specs.Layout.{least_area, most_area, most_number};
ghost use Rattle.journal_core.specs.Journal.{IsNumbered};

use super::*;
use base_core::{Bytes, Items};
use disk_core::{DiskCall, Failing, MemoryDisk};
use std::alloc::Global;
use std::test::Fail;

mod crashes;
mod damage;
mod migration;
mod turns;

// A call of a disk: its kind, its place, and how many bytes were to be written.
type Call = (DiskCall, u64, usize);

// The calls of a disk after the first ones.
fn calls_after(alloc: Global, disk: &MemoryDisk, first: usize) -> Result<Vec<Call>, Fail> {
    let mut calls = Vec::new(alloc);
    for noted in disk.calls().iter().skip(first) {
        calls.push((noted.call, noted.place, noted.bytes.get().len()))?;
    }
    Ok(calls)
}

// A journal that was made on this disk. Five calls make its file, and four open it.
fn journal_on(alloc: Global, disk: MemoryDisk, area: u64) -> Result<Journal<MemoryDisk>, Fail>
    requires least { least_area ≤ area }
    requires most { area ≤ most_area }
{
    let Ok(made) = init(disk, area) else {
        return Err("no file was made".into());
    };
    match Journal::open(alloc, made) {
        Ok((journal, _)) => Ok(journal),
        Err(_) => Err("the file was not opened".into()),
    }
}

// A journal in a new file.
fn new_journal(alloc: Global, area: u64) -> Result<Journal<MemoryDisk>, Fail>
    requires least { least_area ≤ area }
    requires most { area ≤ most_area }
{
    journal_on(alloc, MemoryDisk::new(alloc, &[], &[])?, area)
}

// The records that the file of a disk holds.
fn records_on(alloc: Global, disk: MemoryDisk) -> Result<Records, Fail> {
    match Journal::open(alloc, disk) {
        Ok((_, records)) => Ok(records),
        Err(_) => Err("not opened".into()),
    }
}

// The beginning of a file: the header with this area length and side byte, and then these bytes.
fn file_of(alloc: Global, area: u64, side_byte: u8, bytes: &[u8]) -> Result<Vec<u8>, Fail> {
    let mut file = b"DOIPREP1".to_vec(alloc)?;
    file.extend_from_slice(&area.to_be_bytes())?;
    file.push(side_byte)?;
    file.extend_from_slice(&vec![in alloc; 0; 15]?)?;
    file.extend_from_slice(bytes)?;
    Ok(file)
}

// The bytes that these hexadecimal digits are, in groups of any length.
fn bytes_of(alloc: Global, text: &str) -> Result<Vec<u8>, Fail> {
    let mut digits = Vec::new(alloc);
    'digits: for byte in text.as_bytes() {
        if *byte != b' ' {
            digits.push(*byte)?;
        }
    }
    match hex::decode(alloc, &digits) {
        Ok(bytes) => Ok(bytes),
        Err(_) => Err("not hexadecimal".into()),
    }
}

// The stamp of the number and the time 0.
fn stamp(number: u64) -> Stamp
    ensures { result.number ≡ number }
{
    Stamp { number, time: 0 }
}

// The example of docs/FORMATS.md. The digests are another program's.
fn example() -> &'static str {
    "444f495052455031 00000000000000c0 00000000000000000000000000000000 02 \
     01 0000000000000003 0000000000000001 00000000000003e8 616263 \
     15ba0d1c0898d92031b4842fdf3a71826ec77eea9fbf4ef55a218a8d31445a51 \
     01 0000000000000000 0000000000000002 00000000000007d0 \
     f4b5609b2329d2756f7bb536fd205d1cd213525fa9c61e78e1523970d30eaef6 00"
}

// Whether a record is this one.
fn is_record(record: &Record, number: u64, time: u64, body: &[u8]) -> bool {
    record.stamp.number == number && record.stamp.time == time && record.body.get() == body
}

// The disk of a new journal to which the two records of the example were added.
fn with_example(alloc: Global) -> Result<MemoryDisk, Fail> {
    let mut journal = new_journal(alloc, 192)?;
    let first = Stamp {
        number: 1,
        time: 1000,
    };
    let second = Stamp {
        number: 2,
        time: 2000,
    };
    if journal.commit(first, b"abc").is_ok() && journal.commit(second, b"").is_ok() {
        return Ok(journal.into_disk());
    }
    Err("not added".into())
}

#[test]
fn a_file_of_two_records_has_these_bytes(rt: HostRuntime) -> Result<(), Fail> {
    let alloc = rt.alloc();
    let disk = with_example(alloc)?;
    let wanted = bytes_of(alloc, example())?;
    assert_eq!(rt; disk.file(), wanted.as_slice());
    Ok(())
}

#[test]
fn two_records_are_read_with_their_stamps(rt: HostRuntime) -> Result<(), Fail> {
    let alloc = rt.alloc();
    let records = records_on(alloc, with_example(alloc)?)?;
    assert_eq!(rt; records.len(), 2);
    assert!(rt; is_record(records.item(0), 1, 1000, b"abc"));
    assert!(rt; is_record(records.item(1), 2, 2000, b""));
    Ok(())
}

#[test]
fn a_new_file_is_a_header_a_version_and_a_closed_gate(rt: HostRuntime) -> Result<(), Fail> {
    let alloc = rt.alloc();
    let Ok(made) = init(MemoryDisk::new(alloc, &[], &[])?, 224) else {
        return Err("no file was made".into());
    };
    let wanted = file_of(alloc, 224, 0, b"\x02\0")?;
    assert_eq!(rt; made.file(), wanted.as_slice());
    Ok(())
}

// The calls that make a file.
fn calls_of_init(alloc: Global) -> Result<Vec<Call>, Fail> {
    match init(MemoryDisk::new(alloc, &[], &[])?, 224) {
        Ok(made) => calls_after(alloc, &made, 0),
        Err(_) => Err("no file was made".into()),
    }
}

#[test]
fn a_new_file_is_durable_before_its_first_byte(rt: HostRuntime) -> Result<(), Fail> {
    let calls = calls_of_init(rt.alloc())?;
    // The length, all but the first byte, a sync, the first byte, a sync.
    assert_eq!(rt; calls.len(), 5);
    assert_eq!(rt; calls[1], (DiskCall::WriteAt, 0, 34));
    assert_eq!(rt; calls[2], (DiskCall::Sync, 0, 0));
    assert_eq!(rt; calls[3], (DiskCall::WriteAt, 0, 1));
    assert_eq!(rt; calls[4], (DiskCall::Sync, 0, 0));
    Ok(())
}

// The refusal of what doesn't fit.
fn full(used: u64, asked: u64) -> Option<CommitFault> {
    Some(CommitFault::Full { used, asked })
}

// What adding a body of this length returns.
fn fault_of(
    alloc: Global,
    journal: &mut Journal<MemoryDisk>,
    length: usize,
) -> Result<Option<CommitFault>, Fail> {
    let body = vec![in alloc; 7; length]?;
    Ok(journal.commit(stamp(1), &body).err())
}

// What adding two bodies of these lengths to a new journal returns, one after the other.
fn faults_of(
    alloc: Global,
    area: u64,
    first: usize,
    second: usize,
) -> Result<(Option<CommitFault>, Option<CommitFault>), Fail>
    requires least { least_area ≤ area }
    requires most { area ≤ most_area }
{
    let mut journal = new_journal(alloc, area)?;
    let one = fault_of(alloc, &mut journal, first)?;
    let two = fault_of(alloc, &mut journal, second)?;
    Ok((one, two))
}

#[test]
fn a_body_fits_to_the_byte(rt: HostRuntime) -> Result<(), Fail> {
    let alloc = rt.alloc();
    assert_eq!(rt; faults_of(alloc, 224, 165, 165)?, (None, full(223, 223)));
    assert_eq!(rt;
        faults_of(alloc, 223, 165, 165)?,
        (full(1, 223), full(1, 223))
    );
    assert_eq!(rt; faults_of(alloc, 64, 5, 0)?, (None, full(63, 58)));
    Ok(())
}

// A new journal of this length to which a body of 165 bytes was added, if it fits.
fn filled(alloc: Global, area: u64) -> Result<Journal<MemoryDisk>, Fail>
    requires least { least_area ≤ area }
    requires most { area ≤ most_area }
{
    let mut journal = new_journal(alloc, area)?;
    let _fault = fault_of(alloc, &mut journal, 165)?;
    Ok(journal)
}

#[test]
fn a_full_area_is_used_but_for_its_last_gate(rt: HostRuntime) -> Result<(), Fail> {
    let journal = filled(rt.alloc(), 224)?;
    let room = Room {
        used: 223,
        area: 224,
    };
    assert_eq!(rt; journal.room(), room);
    let file = journal.disk().file();
    assert_eq!(rt; file.len(), 256);
    assert_eq!(rt; &file[33..42], b"\x01\0\0\0\0\0\0\0\xa5".as_slice());
    Ok(())
}

#[test]
fn a_body_that_does_not_fit_is_not_written(rt: HostRuntime) -> Result<(), Fail> {
    let journal = filled(rt.alloc(), 223)?;
    assert_eq!(rt; journal.disk().file().len(), 34);
    Ok(())
}

// A record of this number and with this body.
fn record_of(alloc: Global, number: u64, body: &[u8]) -> Result<Record, Fail>
    requires { number ≤ most_number }
    ensures { IfOk result IsNumbered }
{
    let body = Bytes::of(alloc, body)?;
    Ok(Record {
        stamp: stamp(number),
        body,
    })
}

// Some records with bodies of one byte.
fn three(alloc: Global) -> Result<Records, Fail>
    ensures { IfOk result (λ entries. All IsNumbered entries) }
{
    let first = record_of(alloc, 1, b"a")?;
    let second = record_of(alloc, 2, b"b")?;
    let third = record_of(alloc, 3, b"c")?;
    Ok(Items::from(vec![in alloc; first, second, third]?))
}

// A new journal to which those were added together.
fn with_three(alloc: Global) -> Result<Journal<MemoryDisk>, Fail> {
    let mut journal = new_journal(alloc, 256)?;
    if journal.commit_all(&three(alloc)?).is_ok() {
        return Ok(journal);
    }
    Err("not added".into())
}

#[test]
fn records_that_commit_together_take_one_pair_of_syncs(rt: HostRuntime) -> Result<(), Fail> {
    let alloc = rt.alloc();
    let calls = calls_after(alloc, with_three(alloc)?.disk(), 9)?;
    assert_eq!(rt; calls.len(), 12);
    assert_eq!(rt; calls[0], (DiskCall::WriteAt, 34, 24));
    assert_eq!(rt; calls[1], (DiskCall::WriteAt, 58, 1));
    assert_eq!(rt; calls[2], (DiskCall::WriteAt, 59, 33));
    assert_eq!(rt; calls[9], (DiskCall::Sync, 0, 0));
    assert_eq!(rt; calls[10], (DiskCall::WriteAt, 33, 1));
    assert_eq!(rt; calls[11], (DiskCall::Sync, 0, 0));
    Ok(())
}

#[test]
fn records_that_commit_together_are_read_again(rt: HostRuntime) -> Result<(), Fail> {
    let alloc = rt.alloc();
    let records = records_on(alloc, with_three(alloc)?.into_disk())?;
    assert_eq!(rt; records.len(), 3);
    assert!(rt; is_record(records.item(2), 3, 0, b"c"));
    Ok(())
}

#[test]
fn what_does_not_fit_together_is_not_added(rt: HostRuntime) -> Result<(), Fail> {
    let alloc = rt.alloc();
    let mut journal = with_three(alloc)?;
    let fault = journal.commit_all(&three(alloc)?).err();
    assert_eq!(rt; fault, full(175, 175));
    Ok(())
}

#[test]
fn no_records_are_no_call_of_the_disk(rt: HostRuntime) -> Result<(), Fail> {
    let alloc = rt.alloc();
    let mut journal = new_journal(alloc, 64)?;
    assert!(rt; journal.commit_all(&Items::new(alloc)).is_ok());
    assert_eq!(rt; journal.disk().calls().len(), 9);
    Ok(())
}

// What a commit returns on a disk that fails this call.
fn fault_at(alloc: Global, call: DiskCall, nth: u64) -> Result<Option<CommitFault>, Fail> {
    let disk = MemoryDisk::new(alloc, &[], &[Failing { call, nth }])?;
    let mut journal = journal_on(alloc, disk, 64)?;
    Ok(journal.commit(stamp(1), b"abc").err())
}

#[test]
fn a_failed_call_is_a_disk_fault(rt: HostRuntime) -> Result<(), Fail> {
    let alloc = rt.alloc();
    let failed = Some(CommitFault::DiskFault);
    for nth in 3..7 {
        assert_eq!(rt; fault_at(alloc, DiskCall::WriteAt, nth)?, failed);
    }
    for nth in 3..5 {
        assert_eq!(rt; fault_at(alloc, DiskCall::Sync, nth)?, failed);
    }
    assert_eq!(rt; fault_at(alloc, DiskCall::Sync, 5)?, None);
    Ok(())
}

// Whether a fault of a commit has this text.
fn commit_says(alloc: Global, fault: CommitFault, text: &str) -> Result<bool, Fail> {
    Ok(fault.to_string(alloc)?.as_str() == text)
}

// The same of `init`.
fn init_says(alloc: Global, fault: InitFault, text: &str) -> Result<bool, Fail> {
    Ok(fault.to_string(alloc)?.as_str() == text)
}

#[test]
fn each_fault_has_its_text(rt: HostRuntime) -> Result<(), Fail> {
    let alloc = rt.alloc();
    let full = CommitFault::Full {
        used: 63,
        asked: 58,
    };
    assert!(rt; commit_says(alloc, full, "limit: area, 63 used, 58 asked")?);
    assert!(rt; commit_says(alloc, CommitFault::DiskFault, "disk fault")?);
    let filled = InitFault::NotEmpty { length: 3 };
    assert!(rt; init_says(alloc, filled, "not empty: 3 bytes")?);
    assert!(rt; init_says(alloc, InitFault::DiskFault, "disk fault")?);
    Ok(())
}
