//! Migration from format 1: what it reads, what it leaves, and every image of it.
ghost use Rattle.std.specs.Prelude.{IfOk};
ghost use Rattle.std.specs.List.{All};
ghost use Rattle.journal_core.specs.Journal.{IsNumbered};

use super::turns::{record_of_length, records_of};
use super::{bytes_of, file_of, full, is_record, three};
use crate::{CommitFault, FirstJournal, Journal, OpenFault, Records, Room};
use base_core::Items;
use disk_core::{FusedDisk, MemoryDisk};
use std::alloc::Global;
use std::test::Fail;

// The example of docs/FORMATS.md in format 1: areas of 256 bytes, and the bodies `abc` and nothing.
fn first_example() -> &'static str {
    "444f495052455031 0000000000000100 00000000000000000000000000000000 01 \
     01 0000000000000003 616263 01 0000000000000000 00"
}

// A file of format 1 with areas of this length, and so many records whose bodies are 136 zeros.
fn file_of_objects(alloc: Global, area: u64, count: u64) -> Result<Vec<u8>, Fail> {
    let mut file = file_of(alloc, area, 0, b"\x01")?;
    for _ in 0..count {
        file.extend_from_slice(b"\x01\0\0\0\0\0\0\0\x88")?;
        file.extend_from_slice(&vec![in alloc; 0; 136]?)?;
    }
    file.push(0)?;
    Ok(file)
}

// The journal of format 1 in a file, and its records.
fn opened(alloc: Global, file: &[u8]) -> Result<(FirstJournal<MemoryDisk>, Records), Fail> {
    match Journal::open_first(alloc, MemoryDisk::new(alloc, file, &[])?) {
        Ok(first) => Ok(first),
        Err(_) => Err("not opened".into()),
    }
}

// Why the file of a disk is refused in format 1, if it is.
fn refusal_of(alloc: Global, disk: MemoryDisk) -> Option<OpenFault> {
    match Journal::open_first(alloc, disk) {
        Ok(_) => None,
        Err((_, fault)) => Some(fault),
    }
}

// The disk of a file of format 1 after its migration to these records, and why that failed.
fn migrated(
    alloc: Global,
    file: &[u8],
    entries: &Records,
) -> Result<(MemoryDisk, Option<CommitFault>), Fail>
    requires { All IsNumbered entries.now }
{
    let (first, _) = opened(alloc, file)?;
    match first.migrate(entries) {
        Ok(journal) => Ok((journal.into_disk(), None)),
        Err((disk, fault)) => Ok((disk, Some(fault))),
    }
}

#[test]
fn a_file_of_format_1_is_read_with_stamps_of_zeros(rt: HostRuntime) -> Result<(), Fail> {
    let alloc = rt.alloc();
    let (_, records) = opened(alloc, &bytes_of(alloc, first_example())?)?;
    assert_eq!(rt; records.len(), 2);
    assert!(rt; is_record(records.item(0), 0, 0, b"abc"));
    assert!(rt; is_record(records.item(1), 0, 0, b""));
    Ok(())
}

// A counter's record and those of two objects.
fn of_two_objects(alloc: Global) -> Result<Records, Fail>
    ensures { IfOk result (λ entries. All IsNumbered entries) }
{
    let counter = record_of_length(alloc, 9)?;
    let one = record_of_length(alloc, 165)?;
    let two = record_of_length(alloc, 165)?;
    Ok(Items::from(vec![in alloc; counter, one, two]?))
}

// Whether the file of a disk holds three records of the number 1, in the second of its areas of 1,000 bytes.
fn holds_two_objects(alloc: Global, disk: MemoryDisk) -> bool {
    let Ok((journal, records)) = Journal::open(alloc, disk) else {
        return false;
    };
    let room = Room {
        used: 511,
        area: 1000,
    };
    let numbered = records
        .as_slice()
        .iter()
        .all(|entry| entry.stamp.number == 1);
    journal.room() == room && journal.side() == 1 && records.len() == 3 && numbered
}

#[test]
fn two_objects_are_migrated(rt: HostRuntime) -> Result<(), Fail> {
    let alloc = rt.alloc();
    let file = file_of_objects(alloc, 1000, 2)?;
    assert_eq!(rt; file.len(), 32 + 291 + 1);
    let (disk, fault) = migrated(alloc, &file, &of_two_objects(alloc)?)?;
    assert_eq!(rt; fault, None);
    assert!(rt; holds_two_objects(alloc, disk));
    Ok(())
}

#[test]
fn a_migrated_file_is_of_format_2_alone(rt: HostRuntime) -> Result<(), Fail> {
    let alloc = rt.alloc();
    let file = file_of_objects(alloc, 1000, 2)?;
    let (disk, _) = migrated(alloc, &file, &of_two_objects(alloc)?)?;
    let other = Some(OpenFault::Version { byte: 2 });
    assert_eq!(rt; refusal_of(alloc, disk), other);
    Ok(())
}

#[test]
fn what_does_not_fit_is_not_migrated(rt: HostRuntime) -> Result<(), Fail> {
    let alloc = rt.alloc();
    let file = file_of_objects(alloc, 147, 1)?;
    assert_eq!(rt; file.len(), 179);
    // A counter's body and an object's, each with its 57 bytes.
    let (disk, fault) = migrated(alloc, &file, &records_of(alloc, 9, 165)?)?;
    assert_eq!(rt; fault, full(2, 288));
    assert_eq!(rt; disk.file(), file.as_slice());
    Ok(())
}

#[test]
fn a_journal_of_format_1_gives_its_disk_back(rt: HostRuntime) -> Result<(), Fail> {
    let alloc = rt.alloc();
    let file = bytes_of(alloc, first_example())?;
    let (first, _) = opened(alloc, &file)?;
    assert_eq!(rt; first.into_disk().file(), file.as_slice());
    Ok(())
}

// Whether a migration was done that this many calls of the disk pass, and its disk.
fn migrated_after(alloc: Global, passes: u64) -> Result<(bool, MemoryDisk), Fail> {
    let disk = MemoryDisk::new(alloc, &bytes_of(alloc, first_example())?, &[])?;
    let fused = FusedDisk::new(disk, passes);
    let first = match Journal::open_first(alloc, fused) {
        Ok((first, _)) => first,
        Err((fused, _)) => return Ok((false, fused.into_inner())),
    };
    match first.migrate(&three(alloc)?) {
        Ok(journal) => Ok((true, journal.into_disk().into_inner())),
        Err((fused, _)) => Ok((false, fused.into_inner())),
    }
}

// Whether an image is of one format alone, and of format 2 once the migration was done.
fn is_one_of_two(alloc: Global, image: &[u8], done: bool) -> Result<bool, Fail> {
    let second = Journal::open(alloc, MemoryDisk::new(alloc, image, &[])?).is_ok();
    let first = Journal::open_first(alloc, MemoryDisk::new(alloc, image, &[])?).is_ok();
    Ok(second != first && (second || !done))
}

// The same of all that are listed.
fn are_of_two(alloc: Global, disk: &MemoryDisk, done: bool) -> Result<bool, Fail> {
    let images = disk.images()?;
    for index in 0..images.len() {
        if !is_one_of_two(alloc, images.item(index).get(), done)? {
            return Ok(false);
        }
    }
    Ok(true)
}

#[test]
fn every_image_of_a_migration_is_one_of_two_lists(rt: HostRuntime) -> Result<(), Fail> {
    let alloc = rt.alloc();
    for passes in 4..9 {
        let (done, disk) = migrated_after(alloc, passes)?;
        assert_eq!(rt; done, passes == 8);
        assert!(rt; are_of_two(alloc, &disk, done)?, "{passes} calls");
    }
    Ok(())
}
