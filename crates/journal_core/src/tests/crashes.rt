//! Crashes at every call of a run, with every image that is listed opened again.
ghost use Rattle.std.specs.List.{All};
ghost use Rattle.journal_core.specs.Journal.{IsNumbered};

use super::damage::{file_with_record, outcome_of};
use super::{stamp, three};
use crate::{Journal, OpenFault, Records, init};
use disk_core::{Disk, FusedDisk, MemoryDisk};
use std::alloc::Global;
use std::test::Fail;

/// How many commits a run makes before its compaction.
const COMMITS: u8 = 30;

// What a run was told: how many commits were done, and whether the compaction was.
#[derive(Drop)]
struct Told {
    commits: u8,
    compacted: bool,
}

// Opens a journal, adds thirty bodies of three bytes, and compacts to other records, as far as the disk lets it.
fn run<D: Disk>(alloc: Global, disk: D, entries: &Records) -> (D, Told)
    requires { All IsNumbered entries.now }
{
    let mut told = Told {
        commits: 0,
        compacted: false,
    };
    let mut journal = match Journal::open(alloc, disk) {
        Ok((journal, _)) => journal,
        Err((disk, _)) => return (disk, told),
    };
    'bodies: for number in 0..COMMITS {
        match journal.commit(stamp(number as u64 + 1), &[number; 3]) {
            Ok(_) => told.commits = number + 1,
            Err(_) => return (journal.into_disk(), told),
        }
    }
    told.compacted = journal.compact(entries).is_ok();
    (journal.into_disk(), told)
}

// Whether these are the first bodies of a run.
fn are_first(records: &Records) -> bool {
    'rows: for index in 0..records.len() {
        let body = records.item(index).body.get();
        if body.len() != 3 || body.iter().any(|byte| *byte as usize != index) {
            return false;
        }
    }
    true
}

// Whether the image holds what the run was told, and at most the change that was under way.
fn holds_told(alloc: Global, image: &[u8], told: &Told) -> Result<bool, Fail> {
    let Ok((_, records)) = Journal::open(alloc, MemoryDisk::new(alloc, image, &[])?) else {
        return Ok(false);
    };
    let count = records.len();
    let commits = told.commits as usize;
    let new = told.commits == COMMITS && count == 3 && !are_first(&records);
    let old = !told.compacted && count >= commits && count <= commits + 1 && are_first(&records);
    Ok(new || old)
}

#[test]
fn every_image_of_thirty_commits_and_a_compaction_is_a_list_so_far(
    rt: HostRuntime,
) -> Result<(), Fail> {
    let alloc = rt.alloc();
    let entries = three(alloc)?;
    // Four calls open the file, six make a commit and four the compaction, so the last run meets no fault.
    for passes in 0..189 {
        let (disk, told) = run(alloc, FusedDisk::new(new_disk(alloc)?, passes), &entries);
        assert_eq!(rt; told.compacted, passes == 188);
        assert!(rt;
            all_hold(alloc, &disk.into_inner(), &told)?,
            "{passes} calls"
        );
    }
    Ok(())
}

// A disk with a new file.
fn new_disk(alloc: Global) -> Result<MemoryDisk, Fail> {
    match init(MemoryDisk::new(alloc, &[], &[])?, 2048) {
        Ok(made) => Ok(made),
        Err(_) => Err("no file was made".into()),
    }
}

// Whether each image that is listed holds what the run was told.
fn all_hold(alloc: Global, disk: &MemoryDisk, told: &Told) -> Result<bool, Fail> {
    let images = disk.images()?;
    for index in 0..images.len() {
        if !holds_told(alloc, images.item(index).get(), told)? {
            return Ok(false);
        }
    }
    Ok(true)
}

#[test]
fn a_torn_gate_of_any_value_shows_one_list(rt: HostRuntime) -> Result<(), Fail> {
    let alloc = rt.alloc();
    for gate in 0..=255u8 {
        let mut file = file_with_record(alloc, 0)?;
        assert!(rt; file.len() > 33);
        file[33] = gate;
        let records = if gate == 1 { 1 } else { 0 };
        assert_eq!(rt; outcome_of(alloc, &file)?, Ok(records), "gate {gate}");
    }
    Ok(())
}

// The disk of an `init` that the given number of calls passes.
fn made_with(alloc: Global, passes: u64) -> Result<MemoryDisk, Fail> {
    let fused = FusedDisk::new(MemoryDisk::new(alloc, &[], &[])?, passes);
    match init(fused, 64) {
        Ok(fused) => Ok(fused.into_inner()),
        Err((fused, _)) => Ok(fused.into_inner()),
    }
}

#[test]
fn every_image_of_a_new_file_is_no_store_or_empty(rt: HostRuntime) -> Result<(), Fail> {
    let alloc = rt.alloc();
    for passes in 3..6 {
        let disk = made_with(alloc, passes)?;
        let images = disk.images()?;
        for index in 0..images.len() {
            let outcome = outcome_of(alloc, images.item(index).get())?;
            assert!(rt; outcome == Ok(0) || outcome == Err(OpenFault::NotAStore));
        }
    }
    Ok(())
}
