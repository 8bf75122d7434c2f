//! `init`, `check`, `compact` and `migrate` over memory.
use crate::check::check_file;
use crate::compact::compact_at;
use crate::file_run::FileEnd;
use crate::init::make_file;
use crate::migrate::migrate_at;
use disk_core::MemoryDisk;
use doip_json::Bytes;
use link_core::{MemoryHost, MemorySink, Script};
use repo_store::StoreFault;
use std::alloc::{AllocError, Global};
use std::test::Fail;

// A host with this file at the path `s`.
fn host_with(alloc: Global, file: &[u8]) -> Result<MemoryHost, AllocError> {
    let mut host = MemoryHost::new(alloc);
    host.add_file("s", Bytes::of(alloc, file)?)?;
    Ok(host)
}

// A new file with areas of so many bytes, and then these bytes.
fn file_with(alloc: Global, area: u8, more: &[u8]) -> Result<Vec<u8>, AllocError> {
    let mut file = Vec::from_slice(alloc, b"DOIPREP1\0\0\0\0\0\0\0")?;
    file.push(area)?;
    file.extend_from_slice(&[0; 16])?;
    file.extend_from_slice(more)?;
    Ok(file)
}

// The same with areas of 224 bytes.
fn new_file(alloc: Global, more: &[u8]) -> Result<Vec<u8>, AllocError> {
    file_with(alloc, 224, more)
}

// The end, as a word.
fn word(end: &FileEnd) -> &'static str {
    match end {
        FileEnd::Done => "done",
        FileEnd::Out => "out",
        FileEnd::NotEmpty { length: 34 } => "34 bytes",
        FileEnd::Full { used: 2, asked: 66 } => "full",
        FileEnd::Store(StoreFault::NotAStore) => "no store",
        FileEnd::Store(StoreFault::Version { byte: 7 }) => "version 7",
        FileEnd::Store(StoreFault::Damaged { place: 33 }) => "damaged at 33",
        _ => "another end",
    }
}

fn is_left(disk: &Option<MemoryDisk>, file: &[u8]) -> bool {
    match disk {
        Some(disk) => disk.file() == file,
        None => false,
    }
}

// Whether `init` over this file ends so, prints this text and leaves that file.
fn makes(
    alloc: Global,
    file: &[u8],
    writes: Script,
    end: &str,
    text: &str,
    after: &[u8],
) -> Result<bool, AllocError> {
    let mut host = host_with(alloc, file)?;
    let mut out = MemorySink::new(alloc, writes);
    let run = make_file("s", 224, &mut host, &mut out);
    let ends = word(&run.end) == end && out.written() == text.as_bytes();
    Ok(ends && is_left(&run.disk, after))
}

// Whether `check` of this file ends so, prints this text, and leaves the file.
fn checks(alloc: Global, file: &[u8], end: &str, text: &str) -> Result<bool, AllocError> {
    let mut host = host_with(alloc, file)?;
    let mut out = MemorySink::new(alloc, Script::free(alloc));
    let run = check_file(alloc, "s", &mut host, &mut out);
    let ends = word(&run.end) == end && out.written() == text.as_bytes();
    Ok(ends && is_left(&run.disk, file))
}

#[test]
fn an_empty_file_becomes_a_new_one(rt: HostRuntime) -> Result<(), Fail> {
    let alloc = rt.alloc();
    let new = new_file(alloc, b"\x02\0")?;
    let free = Script::free(alloc);
    assert!(rt; makes(alloc, b"", free, "done", "made 224\n", &new)?);
    let free = Script::free(alloc);
    assert!(rt; makes(alloc, &new, free, "34 bytes", "", &new)?);
    Ok(())
}

#[test]
fn a_file_is_made_before_its_line_is_printed(rt: HostRuntime) -> Result<(), Fail> {
    let alloc = rt.alloc();
    let new = new_file(alloc, b"\x02\0")?;
    let lengths = Vec::from_slice(alloc, &[3])?;
    let writes = Script::new(alloc, lengths, Vec::from_slice(alloc, &[2])?);
    assert!(rt; makes(alloc, b"", writes, "out", "mad", &new)?);
    Ok(())
}

#[test]
fn a_new_file_holds_nothing(rt: HostRuntime) -> Result<(), Fail> {
    let alloc = rt.alloc();
    let new = new_file(alloc, b"\x02\0")?;
    let lines = "objects 0\ncounter 1\nused 1 of 224\nside 0\nnumber 0\n";
    assert!(rt; checks(alloc, &new, "done", lines)?);
    Ok(())
}

#[test]
fn a_file_of_no_store_is_refused(rt: HostRuntime) -> Result<(), Fail> {
    let alloc = rt.alloc();
    assert!(rt; checks(alloc, b"", "no store", "")?);
    assert!(rt; checks(alloc, &[0; 32], "no store", "")?);
    Ok(())
}

#[test]
fn other_bytes_of_a_store_are_refused(rt: HostRuntime) -> Result<(), Fail> {
    let alloc = rt.alloc();
    let other = new_file(alloc, b"\x07\0")?;
    assert!(rt; checks(alloc, &other, "version 7", "")?);
    let open = new_file(alloc, b"\x02\x01\x01")?;
    assert!(rt; checks(alloc, &open, "damaged at 33", "")?);
    Ok(())
}

// The file of a run, or none.
fn file_of(alloc: Global, disk: &Option<MemoryDisk>) -> Result<Vec<u8>, AllocError> {
    match disk {
        Some(disk) => Vec::from_slice(alloc, disk.file()),
        None => Ok(Vec::new(alloc)),
    }
}

// The file that `compact` leaves, if it ends so and prints this text, else none.
fn compacted(alloc: Global, file: &[u8], end: &str, text: &str) -> Result<Vec<u8>, AllocError> {
    let mut host = host_with(alloc, file)?;
    let mut out = MemorySink::new(alloc, Script::free(alloc));
    let run = compact_at(alloc, "s", &mut host, &mut out);
    if word(&run.end) == end && out.written() == text.as_bytes() {
        return file_of(alloc, &run.disk);
    }
    Ok(Vec::new(alloc))
}

// The same of `migrate`.
fn migrated(alloc: Global, file: &[u8], end: &str, text: &str) -> Result<Vec<u8>, AllocError> {
    let mut host = host_with(alloc, file)?;
    let mut out = MemorySink::new(alloc, Script::free(alloc));
    let run = migrate_at(alloc, "s", &mut host, &mut out);
    if word(&run.end) == end && out.written() == text.as_bytes() {
        return file_of(alloc, &run.disk);
    }
    Ok(Vec::new(alloc))
}

#[test]
fn a_new_file_is_compacted_to_its_counter(rt: HostRuntime) -> Result<(), Fail> {
    let alloc = rt.alloc();
    let new = new_file(alloc, b"\x02\0")?;
    let after = compacted(alloc, &new, "done", "used 67 of 224\n")?;
    let lines = "objects 0\ncounter 1\nused 67 of 224\nside 1\nnumber 0\n";
    assert!(rt; checks(alloc, &after, "done", lines)?);
    Ok(())
}

// An area of 66 bytes has no room for a counter's record, the version byte and a gate.
#[test]
fn a_list_that_does_not_fit_is_refused(rt: HostRuntime) -> Result<(), Fail> {
    let alloc = rt.alloc();
    let small = file_with(alloc, 66, b"\x02\0")?;
    assert!(rt; compacted(alloc, &small, "full", "")? == small);
    let first = file_with(alloc, 66, b"\x01\0")?;
    assert!(rt; migrated(alloc, &first, "full", "")? == first);
    Ok(())
}

#[test]
fn a_file_of_format_1_is_brought_over_once(rt: HostRuntime) -> Result<(), Fail> {
    let alloc = rt.alloc();
    let old = new_file(alloc, b"\x01\0")?;
    let after = migrated(alloc, &old, "done", "migrated 0\n")?;
    let lines = "objects 0\ncounter 1\nused 67 of 224\nside 1\nnumber 1\n";
    assert!(rt; checks(alloc, &after, "done", lines)?);
    assert!(rt; migrated(alloc, &after, "done", "already 2\n")? == after);
    Ok(())
}

#[test]
fn what_is_no_store_is_not_written_anew(rt: HostRuntime) -> Result<(), Fail> {
    let alloc = rt.alloc();
    let other = new_file(alloc, b"\x07\0")?;
    assert!(rt; compacted(alloc, &other, "version 7", "")? == other);
    assert!(rt; migrated(alloc, &other, "version 7", "")? == other);
    let open = new_file(alloc, b"\x02\x01\x01")?;
    assert!(rt; compacted(alloc, &open, "damaged at 33", "")? == open);
    let first = new_file(alloc, b"\x01\x01\x01")?;
    assert!(rt; migrated(alloc, &first, "damaged at 33", "")? == first);
    Ok(())
}
