//! Sessions over a store in a file.
use super::day::ACCOUNTS;
use super::*;
use link_core::CallKind;

// A Create by the admin whose identifier is minted.
const CREATE: &str =
    "{\"authentication\":{\"password\":\"bc\",\"username\":\"admin\"},\"input\":{\"type\":\"0.TYPE/DO\"},\"operationId\":\"0.DOIP/Op.Create\",\"targetId\":\"35.TEST/svc\"}\n#\n#\n";

// A Delete of that object.
const DELETE: &str =
    "{\"authentication\":{\"password\":\"bc\",\"username\":\"admin\"},\"operationId\":\"0.DOIP/Op.Delete\",\"targetId\":\"35.TEST/1\"}\n#\n#\n";

// What a Create replies, before and after the number of the identifier.
const CREATED: &str =
    "{\"output\":{\"attributes\":{\"metadata\":{\"createdBy\":\"admin\",\"createdOn\":0,\"modifiedBy\":\"admin\",\"modifiedOn\":0,\"revision\":1}},\"id\":\"35.TEST/";

const CREATED_END: &str = "\",\"type\":\"0.TYPE/DO\"},\"status\":\"0.DOIP/Status.001\"}\n#\n#\n";

const AREA_FULL: &str =
    "{\"attributes\":{\"message\":\"limit: area, 223 used, 223 asked\"},\"status\":\"0.DOIP/Status.101\"}\n#\n#\n";

const DISK_FAULT: &str =
    "{\"attributes\":{\"message\":\"disk fault\"},\"status\":\"0.DOIP/Status.500\"}\n#\n#\n";

const CLOSED: &str =
    "{\"attributes\":{\"message\":\"store closed\"},\"status\":\"0.DOIP/Status.500\"}\n#\n#\n";

const ANSWER: &str = "answer 35.TEST/svc --accounts a --store s";

// A host with the accounts, this file, and a console with a Create and another.
fn host_of(alloc: Global, file: &[u8]) -> Result<MemoryHost, AllocError> {
    let mut host = MemoryHost::new(alloc);
    host.add_file("a", Bytes::of(alloc, ACCOUNTS.as_bytes())?)?;
    host.add_file("s", Bytes::of(alloc, file)?)?;
    let twice = joined(alloc, CREATE.as_bytes(), CREATE.as_bytes())?;
    host.add_console(MemoryLink::of(alloc, &twice)?)?;
    Ok(host)
}

// The file that `init` makes.
fn made(alloc: Global, line: &str) -> Result<Vec<u8>, AllocError> {
    let mut host = MemoryHost::new(alloc);
    Ok(run_over(alloc, line, &mut host)?.file)
}

// The reply to a Create that minted this number.
fn created(alloc: Global, number: &str) -> Result<String, AllocError> {
    format!(in alloc; "{CREATED}{number}{CREATED_END}")
}

// What `check` prints of this file.
fn checked(alloc: Global, file: &[u8]) -> Result<Vec<u8>, AllocError> {
    let mut host = host_of(alloc, file)?;
    Ok(run_over(alloc, "check s", &mut host)?.printed)
}

#[test]
fn what_a_session_created_is_found_again(rt: HostRuntime) -> Result<(), Fail> {
    let alloc = rt.alloc();
    let file = made(alloc, "init s --area 1000")?;
    let ran = run_over(alloc, ANSWER, &mut host_of(alloc, &file)?)?;
    let first = created(alloc, "1")?;
    let second = created(alloc, "2")?;
    let both = joined(alloc, first.as_bytes(), second.as_bytes())?;
    assert!(rt; ran.written == both && ran.status == 0);
    let lines = b"objects 2\ncounter 3\nused 445 of 1000\nside 0\nnumber 2\n";
    assert!(rt; checked(alloc, &ran.file)?.as_slice() == lines.as_slice());
    let again = run_over(alloc, ANSWER, &mut host_of(alloc, &ran.file)?)?;
    assert!(rt; again.written.starts_with(created(alloc, "3")?.as_bytes()));
    Ok(())
}

#[test]
fn a_full_area_is_refused(rt: HostRuntime) -> Result<(), Fail> {
    let alloc = rt.alloc();
    let file = made(alloc, "init s --area 224")?;
    let ran = run_over(alloc, ANSWER, &mut host_of(alloc, &file)?)?;
    let first = created(alloc, "1")?;
    let both = joined(alloc, first.as_bytes(), AREA_FULL.as_bytes())?;
    assert!(rt; ran.written == both && ran.status == 0);
    assert!(rt; ran.file.len() == 256 && ran.file.starts_with(b"DOIPREP1"));
    Ok(())
}

// The second sync of a commit fails: the change may be in the file or not, and the store is closed.
#[test]
fn a_disk_fault_closes_the_store(rt: HostRuntime) -> Result<(), Fail> {
    let alloc = rt.alloc();
    let file = made(alloc, "init s --area 1000")?;
    let mut host = host_of(alloc, &file)?;
    host.fail(CallKind::Sync, 2)?;
    let ran = run_over(alloc, ANSWER, &mut host)?;
    let both = joined(alloc, DISK_FAULT.as_bytes(), CLOSED.as_bytes())?;
    assert!(rt; ran.written == both);
    assert!(rt; ran.status == 6 && ran.note == "disk");
    Ok(())
}

// A file of no store, one that isn't there, and a disk that fails as it is read: no message is taken.
#[test]
fn a_file_that_is_not_opened_has_no_session(rt: HostRuntime) -> Result<(), Fail> {
    let alloc = rt.alloc();
    let ran = run_over(alloc, ANSWER, &mut host_of(alloc, b"x")?)?;
    assert!(rt; ran.status == 3 && ran.note == "store" && ran.end.is_none());
    assert!(rt; ran.file.as_slice() == b"x".as_slice());
    let mut host = host_of(alloc, b"x")?;
    host.fail(CallKind::Length, 1)?;
    let ran = run_over(alloc, ANSWER, &mut host)?;
    assert!(rt; ran.status == 6 && ran.note == "disk" && ran.end.is_none());
    let mut host = host_of(alloc, b"x")?;
    host.fail(CallKind::DiskOpen, 1)?;
    let ran = run_over(alloc, ANSWER, &mut host)?;
    assert!(rt; ran.status == 9 && ran.note == "host");
    Ok(())
}

// Two objects are deleted, and then the list is their counter alone.
#[test]
fn deleted_objects_leave_a_compacted_file(rt: HostRuntime) -> Result<(), Fail> {
    let alloc = rt.alloc();
    let file = made(alloc, "init s --area 1000")?;
    let mut host = MemoryHost::new(alloc);
    host.add_file("a", Bytes::of(alloc, ACCOUNTS.as_bytes())?)?;
    host.add_file("s", Bytes::of(alloc, &file)?)?;
    let both = joined(alloc, CREATE.as_bytes(), DELETE.as_bytes())?;
    host.add_console(MemoryLink::of(alloc, &both)?)?;
    let ran = run_over(alloc, ANSWER, &mut host)?;
    let lines = b"objects 0\ncounter 2\nused 292 of 1000\nside 0\nnumber 2\n";
    assert!(rt; checked(alloc, &ran.file)?.as_slice() == lines.as_slice());
    let ran = run_over(alloc, "compact s", &mut host_of(alloc, &ran.file)?)?;
    assert!(rt; ran.status == 0 && ran.printed.as_slice() == b"used 67 of 1000\n".as_slice());
    let lines = b"objects 0\ncounter 2\nused 67 of 1000\nside 1\nnumber 2\n";
    assert!(rt; checked(alloc, &ran.file)?.as_slice() == lines.as_slice());
    Ok(())
}
