//! Files that are refused, and where.
use super::{bytes_of, fault_of, file_of, new_journal};
use crate::{Journal, OpenFault};
use disk_core::MemoryDisk;
use std::alloc::Global;
use std::test::Fail;

// What opening a file with these bytes returns: how many records, or the refusal.
pub(super) fn outcome_of(alloc: Global, file: &[u8]) -> Result<Result<usize, OpenFault>, Fail> {
    match Journal::open(alloc, MemoryDisk::new(alloc, file, &[])?) {
        Ok((_, records)) => Ok(Ok(records.len())),
        Err((_, fault)) => Ok(Err(fault)),
    }
}

// The same of an area of 192 bytes on side 0, which begins with these hexadecimal digits.
fn outcome_of_area(alloc: Global, area: &str) -> Result<Result<usize, OpenFault>, Fail> {
    outcome_of(alloc, &file_of(alloc, 192, 0, &bytes_of(alloc, area)?)?)
}

// An area with one record, without the closed gate: the body `a`, number 0 and time 0. The digest is another program's.
fn one_record() -> &'static str {
    "02 01 0000000000000001 0000000000000000 0000000000000000 61 \
     fd1ea5fd96f9b430b5c579e230fb5edc21b52eba8a59b57ef095226f6aecc7ef"
}

// The file with that area and this byte after the record.
pub(super) fn file_with_record(alloc: Global, next_gate: u8) -> Result<Vec<u8>, Fail> {
    let mut area = bytes_of(alloc, one_record())?;
    area.push(next_gate)?;
    file_of(alloc, 192, 0, &area)
}

#[test]
fn a_gate_that_is_not_open_ends_the_list(rt: HostRuntime) -> Result<(), Fail> {
    let alloc = rt.alloc();
    for area in ["02 00", "02 37"] {
        assert_eq!(rt; outcome_of_area(alloc, area)?, Ok(0), "{area}");
    }
    for gate in [0, 2] {
        let file = file_with_record(alloc, gate)?;
        assert_eq!(rt; outcome_of(alloc, &file)?, Ok(1), "gate {gate}");
    }
    Ok(())
}

#[test]
fn an_open_gate_with_no_whole_record_is_damage_at_its_place(rt: HostRuntime) -> Result<(), Fail> {
    let alloc = rt.alloc();
    let first = Err(OpenFault::Damaged { place: 33 });
    for area in ["02", "02 01 01", "02 01 0000000000000000"] {
        assert_eq!(rt; outcome_of_area(alloc, area)?, first, "{area}");
    }
    assert_eq!(rt;
        outcome_of_area(alloc, one_record())?,
        first,
        "no next gate"
    );
    let file = file_with_record(alloc, 1)?;
    let second = Err(OpenFault::Damaged { place: 91 });
    assert_eq!(rt; outcome_of(alloc, &file)?, second, "after a record");
    Ok(())
}

#[test]
fn each_altered_byte_of_a_record_is_damage(rt: HostRuntime) -> Result<(), Fail> {
    let alloc = rt.alloc();
    let file = file_with_record(alloc, 0)?;
    let damaged = Err(OpenFault::Damaged { place: 33 });
    for place in 34..file.len().saturating_sub(1) {
        let mut other = file.clone()?;
        other[place] ^= 1;
        assert_eq!(rt; outcome_of(alloc, &other)?, damaged, "byte {place}");
    }
    Ok(())
}

// The file of a journal in an area of 1,000 bytes to which two bodies of 165 bytes were added.
fn file_of_two(alloc: Global) -> Result<Vec<u8>, Fail> {
    let mut journal = new_journal(alloc, 1000)?;
    let _first = fault_of(alloc, &mut journal, 165)?;
    let _second = fault_of(alloc, &mut journal, 165)?;
    Ok(journal.disk().file().to_vec(alloc)?)
}

// Flips a bit of the byte at this place, if there is one.
fn flip(file: &mut Vec<u8>, place: usize) {
    if let Some(byte) = file.get_mut(place) {
        *byte ^= 1;
    }
}

#[test]
fn a_flipped_bit_of_the_first_body_is_damage(rt: HostRuntime) -> Result<(), Fail> {
    let alloc = rt.alloc();
    let mut file = file_of_two(alloc)?;
    assert_eq!(rt; outcome_of(alloc, &file)?, Ok(2));
    flip(&mut file, 58);
    let damaged = Err(OpenFault::Damaged { place: 33 });
    assert_eq!(rt; outcome_of(alloc, &file)?, damaged);
    Ok(())
}

#[test]
fn a_new_file_with_its_gate_open_and_a_byte_more_is_damage(rt: HostRuntime) -> Result<(), Fail> {
    let alloc = rt.alloc();
    let file = file_of(alloc, 224, 0, &[2, 1, 1])?;
    let damaged = Err(OpenFault::Damaged { place: 33 });
    assert_eq!(rt; outcome_of(alloc, &file)?, damaged);
    Ok(())
}

#[test]
fn another_version_byte_is_reported(rt: HostRuntime) -> Result<(), Fail> {
    let alloc = rt.alloc();
    for byte in [0, 1, 7, 255] {
        let file = file_of(alloc, 224, 0, &[byte, 0])?;
        let want = Err(OpenFault::Version { byte });
        assert_eq!(rt; outcome_of(alloc, &file)?, want, "byte {byte}");
    }
    Ok(())
}

#[test]
fn an_odd_side_byte_names_the_second_area(rt: HostRuntime) -> Result<(), Fail> {
    let alloc = rt.alloc();
    let mut file = file_of(alloc, 64, 3, &vec![in alloc; 0; 64]?)?;
    let none = Err(OpenFault::NotAStore);
    assert_eq!(rt; outcome_of(alloc, &file)?, none, "no version");
    file.push(2)?;
    let no_gate = Err(OpenFault::Damaged { place: 97 });
    assert_eq!(rt; outcome_of(alloc, &file)?, no_gate);
    file.push(0)?;
    assert_eq!(rt; outcome_of(alloc, &file)?, Ok(0));
    Ok(())
}

#[test]
fn another_header_is_no_store(rt: HostRuntime) -> Result<(), Fail> {
    let alloc = rt.alloc();
    let none = Err(OpenFault::NotAStore);
    assert_eq!(rt; outcome_of(alloc, b"")?, none, "empty");
    assert_eq!(rt; outcome_of(alloc, &vec![in alloc; 0; 32]?)?, none, "zeros");
    assert_eq!(rt; outcome_of_area(alloc, "")?, none, "no version");
    for area in [63, 268_435_457] {
        let file = file_of(alloc, area, 0, b"\x02\0")?;
        assert_eq!(rt; outcome_of(alloc, &file)?, none, "area {area}");
    }
    for place in 0..34 {
        let mut file = file_of(alloc, 64, 0, b"\x02\0")?;
        assert_eq!(rt; file.len(), 34);
        file[place] = 3;
        let refused = outcome_of(alloc, &file)? == none;
        assert_eq!(rt;
            refused,
            place < 12 || (15..32).contains(&place),
            "byte {place}"
        );
    }
    Ok(())
}
