//! Tables from records, and records from tables. The bodies are those of docs/FORMATS.md, and one that was put together
//! by another program.
use crate::{Replay, ReplayFault, Table};
use base_core::{Bytes, Items};
use journal_core::{Record, Records, Stamp};
use record_core::RecordFault;
use std::alloc::Global;
use std::test::Fail;

// The put of `35.TEST/1`, whose identifier was minted, with the counter 2 afterwards.
fn minted() -> &'static str {
    "01 0000000000000002 00000094 \
     7b2261747472696275746573223a7b226d65746164617461223a7b22637265617465644279223a2261646d696e222c22 \
     637265617465644f6e223a302c226d6f6469666965644279223a2261646d696e222c226d6f6469666965644f6e223a30 \
     2c227265766973696f6e223a317d7d2c226964223a2233352e544553542f31222c2274797065223a22302e545950452f \
     444f227d 00000000"
}

// The same in format 1.
fn minted_first() -> &'static str {
    "01 0000000000000002 00000077 \
     7b2261747472696275746573223a7b226d65746164617461223a7b22637265617465644279223a2261646d696e222c22 \
     6d6f6469666965644279223a2261646d696e222c227265766973696f6e223a317d7d2c226964223a2233352e54455354 \
     2f31222c2274797065223a22302e545950452f444f227d 00000000"
}

// The put of the same object in format 2 with no counter.
fn unminted() -> &'static str {
    "01 0000000000000000 00000094 \
     7b2261747472696275746573223a7b226d65746164617461223a7b22637265617465644279223a2261646d696e222c22 \
     637265617465644f6e223a302c226d6f6469666965644279223a2261646d696e222c226d6f6469666965644f6e223a30 \
     2c227265766973696f6e223a317d7d2c226964223a2233352e544553542f31222c2274797065223a22302e545950452f \
     444f227d 00000000"
}

// The put of `35.TEST/f`, which was changed at the time 2000, with content and two elements.
fn with_elements() -> &'static str {
    "01 0000000000000000 0000010d \
     7b2261747472696275746573223a7b22636f6e74656e74223a7b226e223a317d2c226d65746164617461223a7b226372 \
     65617465644279223a2261646d696e222c22637265617465644f6e223a313030302c226d6f6469666965644279223a22 \
     626f62222c226d6f6469666965644f6e223a323030302c227265766973696f6e223a327d7d2c22656c656d656e747322 \
     3a5b7b2261747472696275746573223a7b226b223a5b5d7d2c226964223a2261222c226c656e677468223a332c227479 \
     7065223a22746578742f706c61696e227d2c7b226964223a2262222c226c656e677468223a307d5d2c226964223a2233 \
     352e544553542f66222c2274797065223a22302e545950452f444f227d \
     00000002 0000000000000003 78797a 0000000000000000"
}

// The bytes that these hexadecimal digits are, in groups of any length.
fn bytes_of(alloc: Global, text: &str) -> Result<Vec<u8>, Fail> {
    let mut digits = Vec::new(alloc);
    'digits: for byte in text.as_bytes() {
        if *byte != b' ' {
            digits.push(*byte)?;
        }
    }
    match hex::decode(alloc, &digits) {
        Ok(bytes) => Ok(bytes),
        Err(_) => Err("not hexadecimal".into()),
    }
}

// Adds a record with this number and the time 5.
fn add(alloc: Global, records: &mut Records, number: u64, text: &str) -> Result<(), Fail> {
    let body = Bytes::from(bytes_of(alloc, text)?);
    records.push(Record {
        stamp: Stamp { number, time: 5 },
        body,
    })?;
    Ok(())
}

// Whether the record at this place has this stamp and body.
fn is_at(
    alloc: Global,
    records: &Records,
    place: usize,
    stamp: Stamp,
    text: &str,
) -> Result<bool, Fail> {
    if place >= records.len() {
        return Ok(false);
    }
    let body = bytes_of(alloc, text)?;
    let record = records.item(place);
    Ok(record.stamp == stamp && record.body.get() == body.as_slice())
}

fn opened(alloc: Global, records: &Records) -> Result<Table, Fail> {
    match Table::replay(alloc, records) {
        Ok(table) => Ok(table),
        Err(_) => Err("no table".into()),
    }
}

fn opened_first(alloc: Global, records: &Records) -> Result<Table, Fail> {
    match Table::replay_first(alloc, records) {
        Ok(table) => Ok(table),
        Err(_) => Err("no table".into()),
    }
}

// The records of the table that a journal with these two gives.
fn compacted(alloc: Global) -> Result<Records, Fail> {
    let mut records = Items::new(alloc);
    add(alloc, &mut records, 1, with_elements())?;
    add(alloc, &mut records, 2, minted())?;
    let table = opened(alloc, &records)?;
    Ok(table.records()?)
}

#[test]
fn a_table_has_its_counter_and_its_objects_as_records(rt: HostRuntime) -> Result<(), Fail> {
    let alloc = rt.alloc();
    let records = compacted(alloc)?;
    let then = Stamp { number: 2, time: 0 };
    let changed = Stamp {
        number: 2,
        time: 2000,
    };
    assert_eq!(rt; records.len(), 3);
    assert!(rt; is_at(alloc, &records, 0, then, "03 0000000000000002")?);
    assert!(rt; is_at(alloc, &records, 1, then, unminted())?);
    assert!(rt; is_at(alloc, &records, 2, changed, with_elements())?);
    Ok(())
}

#[test]
fn records_give_their_table_again(rt: HostRuntime) -> Result<(), Fail> {
    let alloc = rt.alloc();
    let records = compacted(alloc)?;
    let table = opened(alloc, &records)?;
    assert_eq!(rt; table.count(), 2);
    assert_eq!(rt; table.counter(), 2);
    assert_eq!(rt; table.number(), 2);
    assert_eq!(rt; table.compacted()?.len(), 3);
    Ok(())
}

// The records of the table that a journal of format 1 with one object gives.
fn migrated(alloc: Global) -> Result<Records, Fail> {
    let mut records = Items::new(alloc);
    add(alloc, &mut records, 0, minted_first())?;
    let table = opened_first(alloc, &records)?;
    Ok(table.records()?)
}

#[test]
fn a_journal_of_format_1_counts_as_one_change(rt: HostRuntime) -> Result<(), Fail> {
    let alloc = rt.alloc();
    let records = migrated(alloc)?;
    let then = Stamp { number: 1, time: 0 };
    assert_eq!(rt; records.len(), 2);
    assert!(rt; is_at(alloc, &records, 0, then, "03 0000000000000002")?);
    assert!(rt; is_at(alloc, &records, 1, then, unminted())?);
    let table = opened_first(alloc, &Items::new(alloc))?;
    assert_eq!(rt; table.number(), 1);
    Ok(())
}

// The place of the record that is refused.
fn refused(alloc: Global, records: &Records) -> Option<usize> {
    match Table::replay(alloc, records) {
        Err(ReplayFault::NotARecord { index }) => Some(index),
        _ => None,
    }
}

#[test]
fn the_first_other_body_is_refused(rt: HostRuntime) -> Result<(), Fail> {
    let alloc = rt.alloc();
    let mut records = Items::new(alloc);
    add(alloc, &mut records, 1, minted())?;
    add(alloc, &mut records, 2, minted_first())?;
    add(alloc, &mut records, 3, "04")?;
    assert_eq!(rt; refused(alloc, &records), Some(1));
    Ok(())
}

#[test]
fn records_are_taken_one_at_a_time(rt: HostRuntime) -> Result<(), Fail> {
    let alloc = rt.alloc();
    let mut replay = Replay::new(alloc);
    let first = Stamp { number: 4, time: 0 };
    let body = bytes_of(alloc, "03 0000000000000007")?;
    assert!(rt; replay.follows(first));
    assert!(rt; replay.record(first, &body).is_ok());
    assert!(rt; !replay.follows(Stamp { number: 3, time: 9 }));
    assert!(rt; replay.first_record(first, &body).is_ok());
    let refused = matches!(replay.record(first, b"\x04"), Err(RecordFault::NotARecord));
    assert!(rt; refused);
    let table = super::table_of(replay)?;
    assert_eq!(rt; table.counter(), 7);
    assert_eq!(rt; table.number(), 4);
    Ok(())
}
