//! What no clause says: bytes that were put together by another program, and each field of a body damaged once.
ghost use Rattle.record_core.specs.Storable.{IsStorable};

use crate::{
    Change, MOST_COUNTER, RecordFault, body_length, body_of, change_of, change_of_first,
    put_body_of,
};
use std::alloc::Global;
use std::test::Fail;

// The bytes that these hexadecimal digits are, in groups of any length.
fn bytes_of(alloc: Global, text: &str) -> Result<Vec<u8>, Fail> {
    let mut digits = Vec::new(alloc);
    'digits: for byte in text.as_bytes() {
        if *byte != b' ' {
            digits.push(*byte)?;
        }
    }
    match hex::decode(alloc, &digits) {
        Ok(bytes) => Ok(bytes),
        Err(_) => Err("not hexadecimal".into()),
    }
}

// The put of docs/FORMATS.md: `35.TEST/1` of type `0.TYPE/DO`, created by admin at the unknown time, identifier minted.
fn created() -> &'static str {
    "01 0000000000000002 00000094 \
     7b2261747472696275746573223a7b226d65746164617461223a7b22637265617465644279223a2261646d696e222c22 \
     637265617465644f6e223a302c226d6f6469666965644279223a2261646d696e222c226d6f6469666965644f6e223a30 \
     2c227265766973696f6e223a317d7d2c226964223a2233352e544553542f31222c2274797065223a22302e545950452f \
     444f227d 00000000"
}

// The same in format 1.
fn created_first() -> &'static str {
    "01 0000000000000002 00000077 \
     7b2261747472696275746573223a7b226d65746164617461223a7b22637265617465644279223a2261646d696e222c22 \
     6d6f6469666965644279223a2261646d696e222c227265766973696f6e223a317d7d2c226964223a2233352e54455354 \
     2f31222c2274797065223a22302e545950452f444f227d 00000000"
}

// A put of `35.TEST/f` with content and two elements: `a` of the bytes `xyz`, with a type and attributes, and `b` with
// no bytes.
fn with_elements() -> &'static str {
    "01 0000000000000000 0000010d \
     7b2261747472696275746573223a7b22636f6e74656e74223a7b226e223a317d2c226d65746164617461223a7b226372 \
     65617465644279223a2261646d696e222c22637265617465644f6e223a313030302c226d6f6469666965644279223a22 \
     626f62222c226d6f6469666965644f6e223a323030302c227265766973696f6e223a327d7d2c22656c656d656e747322 \
     3a5b7b2261747472696275746573223a7b226b223a5b5d7d2c226964223a2261222c226c656e677468223a332c227479 \
     7065223a22746578742f706c61696e227d2c7b226964223a2262222c226c656e677468223a307d5d2c226964223a2233 \
     352e544553542f66222c2274797065223a22302e545950452f444f227d \
     00000002 0000000000000003 78797a 0000000000000000"
}

// The change that these bytes are, which is written as the same bytes again.
fn read_and_written(alloc: Global, bytes: &[u8]) -> Result<Change, Fail> {
    let Ok(change) = change_of(alloc, bytes) else {
        return Err("not read".into());
    };
    if has_body(alloc, &change, bytes)? {
        Ok(change)
    } else {
        Err("written otherwise".into())
    }
}

// Whether this is the body of the change, and its length.
fn has_body(alloc: Global, change: &Change, bytes: &[u8]) -> Result<bool, Fail>
    requires { IsStorable change.now }
{
    let body = body_of(alloc, change)?;
    let is_same = is_body_of_lent(alloc, change, bytes)?;
    Ok(is_same && body.get() == bytes && body_length(change) == bytes.len() as u64)
}

// Whether a put whose object is lent has this body.
fn is_body_of_lent(alloc: Global, change: &Change, bytes: &[u8]) -> Result<bool, Fail>
    requires { IsStorable change.now }
{
    match change {
        Change::Put { object, counter } => {
            let body = put_body_of(alloc, object, *counter)?;
            Ok(body.get() == bytes)
        }
        _ => Ok(true),
    }
}

// Whether the change is a put for which the test passes.
fn puts(change: &Change, wanted: Option<u64>, id: &str, modified_on: u64) -> bool {
    match change {
        Change::Put { object, counter } => {
            *counter == wanted
                && object.id().get() == id
                && object.type_name().get() == "0.TYPE/DO"
                && object.metadata().created_by.get() == "admin"
                && object.metadata().modified_on == modified_on
        }
        _ => false,
    }
}

// Whether the change puts an object whose element of this identifier has these bytes.
fn has_element(change: &Change, id: &str, bytes: &[u8]) -> bool {
    match change {
        Change::Put { object, counter: _ } => match object.elements().get(id) {
            Some(element) => element.bytes.get() == bytes,
            None => false,
        },
        _ => false,
    }
}

// Whether these bytes are refused as a record, in format 2.
fn is_refused(alloc: Global, bytes: &[u8]) -> bool {
    matches!(change_of(alloc, bytes), Err(RecordFault::NotARecord))
}

#[test]
fn a_created_object_has_these_bytes(rt: HostRuntime) -> Result<(), Fail> {
    let alloc = rt.alloc();
    let bytes = bytes_of(alloc, created())?;
    assert_eq!(rt; bytes.len(), 165);
    let change = read_and_written(alloc, &bytes)?;
    assert!(rt; puts(&change, Some(2), "35.TEST/1", 0));
    Ok(())
}

#[test]
fn elements_have_their_bytes_after_the_text(rt: HostRuntime) -> Result<(), Fail> {
    let alloc = rt.alloc();
    let bytes = bytes_of(alloc, with_elements())?;
    let change = read_and_written(alloc, &bytes)?;
    assert!(rt; puts(&change, None, "35.TEST/f", 2000));
    assert!(rt; has_element(&change, "a", b"xyz") && has_element(&change, "b", b""));
    Ok(())
}

// The change that these bytes are in format 1.
fn first_change(alloc: Global, bytes: &[u8]) -> Result<Change, Fail> {
    match change_of_first(alloc, bytes) {
        Ok(change) => Ok(change),
        Err(_) => Err("not read".into()),
    }
}

#[test]
fn format_1_has_no_times(rt: HostRuntime) -> Result<(), Fail> {
    let alloc = rt.alloc();
    let old = bytes_of(alloc, created_first())?;
    assert_eq!(rt; old.len(), 136);
    let change = first_change(alloc, &old)?;
    assert!(rt; puts(&change, Some(2), "35.TEST/1", 0));
    assert!(rt; is_refused(alloc, &old));
    Ok(())
}

#[test]
fn format_2_is_not_read_as_format_1(rt: HostRuntime) -> Result<(), Fail> {
    let alloc = rt.alloc();
    let new = bytes_of(alloc, created())?;
    let refused = matches!(change_of_first(alloc, &new), Err(RecordFault::NotARecord));
    assert!(rt; refused);
    Ok(())
}

#[test]
fn a_removal_and_a_counter_have_these_bytes(rt: HostRuntime) -> Result<(), Fail> {
    let alloc = rt.alloc();
    let removal = read_and_written(alloc, &bytes_of(alloc, "02 0009 33352e544553542f31")?)?;
    let removes = match &removal {
        Change::Remove { id } => id.get() == "35.TEST/1",
        _ => false,
    };
    assert!(rt; removes);
    let counter = read_and_written(alloc, &bytes_of(alloc, "03 4000000000000000")?)?;
    let counts = match &counter {
        Change::Counter { n } => *n == MOST_COUNTER,
        _ => false,
    };
    assert!(rt; counts);
    Ok(())
}

#[test]
fn other_bytes_are_no_removal_and_no_counter(rt: HostRuntime) -> Result<(), Fail> {
    let alloc = rt.alloc();
    for text in [
        "",
        "00",
        "04",
        "02 0009 33352e544553542f",
        "02 0009 33352e544553542f3131",
        "02 000a 33352e544553542f31",
        "02 0000",
        "02 0001 ff",
        "02 00",
        "03 0000000000000000",
        "03 4000000000000001",
        "03 00000000000001",
        "03 0000000000000001 00",
    ] {
        let bytes = bytes_of(alloc, text)?;
        assert!(rt; is_refused(alloc, &bytes), "{text}");
    }
    Ok(())
}

// A put of `35.TEST/1` that was created at this time, which has twenty digits.
fn created_at(alloc: Global, time: &str) -> Result<Vec<u8>, Fail> {
    let mut body = bytes_of(alloc, "01 0000000000000002 000000a7")?;
    let before = r#"{"attributes":{"metadata":{"createdBy":"admin","createdOn":"#;
    let after =
        r#","modifiedBy":"admin","modifiedOn":0,"revision":1}},"id":"35.TEST/1","type":"0.TYPE/DO"}"#;
    body.extend_from_slice(before.as_bytes())?;
    body.extend_from_slice(time.as_bytes())?;
    body.extend_from_slice(after.as_bytes())?;
    body.extend_from_slice(&[0, 0, 0, 0])?;
    Ok(body)
}

// Whether a put that was created at this time is read, and written as the same bytes.
fn is_time(alloc: Global, time: &str) -> Result<bool, Fail> {
    let body = created_at(alloc, time)?;
    match change_of(alloc, &body) {
        Ok(change) => has_body(alloc, &change, &body),
        Err(_) => Ok(false),
    }
}

#[test]
fn a_time_has_64_bits(rt: HostRuntime) -> Result<(), Fail> {
    let alloc = rt.alloc();
    assert!(rt; is_time(alloc, "18446744073709551615")?);
    let past = created_at(alloc, "18446744073709551616")?;
    assert!(rt; is_refused(alloc, &past));
    Ok(())
}

// The body with another byte at a place.
fn damaged(alloc: Global, body: &[u8], place: usize, byte: u8) -> Result<Vec<u8>, Fail> {
    let mut other = body.to_vec(alloc)?;
    match other.get_mut(place) {
        Some(there) => *there = byte,
        None => return Err("no such place".into()),
    }
    Ok(other)
}

#[test]
fn each_damaged_field_of_a_put_is_refused(rt: HostRuntime) -> Result<(), Fail> {
    let alloc = rt.alloc();
    let body = bytes_of(alloc, with_elements())?;
    for (what, place, byte) in [
        ("the kind", 0, 2),
        ("a counter above 2^62", 1, 0x41),
        ("a longer text", 12, 0x0e),
        ("a shorter text", 12, 0x0c),
        ("no JSON", 13, b'['),
        ("an unknown property", 15, b'b'),
        ("keys that do not ascend", 29, b'z'),
        ("a number with a leading zero", 90, b'0'),
        ("revision 0", 143, b'0'),
        ("a length that differs", 200, b'4'),
        ("two elements of one identifier", 230, b'a'),
        ("one element", 285, 1),
        ("three elements", 285, 3),
        ("a longer element", 293, 4),
        ("a shorter element", 293, 2),
        ("an element with a byte", 304, 1),
    ] {
        let other = damaged(alloc, &body, place, byte)?;
        assert!(rt; is_refused(alloc, &other), "{what}");
    }
    let mut longer = body.clone()?;
    longer.push(0)?;
    assert!(rt; is_refused(alloc, &longer), "a byte more");
    assert!(rt;
        is_refused(alloc, &body[..body.len().saturating_sub(1)]),
        "a byte less"
    );
    Ok(())
}
