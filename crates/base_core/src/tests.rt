//! What no clause says: with ample memory each call that takes memory succeeds.
use crate::{Bytes, Items, counted};
use std::test::Fail;

#[test]
fn bytes_are_copied_and_given_back(rt: HostRuntime) -> Result<(), Fail> {
    let alloc = rt.alloc();
    let bytes = Bytes::of(alloc, b"abc")?;
    assert_eq!(rt; bytes.get(), b"abc".as_slice());
    let vector = bytes.into_vec();
    assert_eq!(rt; vector.as_slice(), b"abc".as_slice());
    let again = Bytes::from(vector);
    assert_eq!(rt; again.get(), b"abc".as_slice());
    Ok(())
}

#[test]
fn a_list_of_bytes_grows_at_its_end(rt: HostRuntime) -> Result<(), Fail> {
    let alloc = rt.alloc();
    let mut list = Items::new(alloc);
    assert!(rt; list.is_empty());
    list.push(Bytes::of(alloc, b"a")?)?;
    list.push(Bytes::of(alloc, b"")?)?;
    assert!(rt; !list.is_empty());
    assert_eq!(rt; list.len(), 2);
    assert_eq!(rt; list.item(0).get(), b"a".as_slice());
    assert_eq!(rt; list.as_slice().len(), 2);
    let vector = list.into_vec();
    let again = Items::from(vector);
    assert_eq!(rt; again.len(), 2);
    assert_eq!(rt; again.item(1).get(), b"".as_slice());
    Ok(())
}

#[test]
fn a_count_of_faults_stays_at_its_last_value(rt: HostRuntime) -> Result<(), Fail> {
    for (before, after) in [
        (0, 1),
        (41, 42),
        (u64::MAX - 1, u64::MAX),
        (u64::MAX, u64::MAX),
    ] {
        assert_eq!(rt; counted(before), after);
    }
    Ok(())
}
