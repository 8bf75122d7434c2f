//! What no clause says: which images are listed, and that with ample memory no call fails but those that are to.
use crate::{Disk, DiskCall, Failed, Failing, FusedDisk, MemoryDisk};
use std::test::Fail;

#[test]
fn a_torn_byte_leaves_these_images_and_a_synced_one_leaves_the_file(
    rt: HostRuntime,
) -> Result<(), Fail> {
    let alloc = rt.alloc();
    let mut disk = MemoryDisk::new(alloc, b"abc", &[])?;
    assert_eq!(rt; disk.write_at(1, b"x"), Ok(()));
    let images = disk.images()?;
    let wanted: [&[u8]; 7] = [
        b"abc", b"a\0c", b"a\x01c", b"a\x02c", b"a\xffc", b"axc", b"axc",
    ];
    assert_eq!(rt; images.len(), 7);
    for index in 0..7 {
        assert_eq!(rt; images.item(index).get(), wanted[index]);
    }
    assert_eq!(rt; disk.sync(), Ok(()));
    let images = disk.images()?;
    assert_eq!(rt; images.len(), 2);
    assert_eq!(rt; images.item(0).get(), b"axc".as_slice());
    assert_eq!(rt; images.item(1).get(), b"axc".as_slice());
    assert_eq!(rt; disk.starved, 0);
    Ok(())
}

#[test]
fn a_torn_piece_is_whole_missing_half_or_other_bytes(rt: HostRuntime) -> Result<(), Fail> {
    let alloc = rt.alloc();
    let mut disk = MemoryDisk::new(alloc, b"abc", &[])?;
    assert_eq!(rt; disk.write_at(2, b"xyz"), Ok(()));
    let images = disk.images()?;
    let wanted: [&[u8]; 5] = [b"abc", b"abx", b"ab\xff\xff\xff", b"abxyz", b"abxyz"];
    assert_eq!(rt; images.len(), 5);
    for index in 0..5 {
        assert_eq!(rt; images.item(index).get(), wanted[index]);
    }
    Ok(())
}

#[test]
fn a_listed_write_fails_and_may_be_torn(rt: HostRuntime) -> Result<(), Fail> {
    let alloc = rt.alloc();
    let second = Failing {
        call: DiskCall::WriteAt,
        nth: 2,
    };
    let mut disk = MemoryDisk::new(alloc, b"", &[second])?;
    assert_eq!(rt; disk.write_at(2, b"a"), Ok(()));
    assert_eq!(rt; disk.sync(), Ok(()));
    assert_eq!(rt; disk.write_at(0, b"b"), Err(Failed));
    assert_eq!(rt; disk.file(), b"\0\0a".as_slice());
    let images = disk.images()?;
    assert_eq!(rt; images.len(), 7);
    assert_eq!(rt; images.item(5).get(), b"b\0a".as_slice());
    assert_eq!(rt; images.item(6).get(), b"\0\0a".as_slice());
    assert_eq!(rt; disk.write_at(0, b"c"), Ok(()));
    assert_eq!(rt; disk.file(), b"c\0a".as_slice());
    assert_eq!(rt; disk.starved, 0);
    Ok(())
}

#[test]
fn a_fused_disk_fails_after_its_calls(rt: HostRuntime) -> Result<(), Fail> {
    let alloc = rt.alloc();
    let mut disk = FusedDisk::new(MemoryDisk::new(alloc, b"abc", &[])?, 2);
    let mut into = [0; 4];
    assert_eq!(rt; disk.length(), Ok(3));
    assert_eq!(rt; disk.read_at(1, &mut into), Ok(2));
    assert_eq!(rt; &into[..2], b"bc".as_slice());
    assert_eq!(rt; disk.fault_count(), 0);
    assert_eq!(rt; disk.length(), Err(Failed));
    assert_eq!(rt; disk.write_at(0, b"x"), Err(Failed));
    assert_eq!(rt; disk.sync(), Err(Failed));
    assert_eq!(rt; disk.fault_count(), 3);
    let inner = disk.into_inner();
    assert_eq!(rt; inner.file(), b"abc".as_slice());
    assert_eq!(rt; inner.starved, 0);
    Ok(())
}

#[test]
fn writes_in_a_row_do_not_multiply_the_images(rt: HostRuntime) -> Result<(), Fail> {
    let alloc = rt.alloc();
    let mut disk = MemoryDisk::new(alloc, b"", &[])?;
    for place in 0..9 {
        assert_eq!(rt; disk.write_at(place * 2, b"xy"), Ok(()));
    }
    // The durable file, three for the first write, six for each later one, and the file as it reads.
    assert_eq!(rt; disk.images()?.len(), 53);
    Ok(())
}
