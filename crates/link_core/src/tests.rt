//! The forms in memory, each call once with ample memory, and a listed fault of each kind.
use super::*;
use base_core::Bytes;
use disk_core::Disk;
use std::alloc::{AllocError, Global};
use std::test::Fail;
use std::thread::join_mut;

// A script with these lengths that fails these calls.
fn script(alloc: Global, lengths: &[usize], failing: &[u64]) -> Result<Script, AllocError> {
    let lengths = Vec::from_slice(alloc, lengths)?;
    Ok(Script::new(alloc, lengths, Vec::from_slice(alloc, failing)?))
}

#[test]
fn a_link_gives_its_bytes_in_the_listed_lengths(rt: HostRuntime) -> Result<(), Fail> {
    let alloc = rt.alloc();
    let bytes = Vec::from_slice(alloc, b"hello")?;
    let reads = script(alloc, &[2, 9, 0], &[2])?;
    let mut link = MemoryLink::new(alloc, bytes, reads, Script::free(alloc));
    let mut buffer = [0; 8];
    assert_eq!(rt; link.read(&mut buffer), Ok(2));
    assert_eq!(rt; link.read(&mut buffer), Err(Failed));
    assert_eq!(rt; link.faults(), 1);
    assert_eq!(rt; link.read(&mut buffer), Ok(1));
    assert_eq!(rt; buffer[0], b'l');
    assert_eq!(rt; link.read(&mut buffer), Ok(2));
    assert_eq!(rt; &buffer[..2], b"lo".as_slice());
    assert_eq!(rt; link.read(&mut buffer), Ok(0));
    assert_eq!(rt; link.given(), 5);
    link.close();
    assert!(rt; link.is_closed());
    Ok(())
}

#[test]
fn what_is_written_is_kept_in_the_listed_lengths(rt: HostRuntime) -> Result<(), Fail> {
    let alloc = rt.alloc();
    let empty = Vec::new(alloc);
    let mut link = MemoryLink::new(
        alloc,
        empty,
        Script::free(alloc),
        script(alloc, &[1, 0], &[])?,
    );
    assert_eq!(rt; link.write(b"abc"), Ok(1));
    assert_eq!(rt; link.write(b"bc"), Err(Failed));
    assert_eq!(rt; link.write(b"bc"), Ok(2));
    assert_eq!(rt; link.written(), b"abc".as_slice());
    assert_eq!(rt; (link.faults(), link.starved()), (1, 0));
    let mut sink = MemorySink::new(alloc, script(alloc, &[2], &[2])?);
    assert_eq!(rt; sink.write(b"abc"), Ok(2));
    assert_eq!(rt; sink.write(b"c"), Err(Failed));
    assert_eq!(rt; sink.write(b"c"), Ok(1));
    assert_eq!(rt; sink.written(), b"abc".as_slice());
    assert_eq!(rt; (sink.faults(), sink.starved()), (1, 0));
    Ok(())
}

#[test]
fn a_clock_gives_its_times_and_then_the_last_again(rt: HostRuntime) -> Result<(), Fail> {
    let alloc = rt.alloc();
    let mut clock = MemoryClock::new(Vec::from_slice(alloc, &[7, 5])?);
    assert_eq!(rt; (clock.now(), clock.now(), clock.now()), (7, 5, 5));
    let mut zero = MemoryClock::zero(alloc);
    assert_eq!(rt; (zero.now(), zero.now()), (0, 0));
    Ok(())
}

#[test]
fn a_listener_accepts_its_links_in_order(rt: HostRuntime) -> Result<(), Fail> {
    let alloc = rt.alloc();
    let mut listener = MemoryListener::new(alloc, Vec::from_slice(alloc, &[2])?);
    for text in [b"one".as_slice(), b"two".as_slice()] {
        listener.add(MemoryLink::of(alloc, text)?)?;
    }
    let mut buffer = [0; 3];
    for text in [b"one".as_slice(), b"two".as_slice()] {
        match listener.accept() {
            Ok(Some(mut link)) => {
                assert_eq!(rt; link.read(&mut buffer), Ok(3));
                assert_eq!(rt; buffer.as_slice(), text);
            }
            _ => return Err(Fail::from("no link")),
        }
        if text == b"one".as_slice() {
            assert!(rt; listener.accept().is_err());
        }
    }
    assert!(rt; matches!(listener.accept(), Ok(None)));
    Ok(())
}

// What a link gives at its first read.
fn first_read<L: Link>(link: &mut L) -> Result<u8, Failed> {
    let mut buffer = [0; 1];
    link.read(&mut buffer)?;
    Ok(buffer[0])
}

#[test]
fn a_host_hands_out_what_it_was_given(rt: HostRuntime) -> Result<(), Fail> {
    let alloc = rt.alloc();
    let mut host: MemoryHost<MemoryLink> = MemoryHost::new(alloc);
    host.add_console(MemoryLink::of(alloc, b"c")?)?;
    host.add_peer(MemoryLink::of(alloc, b"p")?)?;
    let mut listener = MemoryListener::new(alloc, Vec::new(alloc));
    listener.add(MemoryLink::of(alloc, b"l")?)?;
    host.add_listener(listener)?;
    host.add_file("store", Bytes::of(alloc, b"bytes")?)?;
    host.set_times(Vec::from_slice(alloc, &[9])?);
    for (kind, nth) in [
        (CallKind::Console, 1),
        (CallKind::Dial, 1),
        (CallKind::Listen, 1),
        (CallKind::DiskOpen, 2),
        (CallKind::File, 3),
        (CallKind::Read, 2),
        (CallKind::Accept, 1),
        (CallKind::Length, 1),
    ] {
        host.fail(kind, nth)?;
    }
    assert!(rt;
        host.console().is_err() && host.dial("a", 1).is_err() && host.listen("a", 1).is_err()
    );
    if let Ok(mut link) = host.console() {
        assert_eq!(rt;
            (first_read(&mut link), first_read(&mut link)),
            (Ok(b'c'), Err(Failed))
        );
    }
    if let Ok(mut link) = host.dial("a", 1) {
        assert_eq!(rt; (first_read(&mut link), link.faults()), (Ok(b'p'), 0));
    }
    if let Ok(mut listener) = host.listen("a", 1) {
        assert!(rt; listener.accept().is_err() && matches!(listener.accept(), Ok(Some(_))));
    }
    assert_eq!(rt;
        (
            host.file("store", 3).map(|copy| copy.get().len()),
            host.file("none", 3).is_err()
        ),
        (Ok(3), true)
    );
    if let Ok(mut disk) = host.disk("store") {
        assert_eq!(rt; (disk.length(), disk.length()), (Err(Failed), Ok(5)));
    }
    assert!(rt; host.disk("store").is_err() && host.file("store", 9).is_err());
    assert!(rt; host.disk("new").is_ok());
    assert_eq!(rt; (host.clock().now(), host.clock().now()), (9, 0));
    assert_eq!(rt; (host.console_calls(), host.faults()), (2, 6));
    Ok(())
}

// Two links of which the first, with the byte h, is held until the second was written to.
fn gated(alloc: Global) -> Result<(GateLink, GateLink), AllocError> {
    GateLink::pair(
        alloc,
        MemoryLink::of(alloc, b"h")?,
        MemoryLink::of(alloc, b"o")?,
    )
}

#[test]
fn a_held_read_waits_for_the_other_link(rt: HostRuntime) -> Result<(), Fail> {
    let alloc = rt.alloc();
    let (mut held, mut other) = gated(alloc)?;
    assert_eq!(rt; first_read(&mut held), Err(Failed));
    assert_eq!(rt; (held.turns(), held.link().faults()), (10_000_000, 1));
    assert_eq!(rt; first_read(&mut other), Ok(b'o'));
    assert_eq!(rt; other.write(b"x"), Ok(1));
    assert_eq!(rt;
        (first_read(&mut held), held.turns()),
        (Ok(b'h'), 10_000_000)
    );
    let mut plain = GateLink::plain(MemoryLink::of(alloc, b"p")?).afresh();
    assert_eq!(rt; first_read(&mut plain), Ok(b'p'));
    plain.close();
    assert!(rt; plain.link().is_closed());
    Ok(())
}

#[test]
fn a_read_is_held_until_another_thread_wrote(rt: HostRuntime) -> Result<(), Fail> {
    let alloc = rt.alloc();
    let (mut held, mut other) = gated(alloc)?;
    // Where no thread can be had, the second runs first.
    let (read, wrote) = join_mut(
        &rt,
        &mut || first_read(&mut held),
        &mut || other.write(b"x"),
    );
    assert_eq!(rt; (read, wrote), (Ok(b'h'), Ok(1)));
    assert_eq!(rt;
        (held.link().faults(), other.link().written()),
        (0, b"x".as_slice())
    );
    Ok(())
}

// Whether a read is a fault after all its turns.
fn waits_in_vain(held: &mut GateLink) -> bool {
    first_read(held) == Err(Failed) && held.turns() == 10_000_000 && held.link().faults() == 1
}

// Whether the held link gives its byte once the other was written to.
fn opens(held: &mut GateLink, other: &mut GateLink) -> bool {
    other.write(b"x") == Ok(1) && first_read(held) == Ok(b'h')
}

// Whether the first of the two links that are accepted next is held until the second was written to.
fn accepts_gated(listener: &mut MemoryListener<GateLink>) -> bool {
    match (listener.accept(), listener.accept()) {
        (Ok(Some(mut held)), Ok(Some(mut other))) => {
            waits_in_vain(&mut held) && opens(&mut held, &mut other)
        }
        _ => false,
    }
}

// Whether the first of the two links that are dialled next gives its byte once the second was written to.
fn dials_gated(host: &mut MemoryHost<GateLink>) -> bool {
    match (host.dial("a", 1), host.dial("a", 1)) {
        (Ok(mut held), Ok(mut other)) => opens(&mut held, &mut other),
        _ => false,
    }
}

// Whether the console waits for no other link.
fn is_plain(host: &mut MemoryHost<GateLink>) -> bool {
    match host.console() {
        Ok(mut link) => first_read(&mut link) == Ok(b'p') && link.turns() == 0,
        Err(_) => false,
    }
}

#[test]
fn a_listener_accepts_gated_links(rt: HostRuntime) -> Result<(), Fail> {
    let alloc = rt.alloc();
    let (held, other) = gated(alloc)?;
    let mut listener = MemoryListener::new(alloc, Vec::new(alloc));
    listener.add(held)?;
    listener.add(other)?;
    assert!(rt; accepts_gated(&mut listener));
    Ok(())
}

#[test]
fn a_host_hands_out_gated_links_and_plain_ones(rt: HostRuntime) -> Result<(), Fail> {
    let alloc = rt.alloc();
    let (held, other) = gated(alloc)?;
    let mut host = MemoryHost::new(alloc);
    host.add_peer(held)?;
    host.add_peer(other)?;
    host.add_console(GateLink::plain(MemoryLink::of(alloc, b"p")?))?;
    assert!(rt; dials_gated(&mut host) && is_plain(&mut host));
    Ok(())
}
