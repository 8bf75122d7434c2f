//! Sessions over memory, each call once with ample memory.
mod echo;
mod patient;

use super::*;
use doip_message::FRAMING_TEXT;
use doip_segment::{Decoder, Limits, Reason};
use echo::Echo;
use link_core::{Link, MemoryLink, Script};
use patient::Patient;
use std::alloc::{AllocError, Global};
use std::test::Fail;

const TWO: &[u8] = b"{}\n#\n#\n @\n3\na\n#\n#\n#\n ";

const LIMITS: Limits = Limits {
    json: 100,
    total: 100,
};

#[test]
fn messages_come_in_order_whatever_the_reads_give(rt: HostRuntime) -> Result<(), Fail> {
    let alloc = rt.alloc();
    for length in [1usize, 2, 3, 5, 7, 100] {
        let mut lengths = Vec::new(alloc);
        for _ in 0..TWO.len() {
            lengths.push(length)?;
        }
        let bytes = Vec::from_slice(alloc, TWO)?;
        let reads = Script::new(alloc, lengths, Vec::new(alloc));
        let mut link = MemoryLink::new(alloc, bytes, reads, Script::free(alloc));
        let mut reader = Reader::new(alloc)?;
        let mut decoder = Decoder::new(alloc, LIMITS)?;
        assert_eq!(rt; reader.next(&mut link, &mut decoder), Next::Message);
        assert!(rt; decoder.stands());
        assert_eq!(rt; decoder.message().count(), 1);
        decoder.clear();
        assert_eq!(rt; reader.next(&mut link, &mut decoder), Next::Message);
        assert!(rt; decoder.stands());
        assert_eq!(rt; decoder.message().count(), 1);
        decoder.clear();
        assert_eq!(rt;
            reader.next(&mut link, &mut decoder),
            Next::Ended,
            "at {length}"
        );
    }
    Ok(())
}

#[test]
fn a_session_ends_cut_framing_or_by_a_fault(rt: HostRuntime) -> Result<(), Fail> {
    let alloc = rt.alloc();
    let mut reader = Reader::new(alloc)?;
    let mut decoder = Decoder::new(alloc, LIMITS)?;
    let mut cut = MemoryLink::of(alloc, b"{}\n")?;
    assert_eq!(rt; reader.next(&mut cut, &mut decoder), Next::Cut { place: 3 });
    reader.restart();
    decoder.restart();
    let mut broken = MemoryLink::of(alloc, b"#x")?;
    let fault = Next::Framing {
        place: 2,
        reason: Reason::Marker,
    };
    assert_eq!(rt; reader.next(&mut broken, &mut decoder), fault);
    reader.restart();
    decoder.restart();
    let reads = Script::failing(alloc, Vec::from_slice(alloc, &[1])?);
    let mut failed = MemoryLink::new(alloc, Vec::new(alloc), reads, Script::free(alloc));
    assert_eq!(rt; reader.next(&mut failed, &mut decoder), Next::ReadFault);
    Ok(())
}

#[test]
fn all_is_written_one_byte_at_a_time(rt: HostRuntime) -> Result<(), Fail> {
    let alloc = rt.alloc();
    let lengths = Vec::from_slice(alloc, &[1, 1, 1, 1, 1])?;
    let failing = Vec::from_slice(alloc, &[8])?;
    let writes = Script::new(alloc, lengths, failing);
    let mut link = MemoryLink::new(alloc, Vec::new(alloc), Script::free(alloc), writes);
    assert_eq!(rt; say(&mut link, b"hello!"), Ok(()));
    assert_eq!(rt; link.written(), b"hello!".as_slice());
    assert_eq!(rt; say(&mut link, b""), Ok(()));
    assert_eq!(rt; say(&mut link, b"a"), Ok(()));
    assert_eq!(rt; say(&mut link, b"b"), Err(WriteFault));
    assert_eq!(rt; link.written(), b"hello!a".as_slice());
    Ok(())
}

// Serves one session of these limits over the link.
fn served<L: Link>(alloc: Global, link: &mut L) -> Result<SessionEnd, AllocError> {
    let mut reader = Reader::new(alloc)?;
    let decoder = Decoder::new(alloc, LIMITS)?;
    let mut echo = Echo::new();
    let (_, _, end) = serve(link, &mut reader, decoder, Vec::new(alloc), &mut echo);
    Ok(end)
}

// The call of a link that fails, by its number among those of its kind, from 1.
#[derive(Clone, Copy)]
enum Fails {
    Nothing,
    Read(u64),
    Write(u64),
}

// A link with these bytes, of which the first read gives at most as many.
fn link_with(
    alloc: Global,
    bytes: &[u8],
    cut: usize,
    fails: Fails,
) -> Result<MemoryLink, AllocError> {
    let mut reads = Vec::new(alloc);
    let mut writes = Vec::new(alloc);
    match fails {
        Fails::Nothing => {}
        Fails::Read(number) => reads.push(number)?,
        Fails::Write(number) => writes.push(number)?,
    }
    let bytes = Vec::from_slice(alloc, bytes)?;
    let reads = Script::new(alloc, Vec::from_slice(alloc, &[cut])?, reads);
    Ok(MemoryLink::new(alloc, bytes, reads, Script::failing(alloc, writes)))
}

// Three sessions: their bytes, what is written, and how they end.
fn row(number: usize) -> (&'static [u8], &'static [&'static [u8]], SessionEnd) {
    match number {
        0 => (TWO, &[b"{}", b"a\n#"], SessionEnd::Ended),
        1 => (
            b"#\n[1]\n#\n#\n {\n",
            &[b"-", b"[1]"],
            SessionEnd::Cut { place: 13 },
        ),
        _ => (
            b"[]\n#\n#\n#x{}\n#\n#\n",
            &[b"[]", FRAMING_TEXT],
            SessionEnd::Framing {
                place: 9,
                reason: Reason::Marker,
            },
        ),
    }
}

fn joined(alloc: Global, texts: &[&[u8]]) -> Result<Vec<u8>, AllocError> {
    let mut all = Vec::new(alloc);
    for text in texts {
        all.extend_from_slice(text)?;
    }
    Ok(all)
}

#[test]
fn a_cut_between_two_reads_changes_nothing(rt: HostRuntime) -> Result<(), Fail> {
    let alloc = rt.alloc();
    for number in 0..3 {
        let (bytes, texts, end) = row(number);
        for cut in 0..bytes.len() {
            let mut link = link_with(alloc, bytes, cut, Fails::Nothing)?;
            assert_eq!(rt; served(alloc, &mut link)?, end, "row {number} at {cut}");
            let expected = joined(alloc, texts)?;
            assert_eq!(rt;
                link.written(),
                expected.as_slice(),
                "row {number} at {cut}"
            );
            assert!(rt; !link.is_closed());
        }
    }
    Ok(())
}

#[test]
fn a_failing_call_ends_a_session_with_its_fault(rt: HostRuntime) -> Result<(), Fail> {
    let alloc = rt.alloc();
    for number in 0..3 {
        let (bytes, texts, end) = row(number);
        let expected = joined(alloc, texts)?;
        for cut in 1..bytes.len() {
            for call in 0..8 {
                let fails = if call < 4 {
                    Fails::Read(call + 1)
                } else {
                    Fails::Write(call - 3)
                };
                let mut link = link_with(alloc, bytes, cut, fails)?;
                let ended = served(alloc, &mut link)?;
                let failed = ended == SessionEnd::ReadFault || ended == SessionEnd::WriteFault;
                assert_eq!(rt;
                    failed,
                    link.faults() == 1,
                    "row {number} at {cut}, call {call}"
                );
                assert!(rt;
                    failed || ended == end,
                    "row {number} at {cut}, call {call}"
                );
                assert!(rt;
                    expected.starts_with(link.written()),
                    "row {number} at {cut}, call {call}"
                );
                assert!(rt; failed || link.written() == expected.as_slice());
            }
        }
    }
    Ok(())
}

#[test]
fn a_failing_read_and_a_failing_write_have_ends_of_their_own(rt: HostRuntime) -> Result<(), Fail> {
    let alloc = rt.alloc();
    // All of `TWO` comes by the first read: then two replies are written, and a read finds the end.
    for number in 1..3 {
        let mut link = link_with(alloc, TWO, TWO.len(), Fails::Read(number))?;
        assert_eq!(rt;
            served(alloc, &mut link)?,
            SessionEnd::ReadFault,
            "read {number}"
        );
        let mut link = link_with(alloc, TWO, TWO.len(), Fails::Write(number))?;
        assert_eq!(rt;
            served(alloc, &mut link)?,
            SessionEnd::WriteFault,
            "write {number}"
        );
    }
    Ok(())
}

#[test]
fn a_write_that_fails_first_leaves_nothing_written(rt: HostRuntime) -> Result<(), Fail> {
    let alloc = rt.alloc();
    let mut link = link_with(alloc, TWO, TWO.len(), Fails::Write(1))?;
    assert_eq!(rt; served(alloc, &mut link)?, SessionEnd::WriteFault);
    assert_eq!(rt; link.written(), b"".as_slice());
    let mut broken = link_with(alloc, b"#x", 2, Fails::Write(1))?;
    assert_eq!(rt; served(alloc, &mut broken)?, SessionEnd::WriteFault);
    Ok(())
}

#[test]
fn a_reply_is_written_before_the_next_read(rt: HostRuntime) -> Result<(), Fail> {
    let mut link = Patient::new();
    assert_eq!(rt; served(rt.alloc(), &mut link)?, SessionEnd::Ended);
    assert_eq!(rt; link.replies(), 3);
    Ok(())
}

#[test]
fn decoder_and_buffer_serve_a_second_session(rt: HostRuntime) -> Result<(), Fail> {
    let alloc = rt.alloc();
    let mut reader = Reader::new(alloc)?;
    let decoder = Decoder::new(alloc, LIMITS)?;
    let mut echo = Echo::new();
    let mut first = MemoryLink::of(alloc, b"#x")?;
    let (mut decoder, buffer, end) = serve(
        &mut first,
        &mut reader,
        decoder,
        Vec::new(alloc),
        &mut echo,
    );
    let fault = SessionEnd::Framing {
        place: 2,
        reason: Reason::Marker,
    };
    assert_eq!(rt; end, fault);
    reader.restart();
    decoder.restart();
    let mut second = MemoryLink::of(alloc, TWO)?;
    let (_, _, end) = serve(&mut second, &mut reader, decoder, buffer, &mut echo);
    assert_eq!(rt; end, SessionEnd::Ended);
    assert_eq!(rt; second.written(), b"{}a\n#".as_slice());
    Ok(())
}
