ghost use Rattle.std.specs.Prelude.{◌≤◌, length};
ghost use Rattle.doip_segment.specs.Framing.{most_total};
ghost use Rattle.doip_segment.specs.Canonical.{CanBeWritten};

use super::*;
use doip_json::Bytes;
use std::alloc::{AllocError, Global};
use std::process::Abort;
use std::test::Fail;

const AMPLE: Limits = Limits {
    json: 1000,
    total: 10000,
};

const SMALL: Limits = Limits {
    json: 10,
    total: 100,
};

const SHORT: Limits = Limits {
    json: 10,
    total: 20,
};

/// Byte json + 2 of a JSON segment that begins a message is its byte total + 1.
const EQUAL: Limits = Limits { json: 8, total: 9 };

/// Some bytes, how many of them are consumed, and the result.
type Row = (&'static [u8], usize, Step);

const fn at(place: u64, reason: Reason) -> Step {
    Step::Fault { place, reason }
}

/// What a restarted decoder returns for the bytes in two pieces.
fn fed(decoder: &mut Decoder, bytes: &[u8], cut: usize) -> (usize, Step)
    requires { cut ≤ length bytes.now }
{
    decoder.restart();
    let (first, step) = decoder.feed(&bytes[..cut]);
    match step {
        Step::More => {
            let (more, step) = decoder.feed(&bytes[cut..]);
            (first.saturating_add(more), step)
        }
        _ => (first, step),
    }
}

/// Tries each row at each cut into two pieces, and in pieces of one byte.
fn holds(rt: &impl Abort, alloc: Global, limits: Limits, rows: &[Row]) -> Result<(), AllocError>
    requires json { 1 ≤ limits.json }
    requires order { limits.json ≤ limits.total }
    requires total { limits.total ≤ most_total }
{
    let mut decoder = Decoder::new(alloc, limits)?;
    for row in rows {
        for cut in 0..=row.0.len() {
            assert_eq!(rt; fed(&mut decoder, row.0, cut), (row.1, row.2));
        }
        assert_eq!(rt; fed_by_bytes(&mut decoder, row.0), (row.1, row.2));
    }
    Ok(())
}

/// What a restarted decoder returns for the bytes in pieces of one byte.
fn fed_by_bytes(decoder: &mut Decoder, bytes: &[u8]) -> (usize, Step) {
    decoder.restart();
    let mut used: usize = 0;
    let mut step = Step::More;
    for byte in bytes {
        let (more, next) = decoder.feed(&[*byte]);
        used = used.saturating_add(more);
        step = next;
    }
    (used, step)
}

#[test]
fn spellings_end_at_their_last_byte(rt: HostRuntime) -> Result<(), Fail> {
    let rows: [Row; 17] = [
        (b"#\n", 2, Step::Message),
        (b"\t \r\n#\n", 6, Step::Message),
        (b"# \t\r\n", 5, Step::Message),
        (b"{}\n#\n#\n", 7, Step::Message),
        (b"{\n}\n#\n#\n", 8, Step::Message),
        (b"1\n\n#\n#\n", 7, Step::Message),
        (b"a\n@\n#\n#\n", 8, Step::Message),
        (b"a #\n#\n#\n", 8, Step::Message),
        (b" 1\r\n#\r\n#\r\n", 10, Step::Message),
        (b"@\n#\n#\n", 6, Step::Message),
        (b"@ \t\r\n# \n#\n", 10, Step::Message),
        (b"@\n0\n\n#\n#\n", 9, Step::Message),
        (b"@\n0000000003 \t\nabc\n#\n#\n", 23, Step::Message),
        (b"@\n1\n#\n1\n\n\n#\n#\n", 14, Step::Message),
        (b"1\n#\n2\n#\n@\n1\nx\n#\n#\n", 18, Step::Message),
        (b"#\n#\n", 2, Step::Message),
        (b"1\n#\n#\nrest", 6, Step::Message),
    ];
    Ok(holds(&rt, rt.alloc(), AMPLE, &rows)?)
}

#[test]
fn parts_of_spellings_need_more(rt: HostRuntime) -> Result<(), Fail> {
    let rows: [Row; 13] = [
        (b"", 0, Step::More),
        (b" ", 1, Step::More),
        (b"#", 1, Step::More),
        (b"{\"a\":1}", 7, Step::More),
        (b"{}\n", 3, Step::More),
        (b"{}\n#", 4, Step::More),
        (b"@", 1, Step::More),
        (b"@\n12", 4, Step::More),
        (b"@\n12 ", 5, Step::More),
        (b"@\n12\nabc", 8, Step::More),
        (b"@\n3\nabc", 7, Step::More),
        (b"@\n3\nabc\n", 8, Step::More),
        (b"@\n#", 3, Step::More),
    ];
    Ok(holds(&rt, rt.alloc(), AMPLE, &rows)?)
}

#[test]
fn grammar_faults_have_their_places(rt: HostRuntime) -> Result<(), Fail> {
    let rows: [Row; 21] = [
        (b"#x", 2, at(2, Reason::Marker)),
        (b"##", 2, at(2, Reason::Marker)),
        (b"# \t\rx", 5, at(5, Reason::Marker)),
        (b"1\n#x", 4, at(4, Reason::Marker)),
        (b"1\n# @", 5, at(5, Reason::Marker)),
        (b"@x", 2, at(2, Reason::Marker)),
        (b"@ 1", 3, at(3, Reason::Marker)),
        (b"@\n#1", 4, at(4, Reason::Marker)),
        (b"@\n1\na\n#\t#", 9, at(9, Reason::Marker)),
        (b"@\nx", 3, at(3, Reason::Length)),
        (b"@\n ", 3, at(3, Reason::Length)),
        (b"@\n\n", 3, at(3, Reason::Length)),
        (b"@\n1\na\nb", 7, at(7, Reason::Length)),
        (b"@\n12x", 5, at(5, Reason::Length)),
        (b"@\n12 3", 6, at(6, Reason::Length)),
        (b"@\n12#", 5, at(5, Reason::Length)),
        (b"@\n12345678901", 13, at(13, Reason::Length)),
        (b"@\n0000000000 x", 14, at(14, Reason::Length)),
        (b"@\n0\nx", 5, at(5, Reason::ChunkEnd)),
        (b"@\n2\nab ", 7, at(7, Reason::ChunkEnd)),
        (b"@\n2\nabc", 7, at(7, Reason::ChunkEnd)),
    ];
    Ok(holds(&rt, rt.alloc(), AMPLE, &rows)?)
}

#[test]
fn limits_hold_at_their_edges(rt: HostRuntime) -> Result<(), Fail> {
    let json: [Row; 6] = [
        (b"1234567890\n#\n#\n", 15, Step::Message),
        (b"123456789\n\n#\n#\n", 15, Step::Message),
        (b"12345678901\n#\n#\n", 12, at(12, Reason::JsonTooLong)),
        (b"123456789012", 12, at(12, Reason::JsonTooLong)),
        (b"1234567890\nx", 12, at(12, Reason::JsonTooLong)),
        (b"1\n#\n12345678901x", 16, at(16, Reason::JsonTooLong)),
    ];
    holds(&rt, rt.alloc(), SMALL, &json)?;
    let total: [Row; 5] = [
        (b"                  #\n", 20, Step::Message),
        (b"                   #\n", 21, at(21, Reason::TooLong)),
        (b"                     ", 21, at(21, Reason::TooLong)),
        (b"@\n30\nabcdefghijklmnop", 21, at(21, Reason::TooLong)),
        (b"#                   x", 21, at(21, Reason::TooLong)),
    ];
    holds(&rt, rt.alloc(), SHORT, &total)?;
    Ok(holds(
        &rt,
        rt.alloc(),
        EQUAL,
        &[(b"1234567890", 10, at(10, Reason::TooLong))],
    )?)
}

#[test]
fn segment_2049_is_one_too_many(rt: HostRuntime) -> Result<(), Fail> {
    let mut decoder = Decoder::new(rt.alloc(), AMPLE)?;
    for _ in 0..2048 {
        assert_eq!(rt; decoder.feed(b"@\n#\n"), (4, Step::More));
    }
    assert_eq!(rt; decoder.feed(b"\n1"), (2, at(8194, Reason::TooMany)));
    Ok(())
}

#[test]
fn a_byte_segment_is_its_data_joined(rt: HostRuntime) -> Result<(), Fail> {
    let mut decoder = Decoder::new(rt.alloc(), AMPLE)?;
    assert_eq!(rt;
        decoder.feed(b"@\n007\nabcdefg\n0\n\n#\n#\n"),
        (21, Step::Message)
    );
    assert!(rt; decoder.stands());
    let message = decoder.message();
    assert_eq!(rt; message.count(), 1);
    assert_eq!(rt; message.kind(0), Kind::Bytes);
    assert_eq!(rt; message.bytes(0), b"abcdefg".as_slice());
    Ok(())
}

#[test]
fn a_session_goes_on_after_its_messages(rt: HostRuntime) -> Result<(), Fail> {
    let mut decoder = Decoder::new(rt.alloc(), AMPLE)?;
    assert_eq!(rt; decoder.finish(), End::Between);
    assert_eq!(rt; decoder.feed(b"1\n#\n#\n#x"), (6, Step::Message));
    assert_eq!(rt; decoder.feed(b"#x"), (0, Step::Message));
    assert_eq!(rt; decoder.finish(), End::Between);
    decoder.clear();
    assert_eq!(rt; decoder.feed(b"#x"), (2, at(8, Reason::Marker)));
    assert_eq!(rt; decoder.feed(b"\n"), (0, at(8, Reason::Marker)));
    assert_eq!(rt; decoder.finish(), End::Inside { place: 8 });
    decoder.restart();
    assert_eq!(rt; decoder.taken(), 0);
    assert_eq!(rt; decoder.feed(b" \n"), (2, Step::More));
    assert_eq!(rt; decoder.finish(), End::Between);
    assert_eq!(rt; decoder.feed(b"1"), (1, Step::More));
    assert_eq!(rt; decoder.finish(), End::Inside { place: 3 });
    Ok(())
}

/// The text of a message of one segment.
fn encoded(alloc: Global, kind: Kind, bytes: &[u8]) -> Result<Bytes, AllocError>
    requires { CanBeWritten kind bytes.now }
{
    let mut message = Message::with_room(alloc, bytes.len(), 1)?;
    message.push(kind, bytes)?;
    encode(alloc, &message)
}

#[test]
fn each_kind_of_segment_is_encoded(rt: HostRuntime) -> Result<(), Fail> {
    let none = encode(rt.alloc(), &Message::empty(rt.alloc()))?;
    assert_eq!(rt; none.get(), b"#\n".as_slice());
    assert!(rt; is_plain(b"{\"a\":1}"));
    let json = encoded(rt.alloc(), Kind::Json, b"{\"a\":1}")?;
    assert_eq!(rt; json.get(), b"{\"a\":1}\n#\n#\n".as_slice());
    let bytes = encoded(rt.alloc(), Kind::Bytes, b"0123456789")?;
    assert_eq!(rt; bytes.get(), b"@\n10\n0123456789\n#\n#\n".as_slice());
    let empty = encoded(rt.alloc(), Kind::Bytes, b"")?;
    assert_eq!(rt; empty.get(), b"@\n#\n#\n".as_slice());
    Ok(())
}

/// The spelling that is made of the segments, and what a decoder gives of it, one byte at a time.
#[test]
fn what_is_encoded_is_read_again(rt: HostRuntime) -> Result<(), Fail> {
    let mut message = Message::empty(rt.alloc());
    assert!(rt; is_plain(b"[1]"));
    message.push(Kind::Json, b"[1]")?;
    message.push(Kind::Bytes, b"a\n#\nb")?;
    message.push(Kind::Bytes, b"")?;
    let spelling = encode(rt.alloc(), &message)?;
    assert_eq!(rt;
        spelling.get(),
        b"[1]\n#\n@\n5\na\n#\nb\n#\n@\n#\n#\n".as_slice()
    );
    let mut decoder = Decoder::new(rt.alloc(), SMALL)?;
    for byte in spelling.get() {
        decoder.feed(&[*byte]);
    }
    assert!(rt; decoder.stands());
    let read = decoder.message();
    assert_eq!(rt; read.count(), 3);
    assert_eq!(rt; read.segment(0), (Kind::Json, b"[1]".as_slice()));
    assert_eq!(rt; read.segment(1), (Kind::Bytes, b"a\n#\nb".as_slice()));
    assert_eq!(rt; read.segment(2), (Kind::Bytes, b"".as_slice()));
    Ok(())
}

#[test]
fn plain_text_is_one_line(rt: HostRuntime) {
    assert!(rt; is_plain(b"{\"a\": [1]}"));
    assert!(rt; is_plain(b"a@#"));
    assert!(rt; !is_plain(b""));
    assert!(rt; !is_plain(b" {}"));
    assert!(rt; !is_plain(b"#"));
    assert!(rt; !is_plain(b"@"));
    assert!(rt; !is_plain(b"{}\n"));
}
