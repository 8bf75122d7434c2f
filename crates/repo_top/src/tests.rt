//! Whole runs over memory: worked rows, cuts, lengths of reads and writes, and faults at each call.
use super::*;
use command_line::ArgumentText;
use doip_json::Bytes;
use doip_segment::Reason;
use ext_ops::Extensions;
use link_core::{MemoryHost, MemoryLink, MemorySink, Script};
use std::alloc::{AllocError, Global};
use std::test::Fail;

mod day;
mod files;
mod stored;

const HELLO: &[u8] = b"{\"operationId\":\"0.DOIP/Op.Hello\",\"targetId\":\"35.TEST/svc\"}\n#\n#\n";

const DONE: &[u8] =
    b"{\"output\":{\"attributes\":{\"ipAddress\":\"127.0.0.1\",\"port\":9000,\"protocol\":\"TCP\",\"protocolVersion\":\"2.0\"},\"id\":\"35.TEST/svc\",\"type\":\"0.TYPE/DOIPServiceInfo\"},\"status\":\"0.DOIP/Status.001\"}\n#\n#\n";

const FRAMING: &[u8] =
    b"{\"attributes\":{\"message\":\"framing fault\"},\"status\":\"0.DOIP/Status.101\"}\n#\n#\n";

// What tests look at of a run: its status and note, the end of its session, what was written on its link and printed, and
// the bytes of its file.
#[derive(Drop)]
struct Seen {
    status: u8,
    note: &'static str,
    end: Option<SessionEnd>,
    written: Vec<u8>,
    printed: Vec<u8>,
    file: Vec<u8>,
}

// The arguments, which are words between blanks.
fn arguments(alloc: Global, line: &str) -> Result<Words, AllocError> {
    let mut words = Words::new(alloc);
    for word in line.split(' ') {
        words.push(ArgumentText::from_string(String::from_str(alloc, word)?))?;
    }
    Ok(words)
}

// What is noted, as a word.
fn word(note: &Note) -> &'static str {
    match note {
        Note::Nothing => "nothing",
        Note::Words { .. } => "words",
        Note::Host => "host",
        Note::File { .. } => "file",
        Note::Disk { .. } => "disk",
        Note::Store(_) => "store",
        Note::Full { .. } => "full",
        Note::NotEmpty { .. } => "not empty",
        Note::Out => "out",
        Note::Memory => "memory",
        Note::End(_) => "end",
    }
}

// Runs a command over this host.
fn run_over(alloc: Global, line: &str, host: &mut MemoryHost) -> Result<Seen, AllocError> {
    let words = arguments(alloc, line)?;
    let mut out = MemorySink::new(alloc, Script::free(alloc));
    let ran = run_plain(alloc, &words, host, &mut out, Extensions::none(alloc));
    let written = match &ran.link {
        Some(link) => Vec::from_slice(alloc, link.written())?,
        None => Vec::new(alloc),
    };
    let file = match &ran.disk {
        Some(disk) => Vec::from_slice(alloc, disk.file())?,
        None => Vec::new(alloc),
    };
    Ok(Seen {
        status: ran.status,
        note: word(&ran.note),
        end: ran.end,
        written,
        printed: Vec::from_slice(alloc, out.written())?,
        file,
    })
}

// Runs a command over a host with this link.
fn run_on(alloc: Global, line: &str, link: MemoryLink) -> Result<Seen, AllocError> {
    let mut host = MemoryHost::new(alloc);
    host.add_console(link)?;
    run_over(alloc, line, &mut host)
}

// Whether `answer` over these bytes writes this text, with this status and end.
fn answers(
    alloc: Global,
    line: &str,
    bytes: &[u8],
    text: &[u8],
    end: SessionEnd,
) -> Result<bool, AllocError> {
    let seen = run_on(alloc, line, MemoryLink::of(alloc, bytes)?)?;
    Ok(seen.status == 0 && seen.written.as_slice() == text && seen.end == Some(end))
}

fn joined(alloc: Global, one: &[u8], other: &[u8]) -> Result<Vec<u8>, AllocError> {
    let mut all = Vec::from_slice(alloc, one)?;
    all.extend_from_slice(other)?;
    Ok(all)
}

// A request, in place of whose line feeds stand bars, and the message of its refusal with its status.
const REFUSED: &str = r##"#|%no segment%101
@|#|#|%first segment is bytes%101
{"input":{"a":1.5},"operationId":"0.DOIP/Op.Create","targetId":"35.TEST/svc"}|#|#|%first segment: number is not whole%101
{"operationId":"x/y","targetId":"35.TEST/svc"}|#|#|%operation unknown%200
{"operationId":"0.DOIP/Op.Hello","targetId":"35.TEST/none"}|#|#|%target unknown%104"##;

// Whether a row is refused as it says, and a Hello after it has its reply.
fn is_refused(alloc: Global, row: &str) -> Result<bool, Fail> {
    let (request, rest) = row.split_once('%').ok_or("a request")?;
    let (message, status) = rest.split_once('%').ok_or("a message")?;
    let request = request.replace(alloc, "|", "\n")?;
    let reply = format!(in alloc;
        "{{\"attributes\":{{\"message\":\"{message}\"}},\"status\":\"0.DOIP/Status.{status}\"}}\n#\n#\n"
    )?;
    Ok(answers(
        alloc,
        "answer 35.TEST/svc",
        &joined(alloc, request.as_bytes(), HELLO)?,
        &joined(alloc, reply.as_bytes(), DONE)?,
        SessionEnd::Ended,
    )?)
}

#[test]
fn worked_rows_have_their_replies(rt: HostRuntime) -> Result<(), Fail> {
    let alloc = rt.alloc();
    for row in REFUSED.split('\n') {
        assert!(rt; is_refused(alloc, row)?, "{row}");
    }
    let ended = SessionEnd::Ended;
    assert!(rt; answers(alloc, "answer 35.TEST/svc", b"", b"", ended)?);
    Ok(())
}

// Whether a Hello has its reply over a link whose reads and writes are of these lengths.
fn replies_by(alloc: Global, reads: Script, writes: Script) -> Result<bool, AllocError> {
    let bytes = Vec::from_slice(alloc, HELLO)?;
    let link = MemoryLink::new(alloc, bytes, reads, writes);
    let seen = run_on(alloc, "answer 35.TEST/svc", link)?;
    Ok(seen.status == 0 && seen.written.as_slice() == DONE)
}

// So many lengths of one byte.
fn ones(alloc: Global, count: usize) -> Result<Script, AllocError> {
    let mut lengths = Vec::new(alloc);
    for _ in 0..count {
        lengths.push(1)?;
    }
    Ok(Script::new(alloc, lengths, Vec::new(alloc)))
}

// Whether a Hello has its reply if its first read has so many bytes.
fn replies_cut(alloc: Global, length: usize) -> Result<bool, AllocError> {
    let lengths = Vec::from_slice(alloc, &[length])?;
    replies_by(
        alloc,
        Script::new(alloc, lengths, Vec::new(alloc)),
        Script::free(alloc),
    )
}

#[test]
fn hello_has_its_reply_in_any_pieces(rt: HostRuntime) -> Result<(), Fail> {
    let alloc = rt.alloc();
    for length in 1..HELLO.len() {
        assert!(rt; replies_cut(alloc, length)?, "at {length}");
    }
    let free = Script::free(alloc);
    assert!(rt; replies_by(alloc, ones(alloc, HELLO.len())?, free)?);
    let free = Script::free(alloc);
    assert!(rt; replies_by(alloc, free, ones(alloc, DONE.len())?)?);
    Ok(())
}

#[test]
fn a_session_ends_cut_or_framing(rt: HostRuntime) -> Result<(), Fail> {
    let alloc = rt.alloc();
    let line = "answer 35.TEST/svc";
    for length in 1..HELLO.len() {
        let cut = SessionEnd::Cut {
            place: length as u64,
        };
        assert!(rt;
            answers(alloc, line, &HELLO[..length], b"", cut)?,
            "at {length}"
        );
    }
    let line = "answer 35.TEST/svc --request 64";
    let fits = joined(alloc, b" ", HELLO)?;
    assert!(rt; answers(alloc, line, &fits, DONE, SessionEnd::Ended)?);
    let long = joined(alloc, b"  ", HELLO)?;
    let framing = SessionEnd::Framing {
        place: 65,
        reason: Reason::TooLong,
    };
    assert!(rt; answers(alloc, line, &long, FRAMING, framing)?);
    Ok(())
}

// Whether a Hello and bytes that frame no message end so and are answered by this text, if these calls fail.
fn ends_so(
    alloc: Global,
    reads: Script,
    writes: Script,
    end: SessionEnd,
    text: &[u8],
) -> Result<bool, AllocError> {
    let link = MemoryLink::new(alloc, joined(alloc, HELLO, b"#x")?, reads, writes);
    let seen = run_on(alloc, "answer 35.TEST/svc", link)?;
    Ok(seen.status == 7 && seen.end == Some(end) && seen.written.as_slice() == text)
}

#[test]
fn each_failed_call_ends_the_session(rt: HostRuntime) -> Result<(), Fail> {
    let alloc = rt.alloc();
    let read = Script::failing(alloc, Vec::from_slice(alloc, &[1])?);
    let free = Script::free(alloc);
    assert!(rt; ends_so(alloc, read, free, SessionEnd::ReadFault, b"")?);
    let write = Script::failing(alloc, Vec::from_slice(alloc, &[1])?);
    let free = Script::free(alloc);
    assert!(rt; ends_so(alloc, free, write, SessionEnd::WriteFault, b"")?);
    let write = Script::failing(alloc, Vec::from_slice(alloc, &[2])?);
    let free = Script::free(alloc);
    assert!(rt; ends_so(alloc, free, write, SessionEnd::WriteFault, DONE)?);
    Ok(())
}

#[test]
fn two_sessions_run_one_after_another(rt: HostRuntime) -> Result<(), Fail> {
    let alloc = rt.alloc();
    let mut host = MemoryHost::new(alloc);
    host.add_console(MemoryLink::of(alloc, HELLO)?)?;
    host.add_console(MemoryLink::of(alloc, HELLO)?)?;
    for _ in 0..2 {
        let ran = run_over(alloc, "answer 35.TEST/svc", &mut host)?;
        assert!(rt; ran.status == 0 && ran.written.as_slice() == DONE);
    }
    let none = run_over(alloc, "answer 35.TEST/svc", &mut host)?;
    assert!(rt; none.status == 9 && none.note == "host" && none.end.is_none());
    assert!(rt; host.console_calls() == 3);
    Ok(())
}

#[test]
fn an_invalid_command_line_touches_nothing(rt: HostRuntime) -> Result<(), Fail> {
    let alloc = rt.alloc();
    for line in ["serve s", "answer", "answer s --port 0", "init", "check"] {
        let ran = run_on(alloc, line, MemoryLink::of(alloc, HELLO)?)?;
        assert!(rt;
            ran.status == 2 && ran.note == "words" && ran.end.is_none(),
            "{line}"
        );
    }
    Ok(())
}

#[test]
fn a_help_is_printed(rt: HostRuntime) -> Result<(), Fail> {
    let version: &[u8] = b"zenkawi 0.1.0\n";
    let mut host = MemoryHost::new(rt.alloc());
    let seen = run_over(rt.alloc(), "--version", &mut host)?;
    assert!(rt; seen.status == 0 && seen.note == "nothing" && seen.printed.as_slice() == version);
    Ok(())
}
