//! What comes back, and what was written, over links in memory.
ghost use Rattle.std.specs.Prelude.{IfOk};
ghost use Rattle.doip_message.specs.Asked.{asked_of, content_of};
ghost use Rattle.doip_message.specs.Reply.{output_parts, CanFollow};
ghost use Rattle.doip_exchange.specs.Question.{IsAskable};

use super::*;
use doip_json::{JsonMap, Str};
use doip_message::{Body, Request, Response};
use doip_segment::{Decoder, Limits};
use link_core::{MemoryLink, Script};
use session_core::Reader;
use std::alloc::{AllocError, Global};
use std::test::Fail;

// A request with the id `a`.
fn request_of_a(alloc: Global) -> Result<Request, AllocError>
    ensures askable { IfOk result (λ q. IsAskable (asked_of q)) }
    ensures encodable { IfOk result (λ q. CanFollow (output_parts (content_of q.input))) }
{
    Ok(Request {
        request_id: Some(Str::of(alloc, "a")?),
        target_id: Str::of(alloc, "t")?,
        operation_id: Str::of(alloc, "o")?,
        attributes: JsonMap::empty(alloc),
        authentication: None,
        input: Body::Nothing,
    })
}

// What comes back on this link.
fn asked(alloc: Global, link: &mut MemoryLink) -> Result<u8, AllocError> {
    let mut reader = Reader::new(alloc)?;
    let limits = Limits {
        json: 64,
        total: 64,
    };
    let mut decoder = Decoder::new(alloc, limits)?;
    let request = request_of_a(alloc)?;
    let answer = ask(alloc, link, &mut reader, &mut decoder, &request);
    Ok(letter_of(&answer))
}

// A letter for each answer; of a cut and of a framing fault it is the digit of the place.
fn letter_of(answer: &Result<Response, ClientFault>) -> u8 {
    match answer {
        Ok(_) => b'r',
        Err(ClientFault::WriteFault) => b'w',
        Err(ClientFault::ReadFault) => b'f',
        Err(ClientFault::Cut { place }) => digit_of(*place),
        Err(ClientFault::Framing { place, reason: _ }) => digit_of(*place),
        Err(ClientFault::BadResponse { why: _ }) => b'b',
        Err(ClientFault::OtherId { sent: _, came: _ }) => b'i',
        Err(ClientFault::Memory) => b'm',
    }
}

fn digit_of(place: u64) -> u8 {
    if place < 10 { b'0' + place as u8 } else { b'+' }
}

#[test]
fn each_input_has_its_answer(rt: HostRuntime) -> Result<(), Fail> {
    let alloc = rt.alloc();
    let rows: [(&str, u8); 8] = [
        ("{\"status\":\"s\"}\n#\n#\n", b'r'),
        ("{\"requestId\":\"a\",\"status\":\"s\"}\n#\n#\nmore", b'r'),
        ("{\"requestId\":\"b\",\"status\":\"s\"}\n#\n#\n", b'i'),
        ("[]\n#\n#\n", b'b'),
        ("#\n", b'b'),
        ("", b'0'),
        ("{}\n#\n", b'5'),
        ("#x", b'2'),
    ];
    for (input, want) in rows {
        let mut link = MemoryLink::of(alloc, input.as_bytes())?;
        assert!(rt; asked(alloc, &mut link)? == want);
    }
    Ok(())
}

#[test]
fn the_text_is_written_whole(rt: HostRuntime) -> Result<(), Fail> {
    let alloc = rt.alloc();
    let mut link = MemoryLink::of(alloc, b"")?;
    assert!(rt; asked(alloc, &mut link)? == b'0');
    let want = "{\"operationId\":\"o\",\"requestId\":\"a\",\"targetId\":\"t\"}\n#\n#\n";
    assert!(rt; link.written() == want.as_bytes());
    Ok(())
}

#[test]
fn a_fault_of_the_link_is_reported(rt: HostRuntime) -> Result<(), Fail> {
    let alloc = rt.alloc();
    let first = vec![in alloc; 1; 1]?;
    let reads = Script::failing(alloc, first);
    let mut link = MemoryLink::new(alloc, Vec::new(alloc), reads, Script::free(alloc));
    assert!(rt; asked(alloc, &mut link)? == b'f');
    let first = vec![in alloc; 1; 1]?;
    let writes = Script::failing(alloc, first);
    let mut link = MemoryLink::new(alloc, Vec::new(alloc), Script::free(alloc), writes);
    assert!(rt; asked(alloc, &mut link)? == b'w');
    Ok(())
}
