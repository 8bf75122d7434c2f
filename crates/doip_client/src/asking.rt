//! Asking a request on a link.
ghost use Rattle.std.specs.Prelude.{◌≡◌, [], IfOk, MatchOption, option_map};
ghost use Rattle.doip_segment.specs.Decoding.{Took};
ghost use Rattle.doip_message.specs.Asked.{asked_of, content_of};
ghost use Rattle.doip_message.specs.Reply.{replied_of, output_parts, CanFollow};
ghost use Rattle.doip_exchange.specs.Question.{IsAskable};
ghost use Rattle.session_core.specs.Reading.{stage};
ghost use Rattle.doip_client.specs.Exchange.{answered, answer_of, is_sent, taken_with};
ghost use Rattle.doip_client.specs.Asking.{question_text, Asks, IsAnswer, IsOtherId};

use crate::fault::ClientFault;
use doip_exchange::{ResponseFault, request_message, response_of};
use doip_json::{Bytes, Str};
use doip_message::{Request, Response};
use doip_segment::{Decoder, Message, encode};
use link_core::Link;
use session_core::{Next, Reader, WriteFault, say};
use std::alloc::{AllocError, Global};

/// Writes a request on a link, reads one message, and returns the response that it is. A response without a request id is
/// taken for the answer.
///
/// The request can be asked (`IsAskable`) and encoded, and the decoder has taken nothing since its last message. What the
/// reader holds was read from this link. Afterwards no message stands in the decoder, and after a response the next request
/// can be asked; the link isn't closed.
///
/// # Errors
///
/// | fault | comes |
/// |---|---|
/// | `WriteFault`, `ReadFault` | only if the link's number of faults rose during this call |
/// | `Cut` | the link ended before a whole message, and what came breaks nowhere; the place is the number of bytes that the decoder has taken |
/// | `Framing` | what came frames no message, and breaks at this place of the session |
/// | `BadResponse` | the message is no response, for this reason |
/// | `OtherId` | the response carries a request id that isn't the one that was sent |
///
/// After `WriteFault` a prefix of the request's text was written, after `Memory` a prefix or all of it, else all of it.
/// After `Framing`, `Cut` or `ReadFault` the decoder has to be restarted before the next request.
pub fn ask<L: Link>(
    alloc: Global,
    link: &mut L,
    reader: &mut Reader,
    decoder: &mut Decoder,
    request: &Request,
) -> Result<Response, ClientFault>
    requires askable { IsAskable (asked_of request.now) }
    requires encodable { CanFollow (output_parts (content_of request.now.input)) }
    requires idle { Took decoder.old [] }

    ensures asks { Asks (asked_of request.now) (stage reader.old (L.state link.old) decoder.old)
        (stage reader.new (L.state link.new) decoder.new) (answer_of result) }
{
    // A proof learns here that the place fits its type.
    let _ = decoder.taken();
    let text = match text_of(alloc, request) {
        Ok(text) => text,
        Err(AllocError) => return Err(ClientFault::Memory),
    };
    match say(link, text.get()) {
        Ok(()) => {}
        Err(WriteFault) => return Err(ClientFault::WriteFault),
    }
    match reader.next(link, decoder) {
        Next::Message => {
            let answer = answer_in(alloc, &request.request_id, decoder.message());
            decoder.clear();
            answer
        }
        Next::Ended => Err(ClientFault::Cut {
            place: decoder.taken(),
        }),
        Next::Cut { place } => Err(ClientFault::Cut { place }),
        Next::Framing { place, reason } => Err(ClientFault::Framing { place, reason }),
        Next::ReadFault => Err(ClientFault::ReadFault),
    }
}

// The canonical text of a request.
fn text_of(alloc: Global, request: &Request) -> Result<Bytes, AllocError>
    requires { CanFollow (output_parts (content_of request.now.input)) }
    ensures { IfOk result (λ text. text ≡ question_text (asked_of request.now)) }
{
    let message = request_message(alloc, request)?;
    encode(alloc, &message)
}

// What a message answers, where this request id was sent.
fn answer_in(alloc: Global, sent: &Option<Str>, message: &Message) -> Result<Response, ClientFault>
    ensures { IsAnswer result (answered sent.now message.now.segments) }
{
    match response_of(alloc, message) {
        Ok(response) => taken(alloc, sent, response),
        Err(ResponseFault::Memory) => Err(ClientFault::Memory),
        Err(why) => Err(ClientFault::BadResponse { why }),
    }
}

// The response, unless it carries another request id.
fn taken(alloc: Global, sent: &Option<Str>, mut response: Response) -> Result<Response, ClientFault>
    ensures { IsAnswer result (taken_with sent.now response.request_id (replied_of response)) }
{
    match response.request_id.take() {
        None => Ok(response),
        Some(came) => {
            if is_same_id(sent, &came) {
                response.request_id = Some(came);
                Ok(response)
            } else {
                other_id(alloc, sent, came)
            }
        }
    }
}

// Whether the request id that came is the one that was sent.
fn is_same_id(sent: &Option<Str>, came: &Str) -> bool
    ensures { result ≡ is_sent sent.now came.now }
{
    match sent {
        None => false,
        Some(sent) => sent.get() == came.get(),
    }
}

// The fault of another request id, with both.
fn other_id(alloc: Global, sent: &Option<Str>, came: Str) -> Result<Response, ClientFault>
    ensures { IsOtherId sent.now came result }
{
    let Some(sent) = sent else {
        return Err(ClientFault::OtherId { sent: None, came });
    };
    match Str::of(alloc, sent.get()) {
        Ok(sent) => Err(ClientFault::OtherId {
            sent: Some(sent),
            came,
        }),
        Err(AllocError) => Err(ClientFault::Memory),
    }
}
