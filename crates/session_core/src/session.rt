//! The loop of a session.
ghost use Rattle.std.specs.Prelude.{◌≡◌, []};
ghost use Rattle.doip_segment.specs.Decoding.{Took};
ghost use Rattle.session_core.specs.Saying.{SaysBytes};
ghost use Rattle.session_core.specs.Texts.{reply_bytes};
ghost use Rattle.session_core.specs.Session.{Served};

use crate::{Next, Reader, Reply, Responder, SessionEnd, WriteFault, say};
use doip_message::{FRAMING_TEXT, fixed_texts_are_replies};
use doip_segment::{Decoder, each_stream_has_one_framing};
use link_core::Link;

// Writes a reply.
fn say_reply<L: Link>(link: &mut L, buffer: &Vec<u8>, reply: Reply) -> Result<(), WriteFault>
    ensures { SaysBytes (L.state link.old) (L.state link.new) (reply_bytes buffer.now.items reply) result }
{
    match reply {
        Reply::Made => say(link, buffer),
        Reply::Constant(text) => say(link, text),
    }
}

/// Serves one session: reads each message of the link, has the responder reply to it, and writes the reply before it
/// reads on. Where the bytes frame no message, it writes the framing text and ends. It takes no memory but the
/// responder's, and it doesn't close the link.
///
/// Reader and decoder are given as they are after `restart`; decoder and buffer come back, for the next session.
pub fn serve<L: Link, P: Responder>(
    link: &mut L,
    reader: &mut Reader,
    decoder: Decoder,
    buffer: Vec<u8>,
    responder: &mut P,
) -> (Decoder, Vec<u8>, SessionEnd)
    requires held { reader.old ≡ [] }
    requires took { Took decoder [] }
    requires place { decoder.taken ≡ 0 }
    requires ready { P.ready responder.old }

    ensures session { Served decoder.limits (P.answered responder.old) (P.answered responder.new)
        (L.state link.old) (L.state link.new) result.2 }
    ensures closed { (L.state link.new).closed ≡ (L.state link.old).closed }

    ensures ready { P.ready responder.new }
    ensures fixed { P.fixed responder.new ≡ P.fixed responder.old }
    ensures limits { result.0.limits ≡ decoder.limits }
{
    fixed_texts_are_replies();
    each_stream_has_one_framing();
    let mut decoder = decoder;
    let mut buffer = buffer;
    loop {
        match reader.next(link, &mut decoder) {
            Next::Message => {
                let (back, text, reply) = responder.respond(decoder, buffer);
                decoder = back;
                buffer = text;
                decoder.clear();
                if let Err(WriteFault) = say_reply(link, &buffer, reply) {
                    return (decoder, buffer, SessionEnd::WriteFault);
                }
            }
            Next::Ended => return (decoder, buffer, SessionEnd::Ended),
            Next::Cut { place } => return (decoder, buffer, SessionEnd::Cut { place }),
            Next::Framing { place, reason } => {
                return match say(link, FRAMING_TEXT) {
                    Ok(()) => (decoder, buffer, SessionEnd::Framing { place, reason }),
                    Err(WriteFault) => (decoder, buffer, SessionEnd::WriteFault),
                };
            }
            Next::ReadFault => return (decoder, buffer, SessionEnd::ReadFault),
        }
    }
}
