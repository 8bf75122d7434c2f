//! A responder for tests: it replies with the bytes of a message's first segment, and keeps its pairs for contracts.
ghost use Rattle.std.specs.Prelude.{◌≡◌, ◌++◌, ◌∷◌, []};
ghost use Rattle.doip_segment.specs.Decoding.{IsStanding};
ghost use Rattle.doip_message.specs.Pairs.{pair};
ghost use Rattle.session_core.specs.Texts.{reply_bytes};

use crate::{Reply, Responder};
use doip_segment::{Decoder, Message};
use std::marker::Model;
use std::mem;
use std::snapshot::Snapshot;

/// Replies with the first segment of a message, and with a constant where there is none.
#[derive(Drop)]
pub(crate) struct Echo {
    past: Past,
}

impl Echo {
    pub(crate) fn new() -> Echo {
        Echo { past: Past::none() }
    }
}

impl Responder for Echo {
    ghost Fixed = { Unit {0} };

    ghost fixed = { λ e. tt };

    ghost ready = { λ e. Unit {0} };

    ghost answered = { λ e. e.past };

    fn respond(&mut self, decoder: Decoder, buffer: Vec<u8>) -> (Decoder, Vec<u8>, Reply) {
        let mut buffer = buffer;
        let reply = echo_of(decoder.message(), &mut buffer);
        self.past.add(decoder.message(), &buffer, reply);
        (decoder, buffer, reply)
    }
}

// The reply to a message, in the buffer or as a constant.
fn echo_of(message: &Message, buffer: &mut Vec<u8>) -> Reply {
    buffer.clear();
    if message.count() == 0 {
        return Reply::Constant(b"-");
    }
    match buffer.extend_from_slice(message.bytes(0)) {
        Ok(()) => Reply::Made,
        Err(_) => Reply::Constant(b"no memory"),
    }
}

// The pairs of a responder, seen as their list. They have no bytes.
#[derive(Drop)]
struct Past {
    seen: Snapshot<Turns>,
}

impl Model for Past {
    ghost use Rattle.std.specs.Prelude.{List};
    ghost use Rattle.doip_message.specs.Pairs.{Pair};

    ghost Value = { List Pair };

    ghost view = { λ p. p.seen.value };
}

impl Past {
    fn none() -> Past
        ensures { result ≡ [] }
    {
        Past {
            seen: Snapshot::of(&Turns { last: None }),
        }
    }

    fn add(&mut self, message: &Message, buffer: &Vec<u8>, reply: Reply)
        ensures { self.new ≡ self.old ++ pair message.now.segments (reply_bytes buffer.now.items reply) ∷ [] }
    {
        let past = mem::replace(&mut self.seen, Snapshot::of(&Turns { last: None }));
        let last = Last {
            past,
            message: Snapshot::of(message),
            buffer: Snapshot::of(buffer),
            reply,
        };
        self.seen = Snapshot::of(&Turns { last: Some(last) });
    }
}

#[derive(Drop)]
#[cycle(turns)]
struct Turns {
    last: Option<Last>,
}

#[derive(Drop)]
#[cycle(turns)]
struct Last {
    past: Snapshot<Turns>,
    message: Snapshot<Message>,
    buffer: Snapshot<Vec<u8>>,
    reply: Reply,
}

impl Model for Turns {
    ghost use Rattle.std.specs.Prelude.{List, length, option_map, unwrap_or, [], ◌++◌, ◌∷◌};
    ghost use Rattle.doip_message.specs.Pairs.{Pair, pair};
    ghost use Rattle.session_core.specs.Texts.{reply_bytes};

    ghost Value = { List Pair };

    ghost size = { length };

    ghost view = { λ t. unwrap_or
        (option_map (λ l. l.past.value
        ++ pair l.message.value.segments (reply_bytes l.buffer.value.items l.reply) ∷ []) t.last) [] };
}
