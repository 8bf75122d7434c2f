//! The messages of a link.
ghost use Rattle.std.specs.Prelude.{◌≡◌, ◌≤◌, ◌<◌, ◌⊎◌, [], length, IfOk, OnErr, Ok};
ghost use Rattle.std.specs.Io.KnownBytes.{Appends, Consumes, IsAtEnd};
ghost use Rattle.base_core.specs.Causes.{Rose};
ghost use Rattle.link_core.specs.Link.{Spends};
ghost use Rattle.doip_segment.specs.Decoding.{IsPlaced};
ghost use Rattle.session_core.specs.Reading.{MatchesEnd};

use doip_segment::{Decoder, End, Reason, Step};
use link_core::{Failed, Link};
use std::alloc::{AllocError, Global};
use std::marker::Model;

/// How many bytes a read may give.
const ROOM: usize = 65_536;

/// What the next bytes of a link are.
#[derive(Clone, Copy, Debug, PartialEq, Eq)]
pub enum Next {
    /// A message, which is waiting in the decoder.
    Message,
    /// The link's end, between messages.
    Ended,
    /// The link's end inside a message, after this many bytes of the session.
    Cut { place: u64 },
    /// Bytes that frame no message: the byte at this place of the session is the first that is wrong.
    Framing { place: u64, reason: Reason },
    /// A read of the link failed.
    ReadFault,
}

/// The bytes that were read from a link and not yet fed to a decoder, seen as their list, in a buffer that is kept.
#[derive(Drop)]
pub struct Reader {
    buffer: Vec<u8>,
    start: usize,
    end: usize,
}

impl Model for Reader {
    ghost use Rattle.std.specs.Prelude.{List, ℕ, ◌≡◌, ◌≤◌, ◌-◌, take, drop, vec_len};

    ghost Value = { List ℕ };

    ghost view = { λ r. take (r.end - r.start) (drop r.start r.buffer.items) };

    ghost invariant = { λ r. (vec_len r.buffer ≡ 65536) × (r.start ≤ r.end) × (r.end ≤ 65536) };
}

impl Reader {
    ghost use Rattle.session_core.specs.Reading.{FeedsHeld, FramesHeld, Flows, OnlyReads, stage, decoder_step, Means, IsReadFault};

    /// A reader that holds nothing. It takes all memory that it will ever need.
    pub fn new(alloc: Global) -> Result<Reader, AllocError>
        ensures { IfOk result (λ reader. reader ≡ []) }
    {
        let buffer = vec![in alloc; 0; ROOM]?;
        Ok(Reader {
            buffer,
            start: 0,
            end: 0,
        })
    }

    /// Forgets the bytes of an old link.
    pub fn restart(&mut self)
        ensures { self.new ≡ [] }
    {
        self.start = 0;
        self.end = 0;
    }

    // Feeds the decoder a prefix of what the reader holds: all of it, unless a message or a fault comes first.
    fn feed_held(&mut self, decoder: &mut Decoder) -> Step
        ensures fed { FramesHeld result self.old self.new decoder.old decoder.new }
        ensures outcome { result ≡ decoder.new.standing }
        ensures place { IsPlaced result decoder.new.taken }
        ensures more { result ≡ Step.More → self.new ≡ [] }
        ensures bound { length self.new ≤ 65536 }
    {
        let (fed, step) = decoder.feed(&self.buffer[self.start..self.end]);
        self.start += fed;
        step
    }

    // Reads from the link into the buffer, in place of what the reader held.
    fn fill<L: Link>(&mut self, link: &mut L) -> Result<usize, Failed>
        ensures count { IfOk result (λ count. length self.new ≡ count) }
        ensures failed { OnErr result (self.new ≡ []) }
        ensures end { result ≡ Ok 0 → IsAtEnd (L.state link.new).left }
        ensures taken { Appends (L.state link.old).taken (L.state link.new).taken self.new }
        ensures left { Consumes (L.state link.old).left (L.state link.new).left self.new }
        ensures spends { Spends (L.state link.old).reads (L.state link.new).reads result }
        ensures cause { OnErr result (Rose (L.state link.old).faults (L.state link.new).faults) }
        ensures only_reads { OnlyReads (L.state link.old) (L.state link.new) }
    {
        self.start = 0;
        self.end = 0;
        let count = link.read(&mut self.buffer)?;
        self.end = count;
        Ok(count)
    }

    /// Feeds the decoder what the reader holds and then what the link gives, up to the end of the first message, a
    /// framing fault, the link's end or a fault of the link. While a finished message is waiting, it returns `Message`
    /// and reads nothing. It takes no memory.
    ///
    /// # Errors
    /// Returns `ReadFault` only if the link's number of faults rose during this call.
    pub fn next<L: Link>(&mut self, link: &mut L, decoder: &mut Decoder) -> Next
        ensures flow { Flows (decoder_step result) (stage self.old (L.state link.old) decoder.old)
            (stage self.new (L.state link.new) decoder.new) }
        ensures means { Means result self.new (L.state link.new).left decoder.new }
        ensures only_reads { OnlyReads (L.state link.old) (L.state link.new) }
        ensures cause { IsReadFault result → Rose (L.state link.old).faults (L.state link.new).faults }
        ensures bound { length self.new ≤ 65536 }

        // A message came from a read that gave bytes, or from what the reader held alone.
        ensures spends { result ≡ Next.Message → ((L.state link.new).reads < (L.state link.old).reads)
            ⊎ FeedsHeld self.old self.new decoder.old decoder.new }
    {
        // A proof learns here that the place fits its type.
        let _ = decoder.taken();
        loop {
            match self.feed_held(decoder) {
                Step::Message => return Next::Message,
                Step::Fault { place, reason } => return Next::Framing { place, reason },
                Step::More => {}
            }
            match self.fill(link) {
                Ok(0) => return at_end(decoder),
                Ok(_) => {}
                Err(Failed) => return Next::ReadFault,
            }
        }
    }
}

// Whether the link's end is between messages, or inside one.
fn at_end(decoder: &Decoder) -> Next
    ensures { MatchesEnd result decoder.now }
{
    match decoder.finish() {
        End::Between => Next::Ended,
        End::Inside { place } => Next::Cut { place },
    }
}
