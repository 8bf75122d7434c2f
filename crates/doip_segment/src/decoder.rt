//! The decoder: it looks at each byte of a session once, and copies contents by slices.

ghost use Rattle.std.specs.Prelude.{◌≡◌, ◌≢◌, ◌+◌, ◌≤◌, ◌<◌, ◌↔◌, ℕ, List, [], ◌∷◌, ◌++◌, length, take, false, All, IsTrue, IfOk};
ghost use Rattle.doip_segment.specs.Machine.{added, closed, limit_fault, is_done, start, end_of};
ghost use Rattle.doip_segment.specs.Framing.{most_total};
ghost use Rattle.doip_segment.specs.Decoding.{IsStanding, EndsBetween, Shows, Took, Feeds, Uses, Reports};
ghost use Rattle.doip_segment.specs.Advance.{Advances};

use crate::class::{Class, classify};
use crate::kind::Kind;
use crate::message::Message;
use crate::outcome::{End, Limits, Reason, Step};
use crate::phase::{Phase, next, phase_in_data};
use memchr::memchr;
use std::alloc::{AllocError, Global};
use std::marker::Model;

/// The most segments that a message has (`most_segments` of the specs).
const MOST_SEGMENTS: usize = 2048;

/// Reads the messages of a session, however it is cut into pieces.
#[derive(Debug, Drop)]
pub struct Decoder {
    limits: Limits,
    /// The segments read so far of a message, and the content of the one that isn't closed yet.
    message: Message,
    phase: Phase,
    /// How many bytes the message took so far.
    count: u32,
    /// How many bytes the session took so far, up to 2^64 - 1.
    taken: u64,
}

impl Model for Decoder {
    ghost use Rattle.doip_segment.specs.Decoding.{Decoding};
    ghost use Rattle.doip_segment.specs.Advance.{Fits};
    ghost use Rattle.doip_segment.specs.Machine.{outcome_of};

    ghost Value = { Decoding };

    ghost view = { λ d. record {
      limits = d.limits;
      standing = outcome_of d.phase d.taken;
      segments = d.message.segments;
      taken = d.taken;
      reading = record {
        segments = d.message.segments;
        pending = d.message.pending;
        phase = d.phase;
        count = d.count;
      };
    } };

    ghost invariant = { λ d. Fits d.limits d.message d.phase d.count };
}

/// The segment that a byte closes.
fn closing(phase: Phase, class: Class) -> Option<Kind>
    ensures { result ≡ closed phase class }
{
    match (phase, class) {
        (Phase::JsonEnd, Class::LineFeed) => Some(Kind::Json),
        (Phase::BytesEnd, Class::LineFeed) => Some(Kind::Bytes),
        _ => None,
    }
}

/// Keeps what a byte adds to the content of the open segment.
fn keep(message: &mut Message, phase: Phase, class: Class, byte: u8)
    requires { message.old.used + length (added phase class byte) ≤ message.old.capacity }
    ensures segments { message.new.segments ≡ message.old.segments }
    ensures pending { message.new.pending ≡ message.old.pending ++ added phase class byte }
    ensures used { message.new.used ≡ message.old.used + length (added phase class byte) }
    ensures capacity { message.old.capacity ≤ message.new.capacity }
    ensures slots { message.new.slots ≡ message.old.slots }
{
    match phase {
        Phase::Due => match class {
            Class::Digit(_) | Class::Other => message.append(&[byte]),
            _ => {}
        },
        Phase::Text => match class {
            Class::LineFeed => {}
            _ => message.append(&[byte]),
        },
        Phase::LineStart => match class {
            Class::Hash => {}
            Class::LineFeed => message.append(b"\n"),
            _ => message.append(&[b'\n', byte]),
        },
        Phase::Data { .. } => message.append(&[byte]),
        _ => {}
    }
}

impl Decoder {
    /// A decoder before a session's first byte. It takes all memory that it will ever need: a buffer of `total` bytes
    /// and a table of 2,048 segments.
    pub fn new(alloc: Global, limits: Limits) -> Result<Decoder, AllocError>
        requires json { 1 ≤ limits.json }
        requires order { limits.json ≤ limits.total }
        requires total { limits.total ≤ most_total }
        ensures limits { IfOk result (λ d. d.limits ≡ limits) }
        ensures standing { IfOk result (λ d. d.standing ≡ Step.More) }
        ensures took { IfOk result (λ d. Took d []) }
        ensures taken { IfOk result (λ d. d.taken ≡ 0) }
    {
        let message = Message::with_room(alloc, limits.total as usize, MOST_SEGMENTS)?;
        Ok(Decoder {
            limits,
            message,
            phase: Phase::Due,
            count: 0,
            taken: 0,
        })
    }

    /// Whether a message or a fault stands, so that no byte more is taken.
    fn is_done(&self) -> bool
        ensures { result ≡ is_done self.now.reading.phase }
    {
        matches!(self.phase, Phase::Whole | Phase::Stuck { .. })
    }

    /// The limit that a byte would break.
    fn limit_broken(&self, class: Class) -> Option<Reason>
        ensures { result ≡ limit_fault self.now.limits self.now.reading class }
    {
        let long = match (self.phase, class) {
            (Phase::Text, _) => self.message.pending() > self.limits.json as usize,
            (Phase::LineStart, Class::Hash) => false,
            (Phase::LineStart, _) => self.message.pending() >= self.limits.json as usize,
            _ => false,
        };
        let begins = matches!(
            (self.phase, class),
            (Phase::Due, Class::At | Class::Digit(_) | Class::Other)
        );
        if self.count >= self.limits.total {
            Some(Reason::TooLong)
        } else if long {
            Some(Reason::JsonTooLong)
        } else if begins && self.message.count() >= MOST_SEGMENTS {
            Some(Reason::TooMany)
        } else {
            None
        }
    }

    /// Takes one byte while neither a message nor a fault stands.
    fn take_byte(&mut self, byte: u8)
        requires { is_done self.old.reading.phase ≡ false }
        ensures { Advances 1 (byte ∷ []) self.old self.new }
    {
        let class = classify(byte);
        let broken = self.limit_broken(class);
        self.count += 1;
        self.taken = self.taken.saturating_add(1);
        if let Some(reason) = broken {
            self.phase = Phase::Stuck { reason };
            return;
        }
        match closing(self.phase, class) {
            Some(kind) => self.message.close(kind),
            None => keep(&mut self.message, self.phase, class, byte),
        }
        self.phase = next(self.phase, class);
    }

    /// Takes text of a JSON segment up to the end of its line, or as much of it as there is and the limits let in.
    fn take_text(&mut self, rest: &[u8]) -> usize
        requires phase { self.old.reading.phase ≡ Phase.Text }
        requires rest { 0 < length rest.now }
        ensures some { 0 < result }
        ensures within { result ≤ length rest.now }
        ensures advances { Advances result rest.now self.old self.new }
    {
        let text = (self.limits.json as usize + 1).saturating_sub(self.message.pending());
        let total = self.limits.total.saturating_sub(self.count) as usize;
        let window = rest.len().min(text).min(total);
        if window == 0 {
            self.take_byte(rest[0]);
            return 1;
        }
        let line = match memchr(b'\n', &rest[..window]) {
            Some(end) => {
                self.message.append(&rest[..end]);
                self.phase = Phase::LineStart;
                end + 1
            }
            None => {
                self.message.append(&rest[..window]);
                window
            }
        };
        self.count += line as u32;
        self.taken = self.taken.saturating_add(line as u64);
        line
    }

    /// Takes data of a chunk, all that is due or as much of it as there is and the limits let in.
    fn take_data(&mut self, rest: &[u8], left: u64) -> usize
        requires phase { self.old.reading.phase ≡ Phase.Data left }
        requires rest { 0 < length rest.now }
        ensures some { 0 < result }
        ensures within { result ≤ length rest.now }
        ensures advances { Advances result rest.now self.old self.new }
    {
        let total = self.limits.total.saturating_sub(self.count) as usize;
        let window = rest.len().min(left as usize).min(total);
        if window == 0 {
            self.take_byte(rest[0]);
            return 1;
        }
        self.message.append(&rest[..window]);
        self.phase = phase_in_data(left - window as u64);
        self.count += window as u32;
        self.taken = self.taken.saturating_add(window as u64);
        window
    }

    /// Takes some of the bytes while neither a message nor a fault stands, by slices if they are content.
    fn take_some(&mut self, rest: &[u8]) -> usize
        requires live { is_done self.old.reading.phase ≡ false }
        requires rest { 0 < length rest.now }
        ensures some { 0 < result }
        ensures within { result ≤ length rest.now }
        ensures advances { Advances result rest.now self.old self.new }
    {
        match self.phase {
            Phase::Text => self.take_text(rest),
            Phase::Data { left } => self.take_data(rest, left),
            _ => {
                self.take_byte(rest[0]);
                1
            }
        }
    }

    /// What `feed` returns for no bytes.
    fn standing(&self) -> Step
        ensures standing { result ≡ self.now.standing }
        ensures shows { Shows self.now }
    {
        match self.phase {
            Phase::Whole => Step::Message,
            Phase::Stuck { reason } => Step::Fault {
                place: self.taken,
                reason,
            },
            _ => Step::More,
        }
    }

    /// Takes bytes until a message or a fault stands, and returns how many.
    fn take_all(&mut self, piece: &[u8]) -> usize
        ensures within { result ≤ length piece.now }
        ensures all { is_done self.new.reading.phase ≡ false → result ≡ length piece.now }
        ensures unchanged { self.old.standing ≢ Step.More → (result ≡ 0) × (self.new ≡ self.old) }
        ensures advances { Advances result piece.now self.old self.new }
    {
        let _ = &self.taken;
        let mut used = 0;
        while used < piece.len() && !self.is_done() {
            used += self.take_some(&piece[used..]);
        }
        used
    }

    /// Consumes bytes up to the end of the first whole message, or up to and with the byte at a fault's place, or the
    /// whole piece, and returns how many. It takes no memory, and looks at each byte once.
    pub fn feed(&mut self, piece: &[u8]) -> (usize, Step)
        ensures used { Uses piece.now result.0 result.1 self.new }
        ensures outcome { result.1 ≡ self.new.standing }

        // What the bytes taken since the last message are, and this piece after them.
        ensures feeds { Feeds (take result.0 piece.now) self.old self.new }
        ensures framing { (came : List ℕ) → Took self.old came
            → Reports self.old.limits came piece.now result.0 result.1 self.new }

        // While a message or a fault stands, nothing is consumed and the same is returned.
        ensures unchanged { self.old.standing ≢ Step.More
            → (result ≡ (0, self.old.standing)) × (self.new ≡ self.old) }
    {
        let used = self.take_all(piece);
        (used, self.standing())
    }

    /// How many bytes were taken since the decoder was made or last restarted, and 2^64 - 1 if there were more.
    pub fn taken(&self) -> u64
        ensures { result ≡ self.now.taken }
    {
        self.taken
    }

    /// Whether a message stands.
    pub fn stands(&self) -> bool
        ensures { IsTrue result ↔ IsStanding self.now }
    {
        matches!(self.standing(), Step::Message)
    }

    /// The message that stands. None of its segments is longer than 64 MiB, the greatest limit of a message.
    pub fn message(&self) -> &Message
        requires { IsStanding self.now }
        ensures segments { result.now.segments ≡ self.now.segments }
        ensures short { All (λ s. length s.bytes ≤ most_total) result.now.segments }
    {
        self.message.recall_lengths();
        &self.message
    }

    fn begin(&mut self)
        ensures limits { self.new.limits ≡ self.old.limits }
        ensures standing { self.new.standing ≡ Step.More }
        ensures took { Took self.new [] }
        ensures taken { self.new.taken ≡ self.old.taken }
    {
        self.message.clear();
        self.phase = Phase::Due;
        self.count = 0;
    }

    /// Drops the message that stands, if one does, and changes nothing else.
    pub fn clear(&mut self)
        ensures limits { self.new.limits ≡ self.old.limits }
        ensures dropped { IsStanding self.old → (self.new.standing ≡ Step.More) × Took self.new [] }
        ensures unchanged { ¬ IsStanding self.old → self.new ≡ self.old }
        ensures taken { self.new.taken ≡ self.old.taken }
    {
        if self.stands() {
            self.begin();
        }
    }

    /// Begins a new session: drops a message, a part of one, a fault and the place.
    pub fn restart(&mut self)
        ensures limits { self.new.limits ≡ self.old.limits }
        ensures standing { self.new.standing ≡ Step.More }
        ensures took { Took self.new [] }
        ensures taken { self.new.taken ≡ 0 }
    {
        self.begin();
        self.taken = 0;
    }

    /// How the session ends if no byte more comes: between messages if one stands, or if no fault does and only white
    /// bytes came since the last one. Else inside, with the number of bytes taken, which is the place of a fault.
    pub fn finish(&self) -> End
        ensures between { (came : List ℕ) → Took self.now came → (result ≡ End.Between) ↔ EndsBetween self.now came }
        ensures inside { (place : ℕ) → result ≡ End.Inside place → place ≡ self.now.taken }
    {
        self.ending()
    }

    fn ending(&self) -> End
        ensures { result ≡ end_of self.now.reading.phase self.now.reading.segments self.now.taken }
    {
        match self.phase {
            Phase::Whole => End::Between,
            Phase::Due if self.message.count() == 0 => End::Between,
            _ => End::Inside { place: self.taken },
        }
    }
}
