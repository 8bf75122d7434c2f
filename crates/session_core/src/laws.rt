//! Laws of sessions: each is the contract of a function that does nothing.
ghost use Rattle.std.specs.Prelude.{◌≡◌, ◌≢◌, ◌++◌, ℕ, List, Some};
ghost use Rattle.link_core.specs.Link.{LinkState};
ghost use Rattle.doip_segment.specs.declared.outcome.Limits.{Limits};
ghost use Rattle.doip_segment.specs.Segments.{Segment};
ghost use Rattle.doip_message.specs.Pairs.{Pair, messages_of, texts_of};
ghost use Rattle.session_core.specs.Session.{Session, Served, Transcript, IsTranscript};
ghost use Rattle.session_core.specs.Cuts.{ReadTheSame, IsFaultless};
ghost use Rattle.session_core.specs.declared.end.SessionEnd.{SessionEnd};
ghost use Rattle.session_core.specs.declared.end.SessionEnd.TheVariants.{WriteFault};

use doip_segment::{each_stream_breaks_once, each_stream_has_one_framing};

/// What `serve` says of a session is `Session`, where the link reports what is left to read.
pub fn a_session_that_reports()
    ensures { (limits : Limits) (old new : List Pair) (before after : LinkState) (end : SessionEnd) (input : List ℕ)
        → before.left ≡ Some input → Served limits old new before after end
        → (t : Transcript) × Session limits t × IsTranscript old new before after end t }
{}

/// However the bytes of a session are cut into reads: two sessions that read the same bytes had the same messages, and
/// where their replies had the same texts they wrote the same bytes, unless a write failed. Without a fault of the link
/// they also ended alike. Where a write failed, the messages and the bytes written are a prefix of the other's.
pub fn cuts_do_not_matter()
    ensures messages { (limits : Limits) (one other : Transcript) → ReadTheSame limits one other
        → one.end ≢ WriteFault → other.end ≢ WriteFault → messages_of one.pairs ≡ messages_of other.pairs }
    ensures written { (limits : Limits) (one other : Transcript) → ReadTheSame limits one other
        → one.end ≢ WriteFault → other.end ≢ WriteFault
        → texts_of one.pairs ≡ texts_of other.pairs → one.written ≡ other.written }
    ensures end { (limits : Limits) (one other : Transcript) → ReadTheSame limits one other
        → IsFaultless one.end → IsFaultless other.end → one.end ≡ other.end }

    ensures fewer_messages { (limits : Limits) (one other : Transcript) → ReadTheSame limits one other
        → one.end ≢ WriteFault → other.end ≡ WriteFault
        → (later : List (List Segment)) × (messages_of one.pairs ≡ messages_of other.pairs ++ later) }
    ensures prefix { (limits : Limits) (one other : Transcript) (more : List Pair) → ReadTheSame limits one other
        → one.end ≢ WriteFault → other.end ≡ WriteFault → one.pairs ≡ other.pairs ++ more
        → (lacking : List ℕ) × (one.written ≡ other.written ++ lacking) }
{
    each_stream_has_one_framing();
    each_stream_breaks_once();
}
