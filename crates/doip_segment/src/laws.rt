//! Laws of spellings and framings: each is the contract of a function that does nothing.

ghost use Rattle.std.specs.Prelude.{◌≡◌, ◌∷◌, ◌++◌, ℕ, List, []};
ghost use Rattle.doip_segment.specs.declared.outcome.Limits.{Limits};
ghost use Rattle.doip_segment.specs.declared.outcome.Reason.{Reason};
ghost use Rattle.doip_segment.specs.Segments.{Segment};
ghost use Rattle.doip_segment.specs.Grammar.{IsSpelling};
ghost use Rattle.doip_segment.specs.Canonical.{AreEncodable, canonical};
ghost use Rattle.doip_segment.specs.Framing.{IsWithin, Framed, Broken};
ghost use Rattle.doip_segment.specs.declared.outcome.Step.TheVariants.{More};
ghost use Rattle.doip_segment.specs.Decoding.{Decoding, Took, Frames};
ghost use Rattle.doip_segment.specs.Session.{Call, IsSession, bytes_of, messages_read, rest_of, Ends};

/// No spelling is a proper prefix of another, and each is a spelling of one message.
pub fn no_spelling_begins_another()
    ensures { (bytes after : List ℕ) (message other : List Segment)
        → IsSpelling bytes message → IsSpelling (bytes ++ after) other → (after ≡ []) × (message ≡ other) }
{}

/// Each list of bytes is framed in exactly one way.
pub fn each_stream_has_one_framing()
    ensures some { (limits : Limits) (bytes : List ℕ)
        → (messages : List (List Segment)) × (rest : List ℕ) × Framed limits bytes messages rest }
    ensures only { (limits : Limits) (bytes : List ℕ) (messages others : List (List Segment)) (rest remains : List ℕ)
        → Framed limits bytes messages rest → Framed limits bytes others remains
        → (messages ≡ others) × (rest ≡ remains) }
{}

/// Bytes break at one place at most, and for one reason.
pub fn each_stream_breaks_once()
    ensures { (limits : Limits) (bytes : List ℕ) (place other : ℕ) (reason second : Reason)
        → Broken limits bytes place reason → Broken limits bytes other second
        → (place ≡ other) × (reason ≡ second) }
{}

/// A session whose bytes break keeps its messages, its fault and that fault's place, whatever bytes follow.
pub fn what_breaks_stays_broken()
    ensures framed { (limits : Limits) (bytes more : List ℕ) (messages : List (List Segment)) (rest : List ℕ)
        (place : ℕ) (reason : Reason) → Framed limits bytes messages rest → Broken limits rest place reason
        → Framed limits (bytes ++ more) messages (rest ++ more) }
    ensures broken { (limits : Limits) (bytes more : List ℕ) (messages : List (List Segment)) (rest : List ℕ)
        (place : ℕ) (reason : Reason) → Framed limits bytes messages rest → Broken limits rest place reason
        → Broken limits (rest ++ more) place reason }
{}

/// What the encoder writes is a spelling of the message.
pub fn canonical_is_a_spelling()
    ensures { (message : List Segment) → AreEncodable message → IsSpelling (canonical message) message }
{}

/// What the encoder wrote is read again, with whatever comes after it: a stream that begins with the canonical spelling
/// of a message within the limits has that message first, and then those of the bytes after it.
pub fn what_is_written_is_read()
    ensures { (limits : Limits) (message : List Segment) (after : List ℕ)
        → (messages : List (List Segment)) (rest : List ℕ) → AreEncodable message
        → IsWithin limits (canonical message) message
        → Framed limits (canonical message ++ after) messages rest
        → (later : List (List Segment)) × (messages ≡ message ∷ later) × Framed limits after later rest }
{}

/// What stands in a decoder is what the bytes since its last message are.
pub fn what_stands_is_what_came()
    ensures { (d : Decoding) (came : List ℕ) → Took d came → Frames d.limits came [] 0 d.standing d }
{}

/// However a session is cut into pieces, its messages and its rest are those of the bytes taken, joined. It ends at a
/// fault exactly when the rest breaks, at that place of the session's bytes and for that reason.
pub fn pieces_do_not_matter()
    ensures framed { (limits : Limits) (calls : List Call) → IsSession limits [] 0 calls
        → Framed limits (bytes_of calls) (messages_read calls) (rest_of [] calls) }
    ensures ends { (limits : Limits) (calls : List Call) → IsSession limits [] 0 calls
        → Ends limits (bytes_of calls) (rest_of [] calls) More calls }
    ensures same { (limits : Limits) (calls others : List Call)
        → IsSession limits [] 0 calls → IsSession limits [] 0 others → bytes_of calls ≡ bytes_of others
        → (messages_read calls ≡ messages_read others) × (rest_of [] calls ≡ rest_of [] others) }
{}
