//! The law of two sessions over one input: the contract of a function that does nothing.
ghost use Rattle.std.specs.Prelude.{◌≡◌};
ghost use Rattle.doip_segment.specs.declared.outcome.Limits.{Limits};
ghost use Rattle.doip_message.specs.Pairs.{messages_of, texts_of};
ghost use Rattle.session_core.specs.Session.{Transcript};
ghost use Rattle.session_core.specs.OneInput.{ReadOneInput};

use crate::cuts_do_not_matter;

/// However an input is cut into reads: two sessions over it, in which no call of a link failed, had the same messages
/// and the same end, and if their replies had the same texts they wrote the same bytes. One of them may have read further
/// past a framing fault than the other.
pub fn one_input_gives_one_session()
    ensures messages { (limits : Limits) (one other : Transcript) → ReadOneInput limits one other
        → messages_of one.pairs ≡ messages_of other.pairs }
    ensures end { (limits : Limits) (one other : Transcript) → ReadOneInput limits one other → one.end ≡ other.end }
    ensures written { (limits : Limits) (one other : Transcript) → ReadOneInput limits one other
        → texts_of one.pairs ≡ texts_of other.pairs → one.written ≡ other.written }
{
    cuts_do_not_matter();
}
