//! What replies to a message.
ghost use Rattle.std.specs.Prelude.{◌≡◌, ◌++◌, ◌∷◌, [], ℕ, List};
ghost use Rattle.doip_segment.specs.Decoding.{IsStanding};

use doip_segment::Decoder;

/// Where the text of a reply is.
#[derive(Clone, Copy)]
pub enum Reply {
    /// In the buffer.
    Made,
    /// It is this constant.
    Constant(&'static [u8]),
}

/// What replies to messages, one after another: a store of one's own, or a turn of a store that several sessions share.
///
/// The decoder and the buffer go in by value and come back, since a turn of a lock can carry no loan.
pub trait Responder {
    ghost use Rattle.doip_segment.specs.Segments.{Segment};
    ghost use Rattle.doip_message.specs.Pairs.{Pair, pair};
    ghost use Rattle.session_core.specs.Texts.{reply_bytes};

    /// What no call changes.
    ghost Fixed: { Type 0 };

    ghost fixed: { Self → Fixed };

    /// What has to hold between two calls.
    ghost ready: { Self → Type 0 };

    /// The messages that were replied to so far, each with the text of its reply, in order.
    ghost answered: { Self → List Pair };

    /// Replies to the message that is waiting in the decoder, which stays as it was. The reply is in the buffer that is
    /// given back, or it is a constant.
    fn respond(&mut self, decoder: Decoder, buffer: Vec<u8>) -> (Decoder, Vec<u8>, Reply)
        requires ready { ready self.old }
        requires waiting { IsStanding decoder }
        ensures ready { ready self.new }
        ensures fixed { fixed self.new ≡ fixed self.old }
        ensures decoder { result.0 ≡ decoder }
        ensures answered { answered self.new ≡ answered self.old
            ++ pair decoder.segments (reply_bytes result.1.items result.2) ∷ [] };
}
