//! The text that an outcome fixes.
ghost use Rattle.std.specs.Prelude.{◌≡◌, option_map};
ghost use Rattle.doip_message.specs.Reply.{reply_text};
ghost use Rattle.repo_step.specs.History.{fixed_reply};

use crate::Outcome;
use doip_message::{CLOSED_TEXT, DISK_TEXT, MEMORY_TEXT, fixed_texts_are_replies};

/// The text of the reply that the outcome fixes; `None` for `Done`, whose reply is the step's.
pub fn fixed_text(outcome: Outcome) -> Option<&'static [u8]>
    ensures { option_map (λ text. text.now) result ≡ option_map reply_text (fixed_reply outcome) }
{
    fixed_texts_are_replies();
    match outcome {
        Outcome::Done => None,
        Outcome::NoMemory => Some(MEMORY_TEXT),
        Outcome::DiskFault => Some(DISK_TEXT),
        Outcome::Closed => Some(CLOSED_TEXT),
    }
}
