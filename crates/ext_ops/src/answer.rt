//! What closures return.

use doip_json::{Json, Str};

/// What an extended operation returns.
#[derive(Debug, Drop)]
pub enum ExtAnswer {
    /// The output.
    Answer(Json),
    /// The text of a refusal.
    Refused(Str),
}

/// What a write hook returns.
#[derive(Debug, Drop)]
pub enum HookAnswer {
    /// The content in place of the one that it was given.
    Content(Json),
    /// The text of a refusal.
    Refused(Str),
}
