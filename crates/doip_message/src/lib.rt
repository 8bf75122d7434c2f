//! Requests and responses, read from messages and written as messages.
//!
//! The properties are those of DOIP 2.0; the order of faults and the constant texts are this project's own. Read
//! `request_of` first. `response_message` writes what the server replies.
#![tactic(auto)]

mod appending;
mod reading;
mod request;
mod response;
#[cfg(test)]
mod tests;
mod texts;
mod writing;

pub use appending::{
    append_refusal, append_string, begin_parts, begin_value, end_parts, end_value,
    parts_make_a_reply,
};
pub use reading::request_of;
pub use request::{Body, FieldName, Request, RequestFault, Why};
pub use response::{Response, Status};
pub use texts::{CLOSED_TEXT, DISK_TEXT, FRAMING_TEXT, MEMORY_TEXT, fixed_texts_are_replies};
pub use writing::response_message;
