//! The two messages of an exchange that `doip_message` leaves to a client: a request as a message, and a message as a
//! response.
//!
//! Read `request_message` first, then `response_of`. A contract names a request by `asked_of` and a response by
//! `replied_of` of `doip_message`, the message of a request by `request_segments`, and what a message means by
//! `response`. A request that is `IsAskable` reads back as itself by `request_of`, and a response that is `IsReadable` by
//! `response_of` from `response_message`; the laws are clauses of `request_message`, of `response_reads_back`, and of
//! `messages_read_back` over plain data.
//!
//! Not promised: that another service reads what is written here.
#![tactic(auto)]

mod fault;
mod law;
mod reading;
mod sound;
mod status;
#[cfg(test)]
mod tests;
mod writing;

pub use fault::ResponseFault;
pub use law::{messages_read_back, response_reads_back};
pub use reading::response_of;
pub use status::status_of;
pub use writing::request_message;
