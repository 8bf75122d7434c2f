//! Sessions on a link: reading messages, writing bytes, and the loop that serves a session.
//!
//! A contract sees of a `Reader` the bytes that it has read from its link and not yet fed to a decoder. `Reader::next`
//! gives the messages of the bytes that the reader still holds followed by those that the link gives, one a call,
//! whatever the lengths of the reads. `say` writes bytes on a link.
//!
//! Read `serve` first: over a link and a `Responder` it reads, replies and writes until the session ends. Its clause
//! `session` says what was read and written and which `SessionEnd` comes when; `a_session_that_reports` turns it into
//! `Session`, for a link that reports its bytes. `cuts_do_not_matter`: the cuts between reads change nothing.
//!
//! `next`, `say` and `serve` take no memory, but for the responder's own. That a link gives bytes at all is not
//! promised.
#![tactic(auto)]

mod end;
mod laws;
mod one_input;
mod reader;
mod responder;
mod saying;
mod session;
#[cfg(test)]
mod tests;

pub use end::SessionEnd;
pub use laws::{a_session_that_reports, cuts_do_not_matter};
pub use one_input::one_input_gives_one_session;
pub use reader::{Next, Reader};
pub use responder::{Reply, Responder};
pub use saying::{WriteFault, say};
pub use session::serve;
