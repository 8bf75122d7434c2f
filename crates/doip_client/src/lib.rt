//! The client of one link: it asks a request, and returns the response.
//!
//! Read `ask` first: it writes the request's canonical text on a link, reads one message, and returns the response that
//! this is. Its clause `asks` says what was written and read, and by `Outcome` which answer comes when: each fault of
//! `ClientFault` has its cause there. `one_input_has_one_answer`: the bytes to read decide the answer, but for faults of
//! the link and out of memory, so a cause that holds gives its answer.
//!
//! A contract sees an answer as plain data by `answer_of`, the request by `asked_of` of `doip_message`, and where bytes are
//! by `stage` of `session_core`.
//!
//! Not promised: that the peer answers, or that what it answers belongs to the request where it has no request id.
#![tactic(auto)]

mod asking;
mod fault;
mod law;
#[cfg(test)]
mod tests;

pub use asking::ask;
pub use fault::ClientFault;
pub use law::one_input_has_one_answer;
