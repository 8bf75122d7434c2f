//! Many sessions at once over one store, with one history.
//!
//! A lane is a worker with a pass of the store's lock. It serves one session at a time: it reads, decodes and writes
//! beside the other lanes, and holds the store for the turn of a request alone. Contracts see of a pass the history
//! that it has seen (`seen`) and its own entries in there (`shares`).
//!
//! Read [`serve_session`] first: over one link it replies to each message by one turn, in order, and closes the link.
//! Its clause `grew` says that the pass's own list grew by the entries of this session alone; its clause `session`, that
//! these are the messages read, and that the replies written are the texts that the one history gives to them.
//! [`serve_lane`] does so for one link after another, as a [`Door`] gives them. [`turns_of_a_lock_are_turns`] leads from the
//! history of a lock to the laws of `repo_store`.
//!
//! That a lane is ever served, or how long anything takes, is not promised.
#![tactic(auto)]

mod door;
mod lane;
mod laws;
mod responder;
mod served;
mod session;
#[cfg(test)]
mod tests;

pub use door::Door;
pub use lane::serve_lane;
pub use laws::{
    closing_keeps_the_session, doors_admit_in_order, sessions_stay_in_longer_histories,
    turns_of_a_lock_are_turns,
};
pub use served::{LaneEnd, ServedSession};
pub use session::{Buffers, serve_session};
