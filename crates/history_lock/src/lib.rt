//! Turns between threads on one value, with one history.
//!
//! A lock holds a value that implements [`Turned`]. A thread that has a [`Pass`] takes turns on it by
//! [`Shared::apply`], one after another in the order in which they drew tickets. Contracts see a history, the list of
//! all turns so far, each with the number of its pass and its entry. The history has no bytes: a pass carries, in
//! proofs alone, the prefix of it that it has seen, and the entries of its own turns, those of its numbers in there.
//!
//! Read [`Shared::apply`] first. Its clause `IsTurn` (`specs/Passes.antt`) says that the pass has now seen its old
//! history, turns of others, and then its own turn, which is a step of the value that those before it left. `meet` and
//! `join` compare what two passes have seen, and `close` gives the value with the whole history. `meet` and `join` take
//! no runtime, so they wait for nobody: a mutex round the value and all passes could not have these signatures.
//! [`Counter`] is an example of a value. `src/laws.rt` has laws that callers need of histories and shares.
//!
//! In `apply` a thread whose turn comes next spins for a short time and then sleeps, and the others sleep. The end of a
//! turn wakes one thread, the one whose turn has come, if it sleeps. A turn for which nobody waits makes no system
//! call. In `meet`, `join` and `close` nothing waits, and only `open` takes memory. No clause says that a turn comes,
//! or in which order two passes that never met took theirs.
#![tactic(auto)]

mod board;
mod chosen;
mod counter;
mod laws;
mod lock;
mod meetings;
mod opening;
mod pass;
mod places;
mod plays;
mod seats;
#[cfg(test)]
mod tests;
mod turned;
mod turns;

pub use counter::Counter;
pub use laws::{
    entries_go_by_parts, own_turns_are_never_news, own_turns_are_next_to_each_other,
    runs_go_by_parts,
};
pub use lock::Shared;
pub use pass::{Pass, Passes, Record};
pub use turned::Turned;
