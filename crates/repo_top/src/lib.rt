//! The program as a library: the arguments, and what each command does with the objects of a host.
//!
//! `run_plain` is the top call. It takes the arguments and the host, and returns the exit status, what there is to
//! note, and the objects that the host handed out. `main` makes a real host and calls it. Read `run_plain` first, and
//! its clause `run`, which says what each command asks, leaves and prints: `specs/Commands.antt` has its definitions, over
//! those of `specs/Answer.antt` and `specs/Files.antt`.
//!
//! A contract sees of `Words` the list of the arguments, and of `Ran::past` the list of the entries of the history.
#![tactic(auto)]

mod accounts;
mod alone;
mod answer;
mod check;
mod compact;
mod file_run;
mod init;
mod laws;
mod line;
mod migrate;
mod outcome;
mod printing;
mod run;
mod start;
#[cfg(test)]
mod tests;

pub use command_line::Words;
pub use laws::outcomes_give_the_bytes;
pub use outcome::{NoSession, Note, Ran};
pub use repo_step::Past;
pub use run::run_plain;
pub use session_core::SessionEnd;
