//! One step of the one-thread repository, and histories of its turns.
//!
//! Read `answer` first. The reply is the first refusal in the order of `specs/Step.antt`, or the operation's own, a file
//! each in `specs/operations` and `src/operations`. `Planned` has the reply, which lends what is stored from the table,
//! and the change, which is made by `Table::reserve` and `Table::install`.
//!
//! An `Entry` is one turn, and a `Past` a history of them. Both exist for contracts and keep no bytes. The replies of a
//! history come by one pass from state to state (`specs/History.antt`), and `src/laws.rt` has the laws on that pass.
#![tactic(auto, unfolding(crate::specs::Chain::unless, crate::specs::Chain::clear, crate::specs::Chain::found, crate::specs::Chain::read))]

mod brought;
mod config;
mod entry;
mod fixed;
mod hello;
mod laws;
mod lists;
mod operation;
mod operations;
mod outcome;
mod past;
mod planned;
mod refusal;
mod shown;
mod step;
#[cfg(test)]
mod tests;
mod turn;

pub use brought::Brought;
pub use config::Config;
pub use entry::Entry;
pub use fixed::fixed_text;
pub use laws::{
    equal_causes_give_equal_texts, no_reply_is_a_fixed_text, replies_go_from_state_to_state,
    steps_keep_consistency,
};
pub use operation::Operation;
pub use outcome::Outcome;
pub use past::Past;
pub use planned::Planned;
pub use refusal::{Refusal, Stop};
pub use shown::{Made, Shown};
pub use step::answer;
