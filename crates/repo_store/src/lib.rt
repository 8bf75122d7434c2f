//! The repository on a disk, taken in turns.
//!
//! Read `Store::turn` first: its clause `turn` says what one turn does, and what a crash at any moment may leave. `laws`
//! says what any list of turns leaves. `open_table` reads a file without a store over it.
#![tactic(auto)]

mod compaction;
mod fault;
mod laws;
mod numbered;
mod opening;
mod planner;
mod saving;
mod store;
#[cfg(test)]
mod tests;
mod work;

pub use compaction::{CompactFault, ShrinkFault};
pub use fault::StoreFault;
pub use laws::{
    images_keep_their_contents, runs_are_histories, runs_leave_shrunk_files,
    runs_leave_their_files, runs_survive_crashes,
};
pub use opening::{NotOpened, open_table};
pub use planner::{Planner, Service};
pub use store::Store;
pub use work::{ReplyText, Told, Work};
