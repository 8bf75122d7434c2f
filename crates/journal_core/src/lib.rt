//! A list of records in a file that a crash at any moment leaves whole.
//!
//! `init` makes the file, `Journal::open` reads it, and `Journal::commit` adds a record, a body with the number and the
//! time of its change, and returns once it is durable. `commit_all` adds several with one pair of syncs. Contracts see
//! of a journal its disk, the length of its areas, its side, and how many bytes are used; `Keeps` says which list it
//! keeps (`specs/Journal.antt`). `specs/File.antt` says which list a file stands for. Read `commit` first.
//!
//! A file has two areas, and a side byte says which of them counts. `compact` writes another list into the other one and
//! turns the side; `FirstJournal::migrate` does the same to a file of format 1, which `Journal::open_first` reads.
//!
//! A record is written after a closed gate and synced before the gate is opened and synced. So a crash leaves the list
//! with the record or without it, whatever it makes of the bytes that were under way. Each record has a digest, by
//! which opening finds altered bytes; no promise on crashes leans on it.
//!
//! It doesn't promise that a real file is such a disk.
#![tactic(auto)]

mod area;
mod buffer;
mod compact;
mod create;
mod first;
mod header;
mod journal;
mod law;
mod layout;
mod moment;
mod open;
mod records;
mod steps;
#[cfg(test)]
mod tests;

pub use create::{InitFault, init};
pub use first::FirstJournal;
pub use journal::{CommitFault, Journal, Room};
pub use law::each_file_has_one_meaning;
pub use layout::{Format, LEAST_AREA, MOST_AREA, MOST_NUMBER};
pub use moment::Moment;
pub use open::OpenFault;
pub use records::{Record, Records, Stamp};
