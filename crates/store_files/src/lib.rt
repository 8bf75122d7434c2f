//! What is done to a store's file as a whole: its contents are written anew.
//!
//! Read [`compact_file`] first: it writes the contents of a file as the shortest list of changes that gives them. Its
//! clause is `Compacts` of `specs/Rewriting.antt`, which says what a crash at any moment may leave. [`migrate_file`] does
//! the same to a file of format 1, which is of format 2 then.
#![tactic(auto)]

mod compaction;
mod fault;
mod migration;
mod place;

pub use compaction::compact_file;
pub use fault::RewriteFault;
pub use migration::{Migration, migrate_file};
