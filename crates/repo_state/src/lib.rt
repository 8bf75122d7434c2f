//! What the repository holds: objects by their identifiers, a counter of minted ones, and the number of the last change.
//!
//! A contract sees a [`Table`] as its `Contents` (`specs/Contents.antt`), in which the objects are a finite map, beside
//! the room that was made for the next change. `IsConsistent` of `specs/Sound.antt` holds of every table: each object stands
//! under its own identifier, and is sound.
//!
//! Read [`Table::reserve`] and [`Table::install`] first: `reserve` takes all memory that a change needs, and `install`
//! can't fail. [`Table::replay`] makes a table of the records of a journal, and [`Replay`] one of changes or of records
//! as they come. [`Table::compacted`] lists the records that a compacted journal holds; the law
//! [`compaction_keeps_contents`] says that they give the table again. Operations and requests are not known here.
#![tactic(auto)]

mod compaction;
mod groups;
mod law;
mod opening;
mod replay;
pub mod rows;
mod table;
#[cfg(test)]
mod tests;

pub use compaction::Compacted;
pub use law::{changes_keep_consistency, compaction_keeps_contents, records_decide_changes};
pub use replay::{Replay, ReplayFault};
pub use table::Table;
