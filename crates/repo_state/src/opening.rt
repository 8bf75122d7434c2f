//! A table from the records of a journal.
ghost use Rattle.std.specs.Prelude.{◌≡◌};
ghost use Rattle.record_core.specs.declared.format.Format.TheVariants.{First, Second};
ghost use Rattle.repo_state.specs.Replayed.{Gives, Opens, migrated};

use crate::{Replay, ReplayFault, Table};
use journal_core::Records;
use record_core::{Format, RecordFault};
use std::alloc::Global;

impl Table {
    /// The table that the records of a journal give, in the order in which they were added.
    ///
    /// # Errors
    /// `NotARecord` with the place of the first record whose body is that of no change; `Unsound` with the least
    /// identifier of an object that isn't sound after all of them.
    pub fn replay(alloc: Global, records: &Records) -> Result<Table, ReplayFault>
        ensures { Opens Second (λ c. c) records.now result }
    {
        replayed(alloc, records, Format::Second)?.finish()
    }

    /// The same of a journal of format 1. Its objects have the times 0, and the table has the number 1, so that its
    /// records are those of the migrated journal.
    pub fn replay_first(alloc: Global, records: &Records) -> Result<Table, ReplayFault>
        ensures { Opens First migrated records.now result }
    {
        replayed(alloc, records, Format::First)?.migrated().finish()
    }
}

// What the records of this format make.
fn replayed(alloc: Global, records: &Records, format: Format) -> Result<Replay, ReplayFault>
    ensures { Gives format records.now result }
{
    let mut replay = Replay::new(alloc);
    'records: for index in 0..records.len() {
        let record = records.item(index);
        match replay.take(record.stamp, record.body.get(), format) {
            Ok(()) => {}
            Err(RecordFault::NotARecord) => return Err(ReplayFault::NotARecord { index }),
            Err(RecordFault::Memory) => return Err(ReplayFault::Memory),
        }
    }
    Ok(replay)
}
