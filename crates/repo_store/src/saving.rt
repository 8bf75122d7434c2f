//! A change on the disk.
ghost use Rattle.std.specs.Prelude.{◌≡◌, ◌+◌, ◌-◌, ◌^◌, ◌<◌, ◌≤◌, ◌++◌, min, length, List, Some, IsSome, IfSome, IfErr, OnOk, OnErr};
ghost use Rattle.std.specs.Option.{ForSome};
ghost use Rattle.base_core.specs.Causes.{Rose};
ghost use Rattle.journal_core.specs.Layout.{most_number};
ghost use Rattle.journal_core.specs.Journal.{area_of, one, state_of, used_of};
ghost use Rattle.journal_core.specs.declared.records.Record.{Record};
ghost use Rattle.repo_store.specs.Saved.{room_in, moment_in, faults_in, Reports, KeepsRecords, LeavesBetween, HoldsOrMore, room_saved};

use disk_core::Disk;
use journal_core::{Journal, Moment, Room, Stamp};

/// How much of the area is used, if there is one.
pub(crate) fn room_of<D: Disk>(journal: &Option<Journal<D>>) -> Option<Room>
    ensures room { result ≡ room_in journal.now }
    ensures within { IfSome result (λ room. room.used < room.area) }
{
    match journal {
        Some(journal) => Some(journal.room()),
        None => None,
    }
}

/// How often the journal's disk has failed.
pub(crate) fn fault_count<D: Disk>(journal: &Journal<D>) -> u64
    ensures { result ≡ min (state_of journal.now).faults (2 ^ 64 - 1) }
{
    journal.disk().fault_count()
}

/// Adds a record to the journal, if there is one. It has to find room.
///
/// # Errors
/// The count of the disk's faults, which rose.
pub(crate) fn save<D: Disk>(
    journal: &mut Option<Journal<D>>,
    stamp: Stamp,
    body: &[u8],
) -> Result<(), u64>
    requires number { stamp.number ≤ most_number }
    requires fits { ForSome journal.old (λ j. used_of j + length body.now + 58 ≤ area_of j) }
    ensures room { OnOk result (room_in journal.new ≡ room_saved body.now (room_in journal.old)) }
    ensures room_stays { OnErr result (room_in journal.new ≡ room_in journal.old) }
    ensures clock { moment_in journal.old ≤ moment_in journal.new }
    ensures count { faults_in journal.old ≤ faults_in journal.new }
    ensures reported { Reports journal.new → Reports journal.old }
    ensures crash { Reports journal.new → (kept : List Record) → KeepsRecords journal.old kept
        → LeavesBetween journal.old journal.new (HoldsOrMore kept (one stamp body.now)) }
    ensures keeps { OnOk result ((kept : List Record) → KeepsRecords journal.old kept
        → KeepsRecords journal.new (kept ++ one stamp body.now)) }
    ensures fault { IfErr result (λ count. IsSome journal.old × (count ≡ min (faults_in journal.new) (2 ^ 64 - 1))
        × Rose (faults_in journal.old) (faults_in journal.new)) }
{
    let Some(journal) = journal else {
        return Ok(());
    };
    match journal.commit(stamp, body) {
        Ok(_) => Ok(()),
        Err(_) => Err(fault_count(journal)),
    }
}

/// The disk's clock now, 0 without a disk.
pub(crate) fn moment_of<D: Disk>(journal: &Option<Journal<D>>) -> Moment
    ensures { result.number ≡ moment_in journal.now }
{
    match journal {
        Some(journal) => journal.moment(),
        None => Moment::none(),
    }
}
