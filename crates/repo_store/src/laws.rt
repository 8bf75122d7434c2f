//! What any list of turns leaves. Each call does nothing when it runs: a proof calls it for its clause.
ghost use Rattle.repo_store.specs.Files.{LawOfFiles};
ghost use Rattle.repo_store.specs.Law.{LawOfRuns, LawOfReopening, LawSince};
ghost use Rattle.repo_store.specs.Shrunk.{LawOfShrunkFiles};

use disk_core::Disk;
use repo_state::{compaction_keeps_contents, records_decide_changes};

/// A list of turns leads to the state after its history, and each reply is that of its entry. Of a store that was not
/// closed at first the history is legal; and if it kept its contents, and its disk reports its content at the end, each
/// crash since then leaves a file that stands for a prefix of the changes, with every acknowledged change.
pub fn runs_are_histories<D: Disk>()
    ensures { LawOfRuns D.Disk }
{}

/// The same of crashes since a disk was opened, also across calls that keep the contents, as a compaction does.
pub fn runs_survive_crashes<D: Disk>()
    ensures { LawSince D.Disk }
{}

/// What a list of turns leaves of the disk of a store that was just opened: its first state is that of the file, each
/// crash since then leaves a prefix of the changes with every acknowledged one, and a turn that met a disk fault has
/// raised the disk's count. A store without a disk stays without, and its turns meet no disk fault.
pub fn runs_leave_their_files<D: Disk>()
    ensures { LawOfFiles D.Disk }
{}

/// The same of a store that was shrunk before its first turn: its first state has the room that the shrink left, and each
/// crash since the opening leaves a prefix of the changes.
pub fn runs_leave_shrunk_files<D: Disk>()
    ensures { LawOfShrunkFiles D.Disk }
{}

/// A file that stands for contents stands for these alone, and no opening refuses it but for a fault of the disk or for
/// memory.
pub fn images_keep_their_contents()
    ensures { LawOfReopening }
{
    records_decide_changes();
    compaction_keeps_contents();
}
