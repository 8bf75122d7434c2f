//! Changes after which a repository is consistent, and records that give it again.
ghost use Rattle.std.specs.Prelude.{◌≡◌, ◌≤◌, ℕ, List, [], ◌∷◌, ◌++◌, Option, None, true};
ghost use Rattle.std.specs.List.{All};
ghost use Rattle.dobj_model.specs.declared.object.ObjectValue.{ObjectValue};
ghost use Rattle.journal_core.specs.Journal.{IsNumbered};
ghost use Rattle.journal_core.specs.Layout.{most_number};
ghost use Rattle.journal_core.specs.declared.records.Record.{Record};
ghost use Rattle.journal_core.specs.declared.records.Stamp.{Stamp};
ghost use Rattle.record_core.specs.declared.change.Change.TheVariants as changes;
ghost use Rattle.record_core.specs.declared.format.Format.{Format};
ghost use Rattle.record_core.specs.declared.format.Format.TheVariants.{Second};
ghost use Rattle.record_core.specs.Storable.{IsCounter, IsCounterIfThere};
ghost use Rattle.repo_state.specs.Compacted.{compacted};
ghost use Rattle.repo_state.specs.Contents.{Contents, Stamped, apply, replay};
ghost use Rattle.repo_state.specs.Recorded.{IsRecordOf, AreRecordsOf};
ghost use Rattle.repo_state.specs.Replayed.{IsFirstOther};
ghost use Rattle.repo_state.specs.Sound.{IsConsistent, is_sound_in, least_unsound};

use record_core::bodies_decide_changes;

/// A repository is consistent after each change whose counter is in range, if the object that it puts is sound: what
/// [`crate::Table::install`] asks of a change. It does nothing when it runs: a proof calls it for its clauses.
pub fn changes_keep_consistency()
    ensures put { (c : Contents) (stamp : Stamp) (o : ObjectValue) (counter : Option ℕ) → IsConsistent c
        → is_sound_in c.objects o ≡ true → IsCounterIfThere counter
        → IsConsistent (apply (record { stamp = stamp; change = changes.Put o counter }) c) }
    ensures remove { (c : Contents) (stamp : Stamp) (id : List ℕ) → IsConsistent c
        → IsConsistent (apply (record { stamp = stamp; change = changes.Remove id }) c) }
    ensures counter { (c : Contents) (stamp : Stamp) (n : ℕ) → IsConsistent c → IsCounter n
        → IsConsistent (apply (record { stamp = stamp; change = changes.Counter n }) c) }
{}

/// What a table's records give is what the table holds, and all of it is sound: a journal that is compacted and read
/// again opens to the same objects, counter and number. It does nothing when it runs: a proof calls it for its clauses.
pub fn compaction_keeps_contents()
    ensures changes { (c : Contents) → IsConsistent c → replay (compacted c) ≡ c }
    ensures records { (records : List Record) (c : Contents) (changes : List Stamped) → IsConsistent c
        → AreRecordsOf Second records (compacted c) → AreRecordsOf Second records changes → replay changes ≡ c }
    ensures sound { (c : Contents) → IsConsistent c → least_unsound c.objects ≡ None }
    ensures numbered { (records : List Record) (c : Contents) → AreRecordsOf Second records (compacted c)
        → c.number ≤ most_number → All IsNumbered records }
{
    bodies_decide_changes();
}

/// Records are those of one list of changes, and a replay refuses none of them. One record more makes its change after
/// the others'. It does nothing when it runs: a proof calls it for its clauses.
pub fn records_decide_changes()
    ensures one { (format : Format) (records : List Record) (some : List Stamped) (others : List Stamped)
        → AreRecordsOf format records some → AreRecordsOf format records others → some ≡ others }
    ensures read { (format : Format) (records : List Record) (changes : List Stamped) (place : ℕ)
        → AreRecordsOf format records changes → IsFirstOther format records place → ⊥ }
    ensures more { (format : Format) (records : List Record) (changes : List Stamped) (r : Record) (s : Stamped)
        → AreRecordsOf format records changes → IsRecordOf format r s
        → AreRecordsOf format (records ++ r ∷ []) (changes ++ s ∷ []) }
    ensures after { (changes : List Stamped) (s : Stamped) → replay (changes ++ s ∷ []) ≡ apply s (replay changes) }
{
    bodies_decide_changes();
}
