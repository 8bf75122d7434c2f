//! A body is the body of one change.
ghost use Rattle.std.specs.Prelude.{◌≡◌, ℕ, List};
ghost use Rattle.record_core.specs.declared.change.Change.{Change};
ghost use Rattle.record_core.specs.declared.format.Format.{Format};
ghost use Rattle.record_core.specs.Reading.{IsBodyOf};

/// No two storable changes have one body, in either format. So what [`crate::change_of`] reads of the bytes that
/// [`crate::body_of`] made of a change is that change. It does nothing when it runs: a proof calls it for its clause.
pub fn bodies_decide_changes()
    ensures { (format : Format) → (bytes : List ℕ) → (c d : Change) → IsBodyOf format bytes c
        → IsBodyOf format bytes d → c ≡ d }
{}
