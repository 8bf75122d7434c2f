//! The fault of a call over the outside, and the count that it raises.
ghost use Rattle.std.specs.Prelude.{◌≡◌};
ghost use Rattle.base_core.specs.Causes.{Counts};

/// The outside did not do what was asked of it. The object that was asked has counted the fault.
#[derive(Clone, Copy, Debug, PartialEq, Eq)]
pub struct Failed;

/// The count of faults after one more fault. It stays at its last value, 2^64 - 1.
pub fn counted(faults: u64) -> u64
    ensures { Counts faults result }
{
    faults.saturating_add(1)
}
