//! Places in a file of format 1.
ghost use Rattle.std.specs.Prelude.{◌≡◌, ◌≤◌, length, take};
ghost use Rattle.journal_core.specs.File.{listed};
ghost use Rattle.journal_core.specs.Journal.{told};
ghost use Rattle.journal_core.specs.declared.layout.Format.TheVariants.{First};
ghost use Rattle.store_files.specs.First.{body_place};

use journal_core::Records;

/// The length of a file's header.
const HEADER_LENGTH: u64 = 32;

/// The bytes of a record before its body, and without one: its gate, and the length of the body.
const BEFORE_BODY: u64 = 9;

/// Where the body of a record begins in the file. A place past 2^64 - 1 is told as that number.
pub(crate) fn body_place(side: u8, area: u64, records: &Records, index: usize) -> u64
    requires { index ≤ length records.now }
    ensures { result ≡ told (body_place area side (take index records.now)) }
{
    let base = (side as u64)
        .saturating_mul(area)
        .saturating_add(HEADER_LENGTH);
    base.saturating_add(list_length(records, index))
        .saturating_add(BEFORE_BODY)
}

// The bytes of a list of the first records. A number past 2^64 - 1 is told as that.
fn list_length(records: &Records, count: usize) -> u64
    requires { count ≤ length records.now }
    ensures { result ≡ told (length (listed First (take count records.now))) }
{
    let mut room = 1u64;
    'records: for index in 0..count {
        let length = records.item(index).body.get().len() as u64;
        room = room.saturating_add(BEFORE_BODY + length);
    }
    room
}
