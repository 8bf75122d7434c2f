//! Making a journal in an empty file.
ghost use Rattle.std.specs.Prelude.{◌≡◌, ◌≤◌, [], IsSome, IfOk, IfErr, OnOk};
ghost use Rattle.std.specs.Option.{ForSome};
ghost use Rattle.base_core.specs.Causes.{HasCause};
ghost use Rattle.disk_core.specs.Disk.{IsSettled};
ghost use Rattle.journal_core.specs.Layout.{least_area, most_area};
ghost use Rattle.journal_core.specs.Init.{new_file, first_letter, Founds, HasSynced, MakesFile, IsInitRefused};

use crate::layout::VERSION;
use crate::steps::write_durably;
use base_core::Failed;
use disk_core::Disk;
use thiserror::Error;

/// Why no journal was made in a file.
#[derive(Clone, Copy, Debug, PartialEq, Eq, Drop, Error)]
pub enum InitFault {
    /// The file has so many bytes, and nothing was written.
    #[error("not empty: {length} bytes")]
    NotEmpty { length: u64 },
    /// The disk failed.
    #[error("disk fault")]
    DiskFault,
}

// The bytes of a new file, but for the first of its text.
fn first_bytes(area: u64) -> [u8; 34]
    ensures { result ≡ new_file 0 area }
{
    let mut bytes = [0; 34];
    bytes[32] = VERSION;
    bytes[1..8].copy_from_slice(b"OIPREP1");
    bytes[8..16].copy_from_slice(&area.to_be_bytes());
    bytes
}

/// Makes a journal of areas of this length in an empty file. It takes no memory.
///
/// Until the first sync the file may be anything. The text at its beginning is whole only once all else is durable.
pub fn init<D: Disk>(disk: D, area: u64) -> Result<D, (D, InitFault)>
    requires least { least_area ≤ area }
    requires most { area ≤ most_area }
    ensures made { IfOk result (λ made. MakesFile (D.state disk) (D.state made) area) }
    ensures refused { IfErr result (λ refusal. IsInitRefused (D.state disk) (D.state refusal.0) refusal.1) }
{
    let mut disk = disk;
    match disk.length() {
        Ok(0) => {}
        Ok(length) => return Err((disk, InitFault::NotEmpty { length })),
        Err(Failed) => return Err((disk, InitFault::DiskFault)),
    }
    match write_new(&mut disk, area) {
        Ok(()) => Ok(disk),
        Err(Failed) => Err((disk, InitFault::DiskFault)),
    }
}

// Writes a new file into an empty one: all but the first byte, and then that byte.
fn write_new<D: Disk>(disk: &mut D, area: u64) -> Result<(), Failed>
    requires least { least_area ≤ area }
    requires most { area ≤ most_area }
    ensures bytes { OnOk result (ForSome (D.state disk.old).content (λ file. file ≡ []
        → ForSome (D.state disk.new).content (λ new. new ≡ new_file first_letter area))) }
    ensures clock { (D.state disk.old).moment ≤ (D.state disk.new).moment }
    ensures settled { OnOk result (IsSettled (D.state disk.new)) }
    ensures reported { ForSome (D.state disk.new).content (λ _. IsSome (D.state disk.old).content) }
    ensures crash { ForSome (D.state disk.new).content (λ _. ForSome (D.state disk.old).content (λ file. file ≡ []
        → Founds (D.state disk.old) (D.state disk.new)
        × OnOk result (HasSynced (D.state disk.old) (D.state disk.new)))) }
    ensures cause { HasCause (D.state disk.old).faults (D.state disk.new).faults result }
{
    let bytes = first_bytes(area);
    write_durably(disk, 0, &bytes)?;
    // The text is whole only now that all after it is durable.
    write_durably(disk, 0, b"D")
}
