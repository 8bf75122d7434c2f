//! Opening a journal: its file is read once, in pieces, and nothing is written.
ghost use Rattle.std.specs.Prelude.{◌≡◌, ◌<◌, ◌≤◌, ℕ, IfOk, IfSome, OnOk, IsErrOf, MatchOption};
ghost use Rattle.std.specs.List.{All};
ghost use Rattle.std.specs.Option.{ForSome};
ghost use Rattle.base_core.specs.Causes.{Rose, HasCause};
ghost use Rattle.disk_core.specs.Runs.{LeavesAlone};
ghost use Rattle.journal_core.specs.Layout.{most_area};
ghost use Rattle.journal_core.specs.File.{HasHeader};
ghost use Rattle.journal_core.specs.Journal.{IsNumbered};
ghost use Rattle.journal_core.specs.Open.{IsFoundIn, IsInBounds};

use crate::Records;
use crate::area::read_area;
use crate::buffer::{Buffer, fill};
use crate::header::{Header, header_of};
use crate::layout::{Format, HEADER_LENGTH};
use base_core::Failed;
use disk_core::Disk;
use std::alloc::{AllocError, Global};

/// Why a file was not opened.
#[derive(Clone, Copy, Debug, PartialEq, Eq)]
pub enum OpenFault {
    /// It begins with no header, or ends before the version byte.
    NotAStore,
    /// The version byte is another one.
    Version { byte: u8 },
    /// At this place of the file a gate is missing, or it is open and no whole record follows: bytes are missing, its
    /// number is out of bounds, or its digest is another.
    Damaged { place: u64 },
    /// The disk failed.
    DiskFault,
    /// There was no memory for the records.
    Memory,
}

impl From<Failed> for OpenFault {
    ghost use Rattle.journal_core.specs.declared.open.OpenFault.TheVariants.{DiskFault};

    ghost from_gives = { λ _ fault. fault ≡ DiskFault };

    fn from(_: Failed) -> OpenFault {
        OpenFault::DiskFault
    }
}

impl From<AllocError> for OpenFault {
    ghost use Rattle.journal_core.specs.declared.open.OpenFault.TheVariants.{Memory};

    ghost from_gives = { λ _ fault. fault ≡ Memory };

    fn from(_: AllocError) -> OpenFault {
        OpenFault::Memory
    }
}

// What a file holds, and where.
pub(crate) struct Found {
    pub(crate) header: Header,
    pub(crate) used: u64,
    pub(crate) entries: Records,
    pub(crate) buffer: Buffer,
}

// Reads a file from its header to the closed gate.
pub(crate) fn read_file<D: Disk>(
    alloc: Global,
    disk: &mut D,
    format: Format,
) -> Result<Found, OpenFault>
    ensures meaning { ForSome (D.state disk.old).content (λ file. IsFoundIn format file result) }
    ensures bounds { IfOk result IsInBounds }
    ensures numbered { IfOk result (λ found. All IsNumbered found.entries) }
    ensures same { OnOk result ((D.state disk.new).content ≡ (D.state disk.old).content) }
    ensures alone { LeavesAlone (D.state disk.old) (D.state disk.new) }
    ensures fault { IsErrOf result OpenFault.DiskFault → Rose (D.state disk.old).faults (D.state disk.new).faults }
{
    let length = disk.length()?;
    let Some(header) = read_header(disk)? else {
        return Err(OpenFault::NotAStore);
    };
    let base = HEADER_LENGTH + header.side as u64 * header.area;
    let size = length.saturating_sub(base).min(header.area);
    let mut buffer = Buffer::new(alloc)?;
    let (entries, used) = read_area(alloc, disk, &mut buffer, format, base, size)?;
    Ok(Found {
        header,
        used,
        entries,
        buffer,
    })
}

// Reads the header, if the file begins with one.
fn read_header<D: Disk>(disk: &mut D) -> Result<Option<Header>, Failed>
    ensures bounds { IfOk result (λ found. IfSome found (λ header. (header.side < 2) × (header.area ≤ most_area))) }
    ensures found { IfOk result (λ found. ForSome (D.state disk.old).content (λ file. MatchOption found
        ((area side : ℕ) → HasHeader file area side → ⊥)
        (λ header. HasHeader file header.area header.side))) }
    ensures same { OnOk result ((D.state disk.new).content ≡ (D.state disk.old).content) }
    ensures alone { LeavesAlone (D.state disk.old) (D.state disk.new) }
    ensures cause { HasCause (D.state disk.old).faults (D.state disk.new).faults result }
{
    let mut prefix = [0; 32];
    if fill(disk, 0, &mut prefix)? < 32 {
        return Ok(None);
    }
    Ok(header_of(&prefix))
}
