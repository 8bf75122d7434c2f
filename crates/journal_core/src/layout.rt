//! The numbers of a journal's file: where its parts stand, and the bytes that have a meaning.
ghost use Rattle.std.specs.Prelude.{◌≡◌};
ghost use Rattle.journal_core.specs.Layout.{version_of};

/// The text at the beginning of a file.
pub(crate) const MAGIC: [u8; 8] = *b"DOIPREP1";

/// The bytes before the first area.
pub(crate) const HEADER_LENGTH: u64 = 32;

/// The place of the side byte.
pub(crate) const SIDE_PLACE: u64 = 16;

/// The least length of an area.
pub const LEAST_AREA: u64 = 64;

/// The greatest length of an area.
pub const MOST_AREA: u64 = 268_435_456;

/// The greatest number of a change.
pub const MOST_NUMBER: u64 = 281_474_976_710_656;

/// The first byte of an area of format 2.
pub(crate) const VERSION: u8 = 2;

/// The gate byte of a record that counts.
pub(crate) const OPEN_GATE: u8 = 1;

/// The gate byte that is written after the last record.
pub(crate) const CLOSED_GATE: u8 = 0;

/// What a record takes beside its body: gate, length, number, time and digest.
pub(crate) const RECORD_OVERHEAD: u64 = 57;

/// How many bytes are read and written at once.
pub(crate) const PIECE_LENGTH: usize = 65_536;

/// The two forms of an area.
#[derive(Clone, Copy, Debug, PartialEq, Eq)]
pub enum Format {
    /// A record is a gate, a length and a body.
    First,
    /// A record has a number, a time and a digest too.
    Second,
}

impl Format {
    // The first byte of an area.
    pub(crate) fn version(self) -> u8
        ensures { result ≡ version_of self }
    {
        match self {
            Format::First => 1,
            Format::Second => VERSION,
        }
    }
}
