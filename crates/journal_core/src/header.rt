//! The first 32 bytes of a journal's file.
ghost use Rattle.std.specs.Prelude.{◌≡◌, ◌≤◌, ◌<◌, ℕ, length, IfSome, IfNone};
ghost use Rattle.journal_core.specs.File.{HasHeader};

use crate::layout::{LEAST_AREA, MAGIC, MOST_AREA};

/// What follows the side byte.
const ZEROS: [u8; 15] = [0; 15];

// What a header names: the length of an area, and which area counts.
#[derive(Clone, Copy)]
pub(crate) struct Header {
    pub(crate) area: u64,
    pub(crate) side: u8,
}

// The header that these bytes are, if they are one.
pub(crate) fn header_of(prefix: &[u8; 32]) -> Option<Header>
    ensures some { IfSome result (λ header. HasHeader prefix.now header.area header.side) }
    ensures none { IfNone result ((area side : ℕ) → HasHeader prefix.now area side → ⊥) }
{
    let (text, rest) = prefix.split_first_chunk::<8>()?;
    let (field, rest) = rest.split_first_chunk::<8>()?;
    let (side_byte, zeros) = rest.split_first()?;
    let area = u64::from_be_bytes(*field);
    if text.as_slice() != MAGIC.as_slice() {
        return None;
    }
    if zeros != ZEROS.as_slice() {
        return None;
    }
    if area < LEAST_AREA {
        return None;
    }
    if area > MOST_AREA {
        return None;
    }
    Some(Header {
        area,
        side: *side_byte % 2,
    })
}
