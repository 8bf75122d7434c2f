//! Where in the grammar the decoder is, and where a byte leads from there.

ghost use Rattle.std.specs.Prelude.{◌≡◌, ◌<◌, ◌^◌};
ghost use Rattle.doip_segment.specs.Machine.{marker, data_due, after_digits, next_phase, IsInRange};

use crate::class::Class;
use crate::outcome::Reason;

/// What comes before the next byte of a message.
#[derive(Clone, Copy, Debug, PartialEq, Eq)]
pub(crate) enum Phase {
    /// A segment or the end of the message is due.
    Due,
    /// Text of a JSON segment, past the beginning of a line.
    Text,
    /// Text of a JSON segment and a line feed, which ends it if `#` follows.
    LineStart,
    /// The `#` that ends a JSON segment, and blanks.
    JsonEnd,
    /// The `@` that begins a byte segment, and blanks.
    BytesStart,
    /// In a byte segment, where a chunk or its `#` is due.
    ChunkDue,
    /// So many digits of a chunk's length, with this value.
    Digits { count: u8, value: u64 },
    /// A chunk's digits, with this value, and a blank.
    Padding { value: u64 },
    /// A chunk's line, and all but so many bytes of its data; at least one is due.
    Data { left: u64 },
    /// All of a chunk's data.
    DataEnd,
    /// The `#` that ends a byte segment, and blanks.
    BytesEnd,
    /// The `#` that ends the message, and blanks.
    MessageEnd,
    /// A whole message.
    Whole,
    /// A framing fault.
    Stuck { reason: Reason },
}

/// The most digits of a chunk's length (`most_digits` of the specs).
const MOST_DIGITS: u8 = 10;

const fn stuck(reason: Reason) -> Phase
    ensures { result ≡ Phase.Stuck reason }
{
    Phase::Stuck { reason }
}

/// After a `#` or an `@`: blanks stay there, and a line feed leads on.
fn phase_after_marker(phase: Phase, class: Class, after: Phase) -> Phase
    ensures { result ≡ marker phase class after }
{
    match class {
        Class::LineFeed => after,
        Class::Blank => phase,
        _ => stuck(Reason::Marker),
    }
}

/// So many bytes of a chunk's data are due.
pub(crate) fn phase_in_data(left: u64) -> Phase
    ensures { result ≡ data_due left }
{
    if left == 0 {
        Phase::DataEnd
    } else {
        Phase::Data { left }
    }
}

/// After the digits of a chunk's length: another digit, a blank, or the line feed.
fn phase_after_digits(count: u8, value: u64, class: Class) -> Phase
    requires { IsInRange (Phase.Digits count value) }
    ensures { result ≡ after_digits count value class }
{
    match class {
        Class::LineFeed => phase_in_data(value),
        Class::Blank => Phase::Padding { value },
        Class::Digit(digit) if count < MOST_DIGITS => Phase::Digits {
            count: count + 1,
            value: 10 * value + u64::from(digit),
        },
        _ => stuck(Reason::Length),
    }
}

/// Where the byte leads. Each byte is looked at once.
pub(crate) fn next(phase: Phase, class: Class) -> Phase
    requires { IsInRange phase }
    ensures { result ≡ next_phase phase class }
{
    match phase {
        Phase::Due => match class {
            Class::LineFeed | Class::Blank => phase,
            Class::Hash => Phase::MessageEnd,
            Class::At => Phase::BytesStart,
            Class::Digit(_) | Class::Other => Phase::Text,
        },
        Phase::Text => match class {
            Class::LineFeed => Phase::LineStart,
            _ => phase,
        },
        Phase::LineStart => match class {
            Class::LineFeed => phase,
            Class::Hash => Phase::JsonEnd,
            _ => Phase::Text,
        },
        Phase::JsonEnd | Phase::BytesEnd => phase_after_marker(phase, class, Phase::Due),
        Phase::BytesStart => phase_after_marker(phase, class, Phase::ChunkDue),
        Phase::MessageEnd => phase_after_marker(phase, class, Phase::Whole),
        Phase::ChunkDue => match class {
            Class::Digit(digit) => Phase::Digits {
                count: 1,
                value: u64::from(digit),
            },
            Class::Hash => Phase::BytesEnd,
            _ => stuck(Reason::Length),
        },
        Phase::Digits { count, value } => phase_after_digits(count, value, class),
        Phase::Padding { value } => match class {
            Class::LineFeed => phase_in_data(value),
            Class::Blank => phase,
            _ => stuck(Reason::Length),
        },
        Phase::Data { left } => phase_in_data(left - 1),
        Phase::DataEnd => match class {
            Class::LineFeed => Phase::ChunkDue,
            _ => stuck(Reason::ChunkEnd),
        },
        Phase::Whole => stuck(Reason::Marker),
        Phase::Stuck { .. } => phase,
    }
}
