//! What a byte is to the framing.

ghost use Rattle.std.specs.Prelude.{◌≡◌};
ghost use Rattle.doip_segment.specs.Machine.{class_of};

/// What a byte can be where the framing looks at it.
#[derive(Clone, Copy, Debug, PartialEq, Eq)]
pub(crate) enum Class {
    LineFeed,
    /// Space, tab or CR.
    Blank,
    Hash,
    At,
    /// A decimal digit, by its value.
    Digit(u8),
    Other,
}

pub(crate) fn classify(byte: u8) -> Class
    ensures { result ≡ class_of byte }
{
    match byte {
        b'\n' => Class::LineFeed,
        b' ' | b'\t' | b'\r' => Class::Blank,
        b'#' => Class::Hash,
        b'@' => Class::At,
        b'0'..=b'9' => Class::Digit(byte - b'0'),
        _ => Class::Other,
    }
}
