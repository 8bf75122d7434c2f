//! Texts in parts: white bytes, and bytes up to a stop.
ghost use Rattle.std.specs.Prelude.{◌≡◌, ◌≤◌, drop, length};
ghost use Rattle.query_text.specs.Parts.{stops, untaken, all_white, past_white};

/// The bytes at which a part of a text may end.
#[derive(Clone, Copy)]
pub enum Stop {
    /// A comma.
    Comma,
    /// A white byte.
    White,
    /// A colon.
    Colon,
}

pub(crate) fn is_white(byte: u8) -> bool
    ensures { result ≡ stops Stop.White byte }
{
    matches!(byte, b' ' | b'\t' | b'\r' | b'\n')
}

fn stops(stop: Stop, byte: u8) -> bool
    ensures { result ≡ stops stop byte }
{
    match stop {
        Stop::Comma => byte == b',',
        Stop::White => is_white(byte),
        Stop::Colon => byte == b':',
    }
}

/// How many bytes stand before the first stop that no backslash takes: all, where there is none.
pub fn untaken(bytes: &[u8], stop: Stop) -> usize
    ensures value { result ≡ untaken stop bytes.now }
    ensures within { result ≤ length bytes.now }
{
    let mut at = 0;
    while at < bytes.len() {
        if bytes[at] == b'\\' {
            if at + 1 == bytes.len() {
                return bytes.len();
            }
            at += 2;
        } else if stops(stop, bytes[at]) {
            return at;
        } else {
            at += 1;
        }
    }
    at
}

/// Whether all bytes are white.
pub fn all_white(bytes: &[u8]) -> bool
    ensures { result ≡ all_white bytes.now }
{
    for byte in bytes {
        if !is_white(*byte) {
            return false;
        }
    }
    true
}

/// How many white bytes stand at the head.
pub fn white_len(bytes: &[u8]) -> usize
    ensures within { result ≤ length bytes.now }
    ensures rest { drop result bytes.now ≡ past_white bytes.now }
{
    let mut at = 0;
    while at < bytes.len() && is_white(bytes[at]) {
        at += 1;
    }
    at
}
