//! A line of text, written from its end on, so that it takes no memory.
ghost use Rattle.std.specs.Prelude.{◌≡◌, ◌+◌, ◌++◌, ◌≤◌, length, drop};

/// The room for a line: two numbers of 20 digits, and words.
pub(crate) const LINE_ROOM: usize = 64;

/// Writes the text so that it ends at `end`, and returns where it begins.
pub(crate) fn put_text(text: &[u8], line: &mut [u8], end: usize) -> usize
    requires room { length text.now ≤ end }
    requires within { end ≤ length line.old }
    ensures start { result + length text.now ≡ end }
    ensures written { drop result line.new ≡ text.now ++ drop end line.old }
{
    let start = end - text.len();
    line[start..end].copy_from_slice(text);
    start
}
