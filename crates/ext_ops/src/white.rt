//! Texts without the white bytes at their ends.
ghost use Rattle.std.specs.Prelude.{◌≡◌};
ghost use Rattle.ext_ops.specs.Hook.{is_white, without_leading, without_trailing, trimmed};

// Space, tab, CR or LF.
fn is_white(byte: u8) -> bool
    ensures { result ≡ is_white byte }
{
    matches!(byte, b' ' | b'\t' | b'\r' | b'\n')
}

pub(crate) fn trimmed(text: &str) -> &str
    ensures { result.now ≡ trimmed text.now }
{
    without_trailing(without_leading(text))
}

fn without_leading(text: &str) -> &str
    ensures { result.now ≡ without_leading text.now }
{
    let bytes = text.as_bytes();
    let mut start = 0;
    while start < bytes.len() && is_white(bytes[start]) {
        start += 1;
    }
    &text[start..]
}

fn without_trailing(text: &str) -> &str
    ensures { result.now ≡ without_trailing text.now }
{
    let bytes = text.as_bytes();
    let mut end = bytes.len();
    while end > 0 && is_white(bytes[end - 1]) {
        end -= 1;
    }
    &text[..end]
}
