//! Writing a JSON pointer (RFC 6901).
ghost use Rattle.std.specs.Prelude.{◌≡◌, ◌∷◌, ◌++◌, OnOk, OnErr, IfOk, string_bytes, encode_utf8};
ghost use Rattle.doip_json.specs.Written.{token_of};

use std::alloc::{AllocError, Global};

/// Adds the name to the pointer as its last token: a `/`, then the name with `~0` for `~` and `~1` for `/`.
///
/// A position of an array is named by its decimal digits. Out of memory the pointer stays as it was.
pub fn push_token(alloc: Global, pointer: &mut String, name: &str) -> Result<(), AllocError>
    ensures ok { OnOk result (string_bytes pointer.new ≡ string_bytes pointer.old ++ 47 ∷ token_of name.now) }
    ensures err { OnErr result (string_bytes pointer.new ≡ string_bytes pointer.old) }
{
    let token = escaped(alloc, name)?;
    pointer.push_str(&token)
}

// The token of a name, with the slash before it.
fn escaped(alloc: Global, name: &str) -> Result<String, AllocError>
    ensures { IfOk result (λ token. string_bytes token ≡ 47 ∷ token_of name.now) }
{
    let mut token = String::from_str(alloc, "/")?;
    for letter in name.chars() {
        push_letter(&mut token, letter)?;
    }
    Ok(token)
}

// Adds a letter of a name as it is written in a token.
fn push_letter(token: &mut String, letter: char) -> Result<(), AllocError>
    ensures { OnOk result (string_bytes token.new ≡ string_bytes token.old ++ token_of (encode_utf8 letter)) }
{
    if letter == '~' {
        token.push_str("~0")
    } else if letter == '/' {
        token.push_str("~1")
    } else {
        token.push(letter)
    }
}
