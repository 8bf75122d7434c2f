//! Fields: what a query looks at in an object.
ghost use Rattle.std.specs.Prelude.{◌≡◌, ◌<◌, ◌≤◌, ℕ, List, ◌∷◌, length, take, IfOk, IsErrOf, IsUtf8, slice_index};
ghost use Rattle.dobj_field.specs.Breaks.{BreaksAt};
ghost use Rattle.dobj_field.specs.Field.{IsField, NamesField, stands_apart};
ghost use Rattle.dobj_field.specs.Letters.{Reads, HasTokens};

use doip_json::Str;
use std::alloc::{AllocError, AllocFailed, Global};
use std::marker::Model;

/// The tokens of a pointer, at least one, seen as the list of their bytes.
#[derive(Debug, Drop)]
pub struct PointerTokens {
    tokens: Vec<Str>,
}

impl Model for PointerTokens {
    ghost use Rattle.std.specs.Prelude.{List, ℕ};

    ghost Value = { List (List ℕ) };

    ghost use Rattle.std.specs.Prelude.{◌<◌, length};

    ghost view = { λ p. p.tokens.items };

    ghost invariant = { λ p. 0 < length p.tokens.items };
}

impl PointerTokens {
    /// The tokens, in order.
    pub fn as_slice(&self) -> &[Str]
        ensures tokens { result.now ≡ self.now }
        ensures some { 0 < length self.now }
    {
        self.tokens.as_slice()
    }
}

/// What a query looks at in an object.
#[derive(Debug, Drop)]
pub enum Field {
    /// Its identifier.
    Id,
    /// The name of its type.
    OfType,
    /// What a pointer reaches in its content.
    Pointer(PointerTokens),
}

/// Why a text is no field.
#[derive(Clone, Copy, Debug, PartialEq, Eq, Drop)]
pub enum FieldFault {
    /// The first byte, from 0, by which no field can begin so, or the text's length where the text ends too early.
    At {
        /// The number of the byte.
        place: usize,
    },
    /// An allocation was refused.
    Memory,
}

impl From<AllocError> for FieldFault {
    ghost use Rattle.std.specs.Prelude.{◌≡◌};
    ghost use Rattle.dobj_field.specs.declared.field.FieldFault.TheVariants.{Memory};

    ghost from_gives = { λ _ fault. fault ≡ Memory };

    fn from(_: AllocError) -> FieldFault {
        FieldFault::Memory
    }
}

impl<T: Drop> From<AllocFailed<T>> for FieldFault {
    ghost use Rattle.std.specs.Prelude.{◌≡◌};
    ghost use Rattle.dobj_field.specs.declared.field.FieldFault.TheVariants.{Memory};

    ghost from_gives = { λ _ fault. fault ≡ Memory };

    fn from(_: AllocFailed<T>) -> FieldFault {
        FieldFault::Memory
    }
}

/// What stands at the head of a pointer's text.
#[derive(Clone, Copy)]
enum Letter {
    /// The `/` before the next token.
    Slash,
    /// A byte of a token, and how many bytes write it.
    Byte { byte: u8, width: usize },
    /// No pointer has this. The place is counted from the head.
    Fault { place: usize },
}

/// The field that the text names, `id`, `type` or a pointer.
///
/// A pointer begins with `/`, which stands before each of its tokens. In a token `~0` is `~`, `~1` is `/`, and a `\`
/// takes the byte after it as it is: white bytes, `(`, `)`, `"` and `:` stand nowhere else in it. Linear in the text.
pub fn field_of(alloc: Global, text: &str) -> Result<Field, FieldFault>
    ensures field { IfOk result (IsField text.now) }
    ensures place { (place : ℕ) → IsErrOf result (FieldFault.At place) → BreaksAt NamesField text.now place }
{
    let bytes = text.as_bytes();
    if bytes.is_empty() {
        return Err(FieldFault::At { place: 0 });
    }
    if bytes[0] == b'/' {
        return Ok(Field::Pointer(pointer_of(alloc, bytes)?));
    }
    if bytes[0] == b't' {
        let same = common_len(bytes, b"type");
        if same == 4 && bytes.len() == 4 {
            return Ok(Field::OfType);
        }
        return Err(FieldFault::At { place: same });
    }
    let same = common_len(bytes, b"id");
    if same == 2 && bytes.len() == 2 {
        return Ok(Field::Id);
    }
    Err(FieldFault::At { place: same })
}

// How many bytes two texts begin with alike.
fn common_len(text: &[u8], word: &[u8]) -> usize
    ensures text { result ≤ length text.now }
    ensures word { result ≤ length word.now }
    ensures same { take result text.now ≡ take result word.now }
    ensures other { result < length text.now → result < length word.now
        → slice_index text.now result ≡ slice_index word.now result → ⊥ }
{
    let mut same = 0;
    while same < text.len() && same < word.len() && text[same] == word[same] {
        same += 1;
    }
    same
}

// The tokens of the pointer that the text is: its first byte is a slash.
fn pointer_of(alloc: Global, text: &[u8]) -> Result<PointerTokens, FieldFault>
    requires slash { (rest : List ℕ) × (text.now ≡ 47 ∷ rest) }
    requires utf8 { IsUtf8 text.now }
    ensures tokens { IfOk result (HasTokens text.now) }
    ensures place { (place : ℕ) → IsErrOf result (FieldFault.At place) → BreaksAt NamesField text.now place }
{
    let mut tokens = Vec::new(alloc);
    let mut token = Vec::new(alloc);
    let mut at = 1;
    while at < text.len() {
        match letter_of(&text[at..]) {
            Letter::Slash => {
                tokens.push(str_of(token))?;
                token = Vec::new(alloc);
                at += 1;
            }
            Letter::Byte { byte, width } => {
                token.push(byte)?;
                at += width;
            }
            Letter::Fault { place } => return Err(FieldFault::At { place: at + place }),
        }
    }
    tokens.push(str_of(token))?;
    Ok(PointerTokens { tokens })
}

// The bytes as a string, with no copy.
fn str_of(bytes: Vec<u8>) -> Str
    requires { IsUtf8 bytes.items }
    ensures { result ≡ bytes.items }
{
    Str::from_string(String::from_utf8(bytes).unwrap())
}

fn letter_of(rest: &[u8]) -> Letter
    requires { 0 < length rest.now }
    ensures { Reads rest.now result }
{
    let byte = rest[0];
    if byte == b'/' {
        return Letter::Slash;
    }
    if byte == b'\\' {
        return taken_of(rest);
    }
    if byte == b'~' {
        return escape_of(rest);
    }
    if is_apart(byte) {
        return Letter::Fault { place: 0 };
    }
    Letter::Byte { byte, width: 1 }
}

// The byte that a backslash takes.
fn taken_of(rest: &[u8]) -> Letter
    requires some { 0 < length rest.now }
    requires head { slice_index rest.now 0 ≡ 92 }
    ensures { Reads rest.now result }
{
    if rest.len() == 1 {
        return Letter::Fault { place: 1 };
    }
    Letter::Byte {
        byte: rest[1],
        width: 2,
    }
}

// The byte that a tilde and a digit write.
fn escape_of(rest: &[u8]) -> Letter
    requires some { 0 < length rest.now }
    requires head { slice_index rest.now 0 ≡ 126 }
    ensures { Reads rest.now result }
{
    if rest.len() == 1 {
        return Letter::Fault { place: 1 };
    }
    if rest[1] == b'0' {
        return Letter::Byte {
            byte: b'~',
            width: 2,
        };
    }
    if rest[1] == b'1' {
        return Letter::Byte {
            byte: b'/',
            width: 2,
        };
    }
    Letter::Fault { place: 1 }
}

// Whether the byte stands in a pointer only after a `\`.
fn is_apart(byte: u8) -> bool
    ensures { result ≡ stands_apart byte }
{
    matches!(
        byte,
        b' ' | b'\t' | b'\r' | b'\n' | b'(' | b')' | b'"' | b':'
    )
}

#[cfg(test)]
mod tests {
    use super::*;
    use std::test::Fail;

    // Where the text breaks, the length and one more for a field.
    fn place_of(alloc: Global, text: &str) -> Result<usize, Fail> {
        match field_of(alloc, text) {
            Ok(_) => Ok(text.len().saturating_add(1)),
            Err(FieldFault::At { place }) => Ok(place),
            Err(FieldFault::Memory) => Err(Fail::from("out of memory")),
        }
    }

    #[test]
    fn each_text_that_is_no_field_breaks_at_its_place(rt: HostRuntime) -> Result<(), Fail> {
        let rows = [
            ("id", 3),
            ("type", 5),
            ("/", 2),
            ("/a~1b/\\ ", 9),
            ("", 0),
            ("i", 1),
            ("ix", 1),
            ("idx", 2),
            ("typ", 3),
            ("name", 0),
            ("/a b", 2),
            ("/a~", 3),
            ("/a~2", 3),
            ("/a\\", 3),
            ("/a:b", 2),
        ];
        for row in &rows {
            assert_eq!(rt; place_of(rt.alloc(), row.0)?, row.1);
        }
        Ok(())
    }

    #[test]
    fn the_tokens_of_a_pointer_are_as_written(rt: HostRuntime) -> Result<(), Fail> {
        match field_of(rt.alloc(), "/a~1b~0/\\/c/\u{e9}") {
            Ok(Field::Pointer(tokens)) => {
                let tokens = tokens.as_slice();
                assert_eq!(rt; tokens.len(), 3);
                assert_eq!(rt; tokens[0].get(), "a/b~");
                assert_eq!(rt; tokens[1].get(), "/c");
                assert_eq!(rt; tokens[2].get(), "\u{e9}");
                Ok(())
            }
            _ => Err(Fail::from("no pointer")),
        }
    }
}
