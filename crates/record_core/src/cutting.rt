//! Numbers and pieces at the beginning of bytes.
ghost use Rattle.std.specs.Prelude.{◌≡◌, ◌≢◌, ◌<◌, ◌↔◌, IsTrue, ◌^◌, ◌++◌, ℕ, List, length, IfSome, IfNone};
ghost use Rattle.record_core.specs.Body.{head};
ghost use Rattle.record_core.specs.Numbers.{in_two, in_four, in_eight};

// What a put begins with, after its first byte.
#[derive(Drop)]
pub(crate) struct Head<'a> {
    // The counter, or 0.
    pub(crate) counter: u64,
    // The text of the object.
    pub(crate) text: &'a [u8],
    // How many elements it has.
    pub(crate) count: u32,
    // The elements' bytes.
    pub(crate) payloads: &'a [u8],
}

// The head of a put, and the elements' bytes after it.
pub(crate) fn head_of(bytes: &[u8]) -> Option<Head<'_>>
    ensures some { IfSome result (λ h. bytes.now ≡ head h.counter h.text.now h.count h.payloads.now) }
    ensures small { IfSome result (λ h. (h.counter < 2 ^ 64) × (length h.text.now < 2 ^ 32) × (h.count < 2 ^ 32)) }
    ensures none { IfNone result ((counter : ℕ) (shown : List ℕ) (count : ℕ) (payloads : List ℕ) → counter < 2 ^ 64
        → length shown < 2 ^ 32 → bytes.now ≢ head counter shown count payloads) }
{
    let (counter, rest) = eight(bytes)?;
    let (size, rest) = four(rest)?;
    let (text, rest) = piece(rest, size as usize)?;
    let (count, payloads) = four(rest)?;
    Some(Head {
        counter,
        text,
        count,
        payloads,
    })
}

// The bytes of one element, and the rest.
pub(crate) fn payload_of(bytes: &[u8]) -> Option<(&[u8], &[u8])>
    ensures some { IfSome result (λ p. bytes.now ≡ in_eight (length p.0.now) ++ (p.0.now ++ p.1.now)) }
    ensures small { IfSome result (λ p. length p.0.now < 2 ^ 64) }
    ensures none { IfNone result ((first : List ℕ) (more : List ℕ) → length first < 2 ^ 64
        → bytes.now ≢ in_eight (length first) ++ (first ++ more)) }
{
    let (size, rest) = eight(bytes)?;
    piece(rest, size as usize)
}

// The number of two bytes that comes first, and the rest.
pub(crate) fn two(bytes: &[u8]) -> Option<(u16, &[u8])>
    ensures some { IfSome result (λ p. bytes.now ≡ in_two p.0 ++ p.1.now) }
    ensures small { IfSome result (λ p. p.0 < 2 ^ 16) }
    ensures none { IfNone result (length bytes.now < 2) }
{
    let (field, rest) = bytes.split_first_chunk::<2>()?;
    Some((u16::from_be_bytes(*field), rest))
}

// The same of four bytes.
fn four(bytes: &[u8]) -> Option<(u32, &[u8])>
    ensures some { IfSome result (λ p. bytes.now ≡ in_four p.0 ++ p.1.now) }
    ensures small { IfSome result (λ p. p.0 < 2 ^ 32) }
    ensures none { IfNone result (length bytes.now < 4) }
{
    let (field, rest) = bytes.split_first_chunk::<4>()?;
    Some((u32::from_be_bytes(*field), rest))
}

// The same of eight bytes.
pub(crate) fn eight(bytes: &[u8]) -> Option<(u64, &[u8])>
    ensures some { IfSome result (λ p. bytes.now ≡ in_eight p.0 ++ p.1.now) }
    ensures small { IfSome result (λ p. p.0 < 2 ^ 64) }
    ensures none { IfNone result (length bytes.now < 8) }
{
    let (field, rest) = bytes.split_first_chunk::<8>()?;
    Some((u64::from_be_bytes(*field), rest))
}

// So many bytes, and the rest.
fn piece(bytes: &[u8], size: usize) -> Option<(&[u8], &[u8])>
    ensures some { IfSome result (λ p. bytes.now ≡ p.0.now ++ p.1.now) }
    ensures whole { IfSome result (λ p. length p.0.now ≡ size) }
    ensures none { IfNone result (length bytes.now < size) }
{
    bytes.split_at_checked(size)
}

// Whether the bytes are the same.
pub(crate) fn are_same(a: &[u8], b: &[u8]) -> bool
    ensures { IsTrue result ↔ (a.now ≡ b.now) }
{
    a == b
}
