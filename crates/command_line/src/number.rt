//! Numbers in decimal digits.
ghost use Rattle.std.specs.Prelude.{◌≡◌, ◌≤◌, ◌↔◌, ℕ, IfSome, None, decimal, get_or, IsTrue};

// Whether the text begins with a digit from 1.
fn begins_number(text: &str) -> bool
    ensures { IsTrue result ↔ ((49 ≤ get_or text.now 0 0) × (get_or text.now 0 0 ≤ 57)) }
{
    matches!(text.as_bytes().first(), Some(b'1'..=b'9'))
}

/// The number within these bounds that the text spells in decimal digits, with no sign and no leading zero.
pub(crate) fn number_of(text: &str, least: u32, greatest: u32) -> Option<u32>
    requires { 1 ≤ least }
    ensures some { IfSome result (λ n. (decimal n ≡ text.now) × (least ≤ n) × (n ≤ greatest)) }
    ensures none { result ≡ None → (n : ℕ) → decimal n ≡ text.now → least ≤ n → n ≤ greatest → ⊥ }
{
    if !begins_number(text) {
        return None;
    }
    match text.parse::<u32>() {
        Ok(number) if least <= number && number <= greatest => Some(number),
        _ => None,
    }
}
