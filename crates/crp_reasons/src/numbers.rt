//! The number of reasons.
ghost use Rattle.std.specs.Prelude.{◌≡◌, ℕ, ◌≤◌, ◌∷◌, [], ◌++◌, List, IfSome, IfNone};
ghost use Rattle.std.specs.Fmt.{decimal};

/// The number that this byte begins. `None` exactly where it begins none.
pub fn first_digit(byte: u8) -> Option<u8>
    ensures some { IfSome result (λ number. decimal number ≡ byte ∷ []) }
    ensures none { IfNone result ((n : ℕ) (rest behind : List ℕ) → n ≤ 255 → byte ∷ rest ≡ decimal n ++ behind → ⊥) }
{
    if byte.is_ascii_digit() {
        Some(byte - b'0')
    } else {
        None
    }
}

/// The number with this byte as one more digit. `None` exactly where no number up to 255 goes on so.
pub fn more_digits(number: u8, byte: u8) -> Option<u8>
    ensures some { IfSome result (λ more. decimal more ≡ decimal number ++ byte ∷ []) }
    ensures none { IfNone result ((n : ℕ) (rest behind : List ℕ) → n ≤ 255 → decimal number ++ byte ∷ rest ≡ decimal n ++ 58 ∷ behind → (n ≡ number) × (byte ≡ 58) × (rest ≡ behind)) }
{
    // A zero leads no other digits.
    let is_zero = number == 0;
    if is_zero || !byte.is_ascii_digit() {
        return None;
    }
    let more = number as u16 * 10 + (byte - b'0') as u16;
    if more > 255 {
        return None;
    }
    Some(more as u8)
}
