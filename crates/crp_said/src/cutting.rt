//! Cutting a text at its lines.
ghost use Rattle.std.specs.Prelude.{◌≡◌, ◌≢◌, ◌++◌, ◌∷◌, IfSome, IfNone};
ghost use Rattle.std.specs.List.{AllByRecursion};

/// What stands before the first LF, and what stands behind it.
pub fn cut_line(bytes: &[u8]) -> Option<(&[u8], &[u8])>
    ensures found { IfSome result (λ x. (bytes.now ≡ x.0.now ++ 10 ∷ x.1.now) × AllByRecursion (λ b. b ≢ 10) x.0.now) }
    ensures none { IfNone result (AllByRecursion (λ b. b ≢ 10) bytes.now) }
{
    for (i, b) in bytes.iter().enumerate() {
        if *b == b'\n' {
            return Some((&bytes[..i], &bytes[i + 1..]));
        }
    }
    None
}
