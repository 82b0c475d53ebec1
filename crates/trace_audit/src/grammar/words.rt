//! The words of a line.
ghost use Rattle.std.specs.Prelude.{◌≡◌, ℕ, ◌<◌, ◌++◌, ◌∷◌, IfSome, IfNone, decimal};
ghost use Rattle.trace_audit.specs.Words.{Lacks};
ghost use Rattle.trace_audit.specs.Grammar.{IsWord, pair};

/// The bytes before the first `mark`, and those behind it.
pub(crate) fn cut_at(bytes: &[u8], mark: u8) -> Option<(&[u8], &[u8])>
    ensures found { IfSome result (λ r. (bytes.now ≡ r.0.now ++ mark ∷ r.1.now) × Lacks mark r.0.now) }
    ensures none { IfNone result (Lacks mark bytes.now) }
{
    for (at, byte) in bytes.iter().enumerate() {
        if *byte == mark {
            return Some((&bytes[..at], &bytes[at + 1..]));
        }
    }
    None
}

/// The number that the bytes spell: `0`, or digits of which the first isn't 0.
pub(crate) fn number(bytes: &[u8]) -> Option<u32>
    ensures found { IfSome result (λ n. IsWord n × (bytes.now ≡ decimal n)) }
    ensures none { IfNone result ((n : ℕ) → IsWord n → bytes.now ≡ decimal n → ⊥) }
{
    if bytes.is_empty() {
        return None;
    }
    // more digits than 4294967295 has; a u64 holds the value of all others
    if bytes.len() > 10 {
        return None;
    }
    if bytes[0] == b'0' {
        return if bytes.len() == 1 { Some(0) } else { None };
    }
    let mut value = 0u64;
    for (at, byte) in bytes.iter().enumerate() {
        if *byte < b'0' || *byte > b'9' {
            return None;
        }
        value = value * 10 + (*byte - b'0') as u64;
    }
    if value > u32::MAX as u64 {
        return None;
    }
    Some(value as u32)
}

/// Two numbers with one mark between them.
pub(crate) fn two(bytes: &[u8], mark: u8) -> Option<(u32, u32)>
    requires { mark < 48 }
    ensures found { IfSome result (λ r. IsWord r.0 × IsWord r.1 × (bytes.now ≡ pair mark r.0 r.1)) }
    ensures none { IfNone result ((a b : ℕ) → IsWord a → IsWord b → bytes.now ≡ pair mark a b → ⊥) }
{
    let (front, back) = cut_at(bytes, mark)?;
    let first = number(front)?;
    let second = number(back)?;
    Some((first, second))
}
