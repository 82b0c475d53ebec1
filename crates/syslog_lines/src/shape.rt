//! Parts of a line: words, and texts of a fixed shape.

ghost use Rattle.std.specs.Prelude.{◌≡◌, IfSome};
ghost use Rattle.syslog_lines.specs.Heads.{IsEnd, IsHeadOf, IsPart};

use memchr::memchr;

/// The word up to the first space, and what follows the space.
#[tactic(auto, using(crate::proofs::Parts::parts))]
pub(crate) fn split_word(text: &[u8]) -> Option<(&[u8], &[u8])>
    ensures word { IfSome result (λ r. IsPart text.now r.0.now) }
    ensures rest { IfSome result (λ r. IsEnd text.now r.1.now) }
{
    let at = memchr(b' ', text)?;
    Some((&text[..at], &text[at + 1..]))
}

/// Whether a text begins as the shape says: a `0` of the shape stands for a digit, a `_` for a digit or a
/// space, and each other byte for itself.
pub(crate) fn begins_as(text: &[u8], shape: &[u8]) -> bool {
    text.len() >= shape.len()
        && text
            .iter()
            .zip(shape)
            .all(|(byte, want)| fits(*byte, *want))
}

fn fits(byte: u8, want: u8) -> bool {
    match want {
        b'0' => byte.is_ascii_digit(),
        b'_' => byte == b' ' || byte.is_ascii_digit(),
        _ => byte == want,
    }
}

/// Whether a byte prints, in ASCII, and is no space.
pub(crate) fn is_printable(byte: u8) -> bool {
    (33..=126).contains(&byte)
}
