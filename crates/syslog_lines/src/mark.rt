//! Which piece of which line some bytes are, written ahead of them.

ghost use Rattle.std.specs.Prelude.{◌≡◌, ◌+◌, ◌<◌, ◌↔◌, ◌++◌, true, false, length, drop, ◌∷◌, min, slice_index, IsSome, IsTrue, IfSome, if◌then◌else◌};
ghost use Rattle.std.specs.Int.{to_le_bytes, w64};
ghost use Rattle.syslog_lines.specs.Marks.{bytes_of};

/// Which piece of which line some bytes are.
#[derive(Clone, Copy, Debug, PartialEq, Eq)]
pub struct Mark {
    /// The line's number.
    pub line: u64,
    /// How many pieces of the line went before.
    pub piece: u64,
    /// Whether this is the last one.
    pub is_last: bool,
}

/// How many bytes a mark has.
pub const MARK_BYTES: usize = 17;

impl Mark {
    /// The bytes of the mark.
    pub fn to_bytes(self) -> [u8; MARK_BYTES]
        ensures { result ≡ bytes_of self }
    {
        let [a, b, c, d, e, f, g, h] = self.line.to_le_bytes();
        let [i, j, k, l, m, n, o, p] = self.piece.to_le_bytes();
        let last = u8::from(self.is_last);
        [a, b, c, d, e, f, g, h, i, j, k, l, m, n, o, p, last]
    }

    /// The mark at the front of these bytes, and what it goes ahead of. `None` where there is none.
    pub fn split(bytes: &[u8]) -> Option<(Mark, &[u8])>
        ensures found { IsSome result ↔ ((16 < length bytes.now) × (slice_index bytes.now 16 < 2)) }
        ensures whole { IfSome result (λ r. bytes.now ≡ bytes_of r.0 ++ r.1.now) }
    {
        let (line, rest) = split_number(bytes)?;
        let (piece, rest) = split_number(rest)?;
        let (is_last, rest) = split_flag(rest)?;
        let mark = Mark {
            line,
            piece,
            is_last,
        };
        Some((mark, rest))
    }

    /// The mark of what comes next: of the next piece, or of the next line.
    pub fn next(self) -> Mark
        ensures line { self.is_last ≡ true → (result.line ≡ min (self.line + 1) u64.MAX) × (result.piece ≡ 0) }
        ensures piece { self.is_last ≡ false → (result.line ≡ self.line) × (result.piece ≡ min (self.piece + 1) u64.MAX) }
    {
        if self.is_last {
            Mark {
                line: self.line.saturating_add(1),
                piece: 0,
                is_last: true,
            }
        } else {
            Mark {
                piece: self.piece.saturating_add(1),
                ..self
            }
        }
    }

    /// Whether it is a line as a whole.
    pub fn is_whole(&self) -> bool
        ensures { IsTrue result ↔ ((self.now.piece ≡ 0) × (self.now.is_last ≡ true)) }
    {
        self.piece == 0 && self.is_last
    }
}

// The number in the first eight bytes, the least first, and what follows it.
fn split_number(bytes: &[u8]) -> Option<(u64, &[u8])>
    ensures found { IsSome result ↔ (7 < length bytes.now) }
    ensures whole { IfSome result (λ r. bytes.now ≡ to_le_bytes w64 r.0 ++ r.1.now) }
    ensures rest { IfSome result (λ r. r.1.now ≡ drop 8 bytes.now) }
{
    let (number, rest) = bytes.split_first_chunk::<8>()?;
    Some((u64::from_le_bytes(*number), rest))
}

// Whether the first byte is 1 or 0, and what follows it.
fn split_flag(bytes: &[u8]) -> Option<(bool, &[u8])>
    ensures found { IsSome result ↔ ((0 < length bytes.now) × (slice_index bytes.now 0 < 2)) }
    ensures whole { IfSome result (λ r. bytes.now ≡ (if r.0 then 1 else 0) ∷ r.1.now) }
{
    match bytes {
        [0, rest @ ..] => Some((false, rest)),
        [1, rest @ ..] => Some((true, rest)),
        _ => None,
    }
}
