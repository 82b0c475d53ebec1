//! The first line of some bytes, or the first piece of it.

ghost use Rattle.std.specs.Prelude.{◌≡◌, ◌≢◌, ◌+◌, ◌^◌, ◌<◌, ◌≤◌, ◌↔◌, [], length, IsTrue, IfSome, IfNone};
ghost use Rattle.syslog_lines.specs.Pieces.{IsFirstPiece, IsNoPiece, taken_of};

use memchr::memchr;

/// What stands behind a piece.
#[derive(Clone, Copy, Debug, PartialEq, Eq)]
pub enum Ending {
    /// A line feed, which belongs to no piece.
    LineFeed,
    /// The next piece of the line.
    NextPiece,
    /// Nothing any more.
    Nothing,
}

/// A line, or a piece of one.
#[derive(Clone, Copy, Debug, PartialEq, Eq)]
pub struct Piece {
    /// How many bytes it has.
    pub len: usize,
    /// What stands behind it.
    pub ending: Ending,
}

impl Piece {
    /// Whether its line goes on in another piece.
    pub fn is_last(&self) -> bool
        ensures { IsTrue result ↔ (self.now.ending ≢ Ending.NextPiece) }
    {
        self.ending != Ending::NextPiece
    }

    /// How many bytes it takes up, those of a line feed counted.
    pub fn bytes(&self) -> usize
        requires { self.now.len + 1 < 2 ^ 64 }
        ensures { result ≡ taken_of self.now }
    {
        match self.ending {
            Ending::LineFeed => self.len + 1,
            Ending::NextPiece | Ending::Nothing => self.len,
        }
    }
}

/// Finds the first piece of these bytes: a line, or as much of one as `most` allows where it is longer.
/// `None` where more bytes are wanted to tell; `is_end` says that no more will come.
///
/// A line that is too long is cut between characters of UTF-8, unless it is none.
pub fn first_piece(bytes: &[u8], most: usize, is_end: bool) -> Option<Piece>
    requires some { 3 < most }
    requires few { most < 2 ^ 63 }
    ensures first { IfSome result (λ p. IsFirstPiece bytes.now most p) }
    ensures last { IfSome result (λ p. p.ending ≡ Ending.Nothing → IsTrue is_end) }
    ensures taken { IfSome result (λ p. taken_of p ≤ length bytes.now) }
    ensures none { IfNone result (IsNoPiece bytes.now most) }
    ensures end { IsTrue is_end → IfNone result (bytes.now ≡ []) }
{
    let within = &bytes[..bytes.len().min(most + 1)];
    if let Some(len) = memchr(b'\n', within) {
        return Some(Piece {
            len,
            ending: Ending::LineFeed,
        });
    }
    if bytes.len() > most {
        return Some(Piece {
            len: cut_at(bytes, most),
            ending: Ending::NextPiece,
        });
    }
    if is_end && !bytes.is_empty() {
        return Some(Piece {
            len: bytes.len(),
            ending: Ending::Nothing,
        });
    }
    None
}

// Where to cut, so that the next piece doesn't begin within a character: at `most`, or up to three bytes before.
fn cut_at(bytes: &[u8], most: usize) -> usize
    requires some { 3 < most }
    requires longer { most < length bytes.now }
    ensures most { result ≤ most }
    ensures near { most ≤ result + 3 }
{
    for back in 0..4 {
        if bytes[most - back] & 0xC0 != 0x80 {
            return most - back;
        }
    }
    most
}
