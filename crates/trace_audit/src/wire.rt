//! Where a trace is read from, and where its report is written to.
ghost use Rattle.std.specs.Prelude.{◌≡◌, ℕ, ◌||◌, Bool, true, false, List, [], ◌++◌, length, take, drop, Option};
ghost use Rattle.std.specs.Prelude.{is_err};
ghost use Rattle.std.specs.Io.KnownBytes.{ReadConsumes, WriteAppends};
ghost use Rattle.std.specs.Io.{ReadsAtMost, WritesAtMost};
ghost use Rattle.trace_audit.specs.Wire.{gave_up, Writes};

mod adapters;

pub use adapters::{FromReader, ToWriter};
use thiserror::Error;

/// A read or a write failed. Which, and why, the reader or the writer behind knows.
#[derive(Clone, Copy, Debug, PartialEq, Eq, Drop, Error)]
#[error("a read or a write failed")]
pub struct Failed;

/// What a trace is read from.
///
/// A contract names the bytes that are still to be read, where the type tells them, and a flag that goes up with
/// the first read that fails.
pub trait Source {
    // The bytes that reads will give from here on, where they are known.
    ghost remaining: { Self → Option (List ℕ) };

    // A read has failed.
    ghost has_failed: { Self → Bool };

    /// Reads some bytes into the front of the piece and tells how many. None into a piece that isn't empty is the
    /// end of the input. A read that fails gives nothing; an interruption is a failure too.
    fn read(&mut self, piece: &mut [u8]) -> Result<usize, Failed>
        ensures bound { ReadsAtMost result piece.new }
        ensures bytes { ReadConsumes (remaining self.old) (remaining self.new) result piece.new }
        ensures flag { has_failed self.new ≡ (has_failed self.old || is_err result) };
}

/// What a report is written to.
///
/// A contract names the bytes that were written, where the type tells them, and a flag that goes up with the first
/// write that fails, or that takes nothing of a piece that isn't empty.
pub trait Sink {
    // The bytes that the sink holds, where they are known.
    ghost contents: { Self → Option (List ℕ) };

    // A write has failed, or has taken nothing of a piece that isn't empty.
    ghost has_failed: { Self → Bool };

    /// Takes bytes from the front of the piece and tells how many. A write that fails has taken nothing.
    fn write(&mut self, piece: &[u8]) -> Result<usize, Failed>
        ensures bound { WritesAtMost result piece.now }
        ensures bytes { WriteAppends (contents self.old) (contents self.new) result piece.now }
        ensures flag { has_failed self.new ≡ (has_failed self.old || gave_up result piece.now) };
}

/// Writes all of the text, by as many writes as it takes. At an error some beginning of the text was written, and
/// the failed write was the last. An empty text makes no write.
pub fn write_all<W: Sink>(writer: &mut W, text: &[u8]) -> Result<(), Failed>
    requires { W.has_failed writer.old ≡ false }
    ensures { Writes (W.contents writer.old) (W.contents writer.new) (W.has_failed writer.new) text.now result }
{
    let mut at = 0;
    while at < text.len() {
        match writer.write(&text[at..])? {
            0 => return Err(Failed),
            count => at += count,
        }
    }
    Ok(())
}
